//! Laws of runs. `specs/OwnHistory.antt` states those of the histories of serial runs,
//! `specs/RecordedHistory.antt` that of recorded ones, `specs/SameSettings.antt` that of settings.

ghost use Rattle.jh_run_laws.specs.OwnHistory.{OffersSuit, OwnHistoryIsFormed, OwnHistoryIsJudged};
ghost use Rattle.jh_run_laws.specs.OwnHistory.{OwnHistoryIsPrintable, OwnLinesAreText};
ghost use Rattle.jh_run_laws.specs.RecordedHistory.{RecordedHistoryIsPrintable};
ghost use Rattle.jh_run_laws.specs.RecordedHistory.{RecordedLinesAreText};
ghost use Rattle.jh_run_laws.specs.SameSettings.{SameSettingsGiveSameRun};

use jh_env::environments_read_back;
use jh_laws::operation_lines_read_back;
use jh_simnode::one_run;

/// What a generator offers, whose calls are all of a workload, is a call of that workload.
pub fn calls_are_of_their_workload()
    ensures { OffersSuit }
{}

/// The history of a serial run is well formed, and the checker of its workload refuses it only as
/// out of memory.
pub fn own_histories_are_judged()
    ensures formed { OwnHistoryIsFormed }
    ensures judged { OwnHistoryIsJudged }
{}

/// Each operation of the history of a serial run can be printed, and the lines that are printed are
/// a text of that history, and of no other (`histories_read_back`): so whoever judges these lines
/// judges that history.
pub fn own_lines_are_text()
    ensures printable { OwnHistoryIsPrintable }
    ensures lines { OwnLinesAreText }
{
    operation_lines_read_back()
}

/// The same of a history whose operations were recorded as words, as a run on threads records them.
pub fn recorded_lines_are_text()
    ensures printable { RecordedHistoryIsPrintable }
    ensures lines { RecordedLinesAreText }
{
    operation_lines_read_back()
}

/// Bytes of settings mean one mode and one budget, and every plan that is made of them has the same
/// serial run: one journal, and one history.
pub fn same_settings_same_run()
    ensures { SameSettingsGiveSameRun }
{
    one_run();
    environments_read_back()
}
