//! How a command ends, as the exit status of its process says it. `specs/Reports.antt` has the status
//! of each verdict.

ghost use Rattle.std.specs.Prelude.{◌≡◌};
ghost use Rattle.jh_reports.specs.Reports.{verdict_status};

use jh_check::Verdict;

/// Exit status of a command that did its work and found nothing wrong: a history that is valid, say.
pub const DONE: u8 = 0;

/// Exit status where a history is not valid, or a run fails: its own history is not valid.
pub const INVALID: u8 = 1;

/// Exit status where it is not known whether the history is valid, or the run fails.
pub const UNKNOWN: u8 = 2;

/// Exit status where the arguments or the input are refused.
pub const REFUSED: u8 = 3;

/// Exit status where the machine failed, or a run was not completed, so that nothing is judged.
pub const FAILED: u8 = 4;

/// The exit status of a verdict.
pub fn status_of(verdict: Verdict) -> u8
    ensures { result ≡ verdict_status verdict }
{
    match verdict {
        Verdict::True => DONE,
        Verdict::False => INVALID,
        Verdict::Unknown => UNKNOWN,
    }
}
