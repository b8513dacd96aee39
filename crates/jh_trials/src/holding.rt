//! A trial that is held and judged. `specs/Held.antt` has the rule.

ghost use Rattle.std.specs.Prelude.{MatchResult};
ghost use Rattle.jh_lines.specs.ByLines.{left_by_lines};
ghost use Rattle.jh_trials.specs.Held as rule;

use crate::trial::Trial;
use jh_checkers::Judging;
use jh_drive::{CallCounts, CallObserver, DriveError, drive_answer, judge_test, report_test};
use jh_lines::{ByLines, Ending, Machine, converse_by_lines};
use jh_reports::Output;
use std::alloc::Global;
use std::io::{self, BufRead, Write};

/// Nobody is told how the calls of a trial ended.
#[derive(Drop)]
struct Nobody;

impl CallObserver for Nobody {
    fn see_calls(&mut self, _calls: CallCounts) {}
}

/// Holds the conversation of a trial that waits, and judges its history. It writes what the trial says,
/// and where it does not come to its end, or a line was no reply, its report, if it had begun.
///
/// Errors: with the report written, if it had begun, `Reply` with the first line that was no reply, by its
/// number over all trials, `RepliesEnded` where the input ended before the test did, `Read` where the input could
/// not be read on, `TooManyTurns` after 2^64 - 1 turns; `Mismatch` where the history can't be
/// judged; `Write`; `OutOfMemory`, also where memory was refused for a line that was read.
pub fn hold_trial<B: BufRead, W: Write>(
    alloc: Global,
    trial: &mut Trial,
    judging: Judging<'_>,
    lines: &mut ByLines<B>,
    writer: &mut W,
) -> Result<Output, DriveError>
    ensures { MatchResult result
        (λ output. rule.IsJudged judging.entry trial.old trial.new
        (left_by_lines B.remaining lines.old) (left_by_lines B.remaining lines.new)
        (W.contents writer.old) (W.contents writer.new)
        output.status output.text.items)
        (rule.FailsTrial judging.entry trial.old trial.new
        (left_by_lines B.remaining lines.old) (left_by_lines B.remaining lines.new)
        (W.contents writer.old) (W.contents writer.new)) }
{
    let ending = converse_by_lines(alloc, lines, writer, trial);
    match &ending {
        Ending::WriteFailed(_) => return Err(DriveError::Write),
        Ending::OutOfMemory => return Err(DriveError::OutOfMemory),
        Ending::ReadFailed(error) if error.kind() == io::ErrorKind::OutOfMemory => {
            return Err(DriveError::OutOfMemory);
        }
        Ending::Over | Ending::InputEnded | Ending::ReadFailed(_) | Ending::TooManyTurns => {}
    }
    if let Err(error) = drive_answer(trial.bad(), trial.is_over(), ending, 0) {
        if trial.has_begun() {
            report_test(alloc, trial.conversation(), judging, writer, &mut Nobody)?;
        }
        return Err(error);
    }
    judge_test(alloc, trial.conversation(), judging, &mut Nobody)
}
