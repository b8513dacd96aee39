//! What is written of what a checker finds. `specs/Judged.antt` has the rule.

ghost use Rattle.std.specs.Prelude.{◌≡◌, IfOk, IsErrOf, MatchResult};
ghost use Rattle.jh_checkers.specs.Findings.{finding_verdict};
ghost use Rattle.jh_checkers.specs.Lines.{finding_line};
ghost use Rattle.jh_independent.specs.Lines.{keys_line, verdict_of_all};
ghost use Rattle.jh_independent.specs.Refusals.{RefusesKeys, keys_question};
ghost use Rattle.jh_ops.specs.Operation.{operations};
ghost use Rattle.jh_reports.specs.Judged.{IsKeysText, IsWholeText, RefusesLine};
ghost use Rattle.jh_reports.specs.Lines.{line};
ghost use Rattle.jh_reports.specs.Reports.{verdict_status};

use crate::lines::{finding_text, keys_text};
use crate::statuses::status_of;
use jh_check::CheckError;
use jh_checkers::{Finding, Judging, check_history};
use jh_independent::{KeyFinding, KeysError, check_keys_serial, verdict_of_all};
use jh_ops::Op;
use std::alloc::{AllocError, Global};

/// What a command writes, with its exit status.
#[derive(Drop)]
pub struct Output {
    pub status: u8,
    pub text: Vec<u8>,
}

/// The line of what is found in a history, with its line feed, and the exit status of its verdict.
///
/// Errors: out of memory.
pub fn output_of_finding(alloc: Global, finding: &Finding) -> Result<Output, AllocError>
    ensures status { IfOk result
        (λ output. output.status ≡ verdict_status (finding_verdict finding.now)) }
    ensures text { IfOk result (λ output. output.text.items ≡ line (finding_line finding.now)) }
{
    let mut text = finding_text(alloc, finding)?;
    text.push(b'\n')?;
    Ok(Output {
        status: status_of(finding.verdict()),
        text,
    })
}

/// Judges a history as one: the line of what is found, with its line feed, and the exit status of
/// its verdict.
///
/// Errors: those of `jh_checkers::check_history`, `OutOfMemory` also where the line had no room.
pub fn judge_whole(
    alloc: Global,
    history: &[Op],
    judging: Judging<'_>,
) -> Result<Output, CheckError>
    ensures { MatchResult result
        (λ output. IsWholeText judging.entry (operations history.now) output.status output.text.items)
        (RefusesLine judging.entry.checker (operations history.now)) }
{
    let finding = check_history(alloc, history, judging)?;
    Ok(output_of_finding(alloc, &finding)?)
}

/// Judges the history of each key, one key after another: the line of what is found of all keys,
/// with its line feed, and the exit status of the verdict on them.
///
/// Errors: those of `jh_independent::check_keys_serial`, `OutOfMemory` also where the line had no room.
pub fn judge_keys(alloc: Global, history: &[Op], judging: Judging<'_>) -> Result<Output, KeysError>
    ensures judged { MatchResult result
        (λ output. IsKeysText judging.entry (operations history.now) output.status output.text.items)
        (RefusesKeys (keys_question judging.entry (operations history.now))) }
    ensures alone { IsErrOf result KeysError.Thread → ⊥ }
{
    let found = check_keys_serial(alloc, history, judging)?;
    Ok(output_of_keys(alloc, &found)?)
}

/// The line of what is found of all keys, with its line feed, and the exit status of the verdict on
/// them.
///
/// Errors: out of memory.
pub fn output_of_keys(alloc: Global, found: &[KeyFinding]) -> Result<Output, AllocError>
    ensures status { IfOk result
        (λ output. output.status ≡ verdict_status (verdict_of_all found.now)) }
    ensures text { IfOk result (λ output. output.text.items ≡ line (keys_line found.now)) }
{
    let verdict = verdict_of_all(alloc, found)?;
    let mut text = keys_text(alloc, verdict, found)?;
    text.push(b'\n')?;
    Ok(Output {
        status: status_of(verdict),
        text,
    })
}
