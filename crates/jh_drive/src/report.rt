//! The report of a test. `specs/Drive.antt` has the rule.

ghost use Rattle.std.specs.Prelude.{◌≡◌, ◌++◌, List, ℕ, IfErr, IfOk, MatchResult, OnOk, false, is_some, true};
ghost use Rattle.std.specs.Io.KnownBytes.{Appends};
ghost use Rattle.jh_conversation.specs.Text.{recorded_history};
ghost use Rattle.jh_drive.specs.Drive.{IsNotWritten, IsReportOf, RefusesReport, RefusesToJudge, end_if_missing};
ghost use Rattle.jh_drive.specs.DriveInside.{IsFirstPart};
ghost use Rattle.jh_drive.specs.declared.error.DriveError.TheVariants as DriveErrors;
ghost use Rattle.jh_ops.specs.Operation.{operations};
ghost use Rattle.jh_reports.specs.Judged.{IsKeysText, IsTextBy, IsWholeText};

use crate::calls::{CallObserver, counts_of};
use crate::error::DriveError;
use jh_checkers::Judging;
use jh_conversation::Conversation;
use jh_lines::Machine;
use jh_ops::Op;
use jh_reports::{Output, judge_keys, judge_whole, write_active, write_environment};
use std::alloc::{AllocError, Global};
use std::io::Write;

/// Writes these bytes.
///
/// Error: `Write`.
pub fn write_bytes<W: Write>(writer: &mut W, bytes: &[u8]) -> Result<(), DriveError>
    ensures written { MatchResult result
        (λ _. Appends (W.contents writer.old) (W.contents writer.new) bytes.now) IsNotWritten }
    ensures failed { IfErr result (λ e. e ≡ DriveErrors.Write) }
{
    match writer.write_all(bytes) {
        Ok(()) => Ok(()),
        Err(_) => Err(DriveError::Write),
    }
}

/// What is known of a test before it is judged: its history, the ids of the active faults, and the
/// environment that they make.
fn known_of(alloc: Global, conversation: &Conversation) -> Result<Vec<u8>, AllocError>
    ensures { IfOk result (λ text. IsFirstPart conversation.now text.items) }
{
    let mut text = Vec::new(alloc);
    if !conversation.is_over() {
        text.extend_from_slice(b":end\n")?;
    }
    conversation.write_history(&mut text)?;
    write_active(alloc, conversation.nemesis(), &mut text)?;
    write_environment(alloc, conversation.nemesis().env(), &mut text)?;
    Ok(text)
}

/// Judges the history of each key.
fn judge_by_keys(alloc: Global, history: &[Op], judging: Judging<'_>) -> Result<Output, DriveError>
    ensures { MatchResult result
        (λ output. IsKeysText judging.entry (operations history.now) output.status output.text.items)
        (RefusesToJudge true judging.entry (operations history.now)) }
{
    match judge_keys(alloc, history, judging) {
        Ok(output) => Ok(output),
        Err(error) => Err(DriveError::from(error)),
    }
}

/// Judges a history as one.
fn judge_one(alloc: Global, history: &[Op], judging: Judging<'_>) -> Result<Output, DriveError>
    ensures { MatchResult result
        (λ output. IsWholeText judging.entry (operations history.now) output.status output.text.items)
        (RefusesToJudge false judging.entry (operations history.now)) }
{
    match judge_whole(alloc, history, judging) {
        Ok(output) => Ok(output),
        Err(error) => Err(DriveError::from(error)),
    }
}

/// Judges the history of a test as one, or by its keys where they are independent: the last line of its
/// report, and the exit status of the verdict. An observer is told first how its calls ended.
///
/// Errors: `Mismatch` where the history can't be judged; `OutOfMemory`.
pub fn judge_test<O: CallObserver>(
    alloc: Global,
    conversation: &Conversation,
    judging: Judging<'_>,
    observer: &mut O,
) -> Result<Output, DriveError>
    ensures { MatchResult result
        (λ output. IsTextBy (is_some conversation.now.test.keys) judging.entry
        (recorded_history conversation.now.test conversation.now.machine)
        output.status output.text.items)
        (RefusesToJudge (is_some conversation.now.test.keys) judging.entry
        (recorded_history conversation.now.test conversation.now.machine)) }
{
    let history = conversation.history()?;
    observer.see_calls(counts_of(&history));
    match conversation.test().keys() {
        Some(_) => judge_by_keys(alloc, &history, judging),
        None => judge_one(alloc, &history, judging),
    }
}

/// Writes the report of a test but for its last line.
///
/// Errors: `Write`; `OutOfMemory`.
fn write_known<W: Write>(
    alloc: Global,
    conversation: &Conversation,
    writer: &mut W,
) -> Result<(), DriveError>
    ensures { MatchResult result
        (λ _. (text : List ℕ) × IsFirstPart conversation.now text
        × Appends (W.contents writer.old) (W.contents writer.new) text)
        IsNotWritten }
{
    let known = known_of(alloc, conversation)?;
    write_bytes(writer, &known)?;
    Ok(())
}

/// Writes the report of a test that was judged: its history, what is left of its faults, and the line of
/// what was found.
///
/// Errors: `Write`; `OutOfMemory`. A part of it may be written before either.
pub fn write_test_report<W: Write>(
    alloc: Global,
    conversation: &Conversation,
    judged: &Output,
    writer: &mut W,
) -> Result<(), DriveError>
    ensures { MatchResult result
        (λ _. (judging : Judging) → IsTextBy (is_some conversation.now.test.keys) judging
        (recorded_history conversation.now.test conversation.now.machine)
        judged.now.status judged.now.text.items
        → (report : List ℕ) × IsReportOf judging conversation.now judged.now.status report
        × Appends (W.contents writer.old) (W.contents writer.new) report)
        IsNotWritten }
{
    write_known(alloc, conversation, writer)?;
    write_bytes(writer, &judged.text)?;
    Ok(())
}

/// Judges a test and writes its report, and gives the exit status of its verdict.
///
/// Errors: `Write`; `Mismatch` where the history can't be judged; `OutOfMemory`. All but the last line
/// may be written before any of them.
pub fn report_test<W: Write, O: CallObserver>(
    alloc: Global,
    conversation: &Conversation,
    judging: Judging<'_>,
    writer: &mut W,
    observer: &mut O,
) -> Result<u8, DriveError>
    ensures { MatchResult result
        (λ status. (report : List ℕ) × IsReportOf judging.entry conversation.now status report
        × Appends (W.contents writer.old) (W.contents writer.new) report)
        (RefusesReport judging.entry conversation.now) }
{
    // What is known is written first, so that it is there where judging fails. Its text takes as much memory
    // as judging, and is given back before.
    write_known(alloc, conversation, writer)?;
    let output = judge_test(alloc, conversation, judging, observer)?;
    write_bytes(writer, &output.text)?;
    Ok(output.status)
}
