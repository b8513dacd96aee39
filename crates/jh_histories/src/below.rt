//! Which part of a text is a history. `specs/HistoryAndBelow.antt` has the rule.

ghost use Rattle.std.specs.Prelude.{◌↔◌, All, IfErr, IfOk, IfSome, IsTrue, MatchOption, drop, take};
ghost use Rattle.std.specs.Str.{IsCharBoundary};
ghost use Rattle.jh_histories.specs.Histories.{RefusesHistoryOf};
ghost use Rattle.jh_ops.specs.Operation.{operations};
ghost use Rattle.jh_ops.specs.OperationWritten.{IsWritable};
ghost use Rattle.jh_histories.specs.HistoryAndBelow.{AreHistoryAndBelow, HasNoLine, IsFirstLine};
ghost use Rattle.jh_histories.specs.HistoryAndBelow.{active, IsBehindEnd, IsOfBytes};
ghost use Rattle.jh_histories.specs.HistoryAndBelow.{RefusesHistoryAndBelow, IsNoHistory};
ghost use Rattle.jh_histories.specs.HistoryAndBelow.{IsRecordedPart};

use crate::error::ReadHistoryError;
use crate::reading::history_in;
use jh_edn::{EdnError, read_bytes, spelled_once};
use jh_ops::{HistoryError, Op};
use std::alloc::Global;
use std::io::Read;

/// The history of a text and what stands below it. What a conversation printed above its history,
/// up to the line `:end`, is in neither.
#[derive(Drop)]
pub struct HistoryAndBelow {
    pub history: Vec<Op>,
    /// The line that begins with `:active` and all behind it, as it is in the text.
    pub below: Vec<u8>,
}

/// Where the first line begins that begins with `:active`.
fn active_line_at(text: &str) -> Option<usize>
    ensures place { MatchOption result (HasNoLine active text.now) (IsFirstLine active text.now) }
    ensures boundary { IfSome result (IsCharBoundary text.now) }
{
    if text.starts_with(":active") {
        return Some(0);
    }
    match text.find("\n:active") {
        Some(before) => Some(before + 1),
        None => None,
    }
}

/// Where the lines of a conversation end: behind the first line `:end`, and at the start of a text
/// that has none. What is looked for is 5 bytes long, or 6 with the line feed before it.
fn conversation_end(text: &str) -> usize
    ensures place { IsBehindEnd text.now (drop result text.now) }
    ensures boundary { IsCharBoundary text.now result }
{
    if text.starts_with(":end\n") {
        return 5;
    }
    match text.find("\n:end\n") {
        Some(before) => before + 6,
        None => 0,
    }
}

/// Where the history stands in what `jeprun run` or `jeprun drive` printed, in bytes.
#[derive(Clone, Copy, Debug, PartialEq, Eq)]
pub struct RecordedPart {
    /// Behind the first line `:end` that stands before the history's end, or the start of the text.
    pub start: usize,
    /// Where the first line begins that begins with `:active`.
    pub end: usize,
}

/// The part of a text that is read as its history where the whole text is none. None where no line begins
/// with `:active`: then no part of it is.
pub fn recorded_part(text: &str) -> Option<RecordedPart>
    ensures part { MatchOption result (HasNoLine active text.now) (IsRecordedPart text.now) }
    ensures end { IfSome result (λ part. IsCharBoundary text.now part.end) }
    ensures start { IfSome result
        (λ part. IsCharBoundary (take part.end text.now) part.start) }
{
    let end = active_line_at(text)?;
    let start = conversation_end(&text[..end]);
    Some(RecordedPart { start, end })
}

/// Whether no part of the text is worth a try either: its bytes could not be read or are no UTF-8,
/// or memory ran out.
fn is_of_bytes(error: ReadHistoryError) -> bool
    ensures { IsTrue result ↔ IsOfBytes error }
{
    matches!(
        error,
        ReadHistoryError::Text(
            EdnError::Utf8 | EdnError::TooLong | EdnError::Read | EdnError::OutOfMemory
        ) | ReadHistoryError::History(HistoryError::OutOfMemory)
    )
}

/// The parts of a text that as a whole is no history; `whole` says why it is none.
fn history_before(
    alloc: Global,
    text: &str,
    whole: ReadHistoryError,
) -> Result<HistoryAndBelow, ReadHistoryError>
    requires refused { RefusesHistoryOf text.now whole }
    requires none { IsNoHistory text.now }
    ensures parsed { IfOk result (λ parts.
        AreHistoryAndBelow text.now (operations parts.history.items) parts.below.items) }
    ensures writable { IfOk result (λ parts.
        All (λ op. IsWritable op.process) parts.history.items) }
    ensures refused { IfErr result (RefusesHistoryAndBelow text.now) }
{
    let Some(RecordedPart { start, end }) = recorded_part(text) else {
        return Err(whole);
    };
    let history = history_in(alloc, &text[..end][start..])?;
    let below = Vec::from_slice(alloc, &text.as_bytes()[end..])?;
    Ok(HistoryAndBelow { history, below })
}

/// The history that a text means, and what is below it. Where the whole text is a history, nothing is
/// below it. Else, if there is a line that begins with `:active`, as the first of those that `jeprun run`
/// and `jeprun drive` print behind a history, that line and all behind it is below, and what stands
/// before the first such line is the history: of that, what stands behind the first line `:end`, where
/// there is one, for `drive` prints the conversation before it.
///
/// Errors: those of `history_in` for the whole text, where memory runs out or there is no line
/// `:active`; else those for the part that is the history.
///
/// Reads the text at most twice, looks for each of these lines once, and copies what is below.
pub fn history_and_below(alloc: Global, text: &str) -> Result<HistoryAndBelow, ReadHistoryError>
    ensures parsed { IfOk result (λ parts.
        AreHistoryAndBelow text.now (operations parts.history.items) parts.below.items) }
    ensures writable { IfOk result (λ parts.
        All (λ op. IsWritable op.process) parts.history.items) }
    ensures refused { IfErr result (RefusesHistoryAndBelow text.now) }
{
    // This call does nothing: the proof cites its clause.
    spelled_once();
    match history_in(alloc, text) {
        Ok(history) => Ok(HistoryAndBelow {
            history,
            below: Vec::new(alloc),
        }),
        Err(error) if is_of_bytes(error) => Err(error),
        Err(error) => history_before(alloc, text, error),
    }
}

/// The parts of the text of a reader, as `history_and_below` gives them, read in at most `reads`
/// reads. The text is dropped before they are given.
///
/// Errors: those of `jh_edn::read_bytes`, then `Utf8`, then those of `history_and_below`.
pub fn read_history_and_below<R: Read>(
    alloc: Global,
    reader: &mut R,
    reads: u32,
) -> Result<HistoryAndBelow, ReadHistoryError>
    ensures parsed { IfOk result (λ parts. IfSome (R.remaining reader.old) (λ bytes.
        AreHistoryAndBelow bytes (operations parts.history.items) parts.below.items)) }
    ensures writable { IfOk result (λ parts.
        All (λ op. IsWritable op.process) parts.history.items) }
    ensures refused { IfErr result (λ e.
        IfSome (R.remaining reader.old) (λ bytes. RefusesHistoryAndBelow bytes e)) }
{
    let bytes = read_bytes(alloc, reader, reads)?;
    let Ok(text) = str::from_utf8(&bytes) else {
        return Err(ReadHistoryError::Text(EdnError::Utf8));
    };
    history_and_below(alloc, text)
}
