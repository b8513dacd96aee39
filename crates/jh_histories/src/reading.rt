//! Reading a history. Each value, or each element of a single list or vector, is parsed as soon as
//! it is read, and dropped. `specs/Histories.antt` says what is read.

ghost use Rattle.std.specs.Prelude.{◌∷◌, [], All, IfOk, IfErr, IfSome, MatchResult};
ghost use Rattle.std.specs.Str.{IsCharBoundary};
ghost use Rattle.jh_histories.specs.Histories.{IsHistoryOf, RefusesHistoryOf};
ghost use Rattle.jh_histories.specs.ParsingInside.{IsBegun, RefusesOne};
ghost use Rattle.jh_ops.specs.HistoryText.{AreParsed};
ghost use Rattle.jh_ops.specs.Operation.{operations};
ghost use Rattle.jh_edn.specs.View.{view};
ghost use Rattle.jh_ops.specs.OperationWritten.{IsWritable};

use crate::error::ReadHistoryError;
use crate::parsing::Parsing;
use jh_edn::{EdnError, Sink, Value, read_bytes, read_one, read_sequence};
use jh_ops::{HistoryError, Op, history_of};
use std::alloc::Global;
use std::io::Read;

/// The history that the only value of a text means.
fn history_of_one(alloc: Global, value: Value) -> Result<Vec<Op>, HistoryError>
    ensures parsed { MatchResult result
        (λ ops. AreParsed (view value ∷ []) (operations ops.items))
        (RefusesOne (view value)) }
    ensures writable { IfOk result (λ ops. All (λ op. IsWritable op.process) ops.items) }
{
    let mut values = Vec::new(alloc);
    values.push(value)?;
    history_of(alloc, values)
}

/// The history of several values, of which those up to `at` are parsed.
fn history_behind(
    alloc: Global,
    text: &str,
    at: usize,
    parsing: Parsing,
) -> Result<Vec<Op>, ReadHistoryError>
    requires boundary { IsCharBoundary text.now at }
    requires begun { IsBegun text.now at parsing }
    ensures parsed { IfOk result (λ ops. IsHistoryOf text.now (operations ops.items)) }
    ensures writable { IfOk result (λ ops. All (λ op. IsWritable op.process) ops.items) }
    ensures refused { IfErr result (RefusesHistoryOf text.now) }
{
    let mut parsing = parsing;
    let mut at = at;
    'values: while let Some((value, end)) = read_one(alloc, text, at)? {
        parsing.take(alloc, value)?;
        at = end;
    }
    Ok(parsing.history()?)
}

/// The history that a text means, whose first value is read whole.
fn history_of_values(alloc: Global, text: &str) -> Result<Vec<Op>, ReadHistoryError>
    ensures parsed { IfOk result (λ ops. IsHistoryOf text.now (operations ops.items)) }
    ensures writable { IfOk result (λ ops. All (λ op. IsWritable op.process) ops.items) }
    ensures refused { IfErr result (RefusesHistoryOf text.now) }
{
    let Some((first, end)) = read_one(alloc, text, 0)? else {
        return Ok(Vec::new(alloc));
    };
    let Some((second, end)) = read_one(alloc, text, end)? else {
        return Ok(history_of_one(alloc, first)?);
    };
    let mut parsing = Parsing::new(alloc);
    parsing.take(alloc, first)?;
    parsing.take(alloc, second)?;
    history_behind(alloc, text, end, parsing)
}

/// The history that a text means: one operation for each of its values, or of a single list or
/// vector, with or without tags around it, one for each element. Only one of several values stands
/// in memory at a time, and only one element of a single list or vector without tags; with tags
/// around it, it is read whole.
///
/// Takes the time of reading the text once, and what stands before its first value once more.
///
/// Errors: the text's first error with its line, wherever it stands (`Text`); then the first value
/// that means no operation, with its place from 0 (`History`); out of memory, as either.
pub fn history_in(alloc: Global, text: &str) -> Result<Vec<Op>, ReadHistoryError>
    ensures parsed { IfOk result (λ ops. IsHistoryOf text.now (operations ops.items)) }
    ensures writable { IfOk result (λ ops. All (λ op. IsWritable op.process) ops.items) }
    ensures refused { IfErr result (RefusesHistoryOf text.now) }
{
    let mut parsing = Parsing::new(alloc);
    let Some(end) = read_sequence(alloc, text, 0, &mut parsing)? else {
        return history_of_values(alloc, text);
    };
    let Some((second, at)) = read_one(alloc, text, end)? else {
        return Ok(parsing.history()?);
    };
    parsing = Parsing::of_sequence(alloc);
    parsing.take(alloc, second)?;
    history_behind(alloc, text, at, parsing)
}

/// The history that the text of a reader means, as `history_in` parses it, read in at most `reads`
/// reads. The text is dropped before the history is given.
///
/// Errors: those of `jh_edn::read_bytes`, then `Utf8`, then those of `history_in`.
pub fn read_history<R: Read>(
    alloc: Global,
    reader: &mut R,
    reads: u32,
) -> Result<Vec<Op>, ReadHistoryError>
    ensures parsed { IfOk result
        (λ ops. IfSome (R.remaining reader.old)
        (λ bytes. IsHistoryOf bytes (operations ops.items))) }
    ensures writable { IfOk result (λ ops. All (λ op. IsWritable op.process) ops.items) }
    ensures refused { IfErr result
        (λ e. IfSome (R.remaining reader.old) (λ bytes. RefusesHistoryOf bytes e)) }
{
    let bytes = read_bytes(alloc, reader, reads)?;
    let Ok(text) = str::from_utf8(&bytes) else {
        return Err(ReadHistoryError::Text(EdnError::Utf8));
    };
    history_in(alloc, text)
}
