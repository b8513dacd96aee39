//! The history of an input, for the commands that take one. `specs/HistoryInput.antt` has the rule.

ghost use Rattle.std.specs.Prelude.{All, IfErr, IfOk, IfSome, true};
ghost use Rattle.jh_cli.specs.HistoryInput.{IsHistoryInput, RefusesHistoryInput};
ghost use Rattle.jh_ops.specs.Operation.{operations};
ghost use Rattle.jh_ops.specs.OperationWritten.{IsWritable};

use crate::output::MAX_READS;
use jh_edn::{EdnError, read_bytes};
use jh_histories::{HistoryAndBelow, ReadHistoryError, history_and_below, read_history_and_below};
use jh_unread::without_unread;
use std::alloc::Global;
use std::io::Read;

/// The history of a reader's text and what stands below it, as
/// `jh_histories::read_history_and_below` has them; where unread keys are skipped, of that text
/// without them, as `jh_unread::without_unread` has it.
///
/// Errors: those of `read_history_and_below`, for the text that is read.
pub(crate) fn read_history_input<R: Read>(
    alloc: Global,
    reader: &mut R,
    skips_unread: bool,
) -> Result<HistoryAndBelow, ReadHistoryError>
    ensures parsed { IfOk result (λ parts. IfSome (R.remaining reader.old) (λ input.
        IsHistoryInput skips_unread input (operations parts.history.items) parts.below.items)) }
    ensures writable { IfOk result (λ parts.
        All (λ op. IsWritable op.process) parts.history.items) }
    ensures refused { IfErr result (λ e.
        IfSome (R.remaining reader.old) (λ input. RefusesHistoryInput skips_unread input e)) }
{
    if skips_unread {
        read_without_unread(alloc, reader)
    } else {
        read_history_and_below(alloc, reader, MAX_READS)
    }
}

/// The history of a text without its unread keys, and what stands below it.
fn history_without_unread(alloc: Global, text: &str) -> Result<HistoryAndBelow, ReadHistoryError>
    ensures parsed { IfOk result (λ parts.
        IsHistoryInput true text.now (operations parts.history.items) parts.below.items) }
    ensures writable { IfOk result (λ parts.
        All (λ op. IsWritable op.process) parts.history.items) }
    ensures refused { IfErr result (RefusesHistoryInput true text.now) }
{
    let shown = without_unread(alloc, text)?;
    match str::from_utf8(&shown) {
        Ok(shown) => history_and_below(alloc, shown),
        Err(_) => Err(ReadHistoryError::Text(EdnError::Utf8)),
    }
}

/// The history of a reader's text without its unread keys, and what stands below it.
fn read_without_unread<R: Read>(
    alloc: Global,
    reader: &mut R,
) -> Result<HistoryAndBelow, ReadHistoryError>
    ensures parsed { IfOk result (λ parts. IfSome (R.remaining reader.old) (λ input.
        IsHistoryInput true input (operations parts.history.items) parts.below.items)) }
    ensures writable { IfOk result (λ parts.
        All (λ op. IsWritable op.process) parts.history.items) }
    ensures refused { IfErr result (λ e.
        IfSome (R.remaining reader.old) (λ input. RefusesHistoryInput true input e)) }
{
    let input = read_bytes(alloc, reader, MAX_READS)?;
    match str::from_utf8(&input) {
        Ok(text) => history_without_unread(alloc, text),
        Err(_) => Err(ReadHistoryError::Text(EdnError::Utf8)),
    }
}
