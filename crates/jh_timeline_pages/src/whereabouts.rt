//! Which operation a mark stands at, and where its records are. `specs/Drawings.antt` has the rule.

ghost use Rattle.std.specs.Prelude.{◌≡◌, All, OnOk, option_map};
ghost use Rattle.std.specs.Io.KnownBytes.{Appends};
ghost use Rattle.jh_ops.specs.Operation.{operation};
ghost use Rattle.jh_ops.specs.OperationWritten.{IsWritable};
ghost use Rattle.jh_timeline_pages.specs.Drawings as rule;
ghost use Rattle.jh_timeline_pages.specs.Drawings.{end_text, index_text, named_operation};
ghost use Rattle.jh_timeline_pages.specs.Drawings.{record_index_text, whereabouts_text};

use crate::error::PageError;
use crate::markup::put;
use crate::section::Section;
use jh_ops::Op;
use jh_timeline::Call;
use std::io::Write;

/// Writes the number of an operation behind a word, if it has one.
fn write_number<W: Write>(number: Option<usize>, writer: &mut W) -> Result<(), PageError>
    ensures { OnOk result
        (Appends (W.contents writer.old) (W.contents writer.new) (named_operation number)) }
{
    match number {
        Some(number) => write!(writer, "operation {number}, ").map_err(|_| PageError::Write),
        None => Ok(()),
    }
}

/// Writes the `:index` that a record at this place says it has, or the place where it says none.
fn write_index<W: Write>(place: usize, index: Option<i64>, writer: &mut W) -> Result<(), PageError>
    ensures { OnOk result
        (Appends (W.contents writer.old) (W.contents writer.new) (index_text place index)) }
{
    match index {
        Some(index) => write!(writer, "{index}").map_err(|_| PageError::Write),
        None => write!(writer, "{place}").map_err(|_| PageError::Write),
    }
}

/// Writes the index of a record behind a word, if there is a record.
fn write_record_index<W: Write>(
    word: &[u8],
    place: usize,
    op: Option<&Op>,
    writer: &mut W,
) -> Result<(), PageError>
    ensures { OnOk result (Appends (W.contents writer.old) (W.contents writer.new)
        (record_index_text word.now place (option_map (λ op. operation op.now) op.entry))) }
{
    match op {
        Some(op) => {
            put(word, writer)?;
            write_index(place, op.index, writer)
        }
        None => Ok(()),
    }
}

/// The place of a call's completion, where that is not its first record.
fn later_completion(call: &Call) -> Option<usize>
    ensures { result ≡ rule.later_completion call.now }
{
    match call.completion {
        Some(place) if place != call.first => Some(place),
        _ => None,
    }
}

/// Writes the index of the last record of a call that has two.
fn write_end<W: Write>(
    section: &Section,
    place: Option<usize>,
    writer: &mut W,
) -> Result<(), PageError>
    requires { All (λ op. IsWritable op.process) section.now.history.items }
    ensures { OnOk result
        (Appends (W.contents writer.old) (W.contents writer.new) (end_text section.now place)) }
{
    match place {
        Some(place) => write_record_index(b" to ", place, section.record(place), writer),
        None => Ok(()),
    }
}

/// Writes a further line: the number of a call's operation, if it has one, and the indexes of its
/// records.
pub(crate) fn write_whereabouts<W: Write>(
    section: &Section,
    number: Option<usize>,
    call: &Call,
    writer: &mut W,
) -> Result<(), PageError>
    requires { All (λ op. IsWritable op.process) section.now.history.items }
    ensures { OnOk result (Appends (W.contents writer.old) (W.contents writer.new)
        (whereabouts_text section.now number call.now)) }
{
    put(b"\n", writer)?;
    write_number(number, writer)?;
    write_record_index(b"at index ", call.first, section.record(call.first), writer)?;
    write_end(section, later_completion(call), writer)
}
