//! The records of a history as they are written, in the page.

ghost use Rattle.std.specs.Prelude.{◌≡◌, IfOk, OnOk};
ghost use Rattle.std.specs.Io.KnownBytes.{Appends};
ghost use Rattle.jh_edn.specs.Print.{print};
ghost use Rattle.jh_ops.specs.Operation.{operation};
ghost use Rattle.jh_ops.specs.OperationWritten.{IsWritable, value_written};
ghost use Rattle.jh_timeline_pages.specs.Records.{record_text};

use crate::error::PageError;
use crate::markup::write_escaped_bytes;
use jh_edn::write;
use jh_ops::{Op, value_of};
use std::alloc::Global;
use std::io::Write;

/// The text of a record, as records are written.
fn written(alloc: Global, op: &Op) -> Result<Vec<u8>, PageError>
    requires { IsWritable op.now.process }
    ensures { IfOk result (λ text. text.items ≡ print (value_written (operation op.now))) }
{
    let value = value_of(alloc, op)?;
    let mut text = Vec::new(alloc);
    write(&value, &mut text).map_err(|_| PageError::OutOfMemory)?;
    Ok(text)
}

/// Writes a record into the page.
pub(crate) fn write_record<W: Write>(
    alloc: Global,
    op: &Op,
    writer: &mut W,
) -> Result<(), PageError>
    requires { IsWritable op.now.process }
    ensures { OnOk result
        (Appends (W.contents writer.old) (W.contents writer.new) (record_text (operation op.now))) }
{
    let text = written(alloc, op)?;
    write_escaped_bytes(alloc, text.as_slice(), writer)
}
