//! The records of the nemesis, as lines across a picture. `specs/Drawings.antt` has the rule.

ghost use Rattle.std.specs.Prelude.{◌≡◌, All, OnOk};
ghost use Rattle.std.specs.Io.KnownBytes.{Appends};
ghost use Rattle.std.specs.List.{flat_map};
ghost use Rattle.jh_ops.specs.Operation.{operation};
ghost use Rattle.jh_ops.specs.OperationWritten.{IsWritable};
ghost use Rattle.jh_timeline_pages.specs.Drawings.{drawn_line, line_head, line_text};

use crate::error::PageError;
use crate::markup::{put, write_escaped_bytes};
use crate::pixels::{Frame, top_of};
use crate::record::write_record;
use crate::section::Section;
use jh_bands::Line;
use jh_ops::Op;
use std::alloc::Global;
use std::io::Write;

/// Writes the opening of a line in the row of an index.
fn write_line_head<W: Write>(frame: Frame, index: usize, writer: &mut W) -> Result<(), PageError>
    ensures { OnOk result
        (Appends (W.contents writer.old) (W.contents writer.new) (line_head frame index)) }
{
    let top = top_of(frame, index);
    write!(
        writer,
        "<svg class=\"fault\" y=\"{top}\" width=\"100%\" height=\"16\"><line x2=\"100%\"/><title>"
    )
    .map_err(|_| PageError::Write)
}

/// Writes a line with its record.
fn write_line<W: Write>(
    alloc: Global,
    frame: Frame,
    line: &Line,
    op: &Op,
    writer: &mut W,
) -> Result<(), PageError>
    requires { IsWritable op.now.process }
    ensures { OnOk result (Appends (W.contents writer.old) (W.contents writer.new)
        (line_text frame line.now (Some (operation op.now)))) }
{
    write_line_head(frame, line.index, writer)?;
    write_record(alloc, op, writer)?;
    put(b"</title><text x=\"4\" y=\"12\">", writer)?;
    write_escaped_bytes(alloc, line.label.as_slice(), writer)?;
    put(b"</text></svg>\n", writer)
}

/// Writes a line, with the record that it has in the history.
fn draw_line<W: Write>(
    alloc: Global,
    frame: Frame,
    section: &Section,
    line: &Line,
    writer: &mut W,
) -> Result<(), PageError>
    requires { All (λ op. IsWritable op.process) section.now.history.items }
    ensures { OnOk result
        (Appends (W.contents writer.old) (W.contents writer.new)
        (drawn_line frame section.now line.now)) }
{
    match section.record(line.index) {
        Some(op) => write_line(alloc, frame, line, op, writer),
        None => Ok(()),
    }
}

/// Writes all lines.
pub(crate) fn draw_lines<W: Write>(
    alloc: Global,
    frame: Frame,
    section: &Section,
    writer: &mut W,
) -> Result<(), PageError>
    requires { All (λ op. IsWritable op.process) section.now.history.items }
    ensures { OnOk result (Appends (W.contents writer.old) (W.contents writer.new)
        (flat_map (drawn_line frame section.now) section.now.lines.items)) }
{
    for line in &section.lines {
        draw_line(alloc, frame, section, line, writer)?;
    }
    Ok(())
}
