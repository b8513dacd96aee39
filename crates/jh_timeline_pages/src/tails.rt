//! What becomes of operations of unknown outcome behind their bars. `specs/Drawings.antt` has the rule.

ghost use Rattle.std.specs.Prelude.{◌≡◌, ◌&&◌, All, OnOk};
ghost use Rattle.std.specs.Io.KnownBytes.{Appends};
ghost use Rattle.std.specs.List.{flat_map};
ghost use Rattle.jh_ops.specs.OperationWritten.{IsWritable};
ghost use Rattle.jh_ops.specs.Pairing.{is_invoke};
ghost use Rattle.jh_timeline_pages.specs.Drawings as rule;
ghost use Rattle.jh_timeline_pages.specs.Drawings.{drawn_tail, tail_text};

use crate::bars::completion_of;
use crate::endings::{ending_of, is_invocation, may_happen_later};
use crate::error::PageError;
use crate::pixels::{Frame, bar_end, bottom_of, middle_of};
use crate::section::Section;
use jh_ops::{Kind, Op};
use jh_timeline::Bar;
use std::io::Write;

/// Whether a call goes on behind its bar, with this first record and where it ended so.
fn goes_on(first: &Op, ending: Option<Kind>) -> bool
    ensures { result ≡ (is_invoke first.now.kind && rule.may_happen_later ending) }
{
    is_invocation(first) && may_happen_later(ending)
}

/// Writes a line from the end of a bar down to the bottom.
fn write_tail<W: Write>(frame: Frame, bar: &Bar, writer: &mut W) -> Result<(), PageError>
    ensures { OnOk result
        (Appends (W.contents writer.old) (W.contents writer.new) (tail_text frame bar.now)) }
{
    let middle = middle_of(frame, bar.lane);
    let end = bar_end(frame, bar);
    let bottom = bottom_of(frame);
    write!(
        writer,
        "<path class=\"tail\" d=\"M{middle} {end}V{bottom}\"/>\n"
    )
    .map_err(|_| PageError::Write)
}

/// Writes how an operation of unknown outcome goes on behind its bar.
fn draw_tail<W: Write>(
    frame: Frame,
    section: &Section,
    bar: &Bar,
    writer: &mut W,
) -> Result<(), PageError>
    requires { All (λ op. IsWritable op.process) section.now.history.items }
    ensures { OnOk result
        (Appends (W.contents writer.old) (W.contents writer.new)
        (drawn_tail frame section.now bar.now)) }
{
    let ending = ending_of(completion_of(section, bar));
    match section.record(bar.call.first) {
        Some(first) if goes_on(first, ending) => write_tail(frame, bar, writer),
        _ => Ok(()),
    }
}

/// Writes how all operations of unknown outcome go on.
pub(crate) fn draw_tails<W: Write>(
    frame: Frame,
    section: &Section,
    writer: &mut W,
) -> Result<(), PageError>
    requires { All (λ op. IsWritable op.process) section.now.history.items }
    ensures { OnOk result (Appends (W.contents writer.old) (W.contents writer.new)
        (flat_map (drawn_tail frame section.now) section.now.picture.bars.items)) }
{
    for bar in &section.picture.bars {
        draw_tail(frame, section, bar, writer)?;
    }
    Ok(())
}
