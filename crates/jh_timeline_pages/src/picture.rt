//! The picture of a history. `specs/Drawings.antt` has the rule.

ghost use Rattle.std.specs.Prelude.{◌≡◌, All, OnOk};
ghost use Rattle.std.specs.Io.KnownBytes.{Appends};
ghost use Rattle.jh_ops.specs.OperationWritten.{IsWritable};
ghost use Rattle.jh_timeline_pages.specs.Drawings as rule;
ghost use Rattle.jh_timeline_pages.specs.Drawings.{framed_text, opening_text, picture_head, picture_text};
ghost use Rattle.jh_timeline_pages.specs.Drawings.{sides_text, view_text};

use crate::bands::draw_bands;
use crate::bars::draw_bars;
use crate::error::PageError;
use crate::lines::draw_lines;
use crate::marks::draw_marks;
use crate::markup::put;
use crate::pixels::{Frame, MARGIN_WIDTH, bottom_of, frame_of, left_of};
use crate::section::Section;
use crate::tails::draw_tails;
use crate::times::draw_times;
use std::alloc::Global;
use std::io::Write;

/// Writes how wide and how high something is.
fn write_sides<W: Write>(width: u128, height: u128, writer: &mut W) -> Result<(), PageError>
    ensures { OnOk result
        (Appends (W.contents writer.old) (W.contents writer.new) (sides_text width height)) }
{
    write!(writer, " width=\"{width}\" height=\"{height}\"").map_err(|_| PageError::Write)
}

/// Writes which part of the plane a picture shows, by which a browser scales it: from so far to the
/// right on, so wide and so high.
fn write_view<W: Write>(
    left: u128,
    width: u128,
    height: u128,
    writer: &mut W,
) -> Result<(), PageError>
    ensures { OnOk result
        (Appends (W.contents writer.old) (W.contents writer.new) (view_text left width height)) }
{
    write!(writer, " viewBox=\"{left} 0 {width} {height}\">\n").map_err(|_| PageError::Write)
}

/// Writes the opening of a picture of this size, which begins so far to the right.
fn write_opening<W: Write>(
    left: u128,
    width: u128,
    height: u128,
    writer: &mut W,
) -> Result<(), PageError>
    ensures { OnOk result
        (Appends (W.contents writer.old) (W.contents writer.new) (opening_text left width height)) }
{
    put(
        b"<div class=\"picture\">\n<svg xmlns=\"http://www.w3.org/2000/svg\"",
        writer,
    )?;
    write_sides(width, height, writer)?;
    write_view(left, width, height, writer)
}

/// How much is not shown at the left: the margin of the nemesis, where nothing stands in it.
fn cut_off(section: &Section) -> u128
    ensures { result ≡ rule.cut_off section.now }
{
    if section.lines.is_empty() && section.bands.is_empty() {
        MARGIN_WIDTH
    } else {
        0
    }
}

/// Writes the opening of the picture.
fn write_picture_head<W: Write>(
    frame: Frame,
    section: &Section,
    writer: &mut W,
) -> Result<(), PageError>
    ensures { OnOk result
        (Appends (W.contents writer.old) (W.contents writer.new)
        (picture_head frame section.now)) }
{
    let left = cut_off(section);
    let width = left_of(frame, section.picture.lanes.len()).saturating_sub(left);
    write_opening(left, width, bottom_of(frame), writer)
}

/// Writes what a frame shows of a history.
fn write_framed<W: Write>(
    alloc: Global,
    number: usize,
    frame: Frame,
    section: &Section,
    writer: &mut W,
) -> Result<(), PageError>
    requires { All (λ op. IsWritable op.process) section.now.history.items }
    ensures { OnOk result
        (Appends (W.contents writer.old) (W.contents writer.new)
        (framed_text number frame section.now)) }
{
    write_picture_head(frame, section, writer)?;
    draw_bands(alloc, frame, section.bands.as_slice(), writer)?;
    draw_times(frame, section.history.as_slice(), writer)?;
    draw_lines(alloc, frame, section, writer)?;
    draw_tails(frame, section, writer)?;
    draw_bars(alloc, frame, section, writer)?;
    put(b"<g class=\"marks\">\n", writer)?;
    draw_marks(number, frame, section, writer)?;
    put(b"</g>\n</svg>\n</div>\n", writer)
}

/// Writes the picture of a history.
pub(crate) fn write_picture<W: Write>(
    alloc: Global,
    number: usize,
    section: &Section,
    writer: &mut W,
) -> Result<(), PageError>
    requires { All (λ op. IsWritable op.process) section.now.history.items }
    ensures { OnOk result
        (Appends (W.contents writer.old) (W.contents writer.new)
        (picture_text number section.now)) }
{
    write_framed(alloc, number, frame_of(section), section, writer)
}
