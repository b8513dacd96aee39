//! The bands of a picture: a box for each fault while it is active. `specs/Bands.antt` has the rule.

ghost use Rattle.std.specs.Prelude.{◌≡◌, ◌<◌, ◌^◌, OnOk};
ghost use Rattle.std.specs.Io.KnownBytes.{Appends};
ghost use Rattle.jh_timeline_pages.specs.Bands as rule;
ghost use Rattle.jh_timeline_pages.specs.Bands.{band_head, band_label_place, band_text, bands_text};

use crate::error::PageError;
use crate::markup::{put, write_escaped_bytes};
use crate::pixels::{Frame, top_of};
use jh_bands::Band;
use std::alloc::Global;
use std::io::Write;

/// The index of the first row of a band.
fn band_from(frame: Frame, band: &Band) -> usize
    ensures { result ≡ rule.band_from frame band.now }
{
    band.from.max(frame.from)
}

/// The index of the row above which a band ends.
fn band_to(frame: Frame, band: &Band) -> usize
    ensures { result ≡ rule.band_to frame band.now }
{
    match band.to {
        Some(to) => to.min(frame.end),
        None => frame.end,
    }
}

/// How high a band is.
fn band_height(frame: Frame, band: &Band) -> u128
    ensures { result ≡ rule.band_height frame band.now }
{
    top_of(frame, band_to(frame, band)).saturating_sub(top_of(frame, band_from(frame, band)))
}

/// Writes the box of a band.
fn write_band_head<W: Write>(top: u128, height: u128, writer: &mut W) -> Result<(), PageError>
    ensures { OnOk result
        (Appends (W.contents writer.old) (W.contents writer.new) (band_head top height)) }
{
    write!(
        writer,
        "<svg class=\"band\" y=\"{top}\" width=\"100%\" height=\"{height}\">\
         <rect width=\"100%\" height=\"100%\"/><title>"
    )
    .map_err(|_| PageError::Write)
}

/// Writes where the label of a band stands, below those of so many others.
fn write_label_place<W: Write>(before: usize, writer: &mut W) -> Result<(), PageError>
    ensures { OnOk result
        (Appends (W.contents writer.old) (W.contents writer.new) (band_label_place before)) }
{
    let base = 28 + 16 * before as u128;
    write!(writer, "</title><text x=\"236\" y=\"{base}\">").map_err(|_| PageError::Write)
}

/// Writes a band behind so many others that begin in its row.
fn write_band<W: Write>(
    alloc: Global,
    frame: Frame,
    before: usize,
    band: &Band,
    writer: &mut W,
) -> Result<(), PageError>
    ensures { OnOk result (Appends (W.contents writer.old) (W.contents writer.new)
        (band_text frame before band.now)) }
{
    let top = top_of(frame, band_from(frame, band));
    write_band_head(top, band_height(frame, band), writer)?;
    write_escaped_bytes(alloc, band.label.as_slice(), writer)?;
    write_label_place(before, writer)?;
    write_escaped_bytes(alloc, band.label.as_slice(), writer)?;
    put(b"</text></svg>\n", writer)
}

/// How many bands right before one begin in its row.
fn bands_before(row: usize, last: usize, count: usize) -> usize
    ensures { result ≡ rule.bands_before row last count }
{
    if row == last { count } else { 0 }
}

/// Writes all bands.
pub(crate) fn draw_bands<W: Write>(
    alloc: Global,
    frame: Frame,
    bands: &[Band],
    writer: &mut W,
) -> Result<(), PageError>
    ensures { OnOk result
        (Appends (W.contents writer.old) (W.contents writer.new) (bands_text frame bands.now)) }
{
    let mut last = 0;
    let mut count = 0;
    for band in bands {
        let row = band_from(frame, band);
        let before = bands_before(row, last, count);
        write_band(alloc, frame, before, band, writer)?;
        last = row;
        count = before + 1;
    }
    Ok(())
}
