//! Times and durations, and the column of times. `specs/Times.antt` has the rule.

ghost use Rattle.std.specs.Prelude.{◌≡◌, IfErr, OnOk};
ghost use Rattle.std.specs.Io.KnownBytes.{Appends};
ghost use Rattle.jh_timeline_pages.specs.Times as rule;
ghost use Rattle.jh_timeline_pages.specs.Times.{seconds_text, thousandths_text, time_place, row_time_text};
ghost use Rattle.jh_timeline_pages.specs.Times.{times_text, took_text};

use crate::error::PageError;
use crate::markup::put;
use crate::pixels::{Frame, is_row_drawn, top_of};
use jh_ops::Op;
use std::io::Write;

/// Writes so many thousandths.
fn write_thousandths<W: Write>(thousandths: u64, writer: &mut W) -> Result<(), PageError>
    ensures { OnOk result
        (Appends (W.contents writer.old) (W.contents writer.new) (thousandths_text thousandths)) }
{
    let whole = thousandths / 1000;
    let tenths = thousandths / 100 % 10;
    let hundredths = thousandths / 10 % 10;
    let last = thousandths % 10;
    write!(writer, "{whole}.{tenths}{hundredths}{last}").map_err(|_| PageError::Write)
}

/// What stands before a time.
fn sign_of(time: i64) -> &'static str
    ensures { result.now ≡ rule.sign_text time }
{
    if time < 0 { "-" } else { "" }
}

/// Writes a time of so many nanoseconds, in seconds.
fn write_seconds<W: Write>(time: i64, writer: &mut W) -> Result<(), PageError>
    ensures { OnOk result
        (Appends (W.contents writer.old) (W.contents writer.new) (seconds_text time)) }
{
    put(sign_of(time).as_bytes(), writer)?;
    write_thousandths(time.unsigned_abs() / 1_000_000, writer)
}

/// How many nanoseconds lie between two times, where both are known and the second is not before the
/// first.
pub(crate) fn duration(asked: Option<i64>, ended: Option<i64>) -> Option<u64>
    ensures { result ≡ rule.duration asked ended }
{
    match (asked, ended) {
        (Some(asked), Some(ended)) if asked <= ended => Some(ended.abs_diff(asked)),
        _ => None,
    }
}

/// Writes a further line, which says how long something took, if that is known.
pub(crate) fn write_took<W: Write>(
    nanoseconds: Option<u64>,
    writer: &mut W,
) -> Result<(), PageError>
    ensures { OnOk result
        (Appends (W.contents writer.old) (W.contents writer.new) (took_text nanoseconds)) }
{
    match nanoseconds {
        Some(nanoseconds) => {
            put(b"\ntook ", writer)?;
            write_thousandths(nanoseconds / 1000, writer)?;
            put(b" ms", writer)
        }
        None => Ok(()),
    }
}

/// Writes where the time of a row stands.
fn write_time_place<W: Write>(frame: Frame, index: usize, writer: &mut W) -> Result<(), PageError>
    ensures { OnOk result
        (Appends (W.contents writer.old) (W.contents writer.new) (time_place frame index)) }
{
    let base = top_of(frame, index) + 12;
    write!(writer, "<text class=\"time\" x=\"312\" y=\"{base}\">").map_err(|_| PageError::Write)
}

/// Writes a time in the row of an index, where that is drawn.
fn write_time<W: Write>(
    frame: Frame,
    index: usize,
    time: i64,
    writer: &mut W,
) -> Result<(), PageError>
    ensures { OnOk result
        (Appends (W.contents writer.old) (W.contents writer.new)
        (row_time_text frame index (Some time))) }
{
    if is_row_drawn(frame, index) {
        write_time_place(frame, index, writer)?;
        write_seconds(time, writer)?;
        put(b"</text>\n", writer)
    } else {
        Ok(())
    }
}

/// Writes the time of a record in its row, if it has one.
fn draw_time<W: Write>(
    frame: Frame,
    index: usize,
    time: Option<i64>,
    writer: &mut W,
) -> Result<(), PageError>
    ensures { OnOk result
        (Appends (W.contents writer.old) (W.contents writer.new) (row_time_text frame index time)) }
{
    match time {
        Some(time) => write_time(frame, index, time, writer),
        None => Ok(()),
    }
}

/// Writes the times of a history.
pub(crate) fn draw_times<W: Write>(
    frame: Frame,
    history: &[Op],
    writer: &mut W,
) -> Result<(), PageError>
    ensures { OnOk result
        (Appends (W.contents writer.old) (W.contents writer.new) (times_text frame history.now)) }
{
    for (index, op) in history.iter().enumerate() {
        draw_time(frame, index, op.time, writer)?;
    }
    Ok(())
}
