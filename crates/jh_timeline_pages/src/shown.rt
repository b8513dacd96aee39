//! Which records of a history are drawn, in words. `specs/Page.antt` has the rule.

ghost use Rattle.std.specs.Prelude.{◌≡◌, OnOk};
ghost use Rattle.std.specs.Io.KnownBytes.{Appends};
ghost use Rattle.jh_timeline_pages.specs.Page as rule;
ghost use Rattle.jh_timeline_pages.specs.Page.{drawn_records_text, left_out_text, window_text};

use crate::error::PageError;
use crate::markup::put;
use crate::pixels::end_in;
use jh_timeline::Window;
use std::io::Write;

/// Whether all records are drawn.
fn is_whole(window: Window, total: usize) -> bool
    ensures { result ≡ rule.is_whole window total }
{
    window.from == 0 && total <= window.to
}

/// Writes that records from one to another are drawn.
fn write_range<W: Write>(
    first: usize,
    last: usize,
    total: usize,
    writer: &mut W,
) -> Result<(), PageError>
    ensures { OnOk result
        (Appends (W.contents writer.old) (W.contents writer.new)
        (drawn_records_text first last total)) }
{
    write!(
        writer,
        "Records {first} to {last} of {total}; --from and --to choose others.</p>\n"
    )
    .map_err(|_| PageError::Write)
}

/// Writes which of so many records are drawn.
pub(crate) fn write_window<W: Write>(
    window: Window,
    total: usize,
    writer: &mut W,
) -> Result<(), PageError>
    ensures { OnOk result
        (Appends (W.contents writer.old) (W.contents writer.new) (window_text window total)) }
{
    let end = end_in(window, total);
    if is_whole(window, total) {
        write!(writer, "All {total} records.</p>\n").map_err(|_| PageError::Write)
    } else if window.from < end {
        write_range(window.from, end - 1, total, writer)
    } else {
        write!(
            writer,
            "No record of {total}; --from and --to choose others.</p>\n"
        )
        .map_err(|_| PageError::Write)
    }
}

/// Writes how many operations of unknown outcome are not drawn, if there are any.
pub(crate) fn write_left_out<W: Write>(count: usize, writer: &mut W) -> Result<(), PageError>
    ensures { OnOk result
        (Appends (W.contents writer.old) (W.contents writer.new) (left_out_text count)) }
{
    if count == 0 {
        Ok(())
    } else if count == 1 {
        put(
            b"<p>1 operation of unknown outcome began before and is not drawn.</p>\n",
            writer,
        )
    } else {
        write!(
            writer,
            "<p>{count} operations of unknown outcome began before and are not drawn.</p>\n"
        )
        .map_err(|_| PageError::Write)
    }
}
