//! Where a picture has what is drawn, in pixels. `specs/Pixels.antt` has the rule.
//!
//! Pixels are counted in 128 bits, so that no history is too long or too wide.

ghost use Rattle.std.specs.Prelude.{◌≡◌, ◌+◌, ◌*◌, ◌<◌, ◌≤◌};
ghost use Rattle.jh_timeline_pages.specs.Pixels as rule;

use crate::section::Section;
use jh_ops::Op;
use jh_timeline::{Bar, Call, Window};

/// How wide a lane is, in pixels.
pub const LANE_WIDTH: u128 = 240;

/// How high the row of a record is, in pixels.
pub const ROW_HEIGHT: u128 = 16;

/// How wide the margin of the nemesis is, which is at the left of all.
pub(crate) const MARGIN_WIDTH: u128 = 240;

/// How wide the column of times is, which is between that margin and the lanes.
const TIMES_WIDTH: u128 = 80;

/// The rows of a picture, and what stands at the left of its lanes.
#[derive(Clone, Copy)]
pub(crate) struct Frame {
    /// The index of the record in the first row.
    pub(crate) from: usize,
    /// The index before which records are drawn.
    pub(crate) end: usize,
    /// Whether there is a column of times.
    pub(crate) has_times: bool,
}

/// The index before which records are drawn.
pub(crate) fn end_in(window: Window, total: usize) -> usize
    ensures { result ≡ rule.end_in window total }
{
    window.to.min(total)
}

/// Whether a record says when it was made.
fn has_times(history: &[Op]) -> bool
    ensures { result ≡ rule.has_times history.now }
{
    history.iter().any(|op| op.time.is_some())
}

/// The rows of a section, and whether its picture has a column of times.
pub(crate) fn frame_of(section: &Section) -> Frame
    ensures { result ≡ rule.frame_of section.now }
{
    Frame {
        from: section.window.from,
        end: end_in(section.window, section.history.len()),
        has_times: has_times(&section.history),
    }
}

/// Whether the record at an index is drawn.
pub(crate) fn is_row_drawn(frame: Frame, index: usize) -> bool
    ensures { result ≡ rule.is_row_drawn frame index }
{
    frame.from <= index && index < frame.end
}

/// How far to the right the lanes begin.
fn lanes_left(frame: Frame) -> u128
    ensures left { result ≡ rule.lanes_left frame }
    ensures few { result ≤ 320 }
{
    if frame.has_times {
        MARGIN_WIDTH + TIMES_WIDTH
    } else {
        MARGIN_WIDTH
    }
}

/// How far to the right a lane begins.
pub(crate) fn left_of(frame: Frame, lane: usize) -> u128
    ensures left { result ≡ rule.left_of frame lane }
    ensures few { result ≤ 320 + lane * 240 }
{
    lanes_left(frame) + lane as u128 * LANE_WIDTH
}

/// How far to the right the middle of a lane's bars is.
pub(crate) fn middle_of(frame: Frame, lane: usize) -> u128
    ensures { result ≡ rule.middle_of frame lane }
{
    left_of(frame, lane) + 116
}

/// How far down the row of an index begins.
pub(crate) fn top_of(frame: Frame, index: usize) -> u128
    ensures { result ≡ rule.top_of frame index }
{
    index.saturating_sub(frame.from) as u128 * ROW_HEIGHT
}

/// How far down the records that are drawn end.
pub(crate) fn bottom_of(frame: Frame) -> u128
    ensures { result ≡ rule.bottom_of frame }
{
    top_of(frame, frame.end)
}

/// The index down to which a bar is drawn.
fn end_of(frame: Frame, call: &Call) -> usize
    ensures { result ≡ rule.end_of frame call.now }
{
    match call.completion {
        Some(completion) => completion.min(frame.end.saturating_sub(1)),
        None => call.first,
    }
}

/// How many rows a bar has.
fn bar_rows(frame: Frame, call: &Call) -> u128
    ensures { result ≡ rule.bar_rows frame call.now }
{
    let first = call.first.max(frame.from);
    let last = end_of(frame, call).max(frame.from);
    last.saturating_sub(first) as u128 + 1
}

/// How high a bar is.
pub(crate) fn height_of(frame: Frame, call: &Call) -> u128
    ensures { result ≡ rule.height_of frame call.now }
{
    bar_rows(frame, call) * ROW_HEIGHT
}

/// How far down a bar ends: not below the records that are drawn, where one of them is its first or
/// comes behind it.
pub(crate) fn bar_end(frame: Frame, bar: &Bar) -> u128
    ensures end { result ≡ rule.bar_end frame bar.now }
    ensures within { frame.from < frame.end → bar.now.call.first < frame.end
        → result ≤ rule.bottom_of frame }
{
    top_of(frame, bar.call.first) + height_of(frame, &bar.call)
}
