//! Which records of a history are shown. `specs/Windows.antt` has the rule.

ghost use Rattle.std.specs.Prelude.{◌≡◌, option_map, slice_get};
ghost use Rattle.jh_timeline_sections.specs.Windows as rule;
ghost use Rattle.jh_timeline.specs.Lanes as lanes;

use jh_timeline::{Call, Mark, Window};
use jh_timeline_pages::first_pointer;

/// The most records that are all shown where none are chosen.
pub const MAX_WHOLE: usize = 2_000;

/// How many records are shown of more than `MAX_WHOLE`, where none are chosen.
pub const SHOWN_AROUND: usize = 1_000;

/// How many of these stand before the record that they are around.
pub const SHOWN_BEFORE: usize = 500;

/// The records that are asked for: those from the index `from` on and before the index `to`.
#[derive(Clone, Copy, Debug, PartialEq, Eq)]
pub struct Choice {
    pub from: Option<usize>,
    pub to: Option<usize>,
}

/// Whether no records are chosen, and there are too many to show all.
pub(crate) fn is_open(choice: Choice, total: usize) -> bool
    ensures { result ≡ rule.is_open choice total }
{
    choice.from.is_none() && choice.to.is_none() && total > MAX_WHOLE
}

/// The records that are chosen, or all.
pub(crate) fn chosen(choice: Choice, total: usize) -> Window
    ensures { result ≡ rule.chosen_window choice total }
{
    Window {
        from: choice.from.unwrap_or(0).min(total),
        to: choice.to.unwrap_or(total).min(total),
    }
}

/// The records around an index, or the first.
pub(crate) fn around(focus: Option<usize>, total: usize) -> Window
    ensures { result ≡ rule.focus_window focus total }
{
    let from = focus.unwrap_or(0).saturating_sub(SHOWN_BEFORE);
    Window {
        from,
        to: from.saturating_add(SHOWN_AROUND).min(total),
    }
}

/// The index at which a call ends.
fn ends_at(call: Call) -> usize
    ensures { result ≡ lanes.call_end call }
{
    call.completion.unwrap_or(call.first)
}

/// The index at which the call of a number ends, if there is one.
fn end_at(calls: &[Call], number: usize) -> Option<usize>
    ensures { result ≡ option_map lanes.call_end (slice_get calls.now number) }
{
    match calls.get(number) {
        Some(call) => Some(ends_at(*call)),
        None => None,
    }
}

/// The index at which the first of these calls ends that a mark points at.
pub(crate) fn focus_of(calls: &[Call], marks: &[Mark]) -> Option<usize>
    ensures { result ≡ rule.focus_of calls.now marks.now }
{
    match first_pointer(marks) {
        Some(mark) => end_at(calls, mark.call),
        None => None,
    }
}
