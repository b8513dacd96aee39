//! Which calls are drawn in a window. `specs/Lanes.antt` has the rule.

ghost use Rattle.std.specs.Prelude.{◌≡◌, ℕ, min, IfOk};
ghost use Rattle.std.specs.BTreeMap.{get};
ghost use Rattle.std.specs.List.{enumerate_from, reduce};
ghost use Rattle.std.specs.Ordering.{nat_cmp};
ghost use Rattle.jh_ops.specs.Operation.{operations};
ghost use Rattle.jh_timeline.specs.Lanes as rule;
ghost use Rattle.jh_timeline.specs.Lanes.{drawn_calls, note_at, places_shown, takes_effect_behind};
ghost use Rattle.jh_timeline.specs.LanesInside as inside;
ghost use Rattle.jh_timeline.specs.LanesInside.{is_behind, place_with, places_with};

use crate::calls::calls_of;
use crate::marks::{Mark, Note};
use crate::picture::{Call, Window};
use jh_ops::{Kind, Op};
use std::alloc::{AllocError, Global};
use std::collections::BTreeMap;

/// What marks say of an order.
#[derive(Drop)]
struct Order {
    /// The note of each call that is marked, by its number.
    notes: BTreeMap<usize, Note>,
    /// The least place of the calls that begin in the window, if one has a place.
    least: Option<usize>,
}

/// The calls of a history that are drawn.
#[derive(Drop)]
pub(crate) struct Drawn {
    /// Those that are drawn, in order, with their lanes held in the window.
    pub(crate) calls: Vec<Call>,
    /// How many of unknown outcome began before the window, and are not drawn.
    pub(crate) left_out: usize,
}

/// The note of each call that is marked: that of its first mark.
fn notes_of(alloc: Global, marks: &[Mark]) -> Result<BTreeMap<usize, Note>, AllocError>
    ensures { IfOk result
        (λ notes. (number : ℕ) → get nat_cmp notes number ≡ note_at marks.now number) }
{
    let mut notes = BTreeMap::new(alloc);
    let mut left = marks.len();
    while left > 0 {
        left -= 1;
        let mark = marks[left];
        notes.insert(mark.call, mark.note)?;
    }
    Ok(notes)
}

/// The place in an order that a note gives.
fn place_noted(note: Note) -> Option<usize>
    ensures { result ≡ rule.place_noted note }
{
    match note {
        Note::Placed(place) => Some(place.number),
        Note::Pending(Some(place)) => Some(place.number),
        _ => None,
    }
}

/// The place in an order of the call of a number, if it has one.
fn noted_place_at(notes: &BTreeMap<usize, Note>, number: usize) -> Option<usize>
    ensures { result ≡ place_with notes.now number }
{
    let note = notes.get(&number).copied()?;
    place_noted(note)
}

/// Whether a call begins in the window.
fn begins_in(window: Window, call: &Call) -> bool
    ensures { result ≡ rule.begins_in window call.now }
{
    window.from <= call.first && call.first < window.to
}

/// The least place of the calls that begin in the window.
fn least_place(window: Window, notes: &BTreeMap<usize, Note>, calls: &[Call]) -> Option<usize>
    ensures { result ≡ reduce min (places_with window notes.now calls.now) }
{
    calls
        .iter()
        .enumerate()
        .filter(|(_, call)| begins_in(window, call))
        .filter_map(|(number, _)| noted_place_at(notes, number))
        .min()
}

/// What marks say of the order that was found.
fn order_of(
    alloc: Global,
    window: Window,
    marks: &[Mark],
    calls: &[Call],
) -> Result<Order, AllocError>
    ensures { IfOk result (λ order. (number : ℕ) → is_behind order number
        ≡ rule.takes_effect_behind (places_shown window marks.now (enumerate_from 0 calls.now))
        marks.now number) }
{
    let notes = notes_of(alloc, marks)?;
    let least = least_place(window, &notes, calls);
    Ok(Order { notes, least })
}

/// Whether the call of a number takes effect behind a call that begins in the window.
fn takes_effect_behind(order: &Order, number: usize) -> bool
    ensures { result ≡ is_behind order.now number }
{
    match (noted_place_at(&order.notes, number), order.least) {
        (Some(place), Some(least)) => least < place,
        _ => false,
    }
}

/// Whether the record at an index is an `:info`.
fn is_info_at(history: &[Op], index: usize) -> bool
    ensures { result ≡ rule.is_info_at (operations history.now) index }
{
    match history.get(index) {
        Some(op) => Kind::Info.is(op.kind),
        None => false,
    }
}

/// Whether it is not known if a call took effect.
fn has_unknown_outcome(history: &[Op], call: &Call) -> bool
    ensures { result ≡ rule.has_unknown_outcome (operations history.now) call.now }
{
    match call.completion {
        Some(index) => is_info_at(history, index),
        None => true,
    }
}

/// The index of a call's last record.
fn call_end(call: &Call) -> usize
    ensures { result ≡ rule.call_end call.now }
{
    call.completion.unwrap_or(call.first)
}

/// Whether a call that began before the window is drawn. `behind` says whether it takes effect behind a
/// call that begins in the window.
fn reaches_in(window: Window, history: &[Op], behind: bool, call: &Call) -> bool
    ensures { result ≡ inside.reaches_with window (operations history.now) behind call.now }
{
    let end = call_end(call);
    if has_unknown_outcome(history, call) {
        call.last == end && behind
    } else {
        window.from <= end
    }
}

/// Whether a call is drawn.
fn is_call_drawn(window: Window, history: &[Op], behind: bool, call: &Call) -> bool
    ensures { result ≡ inside.is_drawn_with window (operations history.now) behind call.now }
{
    window.from.max(call.first) < window.to
        && (window.from <= call.first || reaches_in(window, history, behind, call))
}

/// Whether a call may take effect in the window or behind it, and is not drawn.
fn is_left_out(window: Window, history: &[Op], behind: bool, call: &Call) -> bool
    ensures { result ≡ inside.is_left_out_with window (operations history.now) behind call.now }
{
    call.first < window.from
        && has_unknown_outcome(history, call)
        && !is_call_drawn(window, history, behind, call)
}

/// The call, with its lane held in the window.
fn held_in(window: Window, call: &Call) -> Call
    ensures { result ≡ rule.held_in window call.now }
{
    Call {
        last: window.from.max(call.last),
        ..*call
    }
}

/// The calls that are drawn.
fn calls_with(
    alloc: Global,
    window: Window,
    history: &[Op],
    order: &Order,
    calls: &[Call],
) -> Result<Vec<Call>, AllocError>
    ensures { IfOk result (λ drawn. drawn.items
        ≡ inside.drawn_with window (operations history.now) (is_behind order.now) calls.now) }
{
    calls
        .iter()
        .enumerate()
        .filter(|(number, call)| {
            is_call_drawn(window, history, takes_effect_behind(order, *number), call)
        })
        .map(|(_, call)| held_in(window, call))
        .collect(alloc)
}

/// How many calls are left out.
fn count_left_out(window: Window, history: &[Op], order: &Order, calls: &[Call]) -> usize
    ensures { result
        ≡ inside.count_left_out_with window (operations history.now) (is_behind order.now) calls.now }
{
    calls
        .iter()
        .enumerate()
        .filter(|(number, call)| {
            is_left_out(window, history, takes_effect_behind(order, *number), call)
        })
        .count()
}

/// The calls of a history that are drawn, where these marks stand at its calls.
pub(crate) fn drawn_in(
    alloc: Global,
    window: Window,
    history: &[Op],
    marks: &[Mark],
) -> Result<Drawn, AllocError>
    ensures calls { IfOk result
        (λ drawn. drawn.calls.items ≡ drawn_calls window (operations history.now) marks.now) }
    ensures left_out { IfOk result (λ drawn. drawn.left_out
        ≡ rule.count_left_out window (operations history.now) marks.now) }
{
    let calls = calls_of(alloc, history)?;
    let order = order_of(alloc, window, marks, &calls)?;
    let drawn = calls_with(alloc, window, history, &order, &calls)?;
    Ok(Drawn {
        calls: drawn,
        left_out: count_left_out(window, history, &order, &calls),
    })
}
