//! Numbers of calls, and the marks of an order that has these. `specs/Marked.antt` has the rule.

ghost use Rattle.std.specs.Prelude.{◌≡◌, ℕ, IfOk, map, option_map};
ghost use Rattle.std.specs.BTreeMap.{get};
ghost use Rattle.std.specs.Ordering.{nat_cmp};
ghost use Rattle.jh_ops.specs.Operation.{operations};
ghost use Rattle.jh_timeline_marks.specs.Marked as rule;
ghost use Rattle.jh_timeline_marks.specs.Marked.{marks_by, place_among, placed_note};
ghost use Rattle.jh_timeline_marks.specs.MarkedInside as inside;

use crate::held::place_along;
use crate::notes::push_note;
use crate::places::{place_of, place_through, places_of};
use jh_ops::{Kind, Op, Process};
use jh_timeline::{Call, Mark, Note, Place};
use std::alloc::{AllocError, Global};
use std::collections::BTreeMap;

/// Whether a client invokes something.
fn is_invocation(op: &Op) -> bool
    ensures { result ≡ inside.is_invocation op.now }
{
    match (op.process, op.kind) {
        (Process::Client(_), Kind::Invoke) => true,
        _ => false,
    }
}

/// Where clients invoke something.
fn invocations(alloc: Global, history: &[Op]) -> Result<Vec<usize>, AllocError>
    ensures { IfOk result (λ found. found.items ≡ inside.invocations history.now) }
{
    history
        .iter()
        .enumerate()
        .filter(|(_, op)| is_invocation(op))
        .map(|(index, _)| index)
        .collect(alloc)
}

/// The number that calls have in orders, by where they are invoked.
pub(crate) fn numbers_of(
    alloc: Global,
    history: &[Op],
) -> Result<BTreeMap<usize, usize>, AllocError>
    ensures { IfOk result (λ numbers. (index : ℕ)
        → get nat_cmp numbers index
        ≡ place_among (rule.invocations_of (operations history.now)) index) }
{
    let found = invocations(alloc, history)?;
    places_of(alloc, &found)
}

/// The place in an order, as a note.
pub(crate) fn placed(place: Option<Place>) -> Option<Note>
    ensures { result ≡ option_map Note.Placed place }
{
    match place {
        Some(place) => Some(Note::Placed(place)),
        None => None,
    }
}

/// The number of each of these calls among the operations of the history, from 0, by which orders name
/// it: its place among the invocations of clients. A completion that stands alone has none.
///
/// Errors: where memory runs out.
///
/// Takes O(n log n) for n records and calls.
pub fn operation_numbers(
    alloc: Global,
    history: &[Op],
    calls: &[Call],
) -> Result<Vec<Option<usize>>, AllocError>
    ensures { IfOk result (λ numbers. numbers.items
        ≡ map (rule.operation_number (operations history.now)) calls.now) }
{
    let numbers = numbers_of(alloc, history)?;
    calls
        .iter()
        .map(|call| place_of(&numbers, call.first))
        .collect(alloc)
}

/// A mark at each call that an order has, with its first place there. Along the order a register holds
/// these values.
pub(crate) fn placed_marks(
    alloc: Global,
    held: &[Option<i64>],
    order: &[usize],
    history: &[Op],
    calls: &[Call],
) -> Result<Vec<Mark>, AllocError>
    ensures { IfOk result
        (λ marks. marks.items
        ≡ marks_by (placed_note held.now order.now (operations history.now)) calls.now) }
{
    let numbers = numbers_of(alloc, history)?;
    let places = places_of(alloc, order)?;
    let mut marks = Vec::new(alloc);
    for (number, call) in calls.iter().enumerate() {
        let place = place_along(held, place_through(&numbers, &places, call.first));
        push_note(placed(place), number, &mut marks)?;
    }
    Ok(marks)
}
