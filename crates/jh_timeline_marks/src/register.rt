//! The marks of registers. `specs/Marked.antt` has the rule.

ghost use Rattle.std.specs.Prelude.{◌≡◌, ℕ, IfOk};
ghost use Rattle.std.specs.BTreeMap.{get};
ghost use Rattle.std.specs.Ordering.{nat_cmp};
ghost use Rattle.jh_ops.specs.Operation.{operations};
ghost use Rattle.jh_timeline_marks.specs.Marked as rule;
ghost use Rattle.jh_timeline_marks.specs.Marked.{marks_by, place_among, register_note};
ghost use Rattle.jh_timeline_marks.specs.MarkedInside as inside;

use crate::held::{held_along, place_along};
use crate::notes::{no_marks, push_note};
use crate::operations::is_completed_at;
use crate::orders::{numbers_of, placed, placed_marks};
use crate::places::{place_through, places_of};
use jh_checkers::{Explanation, named_by_unique_reason};
use jh_linear::{LinVerdict, Stuck};
use jh_ops::Op;
use jh_timeline::{Call, Mark, Note, Place};
use std::alloc::{AllocError, Global};
use std::collections::BTreeMap;

/// The numbers of what is pending, where that is known.
fn pending_in(explanation: &Option<Explanation>) -> &[usize]
    ensures { result.now ≡ rule.pending_numbers_in explanation.now }
{
    match explanation {
        Some(given) => given.pending.as_slice(),
        None => &[],
    }
}

/// The numbers of what the reason names why there is no order, where one is given.
fn named_in(alloc: Global, explanation: &Option<Explanation>) -> Result<Vec<usize>, AllocError>
    ensures { IfOk result (λ named. named.items ≡ rule.named_numbers_in explanation.now) }
{
    let Some(given) = explanation else {
        return Ok(Vec::new(alloc));
    };
    match given.because {
        Some(reason) => named_by_unique_reason(alloc, reason),
        None => Ok(Vec::new(alloc)),
    }
}

/// The first place that each of these numbers has among them.
fn named_places(
    alloc: Global,
    explanation: &Option<Explanation>,
) -> Result<BTreeMap<usize, usize>, AllocError>
    ensures { IfOk result (λ places. (number : ℕ) → get nat_cmp places number
        ≡ place_among (rule.named_numbers_in explanation.now) number) }
{
    let named = named_in(alloc, explanation)?;
    places_of(alloc, &named)
}

/// The note of a call where a history is stuck, with this place in the order of what is before.
fn stuck_note(
    end: usize,
    named: bool,
    pending: bool,
    place: Option<Place>,
    call: &Call,
) -> Option<Note>
    ensures { result ≡ inside.stuck_note_with end named pending place call.now }
{
    if is_completed_at(end, call) {
        Some(Note::Stuck)
    } else if named {
        Some(Note::Named)
    } else if pending {
        Some(Note::Pending(place))
    } else {
        placed(place)
    }
}

/// Marks at the call where the history is stuck, at what the reason names, at what is pending there,
/// and at what the order before it has.
fn invalid_marks(
    alloc: Global,
    stuck: &Stuck,
    explanation: &Option<Explanation>,
    history: &[Op],
    calls: &[Call],
) -> Result<Vec<Mark>, AllocError>
    ensures { IfOk result (λ marks. marks.items
        ≡ marks_by (rule.stuck_note stuck.now explanation.now (operations history.now)) calls.now) }
{
    let numbers = numbers_of(alloc, history)?;
    let named = named_places(alloc, explanation)?;
    let pending = places_of(alloc, pending_in(explanation))?;
    let places = places_of(alloc, stuck.order.as_slice())?;
    let held = held_along(alloc, history, stuck.order.as_slice())?;
    let mut marks = Vec::new(alloc);
    for (number, call) in calls.iter().enumerate() {
        let named_place = place_through(&numbers, &named, call.first);
        let pending_place = place_through(&numbers, &pending, call.first);
        let order_place = place_through(&numbers, &places, call.first);
        let is_named = named_place.is_some();
        let is_pending = pending_place.is_some();
        let place = place_along(&held, order_place);
        let note = stuck_note(stuck.end, is_named, is_pending, place, call);
        push_note(note, number, &mut marks)?;
    }
    Ok(marks)
}

/// A mark at each call that an order of all operations has.
fn valid_marks(
    alloc: Global,
    order: &[usize],
    history: &[Op],
    calls: &[Call],
) -> Result<Vec<Mark>, AllocError>
    ensures { IfOk result (λ marks. marks.items
        ≡ marks_by (rule.ordered_note order.now (operations history.now)) calls.now) }
{
    let held = held_along(alloc, history, order)?;
    placed_marks(alloc, &held, order, history, calls)
}

/// The marks of what the judge of a register says.
pub(crate) fn register_marks(
    alloc: Global,
    judged: &LinVerdict,
    explanation: &Option<Explanation>,
    history: &[Op],
    calls: &[Call],
) -> Result<Vec<Mark>, AllocError>
    ensures { IfOk result (λ marks. marks.items
        ≡ marks_by (register_note judged.now explanation.now (operations history.now)) calls.now) }
{
    match judged {
        LinVerdict::Valid(order) => valid_marks(alloc, order.as_slice(), history, calls),
        LinVerdict::Invalid(stuck) => invalid_marks(alloc, stuck, explanation, history, calls),
        LinVerdict::Unknown(_) => Ok(no_marks(alloc, calls)),
    }
}
