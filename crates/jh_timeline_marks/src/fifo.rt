//! The marks of first-in-first-out queues. `specs/Marked.antt` has the rule.

ghost use Rattle.std.specs.Prelude.{◌≡◌, IfOk, is_some};
ghost use Rattle.jh_ops.specs.Operation.{operations};
ghost use Rattle.jh_timeline_marks.specs.Marked as rule;
ghost use Rattle.jh_timeline_marks.specs.Marked.{fifo_note, marks_by, note_if, place_in};

use crate::notes::{noted, push_note};
use crate::orders::{numbers_of, placed_marks};
use crate::places::{place_through, places_of};
use jh_fifo::FifoVerdict;
use jh_fifo_check::{FifoFinding, named_by_verdict};
use jh_ops::Op;
use jh_timeline::{Call, Mark, Note};
use std::alloc::{AllocError, Global};

/// A mark at each call that has one of these numbers.
fn named_marks(
    alloc: Global,
    named: &[usize],
    history: &[Op],
    calls: &[Call],
) -> Result<Vec<Mark>, AllocError>
    ensures { IfOk result (λ marks. marks.items
        ≡ marks_by (λ call. note_if (is_some (place_in named.now (operations history.now) call))
        Note.Named) calls.now) }
{
    let numbers = numbers_of(alloc, history)?;
    let places = places_of(alloc, named)?;
    let mut marks = Vec::new(alloc);
    for (number, call) in calls.iter().enumerate() {
        let is_named = place_through(&numbers, &places, call.first).is_some();
        push_note(noted(is_named, Note::Named), number, &mut marks)?;
    }
    Ok(marks)
}

/// A mark at each operation that a verdict names.
fn verdict_marks(
    alloc: Global,
    verdict: &FifoVerdict,
    history: &[Op],
    calls: &[Call],
) -> Result<Vec<Mark>, AllocError>
    ensures { IfOk result (λ marks. marks.items
        ≡ marks_by (rule.named_note verdict.now (operations history.now)) calls.now) }
{
    let named = named_by_verdict(alloc, verdict)?;
    named_marks(alloc, &named, history, calls)
}

/// The marks of what is found of a first-in-first-out queue.
pub(crate) fn fifo_marks(
    alloc: Global,
    found: &FifoFinding,
    history: &[Op],
    calls: &[Call],
) -> Result<Vec<Mark>, AllocError>
    ensures { IfOk result (λ marks. marks.items
        ≡ marks_by (fifo_note found.now.verdict (operations history.now)) calls.now) }
{
    match &found.verdict {
        FifoVerdict::Valid(order) => placed_marks(alloc, &[], order, history, calls),
        verdict => verdict_marks(alloc, verdict, history, calls),
    }
}
