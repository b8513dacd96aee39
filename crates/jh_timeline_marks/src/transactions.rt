//! The marks of transactions. `specs/Marked.antt` has the rule.

ghost use Rattle.std.specs.Prelude.{◌≡◌, IfOk, map, option_and_then, option_map, slice_get};
ghost use Rattle.jh_ops.specs.Operation.{operations};
ghost use Rattle.jh_timeline_marks.specs.Marked as rule;
ghost use Rattle.jh_timeline_marks.specs.Marked.{cycle_note, has_bad_read, marks_by, note_if, step_note};
ghost use Rattle.jh_timeline_marks.specs.Marked.{transactions_note};

use crate::notes::{no_marks, noted, push_note};
use crate::orders::{numbers_of, placed_marks};
use crate::places::{place_of, place_through, places_of};
use jh_ops::Op;
use jh_timeline::{Call, Mark, Note, StepKind};
use jh_txn_findings::{FoundStep, FoundWhy, TxnFinding};
use std::alloc::{AllocError, Global};

/// How a step leads on.
fn kind_of(why: &FoundWhy) -> StepKind
    ensures { result ≡ rule.step_kind_of why.now }
{
    match why {
        FoundWhy::WriteRead { .. } => StepKind::WriteRead,
        FoundWhy::WriteWrite { .. } => StepKind::WriteWrite,
        FoundWhy::FirstCommitter { .. } => StepKind::FirstCommitter,
        FoundWhy::ReadWrite { .. } => StepKind::ReadWrite,
        FoundWhy::RealTime => StepKind::RealTime,
    }
}

/// The step at an index, as a note.
fn note_at(steps: &[FoundStep], index: Option<usize>) -> Option<Note>
    ensures { result ≡ option_map step_note (option_and_then (slice_get steps.now) index) }
{
    let step = steps.get(index?)?;
    Some(Note::Step {
        place: step.place,
        kind: kind_of(&step.why),
    })
}

/// The places of steps.
fn places_in(alloc: Global, steps: &[FoundStep]) -> Result<Vec<usize>, AllocError>
    ensures { IfOk result (λ places. places.items ≡ map (λ step. step.place) steps.now) }
{
    steps.iter().map(|step| step.place).collect(alloc)
}

/// A mark at each transaction of a cycle, with its first step there.
fn cycle_marks(
    alloc: Global,
    steps: &[FoundStep],
    history: &[Op],
    calls: &[Call],
) -> Result<Vec<Mark>, AllocError>
    ensures { IfOk result (λ marks. marks.items
        ≡ marks_by (cycle_note steps.now (operations history.now)) calls.now) }
{
    let numbers = numbers_of(alloc, history)?;
    let places = places_of(alloc, &places_in(alloc, steps)?)?;
    let mut marks = Vec::new(alloc);
    for (number, call) in calls.iter().enumerate() {
        let index = place_through(&numbers, &places, call.first);
        push_note(note_at(steps, index), number, &mut marks)?;
    }
    Ok(marks)
}

/// Whether a number is this one.
fn is_number(found: Option<usize>, number: usize) -> bool
    ensures { result ≡ rule.is_at_number number found }
{
    match found {
        Some(other) => other == number,
        None => false,
    }
}

/// A mark at the transaction of a bad read.
fn bad_read_marks(
    alloc: Global,
    place: usize,
    history: &[Op],
    calls: &[Call],
) -> Result<Vec<Mark>, AllocError>
    ensures { IfOk result (λ marks. marks.items
        ≡ marks_by (λ call. note_if (has_bad_read place (operations history.now) call) Note.BadRead)
        calls.now) }
{
    let numbers = numbers_of(alloc, history)?;
    let mut marks = Vec::new(alloc);
    for (number, call) in calls.iter().enumerate() {
        let is_bad = is_number(place_of(&numbers, call.first), place);
        push_note(noted(is_bad, Note::BadRead), number, &mut marks)?;
    }
    Ok(marks)
}

/// The marks of what is found in transactions.
pub(crate) fn transactions_marks(
    alloc: Global,
    found: &TxnFinding,
    history: &[Op],
    calls: &[Call],
) -> Result<Vec<Mark>, AllocError>
    ensures { IfOk result (λ marks. marks.items
        ≡ marks_by (transactions_note found.now (operations history.now)) calls.now) }
{
    match found {
        TxnFinding::Valid { order } => placed_marks(alloc, &[], order, history, calls),
        TxnFinding::BadRead { place, .. } => bad_read_marks(alloc, *place, history, calls),
        TxnFinding::Cycle { steps, .. } => cycle_marks(alloc, steps, history, calls),
        TxnFinding::Unknown => Ok(no_marks(alloc, calls)),
    }
}
