//! The marks of sets over time. `specs/Marked.antt` has the rule.

ghost use Rattle.std.specs.Prelude.{◌≡◌, false, IfOk, List, map};
ghost use Rattle.std.specs.Option.{option_map_or};
ghost use Rattle.jh_edn.specs.Order.{in_order, is_below};
ghost use Rattle.jh_edn.specs.View.{views};
ghost use Rattle.jh_ops.specs.Operation.{Operation, operation, operations};
ghost use Rattle.jh_check.specs.Distinct.{Ascends};
ghost use Rattle.jh_set_full.specs.StaleView.{view_stales};
ghost use Rattle.jh_timeline.specs.declared.picture.Call.{Call as CallData};
ghost use Rattle.jh_timeline_marks.specs.Marked as rule;
ghost use Rattle.jh_timeline_marks.specs.Marked.{marks_by};
ghost use Rattle.jh_timeline_marks.specs.MarkedInside.{AreTimedSorted, timed_note_with};

use crate::notes::{noted, push_note};
use crate::operations::completion_of;
use crate::values::{begins_with_one_of, sorted_copies};
use jh_check::{each_once, elements_shown, in_normal_order, sorted_normal};
use jh_edn::Value;
use jh_ops::{Kind, Op};
use jh_set_full::{SetFullResult, Stale};
use jh_timeline::{Call, Mark, Note};
use std::alloc::{AllocError, Global};

/// What is found of a set over time, where calls are looked up in it. Values are in normal order.
#[derive(Drop)]
struct TimedElements {
    lost: Vec<Value>,
    stale: Vec<Value>,
}

/// Copies of stale elements, in normal order.
fn sorted_stale(alloc: Global, stales: &[Stale]) -> Result<Vec<Value>, AllocError>
    ensures order { IfOk result (λ copies. views copies.items
        ≡ in_order is_below (map (λ stale. stale.0) (view_stales stales.now))) }
    ensures ascends { IfOk result (λ copies. Ascends (views copies.items)) }
{
    let mut copies = Vec::new(alloc);
    for stale in stales {
        copies.push(stale.element.copy(alloc)?)?;
    }
    in_normal_order(copies)
}

/// What is found of a set over time.
fn elements_of(alloc: Global, found: &SetFullResult) -> Result<TimedElements, AllocError>
    ensures sorted { IfOk result AreTimedSorted }
    ensures notes { IfOk result (λ elements. (history : List Operation) (call : CallData)
        → timed_note_with elements history call ≡ rule.set_full_note found.now history call) }
{
    let lost = sorted_copies(alloc, found.lost.as_slice())?;
    let stale = sorted_stale(alloc, found.stale.as_slice())?;
    Ok(TimedElements { lost, stale })
}

/// Whether a read that happened shows an element more than once.
fn shows_twice(alloc: Global, op: &Op) -> Result<bool, AllocError>
    ensures { IfOk result (λ shows. shows ≡ rule.shows_twice (operation op.now)) }
{
    if !op.is_asked(Kind::Ok, "read") {
        return Ok(false);
    }
    let Some(elements) = elements_shown(&op.value) else {
        return Ok(false);
    };
    let distinct = each_once(sorted_normal(alloc, elements)?);
    Ok(distinct.len() < elements.len())
}

/// Whether a call ends with a read that shows an element more than once.
fn ends_showing_twice(alloc: Global, history: &[Op], call: &Call) -> Result<bool, AllocError>
    ensures { IfOk result (λ ends. ends ≡ option_map_or rule.shows_twice
        (rule.call_completion (operations history.now) call.now) false) }
{
    match completion_of(history, call) {
        Some(op) => shows_twice(alloc, op),
        None => Ok(false),
    }
}

/// The note of a call, by what is found.
fn set_full_note(
    alloc: Global,
    elements: &TimedElements,
    history: &[Op],
    call: &Call,
) -> Result<Option<Note>, AllocError>
    requires { AreTimedSorted elements.now }
    ensures { IfOk result
        (λ note. note ≡ timed_note_with elements.now (operations history.now) call.now) }
{
    if begins_with_one_of(alloc, "add", &elements.lost, history, call)? {
        return Ok(Some(Note::Lost));
    }
    if begins_with_one_of(alloc, "add", &elements.stale, history, call)? {
        return Ok(Some(Note::Stale));
    }
    let shows = ends_showing_twice(alloc, history, call)?;
    Ok(noted(shows, Note::Repeated))
}

/// Marks at calls that tried to add what is lost or was stale, and at reads that show an element twice.
pub(crate) fn set_full_marks(
    alloc: Global,
    found: &SetFullResult,
    history: &[Op],
    calls: &[Call],
) -> Result<Vec<Mark>, AllocError>
    ensures { IfOk result (λ marks. marks.items
        ≡ marks_by (rule.set_full_note found.now (operations history.now)) calls.now) }
{
    let elements = elements_of(alloc, found)?;
    let mut marks = Vec::new(alloc);
    for (number, call) in calls.iter().enumerate() {
        let note = set_full_note(alloc, &elements, history, call)?;
        push_note(note, number, &mut marks)?;
    }
    Ok(marks)
}
