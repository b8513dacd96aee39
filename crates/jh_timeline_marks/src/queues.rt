//! The marks of queues. `specs/Marked.antt` has the rule.

ghost use Rattle.std.specs.Prelude.{◌≡◌, [], ◌∷◌, IfOk, List};
ghost use Rattle.std.specs.List.{list_any};
ghost use Rattle.jh_edn.specs.Normal.{normal};
ghost use Rattle.jh_edn.specs.View.{view, views};
ghost use Rattle.jh_ops.specs.Operation.{Operation, operation, operations};
ghost use Rattle.jh_check.specs.Distinct.{Ascends, has_same_value};
ghost use Rattle.jh_timeline.specs.declared.picture.Call.{Call as CallData};
ghost use Rattle.jh_timeline_marks.specs.Marked as rule;
ghost use Rattle.jh_timeline_marks.specs.Marked.{marks_by};
ghost use Rattle.jh_timeline_marks.specs.MarkedInside.{AreQueueValuesSorted, queue_note_with};

use crate::completed::completed_marks;
use crate::notes::{no_marks, noted, push_note};
use crate::operations::completion_of;
use crate::values::{begins_with_one_of, ends_with_one_of, sorted_counted};
use jh_check::is_among;
use jh_edn::Value;
use jh_ops::Op;
use jh_queue::QueueResult;
use jh_timeline::{Call, Mark, Note};
use jh_total_queue::{TotalQueueResult, taken_by};
use std::alloc::{AllocError, Global};
use std::slice::from_ref;

/// What is found of a queue, where calls are looked up in it. Values are in normal order.
#[derive(Drop)]
struct QueueValues {
    lost: Vec<Value>,
    unexpected: Vec<Value>,
    duplicated: Vec<Value>,
    recovered: Vec<Value>,
}

/// What is found of a queue.
fn values_of(alloc: Global, found: &TotalQueueResult) -> Result<QueueValues, AllocError>
    ensures sorted { IfOk result AreQueueValuesSorted }
    ensures notes { IfOk result (λ values. (history : List Operation) (call : CallData)
        → queue_note_with values history call ≡ rule.total_queue_note found.now history call) }
{
    let lost = sorted_counted(alloc, found.lost.as_slice())?;
    let unexpected = sorted_counted(alloc, found.unexpected.as_slice())?;
    let duplicated = sorted_counted(alloc, found.duplicated.as_slice())?;
    let recovered = sorted_counted(alloc, found.recovered.as_slice())?;
    Ok(QueueValues {
        lost,
        unexpected,
        duplicated,
        recovered,
    })
}

/// Whether one of the items is one of these values, which ascend.
fn has_any(alloc: Global, values: &[Value], items: &[Value]) -> Result<bool, AllocError>
    requires { Ascends (views values.now) }
    ensures { IfOk result (λ has. has
        ≡ list_any (λ x. has_same_value (views values.now) (normal x)) (views items.now)) }
{
    let mut has = false;
    for item in items {
        has = has || is_among(values, &item.normal(alloc)?);
    }
    Ok(has)
}

/// Whether the operation is known to have taken out one of these values, which ascend.
fn takes_one_of(alloc: Global, values: &[Value], op: &Op) -> Result<bool, AllocError>
    requires { Ascends (views values.now) }
    ensures { IfOk result
        (λ takes. takes ≡ rule.takes_one_of (views values.now) (operation op.now)) }
{
    has_any(alloc, values, taken_by(op))
}

/// Whether a call ends by taking out one of these values, which ascend.
fn ends_by_taking(
    alloc: Global,
    values: &[Value],
    history: &[Op],
    call: &Call,
) -> Result<bool, AllocError>
    requires { Ascends (views values.now) }
    ensures { IfOk result (λ ends. ends
        ≡ rule.ends_by_taking (views values.now) (operations history.now) call.now) }
{
    match completion_of(history, call) {
        Some(op) => takes_one_of(alloc, values, op),
        None => Ok(false),
    }
}

/// The note of a call, by what is found.
fn total_queue_note(
    alloc: Global,
    values: &QueueValues,
    history: &[Op],
    call: &Call,
) -> Result<Option<Note>, AllocError>
    requires { AreQueueValuesSorted values.now }
    ensures { IfOk result
        (λ note. note ≡ queue_note_with values.now (operations history.now) call.now) }
{
    if ends_with_one_of(alloc, "enqueue", &values.lost, history, call)? {
        return Ok(Some(Note::Lost));
    }
    if ends_by_taking(alloc, &values.unexpected, history, call)? {
        return Ok(Some(Note::Unexpected));
    }
    if ends_by_taking(alloc, &values.duplicated, history, call)? {
        return Ok(Some(Note::Repeated));
    }
    let is_recovered = begins_with_one_of(alloc, "enqueue", &values.recovered, history, call)?;
    Ok(noted(is_recovered, Note::Recovered))
}

/// Marks at calls that put in what is lost, took out what is unexpected or came out too often, or tried
/// to put in what is recovered.
pub(crate) fn total_queue_marks(
    alloc: Global,
    found: &TotalQueueResult,
    history: &[Op],
    calls: &[Call],
) -> Result<Vec<Mark>, AllocError>
    ensures { IfOk result (λ marks. marks.items
        ≡ marks_by (rule.total_queue_note found.now (operations history.now)) calls.now) }
{
    let values = values_of(alloc, found)?;
    let mut marks = Vec::new(alloc);
    for (number, call) in calls.iter().enumerate() {
        let note = total_queue_note(alloc, &values, history, call)?;
        push_note(note, number, &mut marks)?;
    }
    Ok(marks)
}

/// A mark at the first dequeue that comes from no enqueue, where there is one.
pub(crate) fn queue_marks(
    alloc: Global,
    found: &QueueResult,
    calls: &[Call],
) -> Result<Vec<Mark>, AllocError>
    ensures { IfOk result
        (λ marks. marks.items ≡ marks_by (rule.queue_note found.now) calls.now) }
{
    match found {
        QueueResult::Dequeued(_) => Ok(no_marks(alloc, calls)),
        QueueResult::First { place, .. } => {
            completed_marks(alloc, from_ref(place), Note::Unexpected, calls)
        }
    }
}
