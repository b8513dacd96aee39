//! The marks of sets. `specs/Marked.antt` has the rule.

ghost use Rattle.std.specs.Prelude.{◌≡◌, true, false, nat_lt, take, codes, IfOk, option_map};
ghost use Rattle.std.specs.Option.{option_map_or};
ghost use Rattle.jh_edn.specs.Order.{in_order, is_below};
ghost use Rattle.jh_edn.specs.View.{views};
ghost use Rattle.jh_ops.specs.Operation.{operations};
ghost use Rattle.jh_check.specs.Distinct.{Ascends};
ghost use Rattle.jh_check.specs.SetResults.{final_read};
ghost use Rattle.jh_timeline.specs.Lanes.{call_end};
ghost use Rattle.jh_timeline.specs.declared.picture.Call.{Call};
ghost use Rattle.jh_timeline_marks.specs.Marked as rule;
ghost use Rattle.jh_timeline_marks.specs.Marked.{marks_by};
ghost use Rattle.jh_timeline_marks.specs.MarkedInside.{AreSorted, found_note_with, is_lost_with};

use crate::notes::{no_marks, noted, push_note};
use crate::operations::is_completed_at;
use crate::values::{begins_with_one_of, ends_with_one_of, sorted_copies, sorted_missing};
use jh_check::{SetFound, final_read, sorted_values};
use jh_edn::Value;
use jh_ops::{Kind, Op};
use jh_timeline::{Call, Mark, Note};
use std::alloc::{AllocError, Global};

/// What is found of a set, where calls are looked up in it. Values are in normal order.
#[derive(Drop)]
struct Elements {
    lost: Vec<Value>,
    /// What of this was not acknowledged before the last read.
    late: Vec<Value>,
    recovered: Vec<Value>,
    /// Where the last read is completed, if one happened.
    read: Option<usize>,
    /// Whether it shows what nobody tried to add.
    is_unexpected: bool,
}

/// Where the last read that happened is completed.
fn final_read_at(history: &[Op]) -> Option<usize>
    ensures { result ≡ option_map (λ read. read.0) (final_read (operations history.now)) }
{
    let (place, _read) = final_read(history)?;
    Some(place)
}

/// The records before an index, and all where there is none.
fn records_before(history: &[Op], index: Option<usize>) -> &[Op]
    ensures { result.now ≡ option_map_or (λ place. take place history.now) index history.now }
{
    match index {
        Some(end) => &history[..end.min(history.len())],
        None => history,
    }
}

/// What is lost and was not acknowledged before the last read.
fn late_losses(
    alloc: Global,
    found: &SetFound,
    history: &[Op],
    read: Option<usize>,
) -> Result<Vec<Value>, AllocError>
    requires { read ≡ option_map (λ one. one.0) (final_read (operations history.now)) }
    ensures order { IfOk result (λ late. views late.items
        ≡ in_order is_below (rule.late_losses found.now (operations history.now))) }
    ensures ascends { IfOk result (λ late. Ascends (views late.items)) }
{
    let acknowledged = sorted_values(alloc, Kind::Ok, "add", records_before(history, read))?;
    sorted_missing(alloc, found.lost.as_slice(), &acknowledged)
}

/// What is found of a set.
fn elements_of(alloc: Global, found: &SetFound, history: &[Op]) -> Result<Elements, AllocError>
    ensures sorted { IfOk result AreSorted }
    ensures notes { IfOk result
        (λ elements. (call : Call) → found_note_with elements (operations history.now) call
        ≡ rule.found_note found.now (operations history.now) call) }
{
    let read = final_read_at(history);
    let lost = sorted_copies(alloc, found.lost.as_slice())?;
    let late = late_losses(alloc, found, history, read)?;
    let recovered = sorted_copies(alloc, found.recovered.as_slice())?;
    Ok(Elements {
        lost,
        late,
        recovered,
        read,
        is_unexpected: !found.unexpected.is_empty(),
    })
}

/// Whether a call ends before the last read, if there is one.
fn ends_before(read: Option<usize>, call: &Call) -> bool
    ensures { result ≡ option_map_or (λ index. nat_lt (call_end call.now) index) read true }
{
    match read {
        Some(index) => call.completion.unwrap_or(call.first) < index,
        None => true,
    }
}

/// Whether a call is completed where this is, if it is anywhere.
fn is_read_at(read: Option<usize>, call: &Call) -> bool
    ensures { result ≡ option_map_or (λ index. rule.is_completed_at index call.now) read false }
{
    match read {
        Some(index) => is_completed_at(index, call),
        None => false,
    }
}

/// Whether a call acknowledged what is lost: before the last read, or what was not acknowledged by
/// then.
fn is_lost(
    alloc: Global,
    elements: &Elements,
    history: &[Op],
    call: &Call,
) -> Result<bool, AllocError>
    requires { AreSorted elements.now }
    ensures { IfOk result
        (λ is. is ≡ is_lost_with elements.now (operations history.now) call.now) }
{
    let acknowledges = ends_with_one_of(alloc, "add", &elements.lost, history, call)?;
    if acknowledges && ends_before(elements.read, call) {
        return Ok(true);
    }
    ends_with_one_of(alloc, "add", &elements.late, history, call)
}

/// The note of a call, by what is found.
fn found_note(
    alloc: Global,
    elements: &Elements,
    history: &[Op],
    call: &Call,
) -> Result<Option<Note>, AllocError>
    requires { AreSorted elements.now }
    ensures { IfOk result
        (λ note. note ≡ found_note_with elements.now (operations history.now) call.now) }
{
    if is_lost(alloc, elements, history, call)? {
        return Ok(Some(Note::Lost));
    }
    if begins_with_one_of(alloc, "add", &elements.recovered, history, call)? {
        return Ok(Some(Note::Recovered));
    }
    let is_shown = elements.is_unexpected && is_read_at(elements.read, call);
    Ok(noted(is_shown, Note::Unexpected))
}

/// Marks at calls that acknowledged what is lost or tried to add what is recovered, and at the read
/// that shows what nobody tried to add.
fn found_marks(
    alloc: Global,
    found: &SetFound,
    history: &[Op],
    calls: &[Call],
) -> Result<Vec<Mark>, AllocError>
    ensures { IfOk result (λ marks. marks.items
        ≡ marks_by (rule.found_note found.now (operations history.now)) calls.now) }
{
    let elements = elements_of(alloc, found, history)?;
    let mut marks = Vec::new(alloc);
    for (number, call) in calls.iter().enumerate() {
        let note = found_note(alloc, &elements, history, call)?;
        push_note(note, number, &mut marks)?;
    }
    Ok(marks)
}

/// The marks of what is found of a set, if it was read.
pub(crate) fn set_marks(
    alloc: Global,
    found: &Option<SetFound>,
    history: &[Op],
    calls: &[Call],
) -> Result<Vec<Mark>, AllocError>
    ensures { IfOk result (λ marks. marks.items
        ≡ marks_by (rule.set_note found.now (operations history.now)) calls.now) }
{
    match found {
        Some(given) => found_marks(alloc, given, history, calls),
        None => Ok(no_marks(alloc, calls)),
    }
}
