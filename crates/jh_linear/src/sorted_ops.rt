//! The operations of a register, sorted for the search. Those that are known to have happened are
//! sorted by their invocations, and once more by their ends, which make the stages. Those of
//! unknown outcome are sorted by their calls, which make the classes. `specs/SearchInside.antt`
//! says what holds of both (`AreDoneSorted`, `AreClasses`).

ghost use Rattle.std.specs.Prelude.{◌≡◌, ℕ, ◌<◌, ◌≤◌, ◌-◌, IfOk, length, map, slice_index_or};
ghost use Rattle.std.specs.Prelude.{true};
ghost use Rattle.jh_linear.specs.SearchInside.{AreDoneSorted, AreClasses, AreNumberEntries, DoNotFall};
ghost use Rattle.jh_linear.specs.SearchInside.{AreStages, AreClassesUpTo, IsUnsureChange};
ghost use Rattle.jh_linear.specs.SearchInside.{AreTwinEntries, arrival_entry, end_entry, unknown_entry};
ghost use Rattle.jh_linear.specs.SearchInside.{no_entry};
ghost use Rattle.jh_linear.specs.SearchInside.{no_call};
ghost use Rattle.jh_linear.specs.Order.{IsDone};
ghost use Rattle.jh_linear.specs.Stuck.{behind_all};
ghost use Rattle.std.specs.Prelude.{false};

use crate::register::{RegCall, RegOp, is_done, is_same, is_unsure_change, op_end};
use std::alloc::{AllocError, Global};

/// A stage of the search. There is one for each operation that is known to have happened, in the
/// order of their ends. It is passed when its operation is placed. The stages of a process by which
/// `jh_ops` makes pairs are no such stages.
#[derive(Clone, Copy, Debug)]
pub(crate) struct Stage {
    /// The number of its operation, which ended first of those that no earlier stage has.
    pub(crate) number: usize,
    /// How many of the operations that are known to have happened were invoked before that one
    /// ended.
    pub(crate) arrived: usize,
}

/// Operations of unknown outcome with the same call, from one index up to another, in the order of
/// their invocations. They are placed in this order, and that loses none: whichever of them took
/// effect first, the one that was invoked first could have taken effect in its place (`after_twin`
/// in `proofs/FollowLemmas.antt`).
#[derive(Clone, Copy, Debug)]
pub(crate) struct Class {
    pub(crate) from: usize,
    pub(crate) upto: usize,
}

/// The numbers of the operations, sorted as the search needs them.
#[derive(Drop)]
pub(crate) struct SortedOps {
    /// The operations that are known to have happened, in the order of their invocations.
    pub(crate) arrivals: Vec<usize>,
    /// The same operations in the order of their ends.
    pub(crate) stages: Vec<Stage>,
    /// The operations of unknown outcome that are tried, class by class.
    pub(crate) unsure_changes: Vec<usize>,
    /// The classes, from indexes of `unsure_changes` up to others.
    pub(crate) classes: Vec<Class>,
}

/// What a search is given: the operations, also sorted, with the first value and the budget.
#[derive(Drop)]
pub(crate) struct Problem<'a> {
    pub(crate) ops: &'a [RegOp],
    pub(crate) initial: Option<i64>,
    pub(crate) sorted: SortedOps,
    pub(crate) budget: u64,
}

/// The numbers of the operations that are known to have happened, each behind the place of its
/// invocation, and sorted by that.
fn arrivals_of(alloc: Global, ops: &[RegOp]) -> Result<Vec<(usize, usize)>, AllocError>
    ensures entries { IfOk result (λ entries.
        AreNumberEntries (IsDone ops.now) (arrival_entry ops.now) (λ x. x.1)
        (length ops.now) entries.items) }
    ensures rises { IfOk result (λ entries. DoNotFall entries.items) }
{
    let mut arrivals = Vec::new(alloc);
    for (number, op) in ops.iter().enumerate() {
        if is_done(*op) {
            arrivals.push((op.invoked, number))?;
        }
    }
    arrivals.sort()?;
    Ok(arrivals)
}

/// The numbers of the operations that are known to have happened, each behind the place of its end,
/// and sorted by that.
fn ends_of(alloc: Global, ops: &[RegOp]) -> Result<Vec<(usize, usize)>, AllocError>
    ensures entries { IfOk result (λ entries.
        AreNumberEntries (IsDone ops.now) (end_entry ops.now) (λ x. x.1)
        (length ops.now) entries.items) }
    ensures rises { IfOk result (λ entries. DoNotFall entries.items) }
{
    let mut ends = Vec::new(alloc);
    for (number, op) in ops.iter().enumerate() {
        if is_done(*op) {
            ends.push((op_end(*op), number))?;
        }
    }
    ends.sort()?;
    Ok(ends)
}

/// The numbers of the operations of unknown outcome that are tried, each behind its call and the
/// place of its invocation. They are sorted, so that operations with the same call are neighbours.
/// In which order the calls come does not matter.
fn unknown_of(alloc: Global, ops: &[RegOp]) -> Result<Vec<(RegCall, usize, usize)>, AllocError>
    ensures { IfOk result (λ entries.
        AreNumberEntries (IsUnsureChange ops.now) (unknown_entry ops.now) (λ x. x.2)
        (length ops.now) entries.items) }
{
    let mut unknown = Vec::new(alloc);
    for (number, op) in ops.iter().enumerate() {
        if is_unsure_change(*op) {
            unknown.push((op.call, op.invoked, number))?;
        }
    }
    unknown.sort()?;
    Ok(unknown)
}

/// Whether the second of two neighbouring entries belongs to the class of the first.
fn are_twins(first: (RegCall, usize, usize), second: (RegCall, usize, usize)) -> bool
    ensures { result ≡ true → AreTwinEntries first second }
{
    is_same(first.0, second.0) && first.1 <= second.1
}

/// Whether a class ends in front of an index: there is no entry, or one that begins another class.
fn ends_at(entries: &[(RegCall, usize, usize)], index: usize) -> bool
    requires { 0 < index }
    ensures { result ≡ false → (index < length entries.now)
        × AreTwinEntries (slice_index_or entries.now (index - 1) no_call)
        (slice_index_or entries.now index no_call) }
{
    index >= entries.len() || !are_twins(entries[index - 1], entries[index])
}

/// The classes of sorted entries.
fn classes_of(alloc: Global, entries: &[(RegCall, usize, usize)]) -> Result<Vec<Class>, AllocError>
    ensures { IfOk result
        (λ classes. AreClassesUpTo entries.now classes.items (length entries.now)) }
{
    let mut classes = Vec::new(alloc);
    let mut from = 0;
    for index in 0..entries.len() {
        let upto = index + 1;
        if ends_at(entries, upto) {
            classes.push(Class { from, upto })?;
            from = upto;
        }
    }
    Ok(classes)
}

/// The numbers of the operations in entries, which are the second of each.
fn numbers_of(alloc: Global, entries: &[(usize, usize)]) -> Result<Vec<usize>, AllocError>
    ensures { IfOk result (λ numbers. numbers.items ≡ map (λ x. x.1) entries.now) }
{
    let mut numbers = Vec::with_capacity(alloc, entries.len())?;
    for entry in entries {
        numbers.push(entry.1)?;
    }
    Ok(numbers)
}

/// The numbers of the operations in entries, which are the last of each.
fn unsure_numbers(
    alloc: Global,
    entries: &[(RegCall, usize, usize)],
) -> Result<Vec<usize>, AllocError>
    ensures { IfOk result (λ numbers. numbers.items ≡ map (λ x. x.2) entries.now) }
{
    let mut numbers = Vec::with_capacity(alloc, entries.len())?;
    for entry in entries {
        numbers.push(entry.2)?;
    }
    Ok(numbers)
}

/// How many of the invocations are not after an end. The search for it begins at a number of which
/// that is known already.
fn arrived_by(invocations: &[(usize, usize)], end: usize, from: usize) -> usize
    requires from { from ≤ length invocations.now }
    requires before { (i : ℕ) → i < from → (slice_index_or invocations.now i no_entry).0 ≤ end }
    ensures bounded { result ≤ length invocations.now }
    ensures before { (i : ℕ) → i < result → (slice_index_or invocations.now i no_entry).0 ≤ end }
    ensures after { result < length invocations.now
        → (end < (slice_index_or invocations.now result no_entry).0) × (end < behind_all) }
{
    let mut arrived = from;
    'arriving: while arrived < invocations.len() && invocations[arrived].0 <= end {
        arrived += 1;
    }
    arrived
}

/// The stages: one for each end.
fn stages_of(
    alloc: Global,
    invocations: &[(usize, usize)],
    ends: &[(usize, usize)],
) -> Result<Vec<Stage>, AllocError>
    requires { DoNotFall ends.now }
    ensures { IfOk result (λ stages. AreStages invocations.now ends.now stages.items) }
{
    let mut stages = Vec::with_capacity(alloc, ends.len())?;
    let mut arrived = 0;
    'ending: for entry in ends {
        arrived = arrived_by(invocations, entry.0, arrived);
        stages.push(Stage {
            number: entry.1,
            arrived,
        })?;
    }
    Ok(stages)
}

/// Sorts operations for the search.
pub(crate) fn sort_ops(alloc: Global, ops: &[RegOp]) -> Result<SortedOps, AllocError>
    ensures done { IfOk result
        (λ sorted. AreDoneSorted ops.now sorted.arrivals.items sorted.stages.items) }
    ensures classes { IfOk result
        (λ sorted. AreClasses ops.now sorted.unsure_changes.items sorted.classes.items) }
{
    let invocations = arrivals_of(alloc, ops)?;
    let ends = ends_of(alloc, ops)?;
    let entries = unknown_of(alloc, ops)?;
    let arrivals = numbers_of(alloc, invocations.as_slice())?;
    let stages = stages_of(alloc, invocations.as_slice(), ends.as_slice())?;
    let unsure_changes = unsure_numbers(alloc, entries.as_slice())?;
    let classes = classes_of(alloc, entries.as_slice())?;
    Ok(SortedOps {
        arrivals,
        stages,
        unsure_changes,
        classes,
    })
}
