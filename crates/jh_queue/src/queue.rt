//! The checker of a queue. `specs/Queue.antt` has the rule.

ghost use Rattle.std.specs.Prelude.{◌≡◌, ◌<◌, IfOk, MatchResult, Some, length, slice_get};
ghost use Rattle.jh_ops.specs.Operation.{operation, operations};
ghost use Rattle.jh_ops.specs.Pairing.{IsWellFormed};
ghost use Rattle.jh_queue.specs.Queue as rule;
ghost use Rattle.jh_queue.specs.Queue.{IsQueueResult, IsResultOf, RefusesQueue};
ghost use Rattle.jh_queue.specs.QueueInside as inside;
ghost use Rattle.jh_queue.specs.QueueInside.{ArePassagesInOrder, IsFirstWithNone, passages};

use crate::passages::{ValueAt, dequeues, enqueues, finds_none, in_passage_order};
use jh_check::CheckError;
use jh_ops::{Op, Pair, pair};
use std::alloc::{AllocError, Global};

/// What the checker of a queue says of a history.
#[derive(Debug, Drop)]
pub enum QueueResult {
    /// Each dequeue that happened comes from an enqueue: how many there are.
    Dequeued(usize),
    /// The first dequeue that comes from none.
    First {
        /// Where in the history it is completed.
        place: usize,
        /// Its completion, as the history has it.
        completion: Op,
    },
}

/// The first place so far at which no enqueue is found, once one more place was looked at.
fn first_with(first: Option<usize>, none: bool, place: usize) -> Option<usize>
    ensures { result ≡ inside.first_with first none place }
{
    if !none {
        return first;
    }
    match first {
        None => Some(place),
        Some(known) => {
            if known <= place {
                Some(known)
            } else {
                Some(place)
            }
        }
    }
}

/// The place of the first dequeue that finds no enqueue, if there is one.
///
/// Takes O(n log n) comparisons for n passages.
fn first_without(ins: &[ValueAt], outs: &[ValueAt]) -> Option<usize>
    requires ins { ArePassagesInOrder ins.now }
    requires outs { ArePassagesInOrder outs.now }
    ensures { IsFirstWithNone (rule.finds_none (passages ins.now) (passages outs.now))
        (passages outs.now) result }
{
    let mut first = None;
    for out in outs {
        first = first_with(first, finds_none(ins, outs, out), out.place);
    }
    first
}

/// A copy of the operation at a place.
fn copy_at(alloc: Global, history: &[Op], place: usize) -> Result<Op, AllocError>
    requires { place < length history.now }
    ensures { IfOk result (λ copy. slice_get (operations history.now) place
        ≡ Some (operation copy)) }
{
    history[place].copy(alloc)
}

/// What the checker says of a history with these operations.
fn judged(alloc: Global, history: &[Op], pairs: &[Pair]) -> Result<QueueResult, AllocError>
    ensures { IfOk result (IsResultOf (operations history.now) pairs.now) }
{
    let ins = in_passage_order(enqueues(alloc, history, pairs)?)?;
    let outs = in_passage_order(dequeues(alloc, history, pairs)?)?;
    match first_without(&ins, &outs) {
        Some(place) => Ok(QueueResult::First {
            place,
            completion: copy_at(alloc, history, place)?,
        }),
        None => Ok(QueueResult::Dequeued(outs.len())),
    }
}

/// Judges the history of a queue, whose clients `:enqueue` and `:dequeue` an element each (Jepsen's
/// checker `queue`).
///
/// Operations of the nemesis are left out. Each dequeue that is `:ok`, in the order of completions,
/// takes an enqueue of an equal value that was invoked before it completed and does not fail, also
/// where it fails later, one for one. An enqueue has the value of its invocation, a dequeue that of
/// its completion, and values are equal as EDN says. In which order values come out is not judged.
///
/// Errors: `Pair` where the operations do not pair; then `OutOfMemory`.
///
/// Takes O(n log n) comparisons for n operations.
pub fn check_queue(alloc: Global, history: &[Op]) -> Result<QueueResult, CheckError>
    ensures { MatchResult result
        (λ found. IsWellFormed (operations history.now)
        × IsQueueResult (operations history.now) found)
        (RefusesQueue (operations history.now)) }
{
    let pairs = pair(alloc, history)?;
    Ok(judged(alloc, history, &pairs)?)
}
