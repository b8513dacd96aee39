//! Operations that no order can have, whatever the others are.

ghost use Rattle.std.specs.Prelude.{◌≡◌, ◌<◌, ◌↔◌, ℕ, Some, IsTrue, MatchOption, length};
ghost use Rattle.jh_fifo.specs.Judged.{IsFifoReason, IsTimelyAt, IsUnsure};
ghost use Rattle.jh_fifo.specs.Order.{PrecedesOp};
ghost use Rattle.jh_fifo.specs.Reasons.{Dequeues, EndsTooSoon};
ghost use Rattle.jh_fifo.specs.Tables.{IsTable};
ghost use Rattle.jh_fifo.specs.declared.tables.Side.TheVariants.{In};

use crate::operations::{FifoCall, FifoOp};
use crate::tables::place_of;
use crate::verdict::FifoReason;
use std::collections::BTreeMap;

/// Whether an operation is no enqueue, and it is not known whether it happened.
fn is_unsure(ops: &[FifoOp], place: usize) -> bool
    requires { place < length ops.now }
    ensures { IsTrue result ↔ IsUnsure ops.now place }
{
    match ops[place].call {
        FifoCall::Enqueue(_) => false,
        FifoCall::Dequeue(_) | FifoCall::Empty => ops[place].ended.is_none(),
    }
}

/// The first operation that is no enqueue and not known to have happened.
pub(crate) fn find_unsure(ops: &[FifoOp]) -> Option<usize>
    ensures { MatchOption result ((place : ℕ) → place < length ops.now → IsUnsure ops.now place → ⊥)
        (λ place. (place < length ops.now) × IsUnsure ops.now place) }
{
    for place in 0..ops.len() {
        if is_unsure(ops, place) {
            return Some(place);
        }
    }
    None
}

/// Whether an operation ended before another was invoked.
fn precedes(ops: &[FifoOp], first: usize, second: usize) -> bool
    requires first { first < length ops.now }
    requires second { second < length ops.now }
    ensures { IsTrue result ↔ PrecedesOp ops.now first second }
{
    match ops[first].ended {
        Some(end) => end < ops[second].invoked,
        None => false,
    }
}

/// The first operation that ended before it was invoked.
pub(crate) fn find_backwards(ops: &[FifoOp]) -> Option<usize>
    ensures { MatchOption result ((place : ℕ) → place < length ops.now → EndsTooSoon ops.now place → ⊥)
        (λ place. EndsTooSoon ops.now place) }
{
    for place in 0..ops.len() {
        if precedes(ops, place, place) {
            return Some(place);
        }
    }
    None
}

/// What is wrong with a dequeue by the enqueue of its value.
fn early_at(ops: &[FifoOp], place: usize, enqueues: &BTreeMap<usize, usize>) -> Option<FifoReason>
    requires place { place < length ops.now }
    requires table { IsTable ops.now In (length ops.now) enqueues.now }
    ensures { MatchOption result (IsTimelyAt ops.now place) (IsFifoReason ops.now) }
{
    match ops[place].call {
        FifoCall::Enqueue(_) | FifoCall::Empty => None,
        FifoCall::Dequeue(value) => match place_of(enqueues, value) {
            None => Some(FifoReason::NeverEnqueued(place)),
            Some(enqueue) => {
                if precedes(ops, place, enqueue) {
                    Some(FifoReason::DequeuedBeforeEnqueued(place, enqueue))
                } else {
                    None
                }
            }
        },
    }
}

/// The first dequeue whose value nothing enqueues, or which ended before its enqueue was invoked.
pub(crate) fn find_early(ops: &[FifoOp], enqueues: &BTreeMap<usize, usize>) -> Option<FifoReason>
    requires { IsTable ops.now In (length ops.now) enqueues.now }
    ensures { MatchOption result ((place : ℕ) → place < length ops.now → IsTimelyAt ops.now place)
        (IsFifoReason ops.now) }
{
    for place in 0..ops.len() {
        if let Some(reason) = early_at(ops, place, enqueues) {
            return Some(reason);
        }
    }
    None
}
