//! For each dequeue that found the queue empty a place of the history, while it ran, at which the queue can
//! have been empty: no value was certainly put in before and certainly not yet taken out.

ghost use Rattle.std.specs.Prelude.{◌≡◌, ◌<◌, ◌≤◌, ◌↔◌, ℕ, None, Some, IfOk, IsTrue, length, map, max};
ghost use Rattle.jh_fifo.specs.Moments.{EmptiesAreDone, IsCovered, IsEmptied, IsFree, IsSwept};
ghost use Rattle.jh_fifo.specs.Order.{IsOverBefore, fifo_op_at};
ghost use Rattle.jh_fifo.specs.Reasons.{TakenOnce};
ghost use Rattle.jh_fifo.specs.Sorted.{AreSortedKeys};
ghost use Rattle.jh_fifo.specs.Spans.{AreValues};
ghost use Rattle.jh_fifo.specs.Times.{never};

use crate::layout::{finds_empty, span_of};
use crate::operations::FifoOp;
use crate::sorted::{index_at, sorted};
use crate::spans::{Span, end_at, invoked_at};
use crate::turn::by_entered;
use std::alloc::{AllocError, Global};

/// The spans of all values and of all dequeues that found the queue empty, or the place of one
/// that can't have.
#[derive(Drop)]
pub(crate) enum Emptied {
    All(Vec<Span>),
    Never(usize),
}

/// How many spans have been gone through, and the place of the history that they were gone through
/// for.
#[derive(Clone, Copy)]
struct Sweep {
    passed: usize,
    at: u128,
}

/// The first place of the history, from one on, at which the queue can have been empty.
fn first_free(values: &[Span], entered: &[(u128, usize)], sweep: Sweep) -> Sweep
    requires sorted { AreSortedKeys (map (λ span. span.entered) values.now) entered.now }
    requires swept { IsSwept values.now entered.now sweep.passed sweep.at }
    ensures later { sweep.at ≤ result.at }
    ensures covered { (at : ℕ) → sweep.at ≤ at → at < result.at → IsCovered values.now at }
    ensures free { IsFree values.now result.at }
    ensures swept { IsSwept values.now entered.now result.passed result.at }
{
    let mut at = sweep.at;
    for number in sweep.passed..entered.len() {
        let span = span_of(values, index_at(entered, number));
        if at <= span.entered {
            return Sweep { passed: number, at };
        }
        at = at.max(span.leaving);
    }
    Sweep {
        passed: entered.len(),
        at,
    }
}

/// The same sweep, moved on to the invocation of an operation where that is later.
fn no_earlier(sweep: Sweep, ops: &[FifoOp], place: usize) -> Sweep
    requires { place < length ops.now }
    ensures passed { result.passed ≡ sweep.passed }
    ensures at { result.at ≡ max sweep.at (fifo_op_at ops.now place).invoked }
{
    Sweep {
        at: sweep.at.max(invoked_at(ops, place)),
        ..sweep
    }
}

/// Whether an operation ended before a place of the history.
fn is_over(ops: &[FifoOp], place: usize, at: u128) -> bool
    requires { place < length ops.now }
    ensures over { IsTrue result ↔ IsOverBefore (fifo_op_at ops.now place).ended at }
    ensures told { (end : ℕ) → (fifo_op_at ops.now place).ended ≡ Some end → end < never }
{
    ops[place].ended.is_some() && end_at(ops, place) < at
}

/// The span of a dequeue that found the queue empty.
fn empty_span(place: usize, at: u128) -> Span
    ensures { result ≡ record { place = place; dequeue = None; from = at; entered = at; leaving = at; left = at } }
{
    Span {
        place,
        dequeue: None,
        from: at,
        entered: at,
        leaving: at,
        left: at,
    }
}

/// The operations by when they were invoked.
fn by_invoked(alloc: Global, ops: &[FifoOp]) -> Result<Vec<(u128, usize)>, AllocError>
    ensures { IfOk result (λ entries. AreSortedKeys (map (λ op. op.invoked) ops.now) entries.items) }
{
    let keys = ops
        .iter()
        .map(|op| op.invoked as u128)
        .collect::<Vec<u128>>(alloc)?;
    sorted(alloc, &keys)
}

/// Adds to the spans of all values those of the dequeues that found the queue empty, as they were
/// invoked.
fn fill(
    ops: &[FifoOp],
    values: &[Span],
    entered: &[(u128, usize)],
    invoked: &[(u128, usize)],
    spans: Vec<Span>,
) -> Result<Emptied, AllocError>
    requires once { TakenOnce ops.now }
    requires done { EmptiesAreDone ops.now }
    requires values { AreValues ops.now values.now }
    requires entered { AreSortedKeys (map (λ span. span.entered) values.now) entered.now }
    requires invoked { AreSortedKeys (map (λ op. op.invoked) ops.now) invoked.now }
    requires spans { spans.items ≡ values.now }
    ensures { IfOk result (IsEmptied ops.now) }
{
    let mut spans = spans;
    let mut sweep = Sweep { passed: 0, at: 0 };
    for number in 0..invoked.len() {
        let place = index_at(invoked, number);
        if finds_empty(ops, place) {
            sweep = first_free(values, entered, no_earlier(sweep, ops, place));
            if is_over(ops, place, sweep.at) {
                return Ok(Emptied::Never(place));
            }
            spans.push(empty_span(place, sweep.at))?;
        }
    }
    Ok(Emptied::All(spans))
}

/// The same spans once more.
fn copies_of(alloc: Global, spans: &[Span]) -> Result<Vec<Span>, AllocError>
    ensures { IfOk result (λ copies. copies.items ≡ spans.now) }
{
    spans.iter().copied().collect(alloc)
}

/// The spans of values with those of all dequeues that found the queue empty, or one that can't
/// have.
pub(crate) fn with_empties(
    alloc: Global,
    ops: &[FifoOp],
    values: &[Span],
) -> Result<Emptied, AllocError>
    requires once { TakenOnce ops.now }
    requires done { EmptiesAreDone ops.now }
    requires values { AreValues ops.now values.now }
    ensures { IfOk result (IsEmptied ops.now) }
{
    let entered = by_entered(alloc, values)?;
    let invoked = by_invoked(alloc, ops)?;
    let spans = copies_of(alloc, values)?;
    fill(ops, values, &entered, &invoked, spans)
}
