//! The spans of the values that were in the queue.

ghost use Rattle.std.specs.Prelude.{◌≡◌, ◌<◌, ℕ, None, Some, IfOk, MatchOption, length};
ghost use Rattle.jh_fifo.specs.Judged.{AreSoundOps};
ghost use Rattle.jh_fifo.specs.Order.{IsKnownDone};
ghost use Rattle.jh_fifo.specs.Reasons.{Dequeues, Enqueues};
ghost use Rattle.jh_fifo.specs.Spans.{AreValues, IsSpanAt, IsUntoldEnqueue};
ghost use Rattle.jh_fifo.specs.Tables.{IsTable};
ghost use Rattle.jh_fifo.specs.declared.tables.Side.TheVariants.{Out};

use crate::operations::{FifoCall, FifoOp};
use crate::spans::{NEVER, Span, end_at, invoked_at};
use crate::tables::place_of;
use std::alloc::{AllocError, Global};
use std::collections::BTreeMap;

/// The span of a value that was dequeued.
fn taken_span(ops: &[FifoOp], place: usize, dequeue: usize) -> Span
    requires sound { AreSoundOps ops.now }
    requires place { place < length ops.now }
    requires dequeue { dequeue < length ops.now }
    requires value { (value : ℕ) × Enqueues ops.now value place × Dequeues ops.now value dequeue }
    ensures { IsSpanAt ops.now place result }
{
    let from = invoked_at(ops, place);
    let left = end_at(ops, dequeue);
    Span {
        place,
        dequeue: Some(dequeue),
        from,
        entered: end_at(ops, place).min(left),
        leaving: from.max(invoked_at(ops, dequeue)),
        left,
    }
}

/// The span of a value that was not dequeued.
fn kept_span(ops: &[FifoOp], place: usize) -> Span
    requires sound { AreSoundOps ops.now }
    requires place { place < length ops.now }
    requires done { IsKnownDone ops.now place }
    requires value { (value : ℕ) × Enqueues ops.now value place
        × ((dequeue : ℕ) → Dequeues ops.now value dequeue → ⊥) }
    ensures { IsSpanAt ops.now place result }
{
    Span {
        place,
        dequeue: None,
        from: invoked_at(ops, place),
        entered: end_at(ops, place),
        leaving: NEVER,
        left: NEVER,
    }
}

/// The span of what an operation enqueues, if that is known to have been in the queue.
fn span_for(ops: &[FifoOp], place: usize, dequeues: &BTreeMap<usize, usize>) -> Option<Span>
    requires sound { AreSoundOps ops.now }
    requires place { place < length ops.now }
    requires table { IsTable ops.now Out (length ops.now) dequeues.now }
    ensures { MatchOption result (IsUntoldEnqueue ops.now place) (IsSpanAt ops.now place) }
{
    let FifoCall::Enqueue(value) = ops[place].call else {
        return None;
    };
    match place_of(dequeues, value) {
        Some(dequeue) => Some(taken_span(ops, place, dequeue)),
        None => match ops[place].ended {
            Some(_) => Some(kept_span(ops, place)),
            None => None,
        },
    }
}

/// The spans of all values that are known to have been in the queue.
pub(crate) fn values_of(
    alloc: Global,
    ops: &[FifoOp],
    dequeues: &BTreeMap<usize, usize>,
) -> Result<Vec<Span>, AllocError>
    requires sound { AreSoundOps ops.now }
    requires table { IsTable ops.now Out (length ops.now) dequeues.now }
    ensures { IfOk result (λ spans. AreValues ops.now spans.items) }
{
    let mut spans = Vec::new(alloc);
    for place in 0..ops.len() {
        if let Some(span) = span_for(ops, place, dequeues) {
            spans.push(span)?;
        }
    }
    Ok(spans)
}
