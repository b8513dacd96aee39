//! Spans in their turn, and the operations laid end to end.

ghost use Rattle.std.specs.Prelude.{◌≡◌, ◌≢◌, ◌<◌, ◌≤◌, ◌↔◌, ◌^◌, ℕ, List, IsTrue, IfOk, length};
ghost use Rattle.jh_fifo.specs.declared.operations.FifoCall.TheVariants.{Empty};
ghost use Rattle.jh_fifo.specs.declared.operations.FifoOp.{FifoOp};
ghost use Rattle.jh_fifo.specs.Layout.{IsLaid, CanGoThrough};
ghost use Rattle.jh_fifo.specs.Order.{IsFifoOrder};
ghost use Rattle.jh_fifo.specs.Reasons.{EnqueuedOnce, call_at};
ghost use Rattle.jh_fifo.specs.Times.{never};
ghost use Rattle.jh_fifo.specs.Spans.{span_at};

use crate::operations::{FifoCall, FifoOp};
use crate::spans::Span;
use std::alloc::{AllocError, Global};

/// The span of a number.
pub(crate) fn span_of(spans: &[Span], number: usize) -> Span
    requires { number < length spans.now }
    ensures { result ≡ span_at spans.now number }
{
    spans[number]
}

/// Whether an operation found the queue empty.
pub(crate) fn finds_empty(ops: &[FifoOp], place: usize) -> bool
    requires { place < length ops.now }
    ensures { IsTrue result ↔ (call_at ops.now place ≡ Empty) }
{
    match ops[place].call {
        FifoCall::Empty => true,
        FifoCall::Enqueue(_) | FifoCall::Dequeue(_) => false,
    }
}

/// Puts the dequeues of the spans from `gone` up to `come` into the order, as far as their values
/// can be taken out by the time `until`. The answer is the number of the first span that is still
/// in the queue.
fn let_go(
    order: &mut Vec<usize>,
    spans: &[Span],
    gone: usize,
    come: usize,
    until: u128,
) -> Result<usize, AllocError>
    requires bound { come ≤ length spans.now }
    requires turn { gone ≤ come }
    ensures laid { IfOk result (λ still. (ops : List FifoOp) → EnqueuedOnce ops
        → CanGoThrough ops spans.now → until < never
        → ((later : ℕ) → come ≤ later → later < length spans.now
        → until ≤ (span_at spans.now later).from)
        → IsLaid ops spans.now gone come order.old.items
        → IsLaid ops spans.now still come order.new.items) }
    ensures waits { IfOk result (λ still. still < come → until < (span_at spans.now still).leaving) }
    ensures bound { IfOk result (λ still. still ≤ come) }
{
    for number in gone..come {
        let span = span_of(spans, number);
        if until < span.leaving {
            return Ok(number);
        }
        if let Some(dequeue) = span.dequeue {
            order.push(dequeue)?;
        }
    }
    Ok(come)
}

/// All operations of spans that stand in their turn, in an order.
pub(crate) fn order_of(
    alloc: Global,
    ops: &[FifoOp],
    spans: &[Span],
) -> Result<Vec<usize>, AllocError>
    requires once { EnqueuedOnce ops.now }
    requires turn { CanGoThrough ops.now spans.now }
    ensures { IfOk result (λ order. IsFifoOrder ops.now order.items) }
{
    let mut order = Vec::new(alloc);
    let mut gone = 0;
    for come in 0..spans.len() {
        let span = span_of(spans, come);
        gone = let_go(&mut order, spans, gone, come, span.from)?;
        order.push(span.place)?;
        if finds_empty(ops, span.place) {
            gone = come + 1;
        }
    }
    let_go(&mut order, spans, gone, spans.len(), usize::MAX as u128)?;
    Ok(order)
}
