//! When a value was put into the queue and taken out of it, at the earliest and at the latest.

ghost use Rattle.std.specs.Prelude.{◌≡◌, ◌<◌, ◌≤◌, ℕ, Some, length};
ghost use Rattle.jh_fifo.specs.Order.{fifo_op_at};
ghost use Rattle.jh_fifo.specs.Times.{end_or_never, never};

use crate::operations::FifoOp;

/// Past every place of a history.
pub(crate) const NEVER: u128 = 1 << 64;

/// An enqueue with the dequeue of its value, or a dequeue that found the queue empty. Times are
/// places of the history; `NEVER` is past all of them.
#[derive(Clone, Copy)]
pub(crate) struct Span {
    /// The place of the enqueue, or of the dequeue that found nothing.
    pub(crate) place: usize,
    /// The place of the dequeue of its value.
    pub(crate) dequeue: Option<usize>,
    /// The earliest time at which the value can have been put in.
    pub(crate) from: u128,
    /// The latest time at which it was put in.
    pub(crate) entered: u128,
    /// The earliest time at which it can have been taken out.
    pub(crate) leaving: u128,
    /// The latest time at which it was taken out; `NEVER` where it may still be there.
    pub(crate) left: u128,
}

/// Where an operation was invoked.
pub(crate) fn invoked_at(ops: &[FifoOp], place: usize) -> u128
    requires { place < length ops.now }
    ensures is { result ≡ (fifo_op_at ops.now place).invoked }
    ensures soon { result < never }
{
    ops[place].invoked as u128
}

/// Where an operation ended, or past every place.
pub(crate) fn end_at(ops: &[FifoOp], place: usize) -> u128
    requires { place < length ops.now }
    ensures is { result ≡ end_or_never (fifo_op_at ops.now place).ended }
    ensures high { result ≤ never }
    ensures told { (end : ℕ) → (fifo_op_at ops.now place).ended ≡ Some end → end < never }
{
    match ops[place].ended {
        Some(end) => end as u128,
        None => NEVER,
    }
}
