//! Whether the operations of a queue have an order.

ghost use Rattle.std.specs.Prelude.{◌≡◌, ◌<◌, ℕ, IfOk, length};
ghost use Rattle.jh_fifo.specs.Judged.{AreJudgedOps, AreSoundOps, IsFifoVerdict};
ghost use Rattle.jh_fifo.specs.Spans.{AreSpans};
ghost use Rattle.jh_fifo.specs.Tables.{IsTable};
ghost use Rattle.jh_fifo.specs.declared.tables.Side.TheVariants.{In, Out};

use crate::layout::{order_of, span_of};
use crate::moments::{Emptied, with_empties};
use crate::operations::FifoOp;
use crate::spans::Span;
use crate::tables::{Side, Table, table_of};
use crate::turn::{Turn, in_turn};
use crate::values::values_of;
use crate::verdict::{FifoReason, FifoVerdict};
use crate::wrong::{find_backwards, find_early, find_unsure};
use std::alloc::{AllocError, Global};
use std::collections::BTreeMap;

/// The verdict by all spans.
fn judge_spans(alloc: Global, ops: &[FifoOp], spans: &[Span]) -> Result<FifoVerdict, AllocError>
    requires sound { AreSoundOps ops.now }
    requires spans { AreSpans ops.now spans.now }
    ensures { IfOk result (IsFifoVerdict ops.now) }
{
    match in_turn(alloc, spans)? {
        Turn::Crossed(first, second) => {
            let one = span_of(spans, first).place;
            let other = span_of(spans, second).place;
            Ok(FifoVerdict::Invalid(FifoReason::OutOfOrder(one, other)))
        }
        Turn::All(turn) => Ok(FifoVerdict::Valid(order_of(alloc, ops, &turn)?)),
    }
}

/// The verdict where no operation is wrong by itself or with one other of its value.
fn judge_sound(
    alloc: Global,
    ops: &[FifoOp],
    dequeues: &BTreeMap<usize, usize>,
) -> Result<FifoVerdict, AllocError>
    requires sound { AreSoundOps ops.now }
    requires table { IsTable ops.now Out (length ops.now) dequeues.now }
    ensures { IfOk result (IsFifoVerdict ops.now) }
{
    let values = values_of(alloc, ops, dequeues)?;
    match with_empties(alloc, ops, &values)? {
        Emptied::Never(place) => Ok(FifoVerdict::Invalid(FifoReason::NeverEmpty(place))),
        Emptied::All(spans) => judge_spans(alloc, ops, &spans),
    }
}

/// The verdict on operations that are judged.
fn judge_fit(
    alloc: Global,
    ops: &[FifoOp],
    enqueues: &BTreeMap<usize, usize>,
) -> Result<FifoVerdict, AllocError>
    requires fit { AreJudgedOps ops.now }
    requires table { IsTable ops.now In (length ops.now) enqueues.now }
    ensures { IfOk result (IsFifoVerdict ops.now) }
{
    if let Some(place) = find_backwards(ops) {
        return Ok(FifoVerdict::Invalid(FifoReason::EndedBeforeInvoked(place)));
    }
    if let Some(reason) = find_early(ops, enqueues) {
        return Ok(FifoVerdict::Invalid(reason));
    }
    match table_of(alloc, ops, Side::Out)? {
        Table::Twice(first, second) => {
            Ok(FifoVerdict::Invalid(FifoReason::DequeuedTwice(first, second)))
        }
        Table::Once(dequeues) => judge_sound(alloc, ops, &dequeues),
    }
}

/// Whether the operations of a queue have an order: one, or the reason why there is none.
///
/// Operations are given in any order, and numbered by their places in the list. Each value is to
/// be enqueued by one of them at most, and of each dequeue it is to be known that it happened: else
/// the verdict names two operations that enqueue one value (`EnqueuedTwice`), or a dequeue that is not
/// known to have happened (`UnknownDequeue`).
///
/// Errors: out of memory.
///
/// Takes time in the order of n log n for n operations, and memory linear in them.
pub fn judge_fifo(alloc: Global, ops: &[FifoOp]) -> Result<FifoVerdict, AllocError>
    ensures { IfOk result (IsFifoVerdict ops.now) }
{
    if let Some(place) = find_unsure(ops) {
        return Ok(FifoVerdict::UnknownDequeue(place));
    }
    match table_of(alloc, ops, Side::In)? {
        Table::Twice(first, second) => Ok(FifoVerdict::EnqueuedTwice(first, second)),
        Table::Once(enqueues) => judge_fit(alloc, ops, &enqueues),
    }
}
