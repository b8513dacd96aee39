//! Tables of which operation enqueues a value, and which one dequeues it.

ghost use Rattle.std.specs.Prelude.{◌≡◌, ℕ, IfOk, MatchOption};
ghost use Rattle.std.specs.BTreeMap.{get};
ghost use Rattle.std.specs.Ordering.{nat_cmp};
ghost use Rattle.jh_fifo.specs.Tables.{IsTableOf, MovesValue};

use crate::operations::{FifoCall, FifoOp, call_of};
use std::alloc::{AllocError, Global};
use std::collections::BTreeMap;

/// The end of the queue to which an operation belongs.
#[derive(Clone, Copy)]
pub(crate) enum Side {
    In,
    Out,
}

/// The place of each value, or two operations of one value.
#[derive(Drop)]
pub(crate) enum Table {
    Once(BTreeMap<usize, usize>),
    Twice(usize, usize),
}

/// The value that a call puts in, or takes out.
fn value_of(side: Side, call: FifoCall) -> Option<usize>
    ensures { MatchOption result ((value : ℕ) → MovesValue side value call → ⊥)
        (λ value. MovesValue side value call) }
{
    match side {
        Side::In => match call {
            FifoCall::Enqueue(value) => Some(value),
            FifoCall::Dequeue(_) | FifoCall::Empty => None,
        },
        Side::Out => match call {
            FifoCall::Dequeue(value) => Some(value),
            FifoCall::Enqueue(_) | FifoCall::Empty => None,
        },
    }
}

/// The place of a value, if it has one.
pub(crate) fn place_of(places: &BTreeMap<usize, usize>, value: usize) -> Option<usize>
    ensures { result ≡ get nat_cmp places.now value }
{
    places.get(&value).copied()
}

/// The operations of one side, by their values.
pub(crate) fn table_of(alloc: Global, ops: &[FifoOp], side: Side) -> Result<Table, AllocError>
    ensures { IfOk result (IsTableOf ops.now side) }
{
    let mut places = BTreeMap::new(alloc);
    for place in 0..ops.len() {
        if let Some(value) = value_of(side, call_of(ops, place)) {
            let old = places.insert(value, place)?;
            if let Some(first) = old {
                return Ok(Table::Twice(first, place));
            }
        }
    }
    Ok(Table::Once(places))
}
