//! What an order of a register is, as a plain slow program, straight from its definition: every
//! order is tried.

use jh_linear::{OrderFault, Outcome, RegCall, RegOp};
use std::alloc::{AllocError, Global};

/// Whether the first operation happened, and ended before the second was invoked.
fn is_before(first: RegOp, second: RegOp) -> bool {
    first.outcome == Outcome::Done && first.ended.is_some_and(|end| end < second.invoked)
}

/// What the register holds after a call.
fn after(call: RegCall, value: Option<i64>) -> Option<Option<i64>> {
    match call {
        RegCall::Read(None) => Some(value),
        RegCall::Read(seen) => (seen == value).then_some(value),
        RegCall::Write(new) => Some(Some(new)),
        RegCall::Cas(old, new) => (value == Some(old)).then_some(Some(new)),
    }
}

/// Whether no place stands there twice.
fn are_apart(order: &[usize]) -> bool {
    for (index, place) in order.iter().enumerate() {
        for (other, again) in order.iter().enumerate() {
            if index != other && place == again {
                return false;
            }
        }
    }
    true
}

/// Whether each place is that of an operation that did not fail.
fn none_failed(ops: &[RegOp], order: &[usize]) -> bool {
    order.iter().all(|place| match ops.get(*place) {
        Some(op) => op.outcome != Outcome::Failed,
        None => false,
    })
}

/// Whether all that happened is among the places.
fn all_done(ops: &[RegOp], order: &[usize]) -> bool {
    for (place, op) in ops.iter().enumerate() {
        if op.outcome == Outcome::Done && !order.contains(&place) {
            return false;
        }
    }
    true
}

/// Whether what ended before another was invoked stands before that one, of any two in the order.
fn keeps_precedence(ops: &[RegOp], order: &[usize]) -> bool {
    for (index, place) in order.iter().enumerate() {
        for (other, later) in order.iter().enumerate() {
            if let (Some(first), Some(second)) = (ops.get(*later), ops.get(*place)) {
                if index < other && is_before(*first, *second) {
                    return false;
                }
            }
        }
    }
    true
}

/// What the register holds after these operations, where they run.
pub fn value_after(ops: &[RegOp], initial: Option<i64>, order: &[usize]) -> Option<Option<i64>> {
    let mut value = initial;
    for place in order {
        value = after(ops.get(*place)?.call, value)?;
    }
    Some(value)
}

/// What is wrong with an order, part by part.
pub fn judged_slowly(
    ops: &[RegOp],
    initial: Option<i64>,
    order: &[usize],
) -> Result<(), OrderFault> {
    if !order.iter().all(|place| *place < ops.len()) {
        Err(OrderFault::NoSuch)
    } else if !are_apart(order) {
        Err(OrderFault::Repeat)
    } else if !none_failed(ops, order) {
        Err(OrderFault::Failed)
    } else if !all_done(ops, order) {
        Err(OrderFault::Missing)
    } else if !keeps_precedence(ops, order) {
        Err(OrderFault::Precedence)
    } else if value_after(ops, initial, order).is_none() {
        Err(OrderFault::Illegal)
    } else {
        Ok(())
    }
}

/// Whether what happened ended at this place of the history, some of it.
pub fn ends_at(ops: &[RegOp], end: usize) -> bool {
    ops.iter()
        .any(|op| op.outcome == Outcome::Done && op.ended == Some(end))
}

/// What the first so many places of a history show of an operation.
fn op_in(count: usize, op: RegOp) -> RegOp {
    let is_there = op.invoked < count;
    let is_over = op.ended.is_some_and(|end| end < count);
    let outcome = match op.outcome {
        Outcome::Done if is_there && is_over => Outcome::Done,
        Outcome::Done | Outcome::Unsure if is_there => Outcome::Unsure,
        _ => Outcome::Failed,
    };
    RegOp { outcome, ..op }
}

/// The operations, as the first so many places of the history show them.
pub fn cut(alloc: Global, ops: &[RegOp], count: usize) -> Result<Vec<RegOp>, AllocError> {
    let mut parts = Vec::with_capacity(alloc, ops.len())?;
    for op in ops {
        parts.push(op_in(count, *op))?;
    }
    Ok(parts)
}

/// Whether there is an order that begins with these places and has at most this many more.
fn goes_on(
    ops: &[RegOp],
    initial: Option<i64>,
    order: &mut Vec<usize>,
    more: usize,
) -> Result<bool, AllocError> {
    if judged_slowly(ops, initial, order).is_ok() {
        return Ok(true);
    }
    if more == 0 {
        return Ok(false);
    }
    for place in 0..ops.len() {
        if !order.contains(&place) {
            order.push(place)?;
            if goes_on(ops, initial, order, more - 1)? {
                return Ok(true);
            }
            order.pop();
        }
    }
    Ok(false)
}

/// Whether there is an order of the operations.
pub fn is_possible(alloc: Global, ops: &[RegOp], initial: Option<i64>) -> Result<bool, AllocError> {
    let mut order = Vec::new(alloc);
    goes_on(ops, initial, &mut order, ops.len())
}
