//! What a register holds along an order of its operations. `specs/Marked.antt` has the rule.

ghost use Rattle.std.specs.Prelude.{◌≡◌, IfOk, map, option_map, slice_get};
ghost use Rattle.std.specs.Option.{option_flatten};
ghost use Rattle.jh_ops.specs.Operation.{operations};
ghost use Rattle.jh_ops.specs.Pairing.{history_pairs};
ghost use Rattle.jh_timeline_marks.specs.Marked as rule;

use crate::pairs::pairs_of;
use jh_linear::{Object, RegCall, reg_op};
use jh_ops::{Op, Pair};
use jh_timeline::Place;
use std::alloc::{AllocError, Global};

/// The value that the register has behind a call, where the call tells.
fn value_behind(call: RegCall) -> Option<i64>
    ensures { result ≡ rule.value_behind call }
{
    match call {
        RegCall::Read(seen) => seen,
        RegCall::Write(new) => Some(new),
        RegCall::Cas(_, new) => Some(new),
    }
}

/// The value that the register has behind the operation of a pair, where that tells.
fn value_told(history: &[Op], pair: Pair) -> Option<i64>
    ensures { result ≡ rule.value_told (operations history.now) pair }
{
    let op = reg_op(Object::Register, history, pair)?;
    value_behind(op.call)
}

/// The value that each operation tells, in the order of their invocations.
fn values_told(alloc: Global, history: &[Op]) -> Result<Vec<Option<i64>>, AllocError>
    ensures { IfOk result (λ values. values.items
        ≡ map (rule.value_told (operations history.now)) (history_pairs (operations history.now))) }
{
    let pairs = pairs_of(alloc, history)?;
    pairs
        .iter()
        .map(|pair| value_told(history, *pair))
        .collect(alloc)
}

/// The value at an index, where there is one.
fn value_at(values: &[Option<i64>], index: usize) -> Option<i64>
    ensures { result ≡ option_flatten (slice_get values.now index) }
{
    match values.get(index) {
        Some(value) => *value,
        None => None,
    }
}

/// What the register holds behind each operation of an order, in order.
pub(crate) fn held_along(
    alloc: Global,
    history: &[Op],
    order: &[usize],
) -> Result<Vec<Option<i64>>, AllocError>
    ensures { IfOk result
        (λ held. held.items ≡ rule.held_along (operations history.now) order.now) }
{
    let values = values_told(alloc, history)?;
    let mut holds = None;
    let mut held = Vec::new(alloc);
    for number in order {
        holds = value_at(&values, *number).or(holds);
        held.push(holds)?;
    }
    Ok(held)
}

/// The place of this number in an order along which a register holds these values.
pub(crate) fn place_along(held: &[Option<i64>], number: Option<usize>) -> Option<Place>
    ensures { result ≡ option_map (rule.place_along held.now) number }
{
    match number {
        Some(number) => Some(Place {
            number,
            holds: value_at(held, number),
        }),
        None => None,
    }
}
