//! Values in normal order, and whether an operation or a call has one of them.

ghost use Rattle.std.specs.Prelude.{◌≡◌, not, filter, IfOk};
ghost use Rattle.jh_edn.specs.Order.{in_order, is_below};
ghost use Rattle.jh_edn.specs.View.{view, views};
ghost use Rattle.jh_ops.specs.Operation.{operation, operations};
ghost use Rattle.jh_check.specs.Distinct.{Ascends, has_same_value};
ghost use Rattle.jh_check.specs.Tallies.{view_tally};
ghost use Rattle.jh_timeline_marks.specs.Marked as rule;

use crate::operations::completion_of;
use jh_check::{Counted, in_normal_order, is_among, op_at, selected};
use jh_edn::Value;
use jh_ops::{Kind, Op};
use jh_timeline::Call;
use std::alloc::{AllocError, Global};

/// Copies of the values, in normal order.
pub(crate) fn sorted_copies(alloc: Global, values: &[Value]) -> Result<Vec<Value>, AllocError>
    ensures order { IfOk result
        (λ copies. views copies.items ≡ in_order is_below (views values.now)) }
    ensures ascends { IfOk result (λ copies. Ascends (views copies.items)) }
{
    let mut copies = Vec::new(alloc);
    for value in values {
        copies.push(value.copy(alloc)?)?;
    }
    in_normal_order(copies)
}

/// Copies of the values of a tally, in normal order.
pub(crate) fn sorted_counted(alloc: Global, tally: &[Counted]) -> Result<Vec<Value>, AllocError>
    ensures order { IfOk result (λ copies. views copies.items
        ≡ in_order is_below (rule.counted_values (view_tally tally.now))) }
    ensures ascends { IfOk result (λ copies. Ascends (views copies.items)) }
{
    let mut copies = Vec::new(alloc);
    for counted in tally {
        copies.push(counted.value.copy(alloc)?)?;
    }
    in_normal_order(copies)
}

/// Copies of the values that are none of these others, which ascend, in normal order.
pub(crate) fn sorted_missing(
    alloc: Global,
    values: &[Value],
    others: &[Value],
) -> Result<Vec<Value>, AllocError>
    requires { Ascends (views others.now) }
    ensures order { IfOk result (λ missing. views missing.items ≡ in_order is_below
        (filter (λ x. not (has_same_value (views others.now) x)) (views values.now))) }
    ensures ascends { IfOk result (λ missing. Ascends (views missing.items)) }
{
    let missing = selected(alloc, values, others, false)?;
    in_normal_order(missing)
}

/// Whether a client's operation of this kind and function has one of these values, which ascend.
pub(crate) fn has_one_of(
    alloc: Global,
    kind: Kind,
    name: &str,
    values: &[Value],
    op: &Op,
) -> Result<bool, AllocError>
    requires { Ascends (views values.now) }
    ensures { IfOk result
        (λ has. has ≡ rule.has_one_of kind name.now (views values.now) (operation op.now)) }
{
    if !op.is_asked(kind, name) {
        return Ok(false);
    }
    let value = op.value.normal(alloc)?;
    Ok(is_among(values, &value))
}

/// Whether a call ends with a client's `:ok` of this function that has one of these values, which
/// ascend.
pub(crate) fn ends_with_one_of(
    alloc: Global,
    name: &str,
    values: &[Value],
    history: &[Op],
    call: &Call,
) -> Result<bool, AllocError>
    requires { Ascends (views values.now) }
    ensures { IfOk result (λ ends. ends
        ≡ rule.ends_with_one_of name.now (views values.now) (operations history.now) call.now) }
{
    match completion_of(history, call) {
        Some(op) => has_one_of(alloc, Kind::Ok, name, values, op),
        None => Ok(false),
    }
}

/// Whether a call begins with a client's invocation of this function that has one of these values,
/// which ascend.
pub(crate) fn begins_with_one_of(
    alloc: Global,
    name: &str,
    values: &[Value],
    history: &[Op],
    call: &Call,
) -> Result<bool, AllocError>
    requires { Ascends (views values.now) }
    ensures { IfOk result (λ begins. begins
        ≡ rule.begins_with_one_of name.now (views values.now) (operations history.now) call.now) }
{
    match op_at(history, call.first) {
        Some(op) => has_one_of(alloc, Kind::Invoke, name, values, op),
        None => Ok(false),
    }
}
