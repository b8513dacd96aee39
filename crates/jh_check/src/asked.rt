//! Operations by what they ask for. `specs/Asked.antt` has the rule.

ghost use Rattle.std.specs.Prelude.{◌≡◌, [], ◌∷◌, ◌++◌, IfOk, OnOk, map};
ghost use Rattle.jh_edn.specs.Normal.{normal};
ghost use Rattle.jh_edn.specs.Order.{in_order, is_below};
ghost use Rattle.jh_edn.specs.View.{views};
ghost use Rattle.jh_ops.specs.Operation.{operation, operations};
ghost use Rattle.jh_check.specs.Asked.{values_of};
ghost use Rattle.jh_check.specs.Distinct.{Ascends};

use jh_edn::Value;
use jh_ops::{Kind, Op};
use std::alloc::{AllocError, Global};

/// The values in normal order: ascending by `Value::compare`, and those that rank equal in the order
/// in which they stood.
///
/// Errors: out of memory.
///
/// Takes O(n log n) comparisons for n values.
pub fn in_normal_order(values: Vec<Value>) -> Result<Vec<Value>, AllocError>
    ensures order { IfOk result
        (λ sorted. views sorted.items ≡ in_order is_below (views values.items)) }
    ensures ascends { IfOk result (λ sorted. Ascends (views sorted.items)) }
{
    let mut values = values;
    values.sort_by(Value::compare)?;
    Ok(values)
}

/// Puts the value of the operation last, in normal form, where it is asked for.
fn push_value(
    alloc: Global,
    kind: Kind,
    name: &str,
    op: &Op,
    values: &mut Vec<Value>,
) -> Result<(), AllocError>
    ensures { OnOk result (views values.new.items
        ≡ views values.old.items ++ values_of kind name.now (operation op.now ∷ [])) }
{
    if op.is_asked(kind, name) {
        values.push(op.value.normal(alloc)?)?;
    }
    Ok(())
}

/// The values of the client operations of this kind that have this function, in normal form and in
/// normal order.
///
/// Errors: out of memory.
///
/// Takes O(n log n) comparisons for n operations.
pub fn sorted_values(
    alloc: Global,
    kind: Kind,
    name: &str,
    history: &[Op],
) -> Result<Vec<Value>, AllocError>
    ensures values { IfOk result (λ values. views values.items
        ≡ in_order is_below (values_of kind name.now (operations history.now))) }
    ensures ascends { IfOk result (λ values. Ascends (views values.items)) }
{
    let mut values = Vec::new(alloc);
    for op in history {
        push_value(alloc, kind, name, op, &mut values)?;
    }
    in_normal_order(values)
}

/// Puts the values last, each in normal form.
///
/// Errors: out of memory.
pub fn push_normal(
    alloc: Global,
    items: &[Value],
    values: &mut Vec<Value>,
) -> Result<(), AllocError>
    ensures { OnOk result (views values.new.items
        ≡ views values.old.items ++ map normal (views items.now)) }
{
    for item in items {
        values.push(item.normal(alloc)?)?;
    }
    Ok(())
}

/// The values in normal form and in normal order.
///
/// Errors: out of memory.
///
/// Takes O(n log n) comparisons for n values.
pub fn sorted_normal(alloc: Global, items: &[Value]) -> Result<Vec<Value>, AllocError>
    ensures values { IfOk result (λ values. views values.items
        ≡ in_order is_below (map normal (views items.now))) }
    ensures ascends { IfOk result (λ values. Ascends (views values.items)) }
{
    let mut values = Vec::new(alloc);
    push_normal(alloc, items, &mut values)?;
    in_normal_order(values)
}
