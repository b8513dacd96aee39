//! What came out of a queue. `specs/TotalQueue.antt` has the rule.

ghost use Rattle.std.specs.Prelude.{◌≡◌, IfOk, position};
ghost use Rattle.jh_edn.specs.Order.{in_order, is_below};
ghost use Rattle.jh_edn.specs.View.{view, views};
ghost use Rattle.jh_ops.specs.Operation.{operation, operations};
ghost use Rattle.jh_check.specs.Distinct.{Ascends};
ghost use Rattle.jh_total_queue.specs.TotalQueue as rule;
ghost use Rattle.jh_total_queue.specs.TotalQueue.{dequeues};

use jh_check::{in_normal_order, push_normal};
use jh_edn::Value;
use jh_ops::{Kind, Op};
use std::alloc::{AllocError, Global};
use std::slice::from_ref;

/// Whether the value is nil, by which a drain says nothing.
fn says_nothing(value: &Value) -> bool
    ensures { result ≡ rule.says_nothing (view value.now) }
{
    matches!(value, Value::Nil)
}

/// Whether the operation is a drain whose value is none that it can have.
fn is_bad_drain(op: &Op) -> bool
    ensures { result ≡ rule.is_bad_drain (operation op.now) }
{
    if op.is_asked(Kind::Ok, "drain") {
        return op.value.elements().is_none();
    }
    let unknown = op.is_asked(Kind::Fail, "drain") || op.is_asked(Kind::Info, "drain");
    unknown && !says_nothing(&op.value)
}

/// The least place of a drain whose value is none that it can have.
fn place_of_bad_drain(history: &[Op]) -> Option<usize>
    ensures { result ≡ position (λ op. rule.is_bad_drain (operation op)) history.now }
{
    history.iter().position(|op| is_bad_drain(op))
}

/// The least place of a drain whose value is none that it can have.
pub(crate) fn first_bad_drain(history: &[Op]) -> Option<usize>
    ensures { result ≡ rule.first_bad_drain (operations history.now) }
{
    place_of_bad_drain(history)
}

/// What an operation is known to have taken out: an `:ok` dequeue its value, an `:ok` drain its
/// elements, and all else nothing.
pub fn taken_by(op: &Op) -> &[Value]
    ensures { views result.now ≡ rule.taken_by (operation op.now) }
{
    if op.is_asked(Kind::Ok, "dequeue") {
        return from_ref(&op.value);
    }
    if !op.is_asked(Kind::Ok, "drain") {
        return &[];
    }
    match op.value.elements() {
        Some(elements) => elements,
        None => &[],
    }
}

/// What is known to have been taken out, in normal form and in normal order.
///
/// Takes O(n log n) comparisons for n operations and elements of drains.
pub(crate) fn sorted_dequeues(alloc: Global, history: &[Op]) -> Result<Vec<Value>, AllocError>
    ensures values { IfOk result (λ values. views values.items
        ≡ in_order is_below (dequeues (operations history.now))) }
    ensures ascends { IfOk result (λ values. Ascends (views values.items)) }
{
    let mut values = Vec::new(alloc);
    for op in history {
        push_normal(alloc, taken_by(op), &mut values)?;
    }
    in_normal_order(values)
}
