//! Why there is no order: the completion at which a search got stuck that expanded all
//! configurations. `specs/Stuck.antt` says what that means.

ghost use Rattle.std.specs.Prelude.{◌≡◌, ◌++◌, ℤ, ◌<◌, Option, length, reverse, IfOk, OnOk};
ghost use Rattle.jh_linear.specs.Order.{IsLegalFrom};
ghost use Rattle.jh_linear.specs.Reached.{NameEarlier, order_at};
ghost use Rattle.jh_linear.specs.SearchInside.{IsExhausted, IsProblem};
ghost use Rattle.jh_linear.specs.Stuck as rule;
ghost use Rattle.jh_linear.specs.Stuck.{IsStuck};
ghost use Rattle.jh_linear.specs.StuckInside as inside;
ghost use Rattle.jh_linear.specs.StuckInside.{IsKnownUntil};

use crate::order_check::op_at;
use crate::register::{Outcome, RegOp, after, op_end};
use crate::search::Search;
use crate::sorted_ops::Problem;
use crate::verdict::{Linearization, Step, Stuck};
use std::alloc::{AllocError, Global};

/// The order that the step at an index stands for.
pub(crate) fn order_of(alloc: Global, steps: &[Step], last: usize) -> Result<Vec<usize>, AllocError>
    requires earlier { NameEarlier steps.now }
    requires last { last < length steps.now }
    ensures { IfOk result (λ order. order.items ≡ order_at steps.now last) }
{
    let mut order = Vec::new(alloc);
    let mut at = last;
    'steps: while 0 < at {
        let step = &steps[at];
        push_reversed(&mut order, step.placed.as_slice())?;
        at = step.parent;
    }
    order.reverse();
    Ok(order)
}

/// Appends numbers, from the last to the first.
fn push_reversed(order: &mut Vec<usize>, placed: &[usize]) -> Result<(), AllocError>
    ensures { OnOk result (order.new.items ≡ order.old.items ++ reverse placed.now) }
{
    let count = placed.len();
    for done in 0..count {
        order.push(placed[count - 1 - done])?;
    }
    Ok(())
}

/// Whether an operation is known to have happened by a history that is cut right before a place.
fn is_known(op: RegOp, cut: usize) -> bool
    ensures { result ≡ inside.is_known op cut }
{
    match op.outcome {
        Outcome::Done => op_end(op) < cut,
        _ => false,
    }
}

/// How many numbers of an order there are up to the last operation that is known to have happened,
/// by a history that is cut right before a place.
fn known_until(ops: &[RegOp], order: &[usize], cut: usize) -> usize
    ensures { IsKnownUntil ops.now order.now cut result }
{
    let mut count = 0;
    for (index, number) in order.iter().enumerate() {
        if is_known(op_at(ops, *number), cut) {
            count = index + 1;
        }
    }
    count
}

/// The value that the register has after an order.
fn value_after(ops: &[RegOp], initial: Option<i64>, order: &[usize]) -> Option<i64>
    ensures { (last : Option ℤ) → IsLegalFrom ops.now initial order.now last → result ≡ last }
{
    let mut value = initial;
    for number in order {
        if let Some(next) = after(op_at(ops, *number).call, value) {
            value = next;
        }
    }
    value
}

/// Why there is no order, where no configuration waits any more.
pub(crate) fn stuck_of(
    alloc: Global,
    problem: &Problem,
    search: &Search,
) -> Result<Stuck, AllocError>
    requires problem { IsProblem problem.now }
    requires exhausted { IsExhausted problem.now search.now }
    ensures { IfOk result (λ stuck. IsStuck problem.now.ops.now problem.now.initial stuck) }
{
    let furthest = &search.furthest;
    let mut order = order_of(alloc, search.steps.as_slice(), furthest.step.parent)?;
    order.extend_from_slice(furthest.step.placed.as_slice())?;
    let end = op_end(op_at(problem.ops, problem.sorted.stages[furthest.stage].number));
    order.truncate(known_until(problem.ops, order.as_slice(), end));
    let value = value_after(problem.ops, problem.initial, order.as_slice());
    Ok(Stuck {
        end,
        order: Linearization::of(order),
        value,
    })
}
