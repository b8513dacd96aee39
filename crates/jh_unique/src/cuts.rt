//! Histories that are cut, and the first completion with which a register whose values are written
//! once each has no order any more.

ghost use Rattle.std.specs.Prelude.{◌≡◌, ◌≤◌, ℕ, ℤ, Option, Some, IfOk};
ghost use Rattle.jh_linear.specs.Order.{Allows, EndAfterInvoked, IsLegalFrom};
ghost use Rattle.jh_linear.specs.Stuck as rule;
ghost use Rattle.jh_linear.specs.Stuck.{IsStuck};
ghost use Rattle.jh_linear.specs.Verdict.{HaveNoOrder};
ghost use Rattle.jh_unique.specs.Cuts.{AreSortedEnds, IsOrderBefore};
ghost use Rattle.jh_unique.specs.Unique.{WriteOnce};

use crate::calls::{is_done, op_at};
use crate::judge::judge_unique;
use crate::verdict::UniqueVerdict;
use jh_linear::{Linearization, Outcome, RegCall, RegOp, Stuck, op_end};
use std::alloc::{AllocError, Global};

/// What is known of an operation that has not ended yet.
fn before_end(outcome: Outcome) -> Outcome
    ensures { result ≡ rule.outcome_before_end outcome }
{
    match outcome {
        Outcome::Done => Outcome::Unsure,
        Outcome::Failed => Outcome::Failed,
        Outcome::Unsure => Outcome::Unsure,
    }
}

/// What a history that is cut right before a place shows of how an operation ended.
fn outcome_in(cut: usize, op: RegOp) -> Outcome
    ensures { result ≡ rule.outcome_in cut op }
{
    if op.invoked < cut {
        if op_end(op) < cut {
            op.outcome
        } else {
            before_end(op.outcome)
        }
    } else {
        Outcome::Failed
    }
}

/// The operations, as a history that is cut right before a place shows them.
fn ops_before(alloc: Global, ops: &[RegOp], cut: usize) -> Result<Vec<RegOp>, AllocError>
    ensures { IfOk result (λ shown. shown.items ≡ rule.ops_before ops.now cut) }
{
    let mut shown = Vec::new(alloc);
    for op in ops {
        shown.push(RegOp {
            outcome: outcome_in(cut, *op),
            ..*op
        })?;
    }
    Ok(shown)
}

/// An order of a history that is cut right before a place, if it has one.
fn order_before(
    alloc: Global,
    ops: &[RegOp],
    initial: Option<i64>,
    cut: usize,
) -> Result<Option<Linearization>, AllocError>
    requires once { WriteOnce ops.now initial }
    requires ends { EndAfterInvoked ops.now }
    ensures { IfOk result (IsOrderBefore ops.now initial cut) }
{
    let shown = ops_before(alloc, ops, cut)?;
    let verdict = judge_unique(alloc, shown.as_slice(), initial)?;
    match verdict {
        UniqueVerdict::Valid(order) => Ok(Some(order)),
        _ => Ok(None),
    }
}

/// Where an operation ended, whatever its outcome; behind all others where it has no end
/// (`op_end`). `end_of` of `keys.rt` counts only what is known to have happened.
fn end_of(op: RegOp) -> usize
    requires { (end : ℕ) → op.ended ≡ Some end → op.invoked ≤ end }
    ensures is { result ≡ rule.op_end op }
    ensures later { op.invoked ≤ result }
    ensures small { result ≤ rule.behind_all }
{
    op_end(op)
}

/// Where the operations ended that are known to have happened, the first end first.
fn ends_of(alloc: Global, ops: &[RegOp]) -> Result<Vec<usize>, AllocError>
    requires ends { EndAfterInvoked ops.now }
    ensures { IfOk result (λ ends. AreSortedEnds ops.now ends.items) }
{
    let mut ends = Vec::new(alloc);
    for number in 0..ops.len() {
        let op = op_at(ops, number);
        if is_done(op.outcome) {
            ends.push(end_of(op))?;
        }
    }
    ends.sort()?;
    Ok(ends)
}

/// The value of a register behind a call that its value allows.
fn value_behind(call: RegCall, value: Option<i64>) -> Option<i64>
    ensures { (next : Option ℤ) → Allows call value next → result ≡ next }
{
    match call {
        RegCall::Read(None) => value,
        RegCall::Read(Some(int)) => Some(int),
        RegCall::Write(int) => Some(int),
        RegCall::Cas(_, int) => Some(int),
    }
}

/// The value of a register behind an order.
fn value_after(ops: &[RegOp], initial: Option<i64>, order: &[usize]) -> Option<i64>
    ensures { (last : Option ℤ) → IsLegalFrom ops.now initial order.now last → result ≡ last }
{
    let mut value = initial;
    for number in order {
        value = value_behind(op_at(ops, *number).call, value);
    }
    value
}

/// The first completion with which the operations have no order any more, found by halving.
pub(crate) fn stuck_of(
    alloc: Global,
    ops: &[RegOp],
    initial: Option<i64>,
) -> Result<Stuck, AllocError>
    requires once { WriteOnce ops.now initial }
    requires ends { EndAfterInvoked ops.now }
    requires none { HaveNoOrder ops.now initial }
    ensures { IfOk result (λ stuck. IsStuck ops.now initial stuck) }
{
    let ends = ends_of(alloc, ops)?;
    let mut low = 0;
    let mut high = ends.len() - 1;
    let mut order = Linearization::of(Vec::new(alloc));
    'halving: while low < high {
        let middle = high - (high - low) / 2;
        let found = order_before(alloc, ops, initial, ends[middle])?;
        match found {
            Some(earlier) => {
                low = middle;
                order = earlier;
            }
            None => high = middle - 1,
        }
    }
    let value = value_after(ops, initial, order.as_slice());
    Ok(Stuck {
        end: ends[low],
        order,
        value,
    })
}
