//! Reads of nil, which match any value, merged into an order: each in front of the first operation
//! that was invoked later.

ghost use Rattle.std.specs.Prelude.{◌≡◌, ◌<◌, ◌≤◌, ◌⊎◌, ◌↔◌, ℕ, ℤ, None, true, false, IfOk, IsTrue, length, slice_index_or};
ghost use Rattle.jh_unique.specs.Clusters.{IsPart, ReadsNil};
ghost use Rattle.jh_unique.specs.Nils.{IsNilRead, IsTurnOfRead};
ghost use Rattle.jh_linear.specs.Order.{EndAfterInvoked, IsDone, IsOrder, has};
ghost use Rattle.jh_unique.specs.Sorted.{ArePicked, IsTurnOfOps};
ghost use Rattle.jh_linear.specs.declared.register.Outcome.TheVariants.{Done};
ghost use Rattle.jh_linear.specs.declared.register.RegCall.TheVariants.{Read};

use crate::calls::op_at;
use jh_linear::{Outcome, RegCall, RegOp};
use std::alloc::{AllocError, Global};

/// Whether an operation is a read of nil that happened.
fn is_nil_read(op: RegOp) -> bool
    ensures { IsTrue result ↔ ((op.outcome ≡ Done) × (op.call ≡ Read None)) }
{
    match (op.outcome, op.call) {
        (Outcome::Done, RegCall::Read(None)) => true,
        _ => false,
    }
}

/// The reads of nil that happened, in the order of their invocations.
pub(crate) fn nils_of(
    alloc: Global,
    ops: &[RegOp],
    turn: &[usize],
) -> Result<Vec<usize>, AllocError>
    ensures { IfOk result (λ nils. ArePicked (IsNilRead ops.now) turn.now nils.items) }
{
    let mut nils = Vec::new(alloc);
    for number in turn {
        if is_nil_read(op_at(ops, *number)) {
            nils.push(*number)?;
        }
    }
    Ok(nils)
}

/// Whether the next read comes before the next operation of an order: where that was invoked later,
/// or there is none.
fn comes_next(ops: &[RegOp], order: &[usize], at: usize, nils: &[usize], next: usize) -> bool
    ensures { IsTrue result ↔ IsTurnOfRead ops.now order.now at nils.now next }
{
    if nils.len() <= next {
        return false;
    }
    order.len() <= at || op_at(ops, nils[next]).invoked < op_at(ops, order[at]).invoked
}

/// Puts all reads of nil that happened into an order of all else.
pub(crate) fn with_reads(
    alloc: Global,
    ops: &[RegOp],
    initial: Option<i64>,
    turn: &[usize],
    order: &[usize],
) -> Result<Vec<usize>, AllocError>
    requires ends { EndAfterInvoked ops.now }
    requires turn { IsTurnOfOps ops.now turn.now }
    requires part { IsPart ops.now initial order.now }
    requires none { (number : ℕ) → has order.now number ≡ true → ReadsNil ops.now number → ⊥ }
    requires whole { (number : ℕ) → IsDone ops.now number
        → (has order.now number ≡ true) ⊎ ReadsNil ops.now number }
    ensures { IfOk result (λ all. IsOrder ops.now initial all.items) }
{
    let nils = nils_of(alloc, ops, turn)?;
    let mut all = Vec::new(alloc);
    let mut at = 0;
    let mut next = 0;
    'merging: while at < order.len() || next < nils.len() {
        if comes_next(ops, order, at, &nils, next) {
            all.push(nils[next])?;
            next += 1;
        } else {
            all.push(order[at])?;
            at += 1;
        }
    }
    Ok(all)
}
