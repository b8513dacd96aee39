//! An operation in a list that ended before something in front of it was invoked, found in one pass
//! with the one that was invoked last so far.

ghost use Rattle.std.specs.Prelude.{◌≡◌, ◌≤◌, ◌⊎◌, ◌↔◌, ℕ, Option, Some, IsTrue, MatchOption};
ghost use Rattle.jh_linear.specs.Order as rule;
ghost use Rattle.jh_linear.specs.Order.{EndsBefore, Precedes, StandBefore};
ghost use Rattle.jh_linear.specs.declared.register.Outcome.TheVariants.{Done};

use crate::calls::op_at;
use jh_linear::{Outcome, RegOp};

/// Whether an operation happened, and ended before this place of the history.
fn is_over(op: RegOp, at: usize) -> bool
    ensures { IsTrue result ↔ ((op.outcome ≡ Done) × EndsBefore op.ended at) }
{
    match (op.outcome, op.ended) {
        (Outcome::Done, Some(end)) => end < at,
        _ => false,
    }
}

/// Whether an operation happened, and ended before another was invoked.
fn precedes(ops: &[RegOp], first: usize, second: usize) -> bool
    ensures { IsTrue result ↔ Precedes ops.now first second }
{
    is_over(op_at(ops, first), op_at(ops, second).invoked)
}

/// The one that was invoked last so far, where an operation ended before that.
fn late_behind(ops: &[RegOp], latest: Option<usize>, number: usize) -> Option<usize>
    ensures { MatchOption result
        ((other : ℕ) → latest ≡ Some other → Precedes ops.now number other → ⊥)
        (λ other. (latest ≡ Some other) × Precedes ops.now number other) }
{
    match latest {
        Some(other) => precedes(ops, number, other).then_some(other),
        None => None,
    }
}

/// The one of two that was invoked last.
fn later_of(ops: &[RegOp], one: usize, other: usize) -> usize
    ensures which { (result ≡ one) ⊎ (result ≡ other) }
    ensures first { (rule.op_at ops.now one).invoked ≤ (rule.op_at ops.now result).invoked }
    ensures second { (rule.op_at ops.now other).invoked ≤ (rule.op_at ops.now result).invoked }
{
    if op_at(ops, one).invoked < op_at(ops, other).invoked {
        other
    } else {
        one
    }
}

/// The one that was invoked last so far, with one more.
fn latest_with(ops: &[RegOp], latest: Option<usize>, number: usize) -> usize
    ensures which { (result ≡ number) ⊎ (latest ≡ Some result) }
    ensures this { (rule.op_at ops.now number).invoked ≤ (rule.op_at ops.now result).invoked }
    ensures others { (other : ℕ) → latest ≡ Some other
        → (rule.op_at ops.now other).invoked ≤ (rule.op_at ops.now result).invoked }
{
    match latest {
        Some(other) => later_of(ops, other, number),
        None => number,
    }
}

/// An operation of a list, and one behind it that ended before it was invoked.
pub(crate) fn find_late(ops: &[RegOp], order: &[usize]) -> Option<(usize, usize)>
    ensures { MatchOption result
        ((first second : ℕ) → StandBefore order.now first second
        → Precedes ops.now second first → ⊥)
        (λ pair. StandBefore order.now pair.0 pair.1 × Precedes ops.now pair.1 pair.0) }
{
    let mut latest = None;
    for number in order {
        if let Some(first) = late_behind(ops, latest, *number) {
            return Some((first, *number));
        }
        latest = Some(latest_with(ops, latest, *number));
    }
    None
}
