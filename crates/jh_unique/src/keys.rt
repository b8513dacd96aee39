//! The clusters, sorted by the sums of their first end and their last invocation. One cluster comes
//! before another where its first end is before the last invocation of the other; where no two come
//! each before the other, the sums rise along all that comes before.

ghost use Rattle.std.specs.Prelude.{◌≡◌, ◌≤◌, ◌⊎◌, ◌^◌, ◌-◌, ◌<◌, ◌∷◌, ℕ, ℤ, Option, Some, true, IfOk, length};
ghost use Rattle.jh_unique.specs.Keys.{AreClustersOf, HasClusterKey, HasKey, IsLatest, IsSoonest};
ghost use Rattle.jh_unique.specs.Sorted.{AreKeyedNumbers};
ghost use Rattle.jh_unique.specs.Lists.{members_in};
ghost use Rattle.jh_linear.specs.declared.register.Outcome.TheVariants.{Done};

use crate::calls::op_at;
use crate::sorted::sorted_out;
use jh_linear::{Outcome, RegOp};
use std::alloc::{AllocError, Global};

/// Where an operation ended, or behind all places, where it is not known to have happened.
fn end_of(op: RegOp) -> usize
    ensures least { (end : ℕ) → op.outcome ≡ Done → op.ended ≡ Some end → result ≤ end }
    ensures which { ((op.outcome ≡ Done) × (op.ended ≡ Some result)) ⊎ (result ≡ 2 ^ 64 - 1) }
{
    match (op.outcome, op.ended) {
        (Outcome::Done, Some(end)) => end,
        _ => usize::MAX,
    }
}

/// Where the first of some operations ended.
fn soon_of(ops: &[RegOp], list: &[usize]) -> usize
    ensures { IsSoonest ops.now list.now result }
{
    let mut soon = usize::MAX;
    for number in list {
        soon = soon.min(end_of(op_at(ops, *number)));
    }
    soon
}

/// Where the last of some operations was invoked.
fn late_of(ops: &[RegOp], list: &[usize]) -> usize
    ensures { IsLatest ops.now list.now result }
{
    let mut late: usize = 0;
    for number in list {
        late = late.max(op_at(ops, *number).invoked);
    }
    late
}

/// The sum of both.
fn key_of(ops: &[RegOp], list: &[usize]) -> u128
    ensures { HasKey ops.now list.now result }
{
    soon_of(ops, list) as u128 + late_of(ops, list) as u128
}

/// The clusters but for that of the start, each with its sum.
fn entries_of(
    alloc: Global,
    ops: &[RegOp],
    lists: &[Vec<usize>],
) -> Result<Vec<(u128, usize)>, AllocError>
    requires { 0 < length lists.now }
    ensures { IfOk result (λ entries. AreKeyedNumbers
        (HasClusterKey ops.now (members_in lists.now)) 1 (length lists.now) entries.items) }
{
    let mut entries = Vec::new(alloc);
    for cluster in 1..lists.len() {
        entries.push((key_of(ops, lists[cluster].as_slice()), cluster))?;
    }
    Ok(entries)
}

/// All clusters in their order: that of the start, and the others by their sums.
pub(crate) fn clusters_of(
    alloc: Global,
    ops: &[RegOp],
    lists: &[Vec<usize>],
) -> Result<Vec<usize>, AllocError>
    requires { 0 < length lists.now }
    ensures { IfOk result (λ clusters. AreClustersOf ops.now (members_in lists.now)
        (length lists.now) clusters.items) }
{
    let entries = entries_of(alloc, ops, lists)?;
    let later = sorted_out(alloc, entries)?;
    let mut clusters = Vec::new(alloc);
    clusters.push(0)?;
    clusters.extend_from_slice(later.as_slice())?;
    Ok(clusters)
}
