//! A cluster, walked along its compare-and-sets.

ghost use Rattle.std.specs.Prelude.{IfOk};
ghost use Rattle.jh_unique.specs.Steps.{IsClusterList};
ghost use Rattle.jh_unique.specs.Tables.{KnowsOps};
ghost use Rattle.jh_unique.specs.Unique.{WriteOnce};
ghost use Rattle.jh_unique.specs.Walk.{HasComeTo};

use crate::behind::{Known, Next, next_from, reads_of};
use crate::calls::Held;
use jh_linear::RegOp;
use std::alloc::AllocError;

/// All of a cluster that must stand, from its beginning.
pub(crate) fn walk(
    ops: &[RegOp],
    initial: Option<i64>,
    known: &Known,
    cluster: usize,
    begun: Vec<usize>,
    begun_with: Held,
) -> Result<Vec<usize>, AllocError>
    requires once { WriteOnce ops.now initial }
    requires known { KnowsOps ops.now known.now }
    requires begun { HasComeTo ops.now initial cluster begun_with.int begun.items }
    ensures { IfOk result (λ numbers. IsClusterList ops.now initial cluster numbers.items) }
{
    let mut numbers = begun;
    let mut value = begun_with;
    'walking: loop {
        numbers.extend_from_slice(reads_of(known, value))?;
        let Some(next) = next_from(ops, known, value) else {
            return Ok(numbers);
        };
        numbers.push(next.number)?;
        value = next.new;
    }
}
