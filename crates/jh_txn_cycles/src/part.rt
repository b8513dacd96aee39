//! The part of a graph that has the steps of a kind of cycles. `specs/Part.antt` says what a part is.

ghost use Rattle.std.specs.Prelude.{◌≡◌, ℕ, Some, slice_get, IfOk};
ghost use Rattle.jh_txn.specs.declared.dependency.Step.{Step};
ghost use Rattle.jh_txn_cycles.specs.Part.{HasOnly, IsPartOf};

use crate::choice::{Choice, GraphShape, allows};
use jh_txn::Step;
use std::alloc::{AllocError, Global};

/// The part of a graph that has the steps of a kind of cycles.
pub(crate) fn part_of(
    alloc: Global,
    graph: &[Vec<Step>],
    shape: GraphShape,
    choice: Choice,
) -> Result<Vec<Vec<Step>>, AllocError>
    ensures { IfOk result (λ part. IsPartOf graph.now part.items) }
{
    let mut part = Vec::new(alloc);
    for node in 0..graph.len() {
        part.push(steps_of(alloc, graph[node].as_slice(), shape, choice, node)?)?;
    }
    Ok(part)
}

/// The steps to a node that are in cycles of a kind.
fn steps_of(
    alloc: Global,
    row: &[Step],
    shape: GraphShape,
    choice: Choice,
    node: usize,
) -> Result<Vec<Step>, AllocError>
    ensures { IfOk result (λ kept. HasOnly row.now kept.items) }
{
    let mut kept = Vec::new(alloc);
    for step in row {
        if allows(choice, shape, step, node) {
            kept.push(*step)?;
        }
    }
    Ok(kept)
}
