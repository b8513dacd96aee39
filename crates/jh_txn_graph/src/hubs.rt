//! What is left of an order and of a loop of nodes where only transactions count.

ghost use Rattle.std.specs.Prelude.{◌≡◌, ◌<◌, ◌≤◌, List, Vec, length, nat_lt, IfOk, MatchOption};
ghost use Rattle.std.specs.List.{All, HoldsAt, filter};
ghost use Rattle.std.specs.declared.alloc.Global.{Global};
ghost use Rattle.jh_txn.specs.declared.dependency.Step.{Step};
ghost use Rattle.jh_txn_graph.specs.Graphs.{IsCycleOfPaths};
ghost use Rattle.jh_txn_graph.specs.HubsInside.{BeginsBelow, HasTransaction};
ghost use Rattle.jh_txn_graph.specs.WalkInside.{IsLoop};

use jh_txn::Step;
use std::alloc::{AllocError, Global};

/// The transactions among some nodes, in their order.
pub(crate) fn transactions_of(
    alloc: Global,
    nodes: &[usize],
    count: usize,
) -> Result<Vec<usize>, AllocError>
    ensures { IfOk result
        (λ kept. kept.items ≡ filter (λ node. nat_lt node count) nodes.now) }
{
    nodes
        .iter()
        .copied()
        .filter(|node| *node < count)
        .collect(alloc)
}

/// The cycle of transactions that a loop of steps goes through.
pub(crate) fn cycle_of(
    alloc: Global,
    mut steps: Vec<Step>,
    count: usize,
) -> Result<Vec<Step>, AllocError>
    requires { HasTransaction count steps.items }
    ensures { IfOk result (λ cycle. (graph : List (Vec Step Global))
        → IsLoop graph steps.items → IsCycleOfPaths graph count cycle.items) }
{
    match first_transaction(&steps, count) {
        Some(first) => {
            steps.rotate_left(first);
            without_hubs(alloc, &steps, count)
        }
        None => unreachable!(),
    }
}

/// The index of the first step that is from a transaction.
fn first_transaction(steps: &[Step], count: usize) -> Option<usize>
    ensures { MatchOption result (All (λ step. count ≤ step.place) steps.now)
        (λ first. (first < length steps.now)
        × HoldsAt (λ step. step.place < count) steps.now first) }
{
    steps.iter().position(|step| step.place < count)
}

/// The cycle of transactions that a loop of steps goes through, which begins with one.
fn without_hubs(alloc: Global, steps: &[Step], count: usize) -> Result<Vec<Step>, AllocError>
    requires { BeginsBelow count steps.now }
    ensures { IfOk result (λ cycle. (graph : List (Vec Step Global))
        → IsLoop graph steps.now → IsCycleOfPaths graph count cycle.items) }
{
    let mut cycle: Vec<Step> = Vec::new(alloc);
    for step in steps {
        if step.place < count {
            cycle.push(*step)?;
        } else if let Some(last) = cycle.last_mut() {
            last.why = step.why;
        }
    }
    Ok(cycle)
}
