//! Whether steps are a loop of a graph, for whoever found some in another way than by the search here.

ghost use Rattle.std.specs.Prelude.{◌≡◌, IfOk, IfSome, IsTrue};
ghost use Rattle.jh_txn_graph.specs.Graphs.{IsCycleOfPaths, IsStepTo};
ghost use Rattle.jh_txn_graph.specs.HubsInside.{HasTransaction};
ghost use Rattle.jh_txn_graph.specs.WalkInside.{IsLoop};

use crate::hubs::cycle_of;
use jh_txn::Step;
use std::alloc::{AllocError, Global};

/// The cycle of transactions that steps go through, which somebody else found: each step has to be one of
/// the graph, and to lead to the node of the next one, the last one to that of the first one. None where
/// they are no such loop, or one of hubs alone.
///
/// Errors: where there is no memory for the cycle.
///
/// Takes time linear in the steps that lead to the nodes of the loop.
pub fn cycle_in(
    alloc: Global,
    graph: &[Vec<Step>],
    steps: Vec<Step>,
    count: usize,
) -> Result<Option<Vec<Step>>, AllocError>
    ensures { IfOk result
        (λ found. IfSome found (λ cycle. IsCycleOfPaths graph.now count cycle.items)) }
{
    if is_loop(graph, &steps) && has_transaction(&steps, count) {
        Ok(Some(cycle_of(alloc, steps, count)?))
    } else {
        Ok(None)
    }
}

/// Whether some step is from a transaction.
fn has_transaction(steps: &[Step], count: usize) -> bool
    ensures { IsTrue result → HasTransaction count steps.now }
{
    for step in steps {
        if step.place < count {
            return true;
        }
    }
    false
}

/// Whether each step is one of the graph and leads to the node of the next one, and the last one to that
/// of the first one.
fn is_loop(graph: &[Vec<Step>], steps: &[Step]) -> bool
    ensures { IsTrue result → IsLoop graph.now steps.now }
{
    if steps.is_empty() {
        return false;
    }
    let mut target = steps[0].place;
    let mut index = steps.len();
    while index > 0 {
        index -= 1;
        if !leads_to(graph, &steps[index], target) {
            return false;
        }
        target = steps[index].place;
    }
    true
}

/// Whether a step of the graph leads to a node.
fn leads_to(graph: &[Vec<Step>], step: &Step, node: usize) -> bool
    ensures { IsTrue result → IsStepTo graph.now step.now node }
{
    if node >= graph.len() {
        return false;
    }
    for other in graph[node].as_slice() {
        if is_same(other, step) {
            return true;
        }
    }
    false
}

/// Whether two steps are one.
fn is_same(one: &Step, other: &Step) -> bool
    ensures { IsTrue result → one.now ≡ other.now }
{
    *one == *other
}
