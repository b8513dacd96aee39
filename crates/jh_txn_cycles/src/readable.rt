//! The cycle that is shown. `jh_txn_graph` says what a graph and its cycles are.

ghost use Rattle.std.specs.Prelude.{◌≡◌, ◌⊎◌, ◌≤◌, length, IfOk, IfSome};
ghost use Rattle.jh_txn_graph.specs.Graphs.{AreHubsUpwards, IsClosed, IsCycleOfPaths};
ghost use Rattle.jh_txn_graph.specs.Graphs.{IsOrderOrCycle};

use crate::choice::{AntiDependencies, Choice, GraphShape, KINDS, choice_at};
use crate::part::part_of;
use crate::search::cycle_through;
use jh_txn::Step;
use jh_txn_graph::{OrderOrCycle, order_or_cycle};
use std::alloc::{AllocError, Global};

/// At how many steps the search for a cycle of one kind looks.
const MAX_STEPS: usize = 500_000;

/// An order of the transactions of a graph that keeps each of its steps, or a cycle of them, as
/// `jh_txn_graph::order_or_cycle` gives it, but a cycle for a person to read: of the kinds of cycles one of
/// the first that is found, and a short one. Nodes below `count` are no hubs. Where `joint` is not 0, a step
/// from a node to that with a number higher by `joint` is no dependency, as from the start of a transaction
/// to its commit.
///
/// Cycles without `:rw` are found wherever they are; of others those through a node of the first cycle that
/// is met. The search for each kind looks at no more than 500,000 steps beside one pass over the graph.
///
/// Errors: where there is no memory for the answer or for the search.
///
/// Takes time and memory linear in the nodes and the steps.
pub fn order_or_short_cycle(
    alloc: Global,
    graph: &[Vec<Step>],
    count: usize,
    joint: usize,
) -> Result<OrderOrCycle, AllocError>
    requires closed { IsClosed graph.now }
    requires count { count ≤ length graph.now }
    requires upwards { AreHubsUpwards graph.now count }
    ensures { IfOk result (IsOrderOrCycle graph.now count) }
{
    match order_or_cycle(alloc, graph, count)? {
        OrderOrCycle::Order(order) => Ok(OrderOrCycle::Order(order)),
        OrderOrCycle::Cycle(known) => {
            let shape = GraphShape { count, joint };
            let shown = short_cycle(alloc, graph, shape, known)?;
            Ok(OrderOrCycle::Cycle(shown))
        }
    }
}

/// The cycle that is shown, where one is known.
fn short_cycle(
    alloc: Global,
    graph: &[Vec<Step>],
    shape: GraphShape,
    known: Vec<Step>,
) -> Result<Vec<Step>, AllocError>
    requires closed { IsClosed graph.now }
    requires count { shape.count ≤ length graph.now }
    requires upwards { AreHubsUpwards graph.now shape.count }
    requires known { IsCycleOfPaths graph.now shape.count known.items }
    ensures { IfOk result (λ shown. IsCycleOfPaths graph.now shape.count shown.items) }
{
    for place in 0..KINDS {
        if let Some(found) = cycle_of_kind(alloc, graph, shape, choice_at(place), &known)? {
            return Ok(found);
        }
    }
    Ok(known)
}

/// A short cycle of a kind, if one is found.
fn cycle_of_kind(
    alloc: Global,
    graph: &[Vec<Step>],
    shape: GraphShape,
    choice: Choice,
    known: &[Step],
) -> Result<Option<Vec<Step>>, AllocError>
    requires closed { IsClosed graph.now }
    requires count { shape.count ≤ length graph.now }
    requires upwards { AreHubsUpwards graph.now shape.count }
    ensures { IfOk result
        (λ found. IfSome found (λ cycle. IsCycleOfPaths graph.now shape.count cycle.items)) }
{
    if choice.anti != AntiDependencies::Without {
        return shortest_through(alloc, graph, shape, choice, known);
    }
    let part = part_of(alloc, graph, shape, choice)?;
    match order_or_cycle(alloc, &part, shape.count)? {
        OrderOrCycle::Order(_) => Ok(None),
        OrderOrCycle::Cycle(steps) => shortest_through(alloc, graph, shape, choice, &steps),
    }
}

/// The shortest cycle of a kind that is found through a node of these steps.
fn shortest_through(
    alloc: Global,
    graph: &[Vec<Step>],
    shape: GraphShape,
    choice: Choice,
    steps: &[Step],
) -> Result<Option<Vec<Step>>, AllocError>
    ensures { IfOk result
        (λ found. IfSome found (λ cycle. IsCycleOfPaths graph.now shape.count cycle.items)) }
{
    let mut fuel = MAX_STEPS;
    let mut best: Option<Vec<Step>> = None;
    for step in steps {
        let found = cycle_through(alloc, graph, shape, choice, step.place, &mut fuel)?;
        best = shorter(best, found);
    }
    Ok(best)
}

/// The shorter one of two cycles, as far as they are there.
fn shorter(one: Option<Vec<Step>>, other: Option<Vec<Step>>) -> Option<Vec<Step>>
    ensures { (result ≡ one) ⊎ (result ≡ other) }
{
    match (one, other) {
        (Some(one), Some(other)) => {
            if other.len() < one.len() {
                Some(other)
            } else {
                Some(one)
            }
        }
        (Some(one), None) => Some(one),
        (None, other) => other,
    }
}
