//! Steps of the graph of transactions, as steps between their points.

ghost use Rattle.std.specs.Prelude.{◌≡◌, ◌≤◌, ◌<◌, ◌+◌, ◌↔◌, ℕ, Some, length, slice_get};
ghost use Rattle.std.specs.Prelude.{IsTrue, OnOk};
ghost use Rattle.jh_txn.specs.Cycles.{is_read_write as is_anti_dependency};
ghost use Rattle.jh_txn.specs.declared.dependency.Step.{Step};
ghost use Rattle.jh_txn_edges.specs.Inside.{AddsSteps};
ghost use Rattle.jh_txn_graph.specs.Graphs.{IsClosed};
ghost use Rattle.jh_txn_points.specs.Inside.{IsKeptStepTo, IsStepOfRow};
ghost use Rattle.jh_txn_points.specs.PointSteps.{IsKeptStep, IsKeyHub, IsStepOfPoints};
ghost use Rattle.jh_txn_points.specs.Points.{IsArriving, IsLeaving};

use jh_txn::{Step, Why};
use jh_txn_edges::add;
use std::alloc::AllocError;

/// Adds the steps of a graph of transactions, but for those to hubs of keys and from them.
pub(crate) fn add_kept_steps(
    graph: &mut [Vec<Step>],
    edges: &[Vec<Step>],
    count: usize,
    keys: usize,
) -> Result<(), AllocError>
    requires closed { IsClosed edges.now }
    requires nodes { count + length edges.now ≤ length graph.old }
    requires hubs { count + keys ≤ length edges.now }
    ensures { OnOk result (AddsSteps (IsKeptStep count keys edges.now) graph.old graph.new) }
{
    for node in 0..edges.len() {
        add_row(graph, edges[node].as_slice(), count, keys, node)?;
    }
    Ok(())
}

/// Adds the steps of a list, which lead to a node, but for those to hubs of keys and from them.
fn add_row(
    graph: &mut [Vec<Step>],
    row: &[Step],
    count: usize,
    keys: usize,
    node: usize,
) -> Result<(), AllocError>
    requires steps { (index : ℕ) (step : Step) → slice_get row.now index ≡ Some step
        → count + step.place < length graph.old }
    requires node { count + node < length graph.old }
    requires hubs { count + keys ≤ length graph.old }
    ensures { OnOk result (AddsSteps (IsStepOfRow count keys row.now node) graph.old graph.new) }
{
    for step in row {
        add_kept_step(graph, *step, count, keys, node)?;
    }
    Ok(())
}

/// Adds a step that leads to a node, unless it is to the hub of a key or from it.
fn add_kept_step(
    graph: &mut [Vec<Step>],
    step: Step,
    count: usize,
    keys: usize,
    node: usize,
) -> Result<(), AllocError>
    requires place { count + step.place < length graph.old }
    requires node { count + node < length graph.old }
    requires hubs { count + keys ≤ length graph.old }
    ensures { OnOk result (AddsSteps (IsStepOfPoints count keys step node) graph.old graph.new) }
{
    if is_key_hub(count, keys, step.place) || is_key_hub(count, keys, node) {
        Ok(())
    } else {
        let Step { place, why } = step;
        let place = leaving(count, why, place);
        add(graph, Step { place, why }, arriving(count, why, node))
    }
}

/// Whether a node is the hub of a key.
fn is_key_hub(count: usize, keys: usize, node: usize) -> bool
    requires { count + keys ≤ usize.MAX }
    ensures { IsTrue result ↔ IsKeyHub count keys node }
{
    count <= node && node < count + keys
}

/// The node at which a step leaves.
fn leaving(count: usize, why: Why, from: usize) -> usize
    requires { count + from ≤ usize.MAX }
    ensures { IsLeaving count why from result }
{
    if from < count && is_read_write(why) {
        from
    } else {
        count + from
    }
}

/// The node at which a step arrives.
fn arriving(count: usize, why: Why, to: usize) -> usize
    requires { count + to ≤ usize.MAX }
    ensures { IsArriving count why to result }
{
    if to < count && !is_read_write(why) {
        to
    } else {
        count + to
    }
}

/// Whether a dependency is an anti-dependency, `:rw`.
fn is_read_write(why: Why) -> bool
    ensures { result ≡ is_anti_dependency why }
{
    match why {
        Why::ReadWrite { .. } => true,
        _ => false,
    }
}
