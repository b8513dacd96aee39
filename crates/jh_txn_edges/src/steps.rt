//! Graphs of steps: how a step is added. `specs/Steps.antt` says which steps there are.

ghost use Rattle.std.specs.Prelude.{◌≡◌, ◌<◌, ◌+◌, [], ℕ, length, IfOk, OnOk};
ghost use Rattle.jh_txn_edges.specs.Adding.{AddsSteps, IsThis};
ghost use Rattle.jh_txn_edges.specs.Inside.{IsOther};
ghost use Rattle.jh_txn_graph.specs.Graphs.{steps_to};

use jh_txn::Step;
use jh_txn_writers::Writer;
use std::alloc::{AllocError, Global};

/// A graph of so many nodes and no steps.
///
/// Errors: out of memory.
pub fn no_steps(alloc: Global, count: usize) -> Result<Vec<Vec<Step>>, AllocError>
    ensures count { IfOk result (λ graph. length graph.items ≡ count) }
    ensures none { IfOk result (λ graph. (node : ℕ) → steps_to graph.items node ≡ []) }
{
    let mut graph = Vec::new(alloc);
    add_nodes(alloc, &mut graph, count)?;
    Ok(graph)
}

/// Adds so many nodes to which no steps lead.
///
/// Errors: out of memory; some of the nodes may be there then.
pub fn add_nodes(alloc: Global, graph: &mut Vec<Vec<Step>>, count: usize) -> Result<(), AllocError>
    ensures count { OnOk result (length graph.new.items ≡ length graph.old.items + count) }
    ensures none { OnOk result
        ((node : ℕ) → steps_to graph.new.items node ≡ steps_to graph.old.items node) }
{
    for _node in 0..count {
        graph.push(Vec::new(alloc))?;
    }
    Ok(())
}

/// Adds a step that leads to a node of the graph.
///
/// Errors: out of memory.
pub fn add(graph: &mut [Vec<Step>], step: Step, node: usize) -> Result<(), AllocError>
    requires { node < length graph.old }
    ensures { OnOk result (AddsSteps (IsThis step node) graph.old graph.new) }
{
    graph[node].push(step)?;
    Ok(())
}

/// Adds a step that leads to a node, unless it comes from there.
pub(crate) fn add_other(graph: &mut [Vec<Step>], step: Step, node: usize) -> Result<(), AllocError>
    requires { node < length graph.old }
    ensures { OnOk result (AddsSteps (IsOther step node) graph.old graph.new) }
{
    if step.place == node {
        Ok(())
    } else {
        add(graph, step, node)
    }
}
