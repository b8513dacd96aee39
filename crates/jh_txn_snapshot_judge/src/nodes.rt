//! From nodes of the graph of points to points, and from its cycles to those of dependencies.
//! `specs/Nodes.antt` says which.

ghost use Rattle.std.specs.Prelude.{◌≡◌, ◌<◌, ◌+◌, false, filter, map, length, slice_index_or};
ghost use Rattle.std.specs.Prelude.{◌↔◌, drop, IfOk, IsTrue};
ghost use Rattle.jh_txn.specs.Cycles.{first_place};
ghost use Rattle.jh_txn_snapshot_judge.specs.Nodes.{point_at, point_steps, transaction_at};
ghost use Rattle.jh_txn_snapshots.specs.PointCycles.{dependency_steps};

use jh_txn::{Point, Step};
use jh_txn_seen::is_marked;
use std::alloc::{AllocError, Global};

/// Those nodes of an order of which the transactions are marked.
pub(crate) fn marked_nodes(
    alloc: Global,
    there: &[bool],
    count: usize,
    order: &[usize],
) -> Result<Vec<usize>, AllocError>
    ensures { IfOk result (λ nodes. nodes.items
        ≡ filter (λ node. slice_index_or there.now (transaction_at count node) false) order.now) }
{
    let mut nodes = Vec::new(alloc);
    for node in order {
        if is_marked(there, transaction_of(count, *node)) {
            nodes.push(*node)?;
        }
    }
    Ok(nodes)
}

/// The points of nodes.
pub(crate) fn points_of_nodes(
    alloc: Global,
    count: usize,
    nodes: &[usize],
) -> Result<Vec<Point>, AllocError>
    ensures { IfOk result (λ points. points.items ≡ map (point_at count) nodes.now) }
{
    let mut points = Vec::new(alloc);
    for node in nodes {
        points.push(point_of(count, *node))?;
    }
    Ok(points)
}

/// The point of a node.
fn point_of(count: usize, node: usize) -> Point
    ensures { result ≡ point_at count node }
{
    if node < count {
        Point::Start(node)
    } else {
        Point::Commit(node - count)
    }
}

/// The transaction of the point of a node.
fn transaction_of(count: usize, node: usize) -> usize
    ensures { result ≡ transaction_at count node }
{
    if node < count { node } else { node - count }
}

/// The dependencies of a cycle of nodes: its steps, but for those from a start to its commit.
pub(crate) fn dependencies_of(
    alloc: Global,
    count: usize,
    steps: &[Step],
) -> Result<Vec<Step>, AllocError>
    ensures { IfOk result (λ dependencies. dependencies.items
        ≡ dependency_steps (point_steps count steps.now (first_place steps.now 0))) }
{
    let mut dependencies = Vec::new(alloc);
    for index in 0..steps.len() {
        let Step { place, why } = steps[index];
        if !is_commit_of(count, place, next_place(steps, index)) {
            let place = transaction_of(count, place);
            dependencies.push(Step { place, why })?;
        }
    }
    Ok(dependencies)
}

/// Whether a node is the commit of the transaction that starts at another one.
fn is_commit_of(count: usize, place: usize, node: usize) -> bool
    ensures { IsTrue result ↔ (node ≡ count + place) }
{
    count <= node && node - count == place
}

/// Where a step of a cycle leads.
fn next_place(steps: &[Step], index: usize) -> usize
    requires { index < length steps.now }
    ensures { result ≡ first_place (drop (index + 1) steps.now) (first_place steps.now 0) }
{
    if index + 1 < steps.len() {
        steps[index + 1].place
    } else {
        steps[0].place
    }
}
