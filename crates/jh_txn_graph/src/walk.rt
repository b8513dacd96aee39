//! A search of a graph, depth first and without recursion, in which all nodes are alike.
//! `specs/WalkInside.antt` says what it goes by.

ghost use Rattle.std.specs.Prelude.{◌≡◌, ◌↔◌, ◌+◌, ◌<◌, ◌≤◌, ◌∷◌, ◌++◌, ℕ, List, [], true};
ghost use Rattle.std.specs.Prelude.{length, sum, IfOk, IsTrue, MatchOption, OnOk};
ghost use Rattle.jh_txn_graph.specs.Graphs.{IsClosed};
ghost use Rattle.jh_txn_graph.specs.WalkInside.{HaveFewer, IsCurrent, IsLoop, IsMet, IsOrderOrLoop};
ghost use Rattle.jh_txn_graph.specs.WalkInside.{IsState, IsWalk};
ghost use Rattle.jh_txn_graph.specs.WalkInside.{one_fewer, step_count, top, turns_at};

use crate::graph::OrderOrCycle;
use jh_txn::Step;
use std::alloc::{AllocError, Global};

/// How far a search has come.
#[derive(Debug, Drop)]
pub(crate) struct Walk {
    /// How many turns each node has left: two more than it has steps where it is new, none where it
    /// is done.
    left: Vec<usize>,
    /// The nodes that are open. Each but the first one was come to from the one before it.
    path: Vec<usize>,
    /// The nodes that are done, in order.
    done: Vec<usize>,
}

/// What a search has made of a node.
#[derive(Clone, Copy, Debug, PartialEq, Eq)]
pub(crate) enum State {
    New,
    Open,
    Done,
}

/// An order of all nodes in which each step leads forwards, or a loop of steps.
pub(crate) fn search(alloc: Global, graph: &[Vec<Step>]) -> Result<OrderOrCycle, AllocError>
    requires { IsClosed graph.now }
    ensures { IfOk result (IsOrderOrLoop graph.now) }
{
    let mut walk = begin(alloc, graph)?;
    for node in 0..graph.len() {
        if let Some(place) = finish(graph, &mut walk, node)? {
            return Ok(OrderOrCycle::Cycle(cycle(alloc, graph, walk, place)?));
        }
    }
    Ok(OrderOrCycle::Order(walk.done))
}

/// A search that has not begun.
fn begin(alloc: Global, graph: &[Vec<Step>]) -> Result<Walk, AllocError>
    ensures walk { IfOk result (λ walk. IsWalk graph.now walk) }
    ensures path { IfOk result (λ walk. walk.path.items ≡ []) }
{
    let mut left = Vec::new(alloc);
    for row in graph {
        left.push(row.len() + 2)?;
    }
    Ok(Walk {
        left,
        path: Vec::new(alloc),
        done: Vec::new(alloc),
    })
}

/// Goes on until a node is done, or until a step comes from a node of the path: that node.
fn finish(graph: &[Vec<Step>], walk: &mut Walk, node: usize) -> Result<Option<usize>, AllocError>
    requires closed { IsClosed graph.now }
    requires walk { IsWalk graph.now walk.old }
    requires node { node < length graph.now }
    requires path { walk.old.path.items ≡ [] }
    ensures walk { IfOk result (λ _. IsWalk graph.now walk.new) }
    ensures met { IfOk result (λ met. MatchOption met
        ((walk.new.path.items ≡ []) × (turns_at walk.new.left.items node ≡ 0)
        × HaveFewer walk.old.left.items walk.new.left.items)
        (IsMet graph.now walk.new)) }
{
    if is_done(walk, node) {
        return Ok(None);
    }
    enter(walk, node)?;
    while !walk.path.is_empty() {
        if let Some(place) = turn(graph, walk)? {
            return Ok(Some(place));
        }
    }
    Ok(None)
}

/// A turn of the last node of the path: the place of its step, where that is on the path.
fn turn(graph: &[Vec<Step>], walk: &mut Walk) -> Result<Option<usize>, AllocError>
    requires closed { IsClosed graph.now }
    requires walk { IsWalk graph.now walk.old }
    requires path { 0 < length walk.old.path.items }
    ensures walk { IfOk result (λ _. IsWalk graph.now walk.new) }
    ensures fewer { IfOk result (λ _. HaveFewer walk.old.left.items walk.new.left.items) }
    ensures met { IfOk result (λ met. MatchOption met
        (sum walk.new.left.items < sum walk.old.left.items) (IsMet graph.now walk.new)) }
{
    let node = last(&walk.path);
    match current(graph, &walk.left, node) {
        None => {
            leave(walk)?;
            Ok(None)
        }
        Some(step) => match state_of(graph, &walk.left, step.place) {
            State::Done => {
                pass(walk, node);
                Ok(None)
            }
            State::New => {
                enter(walk, step.place)?;
                Ok(None)
            }
            State::Open => Ok(Some(step.place)),
        },
    }
}

/// The step whose turn it is at an open node; none where all its steps have had theirs.
fn current(graph: &[Vec<Step>], left: &[usize], node: usize) -> Option<Step>
    requires count { length left.now ≡ length graph.now }
    requires node { node < length graph.now }
    requires turns { 0 < turns_at left.now node }
    requires few { turns_at left.now node ≤ step_count graph.now node + 1 }
    ensures { MatchOption result (turns_at left.now node ≡ 1) (IsCurrent graph.now left.now node) }
{
    let row = &graph[node];
    row.get(row.len() + 1 - left[node]).copied()
}

/// What a search has made of a node.
fn state_of(graph: &[Vec<Step>], left: &[usize], node: usize) -> State
    requires count { length left.now ≡ length graph.now }
    requires node { node < length graph.now }
    ensures { IsState graph.now left.now node result }
{
    let turns = left[node];
    if turns == 0 {
        State::Done
    } else if turns == graph[node].len() + 2 {
        State::New
    } else {
        State::Open
    }
}

/// Whether a node is done.
fn is_done(walk: &Walk, node: usize) -> bool
    requires { node < length walk.now.left.items }
    ensures { IsTrue result ↔ (turns_at walk.now.left.items node ≡ 0) }
{
    walk.left[node] == 0
}

/// The last of some nodes.
fn last(path: &[usize]) -> usize
    requires { 0 < length path.now }
    ensures { result ≡ top path.now }
{
    path[path.len() - 1]
}

/// Takes a turn from a node.
fn pass(walk: &mut Walk, node: usize)
    requires node { node < length walk.old.left.items }
    requires turns { 0 < turns_at walk.old.left.items node }
    ensures left { walk.new.left.items ≡ one_fewer walk.old.left.items node }
    ensures path { walk.new.path.items ≡ walk.old.path.items }
    ensures done { walk.new.done.items ≡ walk.old.done.items }
{
    walk.left[node] -= 1;
}

/// Puts a node on the path.
fn enter(walk: &mut Walk, node: usize) -> Result<(), AllocError>
    requires node { node < length walk.old.left.items }
    requires turns { 0 < turns_at walk.old.left.items node }
    ensures left { OnOk result (walk.new.left.items ≡ one_fewer walk.old.left.items node) }
    ensures path { OnOk result (walk.new.path.items ≡ walk.old.path.items ++ node ∷ []) }
    ensures done { OnOk result (walk.new.done.items ≡ walk.old.done.items) }
{
    walk.path.push(node)?;
    pass(walk, node);
    Ok(())
}

/// Takes the last node from the path: it is done.
fn leave(walk: &mut Walk) -> Result<(), AllocError>
    requires path { 0 < length walk.old.path.items }
    requires node { top walk.old.path.items < length walk.old.left.items }
    requires turns { 0 < turns_at walk.old.left.items (top walk.old.path.items) }
    ensures left { OnOk result
        (walk.new.left.items ≡ one_fewer walk.old.left.items (top walk.old.path.items)) }
    ensures path { OnOk result
        (walk.old.path.items ≡ walk.new.path.items ++ top walk.old.path.items ∷ []) }
    ensures done { OnOk result
        (walk.new.done.items ≡ walk.old.done.items ++ top walk.old.path.items ∷ []) }
{
    if let Some(node) = walk.path.pop() {
        walk.done.push(node)?;
        pass(walk, node);
    }
    Ok(())
}

/// The steps of the path back to a node, whose step leads to the path's last node.
fn cycle(
    alloc: Global,
    graph: &[Vec<Step>],
    walk: Walk,
    place: usize,
) -> Result<Vec<Step>, AllocError>
    requires walk { IsWalk graph.now walk }
    requires met { IsMet graph.now walk place }
    ensures { IfOk result (λ steps. IsLoop graph.now steps.items) }
{
    let mut walk = walk;
    let mut steps = Vec::new(alloc);
    while let Some(node) = walk.path.pop() {
        match current(graph, &walk.left, node) {
            Some(step) => steps.push(step)?,
            None => unreachable!(),
        }
        if node == place {
            return Ok(steps);
        }
    }
    unreachable!()
}
