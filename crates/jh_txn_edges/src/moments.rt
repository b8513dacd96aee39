//! Steps of real time, through a hub for each completion.

ghost use Rattle.std.specs.Prelude.{◌≡◌, ◌≤◌, ◌<◌, ◌+◌, ℕ, true, length, IfOk, OnOk};
ghost use Rattle.jh_txn.specs.Transactions.{includes};
ghost use Rattle.jh_txn_edges.specs.Inside.{AddsSteps, done_index};
ghost use Rattle.jh_txn_edges.specs.Moments.{AreMoments, AreRisingIndexes, IsAnyCompletionStep};
ghost use Rattle.jh_txn_edges.specs.Moments.{IsAnyInvocationStep, IsCompletionStep, IsDoneAtIndex};
ghost use Rattle.jh_txn_edges.specs.Moments.{IsDoneFrom, IsInvocationStep, IsMomentStep};
ghost use Rattle.jh_txn_edges.specs.Moments.{IsNextStep, IsPointOf};

use crate::steps::add;
use jh_txn::{Step, Txn, Why};
use jh_txn_seen::{is_done, is_marked};
use std::alloc::{AllocError, Global};

/// The indexes at which transactions that are done were completed, in order.
pub(crate) fn moments(alloc: Global, txns: &[Txn]) -> Result<Vec<usize>, AllocError>
    ensures { IfOk result (λ moments. AreMoments txns.now moments.items) }
{
    let mut moments = completions(alloc, txns)?;
    moments.sort_unstable();
    Ok(moments)
}

/// Adds the steps of real time, where the hub of the first moment is this one.
pub(crate) fn add_moment_steps(
    graph: &mut [Vec<Step>],
    txns: &[Txn],
    there: &[bool],
    moments: &[usize],
    first: usize,
) -> Result<(), AllocError>
    requires moments { AreMoments txns.now moments.now }
    requires marks { length there.now ≡ length txns.now }
    requires count { length txns.now ≤ length graph.old }
    requires hubs { first + length moments.now ≤ length graph.old }
    ensures { OnOk result
        (AddsSteps (IsMomentStep txns.now there.now moments.now first) graph.old graph.new) }
{
    add_completions(graph, txns, moments, first)?;
    add_nexts(graph, moments, first)?;
    add_invocations(graph, txns, there, moments, first)
}

/// The indexes at which transactions that are done were completed.
fn completions(alloc: Global, txns: &[Txn]) -> Result<Vec<usize>, AllocError>
    ensures whole { IfOk result (λ moments. (place index : ℕ)
        → IsDoneFrom txns.now place index → includes moments.items index ≡ true) }
    ensures only { IfOk result (λ moments. (index : ℕ)
        → includes moments.items index ≡ true → IsDoneAtIndex txns.now index) }
{
    let mut moments = Vec::new(alloc);
    for txn in txns {
        if let Some(completed) = done_from(txn) {
            moments.push(completed)?;
        }
    }
    Ok(moments)
}

/// The index at which a transaction was completed, if it is done.
fn done_from(txn: &Txn) -> Option<usize>
    ensures { result ≡ done_index txn.now }
{
    if is_done(txn.outcome) {
        txn.completed
    } else {
        None
    }
}

/// How many moments are below an index.
fn point_of(moments: &[usize], index: usize) -> usize
    requires { AreRisingIndexes moments.now }
    ensures { IsPointOf moments.now index result }
{
    moments.partition_point(|moment| *moment < index)
}

/// Adds the steps from transactions that are done to the hubs of their completions.
fn add_completions(
    graph: &mut [Vec<Step>],
    txns: &[Txn],
    moments: &[usize],
    first: usize,
) -> Result<(), AllocError>
    requires moments { AreMoments txns.now moments.now }
    requires hubs { first + length moments.now ≤ length graph.old }
    ensures { OnOk result
        (AddsSteps (IsAnyCompletionStep txns.now moments.now first) graph.old graph.new) }
{
    for place in 0..txns.len() {
        add_completion(graph, txns, moments, first, place)?;
    }
    Ok(())
}

/// Adds the step from a transaction, if it is done, to the hub of its completion.
fn add_completion(
    graph: &mut [Vec<Step>],
    txns: &[Txn],
    moments: &[usize],
    first: usize,
    place: usize,
) -> Result<(), AllocError>
    requires moments { AreMoments txns.now moments.now }
    requires hubs { first + length moments.now ≤ length graph.old }
    requires place { place < length txns.now }
    ensures { OnOk result
        (AddsSteps (IsCompletionStep txns.now moments.now first place) graph.old graph.new) }
{
    match done_from(&txns[place]) {
        None => Ok(()),
        Some(index) => {
            let node = first + point_of(moments, index);
            add(
                graph,
                Step {
                    place,
                    why: Why::RealTime,
                },
                node,
            )
        }
    }
}

/// Adds the steps from the hub of each moment to that of the next one.
fn add_nexts(graph: &mut [Vec<Step>], moments: &[usize], first: usize) -> Result<(), AllocError>
    requires { first + length moments.now ≤ length graph.old }
    ensures { OnOk result (AddsSteps (IsNextStep moments.now first) graph.old graph.new) }
{
    for point in 1..moments.len() {
        let place = first + (point - 1);
        add(
            graph,
            Step {
                place,
                why: Why::RealTime,
            },
            first + point,
        )?;
    }
    Ok(())
}

/// Adds, for each transaction that must be there, the step from the hub of the last moment before its
/// invocation.
fn add_invocations(
    graph: &mut [Vec<Step>],
    txns: &[Txn],
    there: &[bool],
    moments: &[usize],
    first: usize,
) -> Result<(), AllocError>
    requires moments { AreMoments txns.now moments.now }
    requires count { length there.now ≡ length txns.now }
    requires nodes { length txns.now ≤ length graph.old }
    requires hubs { first + length moments.now ≤ length graph.old }
    ensures { OnOk result (AddsSteps
        (IsAnyInvocationStep txns.now there.now moments.now first) graph.old graph.new) }
{
    for place in 0..txns.len() {
        add_invocation(graph, txns, there, moments, first, place)?;
    }
    Ok(())
}

/// Adds the step from the hub of the last moment before a transaction's invocation, if this must be
/// there.
fn add_invocation(
    graph: &mut [Vec<Step>],
    txns: &[Txn],
    there: &[bool],
    moments: &[usize],
    first: usize,
    node: usize,
) -> Result<(), AllocError>
    requires moments { AreMoments txns.now moments.now }
    requires node { node < length txns.now }
    requires nodes { length txns.now ≤ length graph.old }
    requires hubs { first + length moments.now ≤ length graph.old }
    ensures { OnOk result (AddsSteps
        (IsInvocationStep txns.now there.now moments.now first node) graph.old graph.new) }
{
    let point = point_of(moments, txns[node].invoked);
    if is_marked(there, node) && 0 < point {
        let place = first + (point - 1);
        add(
            graph,
            Step {
                place,
                why: Why::RealTime,
            },
            node,
        )
    } else {
        Ok(())
    }
}
