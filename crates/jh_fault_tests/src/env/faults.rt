//! Faults that a call spells: `cut`, `slow`, `loss`, `fix`, `pause`, `kill`, `bump`. The numbers of a call are places,
//! with an amount before them where the fault has one. A place 3 is that of a fourth node.

use crate::env::rows::{Call, ends, four, node};
use jh_env::{Fault, FaultError, Node, Nodes};
use std::alloc::Global;

/// The nodes over which faults are made, and the nodes whose places numbers are.
#[derive(Drop)]
pub(crate) struct Over {
    nodes: Nodes,
    pub(crate) places: Nodes,
}

/// So many of the first nodes, two to four.
pub(crate) fn over_first(alloc: Global, count: &str) -> Option<Over> {
    Some(Over {
        nodes: first_nodes(alloc, count)?,
        places: four(alloc)?,
    })
}

/// Nodes with so many of the first names.
fn first_nodes(alloc: Global, count: &str) -> Option<Nodes> {
    match count {
        "2" => Nodes::of(alloc, &["n1", "n2"]).ok(),
        "4" => four(alloc),
        _ => Nodes::of(alloc, &["n1", "n2", "n3"]).ok(),
    }
}

/// The links that places spell, two for each.
fn links(alloc: Global, nodes: &Nodes, places: &[i64]) -> Option<Vec<(Node, Node)>> {
    let mut links = Vec::new(alloc);
    for pair in places.chunks(2) {
        links.push(ends(nodes, pair)?).ok()?;
    }
    Some(links)
}

/// The nodes at these places.
fn nodes_at(alloc: Global, nodes: &Nodes, places: &[i64]) -> Option<Vec<Node>> {
    let mut all = Vec::new(alloc);
    for place in places {
        all.push(node(nodes, *place)?).ok()?;
    }
    Some(all)
}

/// A node with the amount by which its clock is bumped: an amount and a place.
fn bump_of(nodes: &Nodes, pair: &[i64]) -> Option<(Node, i64)> {
    Some((node(nodes, *pair.get(1)?)?, *pair.first()?))
}

/// Nodes with such amounts.
fn bumps(alloc: Global, nodes: &Nodes, numbers: &[i64]) -> Option<Vec<(Node, i64)>> {
    let mut all = Vec::new(alloc);
    for pair in numbers.chunks(2) {
        all.push(bump_of(nodes, pair)?).ok()?;
    }
    Some(all)
}

/// A fault on nodes, or its refusal.
fn node_fault(alloc: Global, over: &Over, call: &Call<'_>) -> Result<Fault, FaultError> {
    let Some(nodes) = nodes_at(alloc, &over.places, call.numbers.as_slice()) else {
        return Err(FaultError::OutOfMemory);
    };
    match call.name {
        "pause" => Fault::pause(alloc, &over.nodes, &nodes),
        _ => Fault::kill(alloc, &over.nodes, &nodes),
    }
}

/// A bump, or its refusal.
fn bump(alloc: Global, over: &Over, call: &Call<'_>) -> Result<Fault, FaultError> {
    match bumps(alloc, &over.places, call.numbers.as_slice()) {
        Some(bumps) => Fault::bump(alloc, &over.nodes, &bumps),
        None => Err(FaultError::OutOfMemory),
    }
}

/// A cut, or its refusal.
fn cut(alloc: Global, over: &Over, call: &Call<'_>) -> Result<Fault, FaultError> {
    match links(alloc, &over.places, call.numbers.as_slice()) {
        Some(links) => Fault::cut(alloc, &over.nodes, &links),
        None => Err(FaultError::OutOfMemory),
    }
}

/// The amount of a call, and its links.
fn amount_and_links(
    alloc: Global,
    nodes: &Nodes,
    numbers: &[i64],
) -> Option<(u64, Vec<(Node, Node)>)> {
    let (amount, places) = numbers.split_first()?;
    let amount = u64::try_from(*amount).ok()?;
    Some((amount, links(alloc, nodes, places)?))
}

/// A fault on links that has an amount, or its refusal.
fn measured(alloc: Global, over: &Over, call: &Call<'_>) -> Result<Fault, FaultError> {
    let Some((amount, links)) = amount_and_links(alloc, &over.places, call.numbers.as_slice())
    else {
        return Err(FaultError::OutOfMemory);
    };
    match call.name {
        "slow" => Fault::slow(alloc, &over.nodes, &links, amount),
        "fix" => Fault::fix(alloc, &over.nodes, &links, amount),
        _ => Fault::loss(
            alloc,
            &over.nodes,
            &links,
            u8::try_from(amount).unwrap_or(u8::MAX),
        ),
    }
}

/// The fault of a call, or its refusal: out of memory, too, where the call names no fault.
pub(crate) fn fault(alloc: Global, over: &Over, call: &Call<'_>) -> Result<Fault, FaultError> {
    match call.name {
        "cut" => cut(alloc, over, call),
        "slow" | "loss" | "fix" => measured(alloc, over, call),
        "pause" | "kill" => node_fault(alloc, over, call),
        "bump" => bump(alloc, over, call),
        _ => Err(FaultError::OutOfMemory),
    }
}
