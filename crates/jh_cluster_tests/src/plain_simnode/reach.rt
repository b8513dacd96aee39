//! Which nodes a request reaches, as lists of places.

use jh_env::{Env, Life, Link, Node};
use std::alloc::Global;

/// The node at a place.
pub fn node_at(env: &Env, place: usize) -> Option<Node> {
    env.nodes().at(u8::try_from(place).ok()?)
}

/// The process of the node at a place.
pub(crate) fn process(env: &Env, place: usize) -> Option<Life> {
    Some(env.node(node_at(env, place)?)?.process)
}

/// The link from one place to another.
pub(crate) fn link(env: &Env, from: usize, to: usize) -> Option<Link> {
    env.link(node_at(env, from)?, node_at(env, to)?)
}

/// Whether a message goes over a link by this draw.
fn carries(env: &Env, from: usize, to: usize, draw: u64) -> Option<bool> {
    let link = link(env, from, to)?;
    Some(!link.cut && draw % 20 >= u64::from(link.loss))
}

/// Whether a request at one node reaches another by this draw; itself that node always reaches.
fn is_reached(env: &Env, at: usize, other: usize, draw: u64) -> Option<bool> {
    if at == other {
        return Some(true);
    }
    let is_running = process(env, other)? == Life::Running;
    Some(is_running && carries(env, at, other, draw)? && carries(env, other, at, draw)?)
}

/// Whether another node's answer to a request at one node comes in time; that node's own always
/// does.
fn is_responding(env: &Env, at: usize, other: usize) -> Option<bool> {
    if at == other {
        return Some(true);
    }
    let there = link(env, at, other)?.delay;
    let back = link(env, other, at)?.delay;
    Some(there.saturating_add(back) <= 1000)
}

/// The nodes that a request at a node changes or asks.
pub(crate) fn reached(alloc: Global, env: &Env, at: usize, draw: u64) -> Option<Vec<usize>> {
    let mut these = Vec::new(alloc);
    for other in 0..env.nodes().len() {
        if is_reached(env, at, other, draw)? {
            these.push(other).ok()?;
        }
    }
    Some(these)
}

/// Those of them whose answer comes in time.
pub(crate) fn responding(
    alloc: Global,
    env: &Env,
    at: usize,
    reached: &[usize],
) -> Option<Vec<usize>> {
    let mut these = Vec::new(alloc);
    for other in reached {
        if is_responding(env, at, *other)? {
            these.push(*other).ok()?;
        }
    }
    Some(these)
}
