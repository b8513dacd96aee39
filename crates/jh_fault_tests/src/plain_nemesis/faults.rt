//! Faults as the plain nemesis keeps them.

use jh_env::{Fault, Node, Nodes};
use std::alloc::Global;

/// What a fault does to each of its links.
#[derive(Clone, Copy)]
pub enum LinkFault {
    /// Nothing passes.
    Cut,
    /// Messages are later by these milliseconds.
    Slow(u64),
    /// Messages are lost at this level.
    Loss(u8),
    /// Messages are late by these milliseconds, whatever it was before.
    Fix(u64),
}

/// What a fault does to each of its nodes.
#[derive(Clone, Copy)]
pub enum NodeFault {
    Pause,
    Kill,
}

/// A fault by places of nodes. Each link and node stands once.
#[derive(Drop)]
pub enum PlainFault {
    OnLinks(LinkFault, Vec<(u8, u8)>),
    OnNodes(NodeFault, Vec<u8>),
    Bump(Vec<(u8, i64)>),
}

/// The nodes at both ends of each link.
fn ends(alloc: Global, links: &[(u8, u8)]) -> Option<Vec<(Node, Node)>> {
    let mut all = Vec::new(alloc);
    for (from, to) in links {
        all.push((Node::at(*from), Node::at(*to))).ok()?;
    }
    Some(all)
}

/// The nodes at these places.
fn nodes_at(alloc: Global, places: &[u8]) -> Option<Vec<Node>> {
    let mut all = Vec::new(alloc);
    for place in places {
        all.push(Node::at(*place)).ok()?;
    }
    Some(all)
}

/// The same bumps, by nodes instead of places.
fn bumps_at(alloc: Global, bumps: &[(u8, i64)]) -> Option<Vec<(Node, i64)>> {
    let mut all = Vec::new(alloc);
    for (place, ms) in bumps {
        all.push((Node::at(*place), *ms)).ok()?;
    }
    Some(all)
}

/// The fault of this kind on links, as a nemesis over these nodes takes it.
fn on_links(
    alloc: Global,
    nodes: &Nodes,
    kind: LinkFault,
    links: &[(Node, Node)],
) -> Option<Fault> {
    match kind {
        LinkFault::Cut => Fault::cut(alloc, nodes, links).ok(),
        LinkFault::Slow(ms) => Fault::slow(alloc, nodes, links, ms).ok(),
        LinkFault::Loss(level) => Fault::loss(alloc, nodes, links, level).ok(),
        LinkFault::Fix(ms) => Fault::fix(alloc, nodes, links, ms).ok(),
    }
}

/// The fault of this kind on nodes, as a nemesis over these nodes takes it.
fn on_nodes(alloc: Global, nodes: &Nodes, kind: NodeFault, named: &[Node]) -> Option<Fault> {
    match kind {
        NodeFault::Pause => Fault::pause(alloc, nodes, named).ok(),
        NodeFault::Kill => Fault::kill(alloc, nodes, named).ok(),
    }
}

impl PlainFault {
    /// Whether the fault fixes delays.
    pub(crate) fn is_fix(&self) -> bool {
        matches!(self, PlainFault::OnLinks(LinkFault::Fix(_), _))
    }

    /// The fault that a nemesis over these nodes takes. None: memory was refused, or it is no fault
    /// of theirs.
    pub fn fault(&self, alloc: Global, nodes: &Nodes) -> Option<Fault> {
        match self {
            PlainFault::OnLinks(kind, links) => {
                on_links(alloc, nodes, *kind, ends(alloc, links)?.as_slice())
            }
            PlainFault::OnNodes(kind, places) => {
                on_nodes(alloc, nodes, *kind, nodes_at(alloc, places)?.as_slice())
            }
            PlainFault::Bump(bumps) => {
                Fault::bump(alloc, nodes, bumps_at(alloc, bumps)?.as_slice()).ok()
            }
        }
    }
}
