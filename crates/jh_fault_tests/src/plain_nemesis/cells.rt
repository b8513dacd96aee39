//! Cells as lists of rows, and what one fault makes of them.

use crate::plain_nemesis::faults::{LinkFault, NodeFault, PlainFault};
use jh_env::{Life, Link, Node, NodeCell, Nodes, Start};
use std::alloc::Global;
use std::cmp::max;

/// The cells of links, by source and then by destination, and of nodes.
#[derive(Drop)]
pub struct PlainCells {
    count: u8,
    links: Vec<Vec<Link>>,
    nodes: Vec<NodeCell>,
}

/// Appends the links from one node to all others.
fn push_links(links: &mut Vec<(u8, u8)>, from: u8, count: u8) -> Option<()> {
    for to in 0..count {
        if from != to {
            links.push((from, to)).ok()?;
        }
    }
    Some(())
}

/// All links between so many nodes.
pub fn all_links(alloc: Global, count: u8) -> Option<Vec<(u8, u8)>> {
    let mut links = Vec::new(alloc);
    for from in 0..count {
        push_links(&mut links, from, count)?;
    }
    Some(links)
}

/// The same rows once more.
fn copy_rows(alloc: Global, rows: &[Vec<Link>]) -> Option<Vec<Vec<Link>>> {
    let mut copy = Vec::new(alloc);
    for row in rows {
        copy.push(row.as_slice().to_vec(alloc).ok()?).ok()?;
    }
    Some(copy)
}

/// Lays a fault on one link.
fn change_link(link: &mut Link, kind: LinkFault) {
    match kind {
        LinkFault::Cut => link.cut = true,
        LinkFault::Slow(ms) => link.delay = link.delay.saturating_add(ms),
        LinkFault::Loss(level) => link.loss = max(link.loss, level),
        LinkFault::Fix(ms) => link.delay = ms,
    }
}

/// Lays a fault on one node.
fn change_node(cell: &mut NodeCell, kind: NodeFault) {
    match (kind, cell.process) {
        (NodeFault::Kill, _) => cell.process = Life::Killed,
        (NodeFault::Pause, Life::Running) => cell.process = Life::Paused,
        (NodeFault::Pause, _) => (),
    }
}

impl PlainCells {
    /// Cells of so many nodes, where nothing is wrong.
    pub fn calm(alloc: Global, count: u8) -> Option<PlainCells> {
        let mut links = Vec::new(alloc);
        for _from in 0..count {
            links
                .push(vec![in alloc; Link::calm(); count as usize].ok()?)
                .ok()?;
        }
        Some(PlainCells {
            count,
            links,
            nodes: vec![in alloc; NodeCell::running(); count as usize].ok()?,
        })
    }

    /// The same cells once more.
    pub(crate) fn copy(&self, alloc: Global) -> Option<PlainCells> {
        Some(PlainCells {
            count: self.count,
            links: copy_rows(alloc, self.links.as_slice())?,
            nodes: self.nodes.as_slice().to_vec(alloc).ok()?,
        })
    }

    /// The link from one place to another.
    pub fn link(&self, from: u8, to: u8) -> Option<Link> {
        self.links.get(from as usize)?.get(to as usize).copied()
    }

    /// The cell of the node at a place.
    pub fn node(&self, place: u8) -> Option<NodeCell> {
        self.nodes.get(place as usize).copied()
    }

    /// Sets the link from one place to another.
    pub(crate) fn set_link(&mut self, from: u8, to: u8, link: Link) -> Option<()> {
        *self.links.get_mut(from as usize)?.get_mut(to as usize)? = link;
        Some(())
    }

    /// Sets the cell of the node at a place.
    pub(crate) fn set_node(&mut self, place: u8, cell: NodeCell) -> Option<()> {
        *self.nodes.get_mut(place as usize)? = cell;
        Some(())
    }

    /// Lays a fault on each of these links.
    fn lay_on_links(&mut self, kind: LinkFault, links: &[(u8, u8)]) -> Option<()> {
        for (from, to) in links {
            let mut link = self.link(*from, *to)?;
            change_link(&mut link, kind);
            self.set_link(*from, *to, link)?;
        }
        Some(())
    }

    /// Lays a fault on each of the nodes at these places.
    fn lay_on_nodes(&mut self, kind: NodeFault, places: &[u8]) -> Option<()> {
        for place in places {
            let mut cell = self.node(*place)?;
            change_node(&mut cell, kind);
            self.set_node(*place, cell)?;
        }
        Some(())
    }

    /// Moves the clocks of nodes, each by some milliseconds.
    fn bump(&mut self, bumps: &[(u8, i64)]) -> Option<()> {
        for (place, ms) in bumps {
            let mut cell = self.node(*place)?;
            cell.clock = cell.clock.saturating_add(*ms);
            self.set_node(*place, cell)?;
        }
        Some(())
    }

    /// Lays one fault on the cells as they are. None: it names a node that isn't there.
    pub(crate) fn lay(&mut self, fault: &PlainFault) -> Option<()> {
        match fault {
            PlainFault::OnLinks(kind, links) => self.lay_on_links(*kind, links.as_slice()),
            PlainFault::OnNodes(kind, places) => self.lay_on_nodes(*kind, places.as_slice()),
            PlainFault::Bump(bumps) => self.bump(bumps.as_slice()),
        }
    }

    /// Gives a start the links of these cells.
    fn start_links(&self, alloc: Global, start: &mut Start) -> Option<()> {
        for (from, to) in all_links(alloc, self.count)? {
            let link = self.link(from, to)?;
            start.set_link(Node::at(from), Node::at(to), link).ok()?;
        }
        Some(())
    }

    /// The start of an environment of these nodes that has these cells. None: memory was refused,
    /// or a cell is none of theirs.
    pub fn start(&self, alloc: Global, nodes: Nodes) -> Option<Start> {
        let mut start = Start::new(alloc, nodes).ok()?;
        self.start_links(alloc, &mut start)?;
        for place in 0..self.count {
            start.set_node(Node::at(place), self.node(place)?).ok()?;
        }
        Some(start)
    }
}
