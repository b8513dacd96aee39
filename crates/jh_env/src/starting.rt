//! A starting environment while it is set up. `specs/Starting.antt` says what each call changes and
//! refuses.

ghost use Rattle.std.specs.Prelude.{◌≡◌, Some, IfOk, MatchResult};
ghost use Rattle.jh_env.specs.Cells.{link_at, node_at};
ghost use Rattle.jh_env.specs.Starting.{SetsLink, SetsNode, RefusesLink, RefusesNode, IsCalm};

use crate::faults::MAX_LOSS;
use crate::names::Nodes;
use jh_tables::{Link, Node, NodeCell};
use std::alloc::{AllocError, Global};
use std::marker::Model;
use thiserror::Error;

/// The most milliseconds by which messages on a link are late at the start.
pub const MAX_START_DELAY_MS: u64 = 60_000;

/// The greatest level of loss of a link at the start.
pub const MAX_START_LOSS: u8 = MAX_LOSS;

/// The most milliseconds by which a clock is off at the start, either way.
pub const MAX_START_OFFSET_MS: i64 = 1_000_000_000_000;

/// A starting environment: its nodes, and the cell of each link and node.
#[derive(Debug, Drop)]
pub struct Start {
    pub(crate) names: Nodes,
    pub(crate) link_cells: Vec<Link>,
    pub(crate) node_cells: Vec<NodeCell>,
}

impl Model for Start {
    ghost use Rattle.jh_env.specs.Starting.{StartValue};

    ghost Value = { StartValue };

    ghost use Rattle.jh_env.specs.StartInside.{view_start, IsSetUp};

    ghost view = { view_start };

    ghost invariant = { IsSetUp };
}

/// Why a cell is not set.
#[derive(Clone, Copy, Debug, PartialEq, Eq, Error)]
pub enum StartError {
    #[error("unknown node")]
    UnknownNode,
    #[error("self link")]
    SelfLink,
    #[error("bad amount")]
    BadAmount,
}

impl Start {
    /// An environment where nothing is cut, slow, lossy or down and each clock is right.
    pub fn new(alloc: Global, nodes: Nodes) -> Result<Start, AllocError>
        ensures { IfOk result (λ start. (start.names ≡ nodes) × IsCalm start) }
    {
        let count = nodes.len();
        Ok(Start {
            link_cells: vec![in alloc; Link::calm(); count * count]?,
            node_cells: vec![in alloc; NodeCell::running(); count]?,
            names: nodes,
        })
    }

    /// The nodes, with their names.
    pub fn nodes(&self) -> &Nodes
        ensures { result.now ≡ self.now.names }
    {
        &self.names
    }

    /// The link from one node to another as it is set, where there is one.
    pub fn link(&self, from: Node, to: Node) -> Option<Link>
        ensures { result ≡ link_at self.now.cells from to }
    {
        let count = self.node_cells.len();
        let (from, to) = (from.place() as usize, to.place() as usize);
        if from < count && to < count && from != to {
            Some(self.link_cells[from * count + to])
        } else {
            None
        }
    }

    /// A node's cell as it is set, where the node is one of the environment.
    pub fn node(&self, node: Node) -> Option<NodeCell>
        ensures { result ≡ node_at self.now.cells node }
    {
        self.node_cells.get(node.place() as usize).copied()
    }

    /// Sets the link from one node to another.
    ///
    /// Errors, which change nothing: `UnknownNode`; `SelfLink`; `BadAmount` where the delay is
    /// above 60,000 or the level of loss above 20.
    pub fn set_link(&mut self, from: Node, to: Node, link: Link) -> Result<(), StartError>
        ensures { MatchResult result
            (λ _. SetsLink self.old from to link self.new)
            (λ e. (self.new ≡ self.old) × RefusesLink self.old from to link e) }
    {
        let count = self.node_cells.len();
        let (source, destination) = (from.place() as usize, to.place() as usize);
        if source >= count || destination >= count {
            return Err(StartError::UnknownNode);
        }
        if source == destination {
            return Err(StartError::SelfLink);
        }
        if link.delay > MAX_START_DELAY_MS || link.loss > MAX_START_LOSS {
            return Err(StartError::BadAmount);
        }
        self.link_cells[source * count + destination] = link;
        Ok(())
    }

    /// Sets a node's cell.
    ///
    /// Errors, which change nothing: `UnknownNode`; `BadAmount` where the clock is off by more than
    /// 10^12 milliseconds either way.
    pub fn set_node(&mut self, node: Node, cell: NodeCell) -> Result<(), StartError>
        ensures { MatchResult result
            (λ _. SetsNode self.old node cell self.new)
            (λ e. (self.new ≡ self.old) × RefusesNode self.old node cell e) }
    {
        let place = node.place() as usize;
        if place >= self.node_cells.len() {
            return Err(StartError::UnknownNode);
        }
        if cell.clock < -MAX_START_OFFSET_MS || cell.clock > MAX_START_OFFSET_MS {
            return Err(StartError::BadAmount);
        }
        self.node_cells[place] = cell;
        Ok(())
    }
}
