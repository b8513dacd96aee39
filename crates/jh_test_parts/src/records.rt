//! What is recorded in a test. `specs/Records.antt` says which operation of the history a record is.

use crate::calls::{Datum, ValuedCall};
use jh_edn::Pairs;
use jh_env::{Link, Node, NodeCell};
use jh_nemesis::Step;
use jh_ops::{Kind, Request};
use std::marker::Model;

/// A link that a step changed, with what it now is.
#[derive(Clone, Copy, Debug)]
pub struct ChangedLink {
    pub source: Node,
    pub destination: Node,
    pub link: Link,
}

/// A node that a step changed, with what it now is.
#[derive(Clone, Copy, Debug)]
pub struct ChangedNode {
    pub node: Node,
    pub cell: NodeCell,
}

/// The cells that a step changed. A contract sees two lists.
#[derive(Debug, Drop)]
pub struct ChangedCells {
    pub(crate) links: Vec<ChangedLink>,
    pub(crate) nodes: Vec<ChangedNode>,
}

impl Model for ChangedCells {
    ghost use Rattle.jh_test_parts.specs.Changes.{ChangedCells as TwoLists};

    ghost Value = { TwoLists };

    ghost view = { λ a. record { links = a.links.items; nodes = a.nodes.items } };

    ghost use Rattle.std.specs.List.{All};
    ghost use Rattle.jh_tables.specs.Standing.{IsLinkInRange};

    ghost invariant = { λ a. All (λ changed. IsLinkInRange changed.link) a.links.items };
}

/// A record of a test. Its time is that at which it was made, in nanoseconds.
#[derive(Debug, Drop)]
pub enum Recorded {
    /// This process calls this node.
    Invoked {
        time: u64,
        process: u64,
        node: Node,
        call: ValuedCall,
    },
    /// A call of this process ended, with a value and other keys as they came.
    Ended {
        time: u64,
        process: u64,
        kind: Kind,
        request: Request,
        value: Datum,
        rest: Pairs,
    },
    /// The step of the entry at this place was taken, and these cells have changed.
    StepBegun {
        time: u64,
        entry: u64,
        step: Step,
        cells: ChangedCells,
    },
    /// The step of this entry ended: the adapter has done so. The code is that of what the nemesis
    /// answered when it was taken; other keys are as they came.
    StepEnded {
        time: u64,
        entry: u64,
        code: u64,
        rest: Pairs,
    },
}
