//! Faults as plain data. `specs/Plain.antt` says which fault each is, `specs/Faults.antt` what
//! holds of a right one, and `specs/Overlay.antt` what it does. A new kind of fault is a case of
//! each, of `counted.rt` where a count or a sum is kept of it, and of `changing.rt`.

use crate::nodes::Node;

/// What a fault does to each of its links.
#[derive(Clone, Copy, Debug, PartialEq, Eq)]
pub enum LinkFault {
    /// Nothing passes.
    Cut,
    /// Messages are later, by 1 to 60,000 milliseconds.
    Slow(u64),
    /// Messages are lost, at a level of 1 to 20 in 20.
    Loss(u8),
    /// The delay is this one, 0 to 60,000 milliseconds, whatever it was before.
    Fix(u64),
}

/// How a fault takes each of its nodes down.
#[derive(Clone, Copy, Debug, PartialEq, Eq)]
pub enum NodeFault {
    Pause,
    Kill,
}

/// What a fault does, and to what. It is right where each link and node stands once and amounts are
/// in their ranges.
#[derive(Debug, Drop)]
pub enum PlainFault {
    OnLinks(LinkFault, Vec<(Node, Node)>),
    OnNodes(NodeFault, Vec<Node>),
    Bump(Vec<(Node, i64)>),
}
