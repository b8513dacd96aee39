//! What a link and a node are like. `specs/Cells.antt` says where they stand in an environment.

ghost use Rattle.std.specs.Prelude.{◌≡◌};
ghost use Rattle.jh_tables.specs.Cells.{calm_link, running_node};

/// What a node's process does.
#[derive(Clone, Copy, Debug, PartialEq, Eq)]
pub enum Life {
    Running,
    Paused,
    Killed,
}

/// What the link from one node to another is like: its cell, as `NodeCell` is that of a node. Which
/// link it is, the pair of the two nodes says.
#[derive(Clone, Copy, Debug, PartialEq, Eq)]
pub struct Link {
    /// Whether nothing passes.
    pub cut: bool,
    /// Milliseconds by which a message is late.
    pub delay: u64,
    /// Level of loss: how many of twenty messages are lost.
    pub loss: u8,
}

/// What a node is like: its cell.
#[derive(Clone, Copy, Debug, PartialEq, Eq)]
pub struct NodeCell {
    /// What its process does.
    pub process: Life,
    /// Milliseconds by which the node's clock is ahead.
    pub clock: i64,
}

impl Link {
    /// A link as it should be.
    pub fn calm() -> Link
        ensures { result ≡ calm_link }
    {
        Link {
            cut: false,
            delay: 0,
            loss: 0,
        }
    }
}

impl NodeCell {
    /// A node as it should be.
    pub fn running() -> NodeCell
        ensures { result ≡ running_node }
    {
        NodeCell {
            process: Life::Running,
            clock: 0,
        }
    }
}
