//! What of a history is drawn.

/// The records of a history that are drawn: those from the index `from` on and before the index
/// `to`.
#[derive(Clone, Copy, Debug, PartialEq, Eq)]
pub struct Window {
    pub from: usize,
    pub to: usize,
}

/// What a client did: an operation, which is an invocation with its completion, or a completion that
/// answers no invocation. Indexes count the records of the whole history from 0.
#[derive(Clone, Copy, Debug, PartialEq, Eq)]
pub struct Call {
    /// The number of the process that did it.
    pub client: u64,
    /// The index of its first record: its invocation, or the completion that stands alone.
    pub first: usize,
    /// The index of its completion, if it has one.
    pub completion: Option<usize>,
    /// The index of the last record of its process.
    pub last: usize,
}

/// A call as it is drawn: a bar in a lane, from its first record down to its completion.
#[derive(Clone, Copy, Debug, PartialEq, Eq)]
pub struct Bar {
    pub call: Call,
    /// The lane, from 0, which its process has up to its last record.
    pub lane: usize,
}

/// What is drawn of a history.
#[derive(Debug, Drop)]
pub struct Picture {
    /// A bar for each call that is drawn, in order.
    pub bars: Vec<Bar>,
    /// How many operations of unknown outcome began before what is drawn, and are not drawn.
    pub left_out: usize,
    /// The lanes, from the left.
    pub lanes: Vec<Lane>,
}

/// A lane.
#[derive(Debug, Drop)]
pub struct Lane {
    /// The numbers of the processes that had it, in order.
    pub clients: Vec<u64>,
}
