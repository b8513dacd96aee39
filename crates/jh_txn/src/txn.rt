//! Transactions over lists. `specs/Transactions.antt` says what they append and read.

ghost use Rattle.std.specs.Prelude.{◌≡◌};

use std::marker::Model;

/// How a transaction ended.
#[derive(Clone, Copy, Debug, PartialEq, Eq)]
pub enum Outcome {
    /// It happened, between its invocation and its completion.
    Done,
    /// It did not happen.
    Failed,
    /// Nobody knows: it may take effect at any time after its invocation, or never.
    Unsure,
}

/// The elements of a list, in order. A contract sees a list.
#[derive(Debug, Drop)]
pub struct Elements {
    items: Vec<usize>,
}

impl Model for Elements {
    ghost use Rattle.std.specs.Prelude.{List, ℕ};

    ghost Value = { List ℕ };

    ghost view = { λ a. a.items.items };
}

impl Elements {
    /// The elements of a vector. Takes no memory.
    pub fn of(items: Vec<usize>) -> Elements
        ensures { result ≡ items.items }
    {
        Elements { items }
    }

    /// The elements, one after another.
    pub fn as_slice(&self) -> &[usize]
        ensures { result.now ≡ self.now }
    {
        self.items.as_slice()
    }

    /// The vector, given back without memory.
    pub fn into_vec(self) -> Vec<usize>
        ensures { result.items ≡ self }
    {
        let Elements { items } = self;
        items
    }
}

/// What a transaction does at one of its indexes. Each key has a list of its own.
#[derive(Debug, Drop)]
pub enum MicroOp {
    /// Put the element at the end of the key's list.
    Append { key: usize, element: usize },
    /// See the key's list. What was seen is looked at only where the transaction is done.
    Read { key: usize, seen: Elements },
}

/// The micro-operations of a transaction, in order. A contract sees a list.
#[derive(Debug, Drop)]
pub struct MicroOps {
    ops: Vec<MicroOp>,
}

impl Model for MicroOps {
    ghost use Rattle.std.specs.Prelude.{List};
    ghost use Rattle.jh_txn.specs.declared.txn.MicroOp.{MicroOp};

    ghost Value = { List MicroOp };

    ghost view = { λ a. a.ops.items };
}

impl MicroOps {
    /// The micro-operations of a vector. Takes no memory.
    pub fn of(ops: Vec<MicroOp>) -> MicroOps
        ensures { result ≡ ops.items }
    {
        MicroOps { ops }
    }

    /// The micro-operations, one after another.
    pub fn as_slice(&self) -> &[MicroOp]
        ensures { result.now ≡ self.now }
    {
        self.ops.as_slice()
    }

    /// The vector, given back without memory.
    pub fn into_vec(self) -> Vec<MicroOp>
        ensures { result.items ≡ self }
    {
        let MicroOps { ops } = self;
        ops
    }
}

/// A transaction, with the indexes in the history at which it was invoked and completed.
#[derive(Debug, Drop)]
pub struct Txn {
    pub invoked: usize,
    pub completed: Option<usize>,
    pub outcome: Outcome,
    pub ops: MicroOps,
}

/// A point of a snapshot order.
#[derive(Clone, Copy, Debug, PartialEq, Eq)]
pub enum Point {
    /// The transaction at this place starts: its reads see what was committed before.
    Start(usize),
    /// It commits: what it appends is there from now on.
    Commit(usize),
}
