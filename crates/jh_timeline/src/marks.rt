//! What is marked in a picture.

/// How a transaction of a cycle leads to the next one: the kind of the dependency.
#[derive(Clone, Copy, Debug, PartialEq, Eq)]
pub enum StepKind {
    /// The next one read what it appended.
    WriteRead,
    /// The next one appended behind it.
    WriteWrite,
    /// The next one appended to what it had read and appended to.
    FirstCommitter,
    /// The next one appended what it had not read.
    ReadWrite,
    /// It was done before the next one was invoked.
    RealTime,
}

/// Where an operation stands in an order that was found.
#[derive(Clone, Copy, Debug, PartialEq, Eq)]
pub struct Place {
    /// Where in the order it stands, from 0. The number by which orders name it is another: its
    /// place among the operations.
    pub number: usize,
    /// What the register holds behind it: the last value that was written or read up to there in the
    /// order. None where there is none yet, and of what is no register.
    pub holds: Option<i64>,
}

/// What a mark says of an operation.
#[derive(Clone, Copy, Debug, PartialEq, Eq)]
pub enum Note {
    /// It stands in an order that explains the history.
    Placed(Place),
    /// With its completion the history has no order any more.
    Stuck,
    /// It is pending where the history is stuck, with its place in the order that is found up to
    /// there, if it has one.
    Pending(Option<Place>),
    /// It added what is lost.
    Lost,
    /// It added what is there, and that was not acknowledged.
    Recovered,
    /// It was given what no add explains.
    Unexpected,
    /// It was given what was given more than once.
    Repeated,
    /// It read a counter outside these bounds.
    Outside {
        /// The least that it could be.
        lower: i128,
        /// The most that it could be.
        upper: i128,
    },
    /// It is a transaction of a cycle.
    Step {
        /// Its place among the transactions, from 0.
        place: usize,
        /// How it leads to the next one.
        kind: StepKind,
    },
    /// It is a transaction with a read that no order explains.
    BadRead,
    /// It added an element that a read lacked when it was known to be there.
    Stale,
    /// It read balances that the bank can't have.
    WrongBalances,
    /// The verdict names it: as one of those that exclude every order, or for which none is sought.
    Named,
}

/// A mark at a call, or at its bar.
#[derive(Clone, Copy, Debug, PartialEq, Eq)]
pub struct Mark {
    /// The number of the call among those that are marked, from 0: among the calls of a history, or
    /// those of the bars of a picture.
    pub call: usize,
    pub note: Note,
}
