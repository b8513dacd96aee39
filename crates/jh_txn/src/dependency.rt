//! Dependencies between transactions. `specs/Dependencies.antt` has the definitions.

/// Why one transaction comes before another one.
#[derive(Clone, Copy, Debug, PartialEq, Eq)]
pub enum Why {
    /// `:wr`: the second one read this element, which the first one appended.
    WriteRead { key: usize, element: usize },
    /// `:ww`: both appended to the key, and reads show this element of the first one before an
    /// element of the second one, or without it.
    WriteWrite { key: usize, element: usize },
    /// `:fcw`: both appended to the key, the first one this element, and it read the key without an
    /// element of the second one. For models of snapshots alone.
    FirstCommitter { key: usize, element: usize },
    /// `:rw`: the first one read the key without this element, which the second one appended.
    ReadWrite { key: usize, element: usize },
    /// `:rt`: the first one was done before the second one was invoked.
    RealTime,
}

/// A step of a cycle: from the transaction at a place to that of the next step.
#[derive(Clone, Copy, Debug, PartialEq, Eq)]
pub struct Step {
    pub place: usize,
    pub why: Why,
}
