//! What can be wrong with a read by itself. `specs/BadReads.antt` has the definitions.

/// Why no order explains a read, whatever the rest of the history is.
#[derive(Clone, Copy, Debug, PartialEq, Eq)]
pub enum BadRead {
    /// It does not fit what its own transaction appended and read.
    Internal,
    /// It has an element twice.
    DuplicateElements,
    /// It has an element that nobody appended to the key.
    GarbageRead,
    /// It has an element of a transaction that failed (Adya's G1a).
    AbortedRead,
    /// It has a part of what another transaction appended to the key (Adya's G1b).
    IntermediateRead,
    /// It has two elements of one transaction, not in the order in which it appended them.
    OutOfOrder,
}
