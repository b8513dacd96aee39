//! What the judge answers.

use jh_linear::Linearization;

/// Why operations have no order: by itself each of these excludes every one (`reasons_exclude`). Each
/// number is that of an operation.
#[derive(Clone, Copy, Debug, PartialEq, Eq)]
pub enum UniqueReason {
    /// `:no-origin`: what this operation needs comes from nowhere, since no compare-and-sets lead to
    /// that value from a write or from the initial value.
    Nowhere(usize),
    /// `:replaced-twice`: two compare-and-sets from one value.
    FromOne(usize, usize),
    /// `:out-of-order`: the second operation ended before the first one was invoked, and has to stand
    /// behind it: by what they read and write, or since neither of their clusters can stand before the
    /// other.
    Behind(usize, usize),
}

/// Whether operations whose values are written once have an order.
#[derive(Debug, Drop)]
pub enum UniqueVerdict {
    /// They have: this one.
    Valid(Linearization),
    /// They have none.
    Invalid(UniqueReason),
    /// These two write the same value, so the operations are not judged.
    Repeated(usize, usize),
    /// This one writes the initial value, so the operations are not judged.
    WritesInitial(usize),
}
