//! Who appends an element. `specs/Writers.antt` says what a table of them holds.

/// The one append of an element: its key, the place of its transaction, and the elements that this
/// transaction appends to the key just before it and just behind it, if there are any.
#[derive(Clone, Copy, Debug, PartialEq, Eq)]
pub struct Writer {
    pub key: usize,
    pub place: usize,
    pub previous: Option<usize>,
    pub next: Option<usize>,
}
