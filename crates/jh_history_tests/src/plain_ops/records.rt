//! What may mean an operation, in texts.

/// The texts of a key and of its value.
pub type Words = (&'static str, &'static str);

/// A value that may mean an operation, but for the tags around it.
#[derive(Drop)]
pub enum Record {
    Map(Vec<Words>),
    /// No map, with no tag around it; where it is a sequence, none of its elements is a map.
    Other(&'static str),
}

/// How records are given.
#[derive(Clone, Copy, PartialEq, Eq)]
pub enum Held {
    /// One value after another.
    Apart,
    InList,
    InVector,
    InSet,
}

/// What may mean a history.
#[derive(Drop)]
pub struct Records {
    pub records: Vec<Record>,
    pub held: Held,
    /// How many tags are around each record, and around what holds them.
    pub tags: u64,
}
