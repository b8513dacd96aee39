//! What a text spells, and what may be wrong with one.

use std::alloc::{AllocError, AllocFailed};
use std::boxed::Box;

/// A value. The pairs of a map, and what is in a set, stand as they were written.
#[derive(Drop)]
pub enum PlainValue {
    Nil,
    Boolean(bool),
    Integer(i64),
    Character(char),
    Str(String),
    /// Without its colon.
    Keyword(String),
    Symbol(String),
    List(Vec<PlainValue>),
    Vector(Vec<PlainValue>),
    Map(Vec<(PlainValue, PlainValue)>),
    Set(Vec<PlainValue>),
    /// The tag without its `#`.
    Tagged(String, Box<PlainValue>),
}

/// What is wrong with a text.
#[derive(Clone, Copy)]
pub enum PlainKind {
    UnexpectedEnd,
    BadToken,
    FloatUnsupported,
    IntegerRange,
    BadEscape,
    OddMap,
    DuplicateKey,
    TooDeep,
}

/// Why a text was not read.
#[derive(Clone, Copy)]
pub enum PlainError {
    /// The first error of the text, and how many characters stand before it.
    Refused(PlainKind, usize),
    OutOfMemory,
}

impl From<AllocError> for PlainError {
    fn from(_: AllocError) -> PlainError {
        PlainError::OutOfMemory
    }
}

impl<T: Drop> From<AllocFailed<T>> for PlainError {
    fn from(_: AllocFailed<T>) -> PlainError {
        PlainError::OutOfMemory
    }
}
