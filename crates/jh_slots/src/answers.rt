//! What the calls on a log answer.

ghost use Rattle.std.specs.Prelude.{◌≡◌};
ghost use Rattle.jh_slots.specs.declared.answers.SlotsError.TheVariants.{OutOfMemory};

use std::alloc::{AllocError, AllocFailed};
use thiserror::Error;

/// The most rows that a log may have.
pub const MAX_ROWS: u32 = 65_536;

/// The most rows of one claim.
pub const MAX_CLAIMED: u32 = 255;

/// The words of a row.
pub const ROW_WORDS: usize = 5;

/// Why a log is not made.
#[derive(Clone, Copy, Debug, PartialEq, Eq, Error)]
pub enum SlotsError {
    /// The number of rows is not from 1 to 65,536.
    #[error("bad size")]
    BadSize,
    #[error("out of memory")]
    OutOfMemory,
}

impl From<AllocError> for SlotsError {
    ghost from_gives = { λ _ e. e ≡ OutOfMemory };

    fn from(_error: AllocError) -> SlotsError {
        SlotsError::OutOfMemory
    }
}

impl<T: Drop> From<AllocFailed<T>> for SlotsError {
    ghost from_gives = { λ _ e. e ≡ OutOfMemory };

    fn from(_error: AllocFailed<T>) -> SlotsError {
        SlotsError::OutOfMemory
    }
}

/// Fewer rows were left than a claim asked for.
#[derive(Clone, Copy, Debug, PartialEq, Eq)]
pub struct Full;

/// Where a record was published: the first row of its claim, from 0, and its number of words.
#[derive(Clone, Copy, Debug, PartialEq, Eq)]
pub struct Receipt {
    pub row: u32,
    pub len: usize,
}

/// What a read of a row found.
#[derive(Clone, Copy, Debug, PartialEq, Eq)]
pub enum Read {
    /// The row was neither published nor voided so far, or it is not the first of its claim, or
    /// there is no such row.
    Absent,
    /// Its claim was ended with nothing published.
    Void,
    /// A record of so many words, which are now at the start of the buffer.
    Words(usize),
    /// A record of so many words, which are more than the buffer has places for.
    TooSmall(usize),
}
