//! Why a history is not judged.

ghost use Rattle.std.specs.Prelude.{◌≡◌};
ghost use Rattle.jh_check.specs.declared.error.CheckError.TheVariants.{OutOfMemory};

use jh_ops::PairError;
use std::alloc::{AllocError, AllocFailed};
use thiserror::Error;

/// Why a history is not judged, with the place of the operation in error, from 0.
#[derive(Clone, Copy, Debug, PartialEq, Eq, Error)]
pub enum CheckError {
    /// Its invocations and completions do not pair. Never `PairError::OutOfMemory`, which is
    /// `OutOfMemory` here.
    #[error("{0}")]
    Pair(PairError),
    /// The value of this operation is none that it can have; or, of a register, a mutex or a
    /// first-in-first-out queue, its function is none that these have.
    #[error("operation {0}: bad value")]
    BadValue(usize),
    /// The amount of this add is below zero.
    #[error("operation {0}: negative add")]
    NegativeAdd(usize),
    /// The transaction invoked here appends an element to a key to which it, or one in front,
    /// appends an equal one.
    #[error("operation {0}: repeated append")]
    RepeatedAppend(usize),
    #[error("out of memory")]
    OutOfMemory,
}

impl From<PairError> for CheckError {
    ghost use Rattle.jh_check.specs.CounterResults.{error_of_pairing};

    ghost from_gives = { λ error e. e ≡ error_of_pairing error };

    fn from(error: PairError) -> CheckError {
        match error {
            PairError::OutOfMemory => CheckError::OutOfMemory,
            _ => CheckError::Pair(error),
        }
    }
}

impl From<AllocError> for CheckError {
    ghost from_gives = { λ _ e. e ≡ OutOfMemory };

    fn from(_error: AllocError) -> CheckError {
        CheckError::OutOfMemory
    }
}

impl<T: Drop> From<AllocFailed<T>> for CheckError {
    ghost from_gives = { λ _ e. e ≡ OutOfMemory };

    fn from(_error: AllocFailed<T>) -> CheckError {
        CheckError::OutOfMemory
    }
}
