//! What pairing a history gives, and why it is refused.

ghost use Rattle.std.specs.Prelude.{◌≡◌};
ghost use Rattle.jh_ops.specs.declared.pairs.PairError.TheVariants.{OutOfMemory};

use std::alloc::{AllocError, AllocFailed};
use thiserror::Error;

/// An invocation with its outcome, by their places in the whole history.
#[derive(Clone, Copy, Debug, PartialEq, Eq)]
pub struct Pair {
    pub invoke: usize,
    /// The place of its completion, which is the next operation of the same process, if there is one.
    /// How it ended is `Outcome` in `jh_linear` and `jh_txn`.
    pub outcome: Option<usize>,
}

/// Why a history has no pairs, with the place of the operation in error, from 0.
#[derive(Clone, Copy, Debug, PartialEq, Eq, Error)]
pub enum PairError {
    /// An operation of a process behind its `:info`.
    #[error("operation {0}: after crash")]
    AfterCrash(usize),
    /// An invocation of a process behind an invocation.
    #[error("operation {0}: double invoke")]
    DoubleInvoke(usize),
    /// A completion of a process that is not behind an invocation.
    #[error("operation {0}: no invocation")]
    NoInvoke(usize),
    #[error("out of memory")]
    OutOfMemory,
}

impl From<AllocError> for PairError {
    ghost from_gives = { λ _ e. e ≡ OutOfMemory };

    fn from(_error: AllocError) -> PairError {
        PairError::OutOfMemory
    }
}

impl<T: Drop> From<AllocFailed<T>> for PairError {
    ghost from_gives = { λ _ e. e ≡ OutOfMemory };

    fn from(_error: AllocFailed<T>) -> PairError {
        PairError::OutOfMemory
    }
}
