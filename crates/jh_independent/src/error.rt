//! Why the keys of a history are not judged. `specs/Refusals.antt` says when each comes.

ghost use Rattle.std.specs.Prelude.{◌≡◌};
ghost use Rattle.jh_independent.specs.declared.error.KeysError.TheVariants.{OutOfMemory};

use jh_check::CheckError;
use std::alloc::{AllocError, AllocFailed};
use thiserror::Error;

/// Why the keys of a history are not judged. Places are those of the whole history, from 0.
#[derive(Clone, Copy, Debug, PartialEq, Eq, Error)]
pub enum KeysError {
    /// The value of this operation is no vector or list of two.
    #[error("operation {0}: bad value")]
    BadValue(usize),
    /// The checker refuses the history of a key. Never `CheckError::OutOfMemory`, which is
    /// `OutOfMemory` here.
    #[error("{0}")]
    Key(CheckError),
    /// A thread could not be had, or was not let in to its key.
    #[error("thread failed")]
    Thread,
    #[error("out of memory")]
    OutOfMemory,
}

impl From<AllocError> for KeysError {
    ghost from_gives = { λ _ e. e ≡ OutOfMemory };

    fn from(_error: AllocError) -> KeysError {
        KeysError::OutOfMemory
    }
}

impl<T: Drop> From<AllocFailed<T>> for KeysError {
    ghost from_gives = { λ _ e. e ≡ OutOfMemory };

    fn from(_error: AllocFailed<T>) -> KeysError {
        KeysError::OutOfMemory
    }
}
