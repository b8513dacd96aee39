//! Why a page is not written.

ghost use Rattle.std.specs.Prelude.{◌≡◌};
ghost use Rattle.jh_timeline_pages.specs.declared.error.PageError.TheVariants.{OutOfMemory};

use std::alloc::{AllocError, AllocFailed};
use thiserror::Error;

/// Why a page is not written.
#[derive(Clone, Copy, Debug, PartialEq, Eq, Error)]
pub enum PageError {
    #[error("write failed")]
    Write,
    #[error("out of memory")]
    OutOfMemory,
}

impl From<AllocError> for PageError {
    ghost from_gives = { λ _ e. e ≡ OutOfMemory };

    fn from(_error: AllocError) -> PageError {
        PageError::OutOfMemory
    }
}

impl<T: Drop> From<AllocFailed<T>> for PageError {
    ghost from_gives = { λ _ e. e ≡ OutOfMemory };

    fn from(_error: AllocFailed<T>) -> PageError {
        PageError::OutOfMemory
    }
}
