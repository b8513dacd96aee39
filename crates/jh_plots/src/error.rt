//! Why a history has no plot.

ghost use Rattle.std.specs.Prelude.{◌≡◌};
ghost use Rattle.jh_plots.specs.declared.error.PlotError.TheVariants.{OutOfMemory};

use jh_ops::PairError;
use std::alloc::{AllocError, AllocFailed};
use thiserror::Error;

/// Why a history has no plot. `specs/Plots.antt` says when each comes.
#[derive(Clone, Copy, Debug, PartialEq, Eq, Error)]
pub enum PlotError {
    /// This is the first operation that has no time, from 0.
    #[error("operation {index}: time missing")]
    TimeMissing { index: usize },
    /// Its invocations and completions do not pair. Never `PairError::OutOfMemory`, which is
    /// `OutOfMemory` here.
    #[error("{0}")]
    Pair(PairError),
    #[error("out of memory")]
    OutOfMemory,
}

impl From<PairError> for PlotError {
    ghost use Rattle.jh_plots.specs.Plots.{plot_error_of_pairing};

    ghost from_gives = { λ error e. e ≡ plot_error_of_pairing error };

    fn from(error: PairError) -> PlotError {
        match error {
            PairError::OutOfMemory => PlotError::OutOfMemory,
            _ => PlotError::Pair(error),
        }
    }
}

impl From<AllocError> for PlotError {
    ghost from_gives = { λ _ e. e ≡ OutOfMemory };

    fn from(_error: AllocError) -> PlotError {
        PlotError::OutOfMemory
    }
}

impl<T: Drop> From<AllocFailed<T>> for PlotError {
    ghost from_gives = { λ _ e. e ≡ OutOfMemory };

    fn from(_error: AllocFailed<T>) -> PlotError {
        PlotError::OutOfMemory
    }
}
