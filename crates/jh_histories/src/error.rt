//! Why no history is read.

ghost use Rattle.std.specs.Prelude.{◌≡◌};

use jh_edn::EdnError;
use jh_ops::HistoryError;
use std::alloc::AllocError;
use thiserror::Error;

/// Why a reader gives no history. `specs/Histories.antt` says when each comes.
#[derive(Clone, Copy, Debug, PartialEq, Eq, Error)]
pub enum ReadHistoryError {
    /// The bytes can't be read, or are no text of EDN values.
    #[error("{0}")]
    Text(EdnError),
    /// The values mean no history.
    #[error("{0}")]
    History(HistoryError),
}

impl From<EdnError> for ReadHistoryError {
    ghost use Rattle.jh_histories.specs.declared.error.ReadHistoryError.TheVariants.{Text};

    ghost from_gives = { λ error e. e ≡ Text error };

    fn from(error: EdnError) -> ReadHistoryError {
        ReadHistoryError::Text(error)
    }
}

impl From<HistoryError> for ReadHistoryError {
    ghost use Rattle.jh_histories.specs.declared.error.ReadHistoryError.TheVariants.{History};

    ghost from_gives = { λ error e. e ≡ History error };

    fn from(error: HistoryError) -> ReadHistoryError {
        ReadHistoryError::History(error)
    }
}

impl From<AllocError> for ReadHistoryError {
    ghost use Rattle.jh_histories.specs.declared.error.ReadHistoryError.TheVariants.{History};
    ghost use Rattle.jh_ops.specs.declared.history.HistoryError.TheVariants.{OutOfMemory};

    ghost from_gives = { λ _ e. e ≡ History OutOfMemory };

    fn from(_error: AllocError) -> ReadHistoryError {
        ReadHistoryError::History(HistoryError::OutOfMemory)
    }
}
