//! The history that a text means, read operation by operation: the values of a whole history never
//! stand beside one another. `specs/Histories.antt` says which history a text means, and why a text
//! is refused; `specs/HistoryAndBelow.antt` which part of a text is a history, where `jeprun`
//! printed more beside it.
#![tactic(auto)]

mod below;
mod error;
mod parsing;
mod reading;

pub use below::{
    HistoryAndBelow, RecordedPart, history_and_below, read_history_and_below, recorded_part,
};
pub use error::ReadHistoryError;
pub use reading::{history_in, read_history};
