//! Makes a schedule that fails small, and edits schedules.
#![tactic(auto)]

mod changes;
mod editor;
mod laws;
mod shrinking;

pub use editor::{EditError, Editor, InsertError, MAX_EDITS, NothingToRedo, NothingToUndo};
pub use laws::limits;
pub use shrinking::{ScheduleJudge, ShrinkError, ShrinkObserver, Shrunk, shrink, shrink_by};
