//! Searches random schedules for a run that fails.
#![tactic(auto)]

mod candidates;
mod entries;
mod options;
mod serial;
mod threads;
mod verdicts;

pub use candidates::candidate;
pub use options::Options;
pub use serial::{Searched, search_serial};
pub use threads::{SearchError, SearchObserver, search};
