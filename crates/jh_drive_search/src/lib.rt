//! The command `search --drive`: candidates of a test of a real database are tried in one conversation, up
//! to the first of which the history is not valid. `specs/DriveSearch.antt` says what is told and written.
#![tactic(auto)]

mod options;
mod searching;
mod settings;

pub use options::TrialOptions;
pub use searching::search_drive;
pub use settings::{SearchSettings, search_settings_of};
