//! The settings of a test of a real database, in TOML: from bytes to a test that can be held, and how
//! its history is judged.
#![tactic(auto)]

mod choices;
mod laws;
mod numbers;
mod parts;
mod schedule;
mod settings;

pub use laws::limits;
pub use numbers::{MAX_RATE, MAX_RECOVERY_MS};
pub use settings::{DriveSettings, drive_settings_in, drive_settings_of};
