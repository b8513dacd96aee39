//! The settings of a test of a real database as a TOML document, written with another seed and another
//! schedule: `drive_settings_of` of `jh_drive_settings` reads them back as the test that has these.
#![tactic(auto)]

mod entries;
mod laws;
mod settings;
mod table;
mod writable;

pub use laws::time_limits_are_writable;
pub use settings::settings_with;
pub use writable::can_be_written;
