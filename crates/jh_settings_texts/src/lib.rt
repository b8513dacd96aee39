//! The settings of a run as a TOML document, written: `settings_of` of `jh_settings` reads them
//! back as the same run.
#![tactic(auto)]

mod comments;
mod depth;
mod printing;
mod schedule;
mod schedule_steps;
mod settings;
mod start;
mod steps;
mod table;

pub use comments::settings_behind;
pub use printing::{printed, value_of_entry};
pub use schedule::{Spread, schedule_to_text, time_value};
pub use schedule_steps::steps_in_settings;
pub use settings::{can_be_written, settings_to_text};
pub use steps::{leads_to_others, step_has_text};
