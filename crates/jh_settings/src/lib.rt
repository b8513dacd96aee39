//! The settings of a run, in TOML: from bytes to a plan that can be run. What the settings of every
//! command share stands here: their keys, their refusals, and the readers of their values.
#![tactic(auto)]

mod choices;
mod document;
mod elements;
mod entries;
mod error;
mod keys;
mod laws;
mod numbers;
mod parts;
mod schedule;
mod settings;
mod table;

pub use choices::{Mode, initial_under};
pub use document::{refuse_unknown_or_missing_keys, table_of};
pub use elements::{element_in, generator_under, start_under};
pub use entries::{EntryFormat, entries_under};
pub use error::{KeyText, SettingsError};
pub use keys::{Key, drive_keys, is_missing, needed_drive_keys};
pub use laws::limits;
pub use numbers::{
    MAX_BUDGET, MAX_TICK_EVERY, MAX_TIME_MS, budget_under, clients_under, seed_under,
};
pub use schedule::MAX_DUE_AT;
pub use settings::{RunSettings, settings_of};
pub use table::{number_or, number_under, text_under, value_under, whole_in};
