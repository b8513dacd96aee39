//! Where and why settings are refused, in lines that stand behind the refusal.
#![tactic(auto)]

mod generator;
mod key_texts;
mod laws;
mod line;
mod moments;
mod reasons;
mod schedule;
mod text;
mod toml_text;
mod unknown_nodes;

pub use key_texts::SettingsKind;
pub use laws::limits;
pub use reasons::settings_reasons;
