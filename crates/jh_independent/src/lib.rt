//! Histories of independent keys (`jepsen.independent`), judged key by key, on one thread or on several.
#![tactic(auto)]

mod error;
mod histories;
mod laws;
mod lines;
mod parts;
mod serial;
mod sharing;
mod split;
mod threads;

pub use error::KeysError;
pub use histories::{KeyHistory, histories_by_key};
pub use laws::key_findings_agree;
pub use lines::{verdict_of_all, write_findings};
pub use serial::{KeyFinding, check_keys_serial};
pub use threads::{Gate, check_keys, check_keys_at};
