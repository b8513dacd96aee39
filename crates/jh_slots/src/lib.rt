//! A log of rows that threads share: each row is claimed, written and published once, and read by
//! every seat alike.
//!
//! No call waits, and none but [`Slots::new`] takes memory.
#![tactic(auto)]

mod answers;
mod laws;
mod slots;
mod steps;

pub use answers::{Full, MAX_CLAIMED, MAX_ROWS, ROW_WORDS, Read, Receipt, SlotsError};
pub use laws::{limits, slot_laws};
pub use slots::{Claim, Seat, Slots};
