//! The checker of sets over time (jepsen.checker, `set-full`): which elements all reads show from some time on
//! (stable), which they lack from some time on though they were known to be there (lost), and which of the
//! stable ones a read lacked when they were known (stale).
#![tactic(auto)]

mod lines;
mod newest;
mod places;
mod set_full;
mod shown;
mod sightings;
mod spots;
mod stale;

pub use lines::write_set_full;
pub use set_full::{SetFullResult, check_set_full};
pub use stale::{Stale, Stales};
