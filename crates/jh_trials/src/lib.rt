//! One test of several that an adapter takes in one conversation, and what comes of it.
//! `specs/Trials.antt` says what is told and read, `specs/Held.antt` what comes of it.
#![tactic(auto)]

mod holding;
mod trial;

pub use holding::hold_trial;
pub use trial::{Stage, Trial};
