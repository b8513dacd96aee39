//! The command `shrink --drive`: the schedule of a test of a real database whose history was not valid is made
//! small by trials in one conversation. `specs/DriveShrink.antt` says what is told and written.
#![tactic(auto)]

mod judge;
mod parts;
mod shrinking;
mod told;
mod trying;

pub use shrinking::shrink_drive;
