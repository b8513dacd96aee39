//! Reads of lists that no order explains, found in linear time.
#![tactic(auto)]

mod bases;
mod elements;
mod find;
mod marks;
mod ops;
mod views;

pub use find::{BadReadAt, find_bad_read};
