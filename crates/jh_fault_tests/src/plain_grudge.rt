//! Splits and grudges made slowly, as Jepsen's page on its nemesis tells them: `env`
//! compares `jh_grudge` with them.
//!
//! A grudge is a list of links, each its source and its destination, in ascending order.

mod grudges;
mod splits;

pub use grudges::{Links, bridge_slowly, complete_slowly, ring_slowly};
pub use splits::{are_distinct, halves_slowly, split_slowly};
