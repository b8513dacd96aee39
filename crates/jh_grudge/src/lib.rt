//! Grudges: which node drops the messages of which, as Jepsen's partitions are made of them.
//!
//! A node is the number of its place, and a list has each node once.
#![tactic(auto)]

mod grudges;
mod laws;
mod lists;
mod ranks;

pub use grudges::{Grudge, bridge, complete_grudge, majorities_ring};
pub use laws::{bridge_talks_to_all, each_sees_itself, ring_sees_majority, ring_sights_differ};
pub use lists::{SplitError, bisect, distinct, distinct_components, split_one};
