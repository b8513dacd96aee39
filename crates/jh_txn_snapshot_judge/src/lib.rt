//! Whether transactions have a snapshot order: one of them, a read that no order explains, or a cycle
//! of dependencies.
#![tactic(auto)]

mod nodes;
mod places;
mod serial;
mod turns;
mod untold;
mod verdict;

pub use verdict::{SnapshotVerdict, judge_snapshots};
