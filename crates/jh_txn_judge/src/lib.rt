//! Whether transactions have a serial order: one of them, a read that no order explains, or a cycle
//! of dependencies.
#![tactic(auto)]

mod verdict;

pub use verdict::{SerialVerdict, judge_serial};
