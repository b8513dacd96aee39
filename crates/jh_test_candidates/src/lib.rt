//! Candidates of a search over tests of a real database: the same test with other seeds, and with random
//! faults.
#![tactic(auto)]

mod candidates;
mod entries;
mod moments;

pub use candidates::test_candidate;
