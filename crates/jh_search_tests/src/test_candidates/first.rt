//! The first call that the README of `jh_test_candidates` shows.

use crate::test_candidates::beside::{BY_CLOCK, test_of};
use jh_random_faults::Palette;
use jh_test_candidates::test_candidate;
use jh_test_parts::Test;
use std::alloc::Global;

/// How many entries the candidate of a number has, with eight random faults of all kinds.
fn entries_of(alloc: Global, test: &Test, number: u64) -> Option<usize> {
    let candidate = test_candidate(alloc, test, Palette::all(), 8, number).ok()?;
    Some(candidate.schedule().len())
}

fn entries_by_the_clock(alloc: Global) -> Option<usize> {
    entries_of(alloc, &test_of(alloc, BY_CLOCK)?, 0)
}

#[test]
fn a_candidate_has_random_faults(rt: HostRuntime) {
    let found = entries_by_the_clock(rt.alloc()).or_else(|| entries_by_the_clock(rt.alloc()));
    assert!(rt; found.is_some_and(|count| count > 9));
}
