//! The first call that the README of `jh_search` shows.

use crate::search::fixtures::{THREE, plan_of};
use jh_random_faults::Palette;
use jh_search::{Options, search_serial};
use jh_simnode::Plan;
use std::alloc::Global;

/// The number of the first of 1,000 candidates that fails, each with eight random faults of all kinds.
fn first_failing(alloc: Global, plan: &Plan) -> Option<u64> {
    let options = Options {
        from: 0,
        runs: 1_000,
        faults: 8,
        palette: Palette::all(),
        budget: 100_000,
    };
    search_serial(alloc, plan, &options).ok()?.failing
}

fn first_failing_of(alloc: Global, settings: &str) -> Option<u64> {
    first_failing(alloc, &plan_of(alloc, settings)?)
}

#[test]
fn a_search_finds_a_run_that_fails(rt: HostRuntime) {
    let found = match first_failing_of(rt.alloc(), THREE) {
        None => first_failing_of(rt.alloc(), THREE),
        found => found,
    };
    assert_eq!(rt; found, Some(1));
}
