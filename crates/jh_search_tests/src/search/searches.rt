//! Searches of small plans. Which candidate is the first that fails, a slow program in another language works out from the
//! definitions.

ghost use Rattle.std.specs.Prelude.{◌≤◌, IfSome};

use crate::search::fixtures::{QUORUM, THREE, options_of, plan_of};
use jh_search::{Options, SearchObserver, Searched, search, search_serial};
use jh_simnode::Plan;
use std::alloc::Global;
use std::sync::Wait;
use std::thread::Threads;

/// How many faults, from which candidate on, how many candidates, with which budget of the judge; and what is found: the number
/// of the first that fails, and how many are unknown.
type Case = (u32, u64, u64, u64, Option<u64>, u64);

/// Of a register whose store takes the last write by the clocks of its nodes.
static OF_CLOCKS: [Case; 5] = [
    (4, 0, 40, 100_000, Some(1), 0),
    (4, 2, 40, 100_000, Some(2), 0),
    (4, 0, 1, 100_000, None, 0),
    (0, 0, 30, 100_000, None, 0),
    // A judge that may reach no configuration never knows.
    (4, 0, 40, 0, None, 40),
];

/// Of one whose store asks a majority.
static OF_QUORUM: [Case; 1] = [(6, 0, 40, 100_000, None, 0)];

/// What is asked in a case. None: more than is meant here.
fn options_in(case: &Case) -> Option<Options>
    ensures { IfSome result (λ options. (options.from ≤ 1000) × (options.runs ≤ 1000)) }
{
    let (faults, from, runs, budget, _, _) = *case;
    if from > 1_000 || runs > 1_000 {
        return None;
    }
    let mut options = options_of(faults, from, runs);
    options.budget = budget;
    Some(options)
}

/// Nobody is told how far the search is.
#[derive(Drop)]
struct Nobody;

impl SearchObserver for Nobody {
    fn see_tried(&mut self, _tried: u64, _unknown: u64) {}
}

/// What is found on so many threads, and where that is 0 by the serial call. None: memory was refused.
fn found_in<R: Threads + Wait + Sync>(
    rt: &R,
    alloc: Global,
    plan: &Plan,
    options: &Options,
    threads: u32,
) -> Option<Searched>
    requires { (options.now.from ≤ 1000) × (options.now.runs ≤ 1000) }
{
    match threads {
        1..=16 => search(rt, alloc, plan, options, threads, &mut Nobody).ok(),
        _ => search_serial(alloc, plan, options).ok(),
    }
}

/// The same of the plan of settings.
fn found<R: Threads + Wait + Sync>(
    rt: &R,
    alloc: Global,
    settings: &str,
    case: &Case,
    threads: u32,
) -> Option<Searched> {
    let options = options_in(case)?;
    found_in(rt, alloc, &plan_of(alloc, settings)?, &options, threads)
}

/// Whether each search finds what it should, tried once more where memory was refused.
fn are_found<R: Threads + Wait + Sync>(
    rt: &R,
    alloc: Global,
    settings: &str,
    cases: &[Case],
    threads: u32,
) -> bool {
    for case in cases {
        let found = match found(rt, alloc, settings, case, threads) {
            None => found(rt, alloc, settings, case, threads),
            found => found,
        };
        let (_, _, _, _, failing, unknown) = *case;
        if found != Some(Searched { failing, unknown }) {
            return false;
        }
    }
    true
}

#[test]
fn searches_find_the_first_that_fails(rt: HostRuntime) {
    for threads in [0, 1, 2, 4, 16] {
        assert!(rt; are_found(&rt, rt.alloc(), THREE, &OF_CLOCKS, threads));
        assert!(rt; are_found(&rt, rt.alloc(), QUORUM, &OF_QUORUM, threads));
    }
}
