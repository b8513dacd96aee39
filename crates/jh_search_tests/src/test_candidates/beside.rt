//! Candidates of tests beside those of runs.

use crate::search::fixtures::{FIVE, THREE, options_of, plan_of};
use jh_drive_settings::drive_settings_of;
use jh_random_faults::Palette;
use jh_search::candidate;
use jh_simnode::Plan;
use jh_test_candidates::test_candidate;
use jh_test_parts::{Test, When};
use std::alloc::Global;

/// Nodes, calls, seed and schedule are those of `THREE`.
const BY_CALLS: &str = r#"
start = '{:nodes ["a" "b" "c"]}'
workload = "register"
generator = '[:forever :read]'
clients = 3
ops = 12
seed = 5
schedule = ['[2 [:begin 7 [:kill ["a"]]]]', '[1 [:withdraw 7]]']
"#;

/// The same, with as many milliseconds in the place of calls.
pub(crate) const BY_CLOCK: &str = r#"
start = '{:nodes ["a" "b" "c"]}'
workload = "register"
generator = '[:forever :read]'
clients = 3
ops = 1000
time_limit = 12
seed = 5
schedule = ['[[:ms 2] [:begin 7 [:kill ["a"]]]]', '[[:ms 1] [:withdraw 7]]']
"#;

/// Nodes, calls and seed are those of `FIVE`, whose candidates go around the greatest seed.
const OF_FIVE: &str = r#"
start = '{:nodes ["n1" "n2" "n3" "n4" "n5"]}'
workload = "set"
generator = '[:rising 0]'
clients = 5
ops = 40
seed = 9223372036854775807
"#;

/// The test of settings. None: memory was refused.
pub(crate) fn test_of(alloc: Global, settings: &str) -> Option<Test> {
    Some(drive_settings_of(alloc, settings.as_bytes()).ok()?.test)
}

/// How many calls or milliseconds a moment is.
fn number_of(at: When) -> u32 {
    match at {
        When::Calls(calls) => calls,
        When::Milliseconds(ms) => ms,
    }
}

/// Whether a test has the seed and the schedule of a plan.
fn is_beside(test: &Test, plan: &Plan) -> bool {
    let entries = plan.schedule().entries();
    let mut pairs = test.schedule().iter().zip(entries);
    test.seed() == plan.seed()
        && test.schedule().len() == entries.len()
        && pairs.all(|(entry, other)| {
            number_of(entry.at) == other.at && entry.step.is_same(&other.step)
        })
}

/// Whether a candidate of a test has the seed and the schedule of that of a plan. None: memory was refused.
fn is_candidate_beside(alloc: Global, test: &Test, plan: &Plan, number: u64) -> Option<bool> {
    let faults = (number % 9) as u32;
    let made = test_candidate(alloc, test, Palette::all(), faults, number).ok()?;
    let other = candidate(alloc, plan, &options_of(faults, 0, 0), number).ok()?;
    Some(is_beside(&made, &other))
}

/// The first of so many candidates of a test that has not.
fn first_other(alloc: Global, test: &Test, plan: &Plan, count: u64) -> Option<u64> {
    for number in 0..count {
        let is_same = match is_candidate_beside(alloc, test, plan, number) {
            None => is_candidate_beside(alloc, test, plan, number),
            answer => answer,
        };
        if is_same != Some(true) {
            return Some(number);
        }
    }
    None
}

/// The same of settings of a test and of a run. None: memory was refused to these.
fn first_other_of(alloc: Global, settings: &str, run: &str, count: u64) -> Option<Option<u64>> {
    let test = test_of(alloc, settings)?;
    Some(first_other(alloc, &test, &plan_of(alloc, run)?, count))
}

/// The same, tried once more where memory was refused.
fn first_beside(alloc: Global, settings: &str, run: &str, count: u64) -> Option<Option<u64>> {
    match first_other_of(alloc, settings, run, count) {
        None => first_other_of(alloc, settings, run, count),
        first => first,
    }
}

#[test]
fn candidates_are_those_of_runs(rt: HostRuntime) {
    assert_eq!(rt; first_beside(rt.alloc(), BY_CALLS, THREE, 200), Some(None));
    assert_eq!(rt; first_beside(rt.alloc(), OF_FIVE, FIVE, 200), Some(None));
}

#[test]
fn milliseconds_are_drawn_as_calls(rt: HostRuntime) {
    assert_eq!(rt; first_beside(rt.alloc(), BY_CLOCK, THREE, 200), Some(None));
}
