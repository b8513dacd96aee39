//! Candidates of a few plans, as a slow program in another language works them out from the definitions, and many more beside
//! the plain ones.

use crate::plain_search::plain_candidate;
use crate::search::fixtures::{FIVE, ONE, THREE, options_of, plan_of, plan_text};
use jh_nemesis::Step;
use jh_random_faults::Palette;
use jh_search::{Options, candidate};
use jh_simnode::{Entry, Plan, Schedule};
use std::alloc::Global;

/// How many faults, the number of a candidate, and its seed with its entries.
const OF_THREE: &str = r#"
0 0 → 5, 2 [:begin 7 [:kill ["a"]]], 1 [:withdraw 7], 9 [:withdraw-all]
3 0 → 5, 2 [:begin 7 [:kill ["a"]]], 1 [:withdraw 7], 5 [:begin 9 [:pause ["b"]]], 7 [:begin 8 [:loss 6 [["a" "b"]]]], 7 [:withdraw 9], 8 [:begin 10 [:pause ["c"]]], 9 [:withdraw 8], 9 [:withdraw 10], 9 [:withdraw-all]
3 1 → 6, 2 [:begin 7 [:kill ["a"]]], 1 [:withdraw 7], 6 [:begin 8 [:cut [["a" "b"] ["a" "c"] ["b" "a"] ["c" "a"]]]], 6 [:begin 9 [:slow 50 [["a" "c"] ["b" "c"] ["c" "a"] ["c" "b"]]]], 6 [:begin 10 [:fix 50 [["a" "b"] ["b" "a"] ["b" "c"] ["c" "b"]]]], 7 [:withdraw 9], 8 [:withdraw 8], 9 [:withdraw-all]
4 2 → 7, 2 [:begin 7 [:kill ["a"]]], 1 [:withdraw 7], 3 [:begin 9 [:bump {"b" 100}]], 4 [:begin 8 [:loss 2 [["a" "b"] ["a" "c"] ["b" "a"] ["c" "a"]]]], 4 [:begin 10 [:cut [["a" "c"] ["b" "c"] ["c" "a"] ["c" "b"]]]], 6 [:begin 11 [:bump {"a" -100, "c" -100}]], 7 [:withdraw 8], 9 [:withdraw-all], 11 [:withdraw 11], 12 [:withdraw 9], 12 [:withdraw 10]
2 9223372036854775815 → 12, 2 [:begin 7 [:kill ["a"]]], 1 [:withdraw 7], 2 [:begin 9 [:pause ["b" "c"]]], 5 [:begin 8 [:bump {"b" -100}]], 10 [:withdraw 8]
"#;

const OF_FIVE: &str = r#"
3 0 → 9223372036854775807, 6 [:begin 3 [:cut [["n1" "n2"]]]], 17 [:begin 2 [:bump {"n1" -100000, "n3" -100000, "n4" -100000}]], 17 [:withdraw 3], 25 [:begin 1 [:slow 600 [["n1" "n2"] ["n1" "n3"] ["n1" "n5"] ["n2" "n1"] ["n2" "n4"] ["n3" "n1"] ["n3" "n4"] ["n4" "n2"] ["n4" "n3"] ["n4" "n5"] ["n5" "n1"] ["n5" "n4"]]]], 30 [:withdraw-all], 40 [:withdraw 1]
3 1 → 0, 3 [:begin 1 [:fix 600 [["n1" "n3"] ["n1" "n5"] ["n2" "n3"] ["n2" "n5"] ["n3" "n1"] ["n3" "n2"] ["n3" "n4"] ["n4" "n3"] ["n4" "n5"] ["n5" "n1"] ["n5" "n2"] ["n5" "n4"]]]], 13 [:begin 2 [:slow 1500 [["n1" "n5"] ["n2" "n5"] ["n3" "n5"] ["n4" "n5"] ["n5" "n1"] ["n5" "n2"] ["n5" "n3"] ["n5" "n4"]]]], 26 [:begin 3 [:slow 1500 [["n1" "n2"] ["n1" "n5"] ["n2" "n1"] ["n2" "n3"] ["n2" "n4"] ["n3" "n2"] ["n3" "n5"] ["n4" "n2"] ["n4" "n5"] ["n5" "n1"] ["n5" "n3"] ["n5" "n4"]]]], 30 [:withdraw-all], 37 [:withdraw 3], 39 [:withdraw 1]
4 2 → 1, 4 [:begin 4 [:cut [["n1" "n4"] ["n2" "n4"] ["n3" "n4"] ["n4" "n1"] ["n4" "n2"] ["n4" "n3"] ["n4" "n5"] ["n5" "n4"]]]], 12 [:begin 2 [:kill ["n5"]]], 21 [:withdraw 4], 24 [:begin 1 [:kill ["n4"]]], 27 [:begin 3 [:fix 1500 [["n1" "n2"]]]], 30 [:withdraw 1], 31 [:withdraw 2], 34 [:withdraw 3]
"#;

const OF_ONE: &str = r#"
0 0 → 0, 1 [:withdraw-all]
3 0 → 0, 0 [:begin 1 [:bump {"n1" 100000}]], 0 [:begin 2 [:kill ["n1"]]], 0 [:begin 3 [:kill ["n1"]]], 1 [:withdraw 1], 1 [:withdraw 3], 1 [:withdraw-all]
3 1 → 1, 0 [:begin 1 [:pause ["n1"]]], 0 [:begin 2 [:pause ["n1"]]], 0 [:begin 3 [:kill ["n1"]]], 1 [:withdraw 1], 1 [:withdraw 2], 1 [:withdraw 3]
2 9223372036854775815 → 7, 0 [:begin 1 [:bump {"n1" 100}]], 0 [:begin 2 [:pause ["n1"]]], 1 [:withdraw 1], 1 [:withdraw 2], 1 [:withdraw-all]
"#;

/// The text of a candidate. None: memory was refused.
fn candidate_text(alloc: Global, plan: &Plan, options: &Options, number: u64) -> Option<Vec<u8>> {
    plan_text(alloc, &candidate(alloc, plan, options, number).ok()?)
}

/// Whether a row is right. None: memory was refused.
fn is_right(alloc: Global, plan: &Plan, row: &str) -> Option<bool> {
    let (numbers, wanted) = row.split_once(" → ")?;
    let (faults, number) = numbers.split_once(' ')?;
    let options = options_of(faults.parse().ok()?, 0, 0);
    let text = candidate_text(alloc, plan, &options, number.parse().ok()?)?;
    Some(text.as_slice() == wanted.as_bytes())
}

/// How many of these rows are right, each tried once more where memory was refused.
fn right_rows_of(alloc: Global, plan: &Plan, rows: &str) -> usize {
    let mut right = 0;
    for row in rows.trim().lines() {
        let is_one = match is_right(alloc, plan, row) {
            None => is_right(alloc, plan, row),
            answer => answer,
        };
        if is_one == Some(true) {
            right = usize::saturating_add(right, 1);
        }
    }
    right
}

/// How many are right of the plan of settings. None: memory was refused to that.
fn right_rows(alloc: Global, settings: &str, rows: &str) -> Option<usize> {
    Some(right_rows_of(alloc, &plan_of(alloc, settings)?, rows))
}

/// The same, tried once more where memory was refused.
fn right(alloc: Global, settings: &str, rows: &str) -> Option<usize> {
    match right_rows(alloc, settings, rows) {
        None => right_rows(alloc, settings, rows),
        right => right,
    }
}

#[test]
fn candidates_are_those_of_the_definitions(rt: HostRuntime) {
    assert_eq!(rt; right(rt.alloc(), THREE, OF_THREE), Some(5));
    assert_eq!(rt; right(rt.alloc(), FIVE, OF_FIVE), Some(3));
    assert_eq!(rt; right(rt.alloc(), ONE, OF_ONE), Some(4));
}

/// A palette that has a kind where a bit of the number is set.
fn palette_of(number: u64) -> Palette {
    let has = |bit: u32| (number >> bit) & 1 == 1;
    Palette {
        cut: has(0),
        slow: has(1),
        loss: has(2),
        fix: has(3),
        pause: has(4),
        kill: has(5),
        bump: has(6),
    }
}

fn is_plain(alloc: Global, plan: &Plan, options: &Options, number: u64) -> Option<bool> {
    let plain = plain_candidate(alloc, plan, options, number)?;
    let text = candidate_text(alloc, plan, options, number)?;
    Some(text == plain)
}

/// The same of a candidate and of a candidate of that one, which is a plan whose seed and schedule are random.
fn are_plain(alloc: Global, plan: &Plan, options: &Options, number: u64) -> Option<bool> {
    if !is_plain(alloc, plan, options, number)? {
        return Some(false);
    }
    is_plain(
        alloc,
        &candidate(alloc, plan, options, number).ok()?,
        options,
        number,
    )
}

/// The first of so many candidates that differs from the plain one, or whose own candidate does. Up to eight faults of a
/// palette of its own each has, so that all sets of kinds come.
fn first_other(alloc: Global, plan: &Plan, count: u64) -> Option<u64> {
    for number in 0..count {
        let mut options = options_of((number % 9) as u32, 0, 0);
        options.palette = palette_of(number % 128);
        let is_same = match are_plain(alloc, plan, &options, number) {
            None => are_plain(alloc, plan, &options, number),
            answer => answer,
        };
        if is_same != Some(true) {
            return Some(number);
        }
    }
    None
}

fn first_other_of(alloc: Global, settings: &str, count: u64) -> Option<Option<u64>> {
    let plan = match plan_of(alloc, settings) {
        None => plan_of(alloc, settings)?,
        Some(plan) => plan,
    };
    Some(first_other(alloc, &plan, count))
}

#[test]
fn candidates_are_the_plain_ones(rt: HostRuntime) {
    assert_eq!(rt; first_other_of(rt.alloc(), THREE, 1_000), Some(None));
    assert_eq!(rt; first_other_of(rt.alloc(), FIVE, 1_000), Some(None));
    assert_eq!(rt; first_other_of(rt.alloc(), ONE, 500), Some(None));
}

/// So many entries, all due at once.
fn crowd_of(alloc: Global, count: usize) -> Option<Schedule> {
    let mut entries = Vec::new(alloc);
    for _ in 0..count {
        let step = Step::Undo;
        entries.push(Entry { at: 3, step }).ok()?;
    }
    Schedule::of(entries).ok()
}

/// The plan with that schedule.
fn crowded(alloc: Global, plan: &Plan, count: usize) -> Option<Plan> {
    plan.with_schedule(alloc, crowd_of(alloc, count)?).ok()
}

/// How many entries a candidate has.
fn entries_of(alloc: Global, plan: &Plan, options: &Options) -> Option<usize> {
    Some(
        candidate(alloc, plan, options, 1)
            .ok()?
            .schedule()
            .entries()
            .len(),
    )
}

/// How many entries a candidate of a plan has, and whether they are the plain ones.
fn crowd_in(alloc: Global, plan: &Plan) -> Option<(usize, bool)> {
    let options = options_of(9, 0, 0);
    Some((
        entries_of(alloc, plan, &options)?,
        is_plain(alloc, plan, &options, 1)?,
    ))
}

/// The same of a plan that is given so many entries.
fn crowd_by(alloc: Global, plan: &Plan, count: usize) -> Option<(usize, bool)> {
    crowd_in(alloc, &crowded(alloc, plan, count)?)
}

fn crowd(alloc: Global, count: usize) -> Option<(usize, bool)> {
    crowd_by(alloc, &plan_of(alloc, THREE)?, count)
}

/// What a schedule has no room for is left out.
#[test]
fn a_full_schedule_takes_no_more(rt: HostRuntime) {
    for (count, all) in [(1_024, 1_024), (1_021, 1_024), (1_000, 1_017)] {
        let found = match crowd(rt.alloc(), count) {
            None => crowd(rt.alloc(), count),
            answer => answer,
        };
        assert_eq!(rt; found, Some((all, true)));
    }
}
