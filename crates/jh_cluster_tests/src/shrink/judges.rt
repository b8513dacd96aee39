//! Judges of which it is known what they need, and judges that look random.
//!
//! None is answered where memory was refused.

use crate::first::Nobody;
use crate::shrink::entries::{dues, schedule};
use jh_shrink::{ScheduleJudge, ShrinkError, Shrunk, shrink, shrink_by};
use jh_simnode::{Entry, Schedule};
use jh_test_kit::Random;
use std::alloc::Global;

/// Whether an entry is due at a number.
fn has(entries: &[Entry], at: u32) -> bool {
    entries.iter().any(|entry| entry.at == at)
}

/// Whether all of these are there.
fn has_all(schedule: &Schedule, needed: &[u32]) -> bool {
    needed.iter().all(|at| has(schedule.entries(), *at))
}

/// What became of a schedule, and what is left of it.
fn given(alloc: Global, shrunk: &Shrunk) -> Option<String> {
    let (kind, schedule) = match shrunk {
        Shrunk::Minimal(schedule) => ("minimal", schedule),
        Shrunk::Budget(schedule) => ("budget", schedule),
        Shrunk::NotFailing(schedule) => ("not failing", schedule),
    };
    let dues = dues(alloc, schedule.entries())?;
    format!(in alloc; "{kind} {dues:?}").ok()
}

/// What becomes of so many entries by a judge to whom those fail that have all that is needed.
fn shrunk(alloc: Global, count: u32, needed: &[u32], budget: u64) -> Option<String> {
    let judge = |schedule: &Schedule| Some(has_all(schedule, needed));
    let shrunk = shrink(alloc, schedule(alloc, count)?, judge, budget, &mut Nobody).ok()?;
    given(alloc, &shrunk)
}

/// How many entries, which are needed, how often the judge may be asked, and what becomes of them.
static CASES: [(u32, &[u32], u64, &str); 9] = [
    (0, &[], 9, "minimal []"),
    (0, &[0], 9, "not failing []"),
    (3, &[7], 9, "not failing [0, 1, 2]"),
    (4, &[], 9, "minimal []"),
    (4, &[0, 1, 2, 3], 99, "minimal [0, 1, 2, 3]"),
    (9, &[2, 7], 99, "minimal [2, 7]"),
    (4, &[1], 0, "budget [0, 1, 2, 3]"),
    (4, &[1], 3, "budget [0, 1]"),
    // Large parts go first, so three entries of 1,024 are found in some tens of calls.
    (1_024, &[100, 500, 900], 100, "minimal [100, 500, 900]"),
];

#[test]
fn schedules_are_made_small(rt: HostRuntime) {
    for (count, needed, budget, wanted) in CASES.iter() {
        let given = match shrunk(rt.alloc(), *count, needed, *budget) {
            None => shrunk(rt.alloc(), *count, needed, *budget),
            given => given,
        };
        assert!(rt;
            given.is_some_and(|given| given.as_str() == *wanted),
            "{wanted}"
        );
    }
}

/// A judge to whom those fail that have an entry, and that counts how often it is asked.
#[derive(Drop)]
struct Counting {
    needed: u32,
    times: u64,
}

impl ScheduleJudge for Counting {
    ghost use Rattle.std.specs.Prelude.{◌≡◌};
    ghost use Rattle.std.proofs.Common.{refl, ◌∙◌};

    ghost is_ready = { λ _. Unit {0} };

    ghost has_answered = { λ _ _ _. Unit {0} };

    ghost asked = { λ c. c.times };

    ghost becomes = { λ one next. next.needed ≡ one.needed };

    ghost stays = { λ one. refl };

    ghost goes_on = { λ one next last first then. then ∙ first };

    ghost keeps = { λ one next schedule answer later said. tt };

    fn judge(&mut self, schedule: &Schedule) -> Option<bool> {
        self.times += 1;
        Some(has(schedule.entries(), self.needed))
    }
}

/// What becomes of four entries of which the second is needed, and how often the judge was asked.
fn counted(alloc: Global, budget: u64) -> Option<(String, u64)> {
    let mut judge = Counting {
        needed: 1,
        times: 0,
    };
    let shrunk = shrink_by(alloc, schedule(alloc, 4)?, &mut judge, budget, &mut Nobody).ok()?;
    Some((given(alloc, &shrunk)?, judge.times))
}

/// How often the judge may be asked, what becomes of the entries, and how often it was asked.
static COUNTED: [(u64, &str, u64); 5] = [
    (0, "budget [0, 1, 2, 3]", 0),
    (1, "budget [0, 1, 2, 3]", 1),
    (3, "budget [0, 1]", 3),
    (5, "budget [1]", 5),
    (99, "minimal [1]", 6),
];

#[test]
fn a_budget_is_a_number_of_asks(rt: HostRuntime) {
    for (budget, wanted, asked) in COUNTED.iter() {
        let given = match counted(rt.alloc(), *budget) {
            None => counted(rt.alloc(), *budget),
            given => given,
        };
        assert!(rt;
            given.is_some_and(|given| given.0.as_str() == *wanted && given.1 == *asked),
            "{wanted}"
        );
    }
}

#[test]
fn a_judge_may_have_no_answer(rt: HostRuntime) {
    let silent = |_: &Schedule| None;
    if let Some(schedule) = schedule(rt.alloc(), 3) {
        let answer = shrink(rt.alloc(), schedule, silent, 9, &mut Nobody);
        assert!(rt; matches!(answer, Err(ShrinkError::Judge)));
    }
}

/// Whether a schedule fails by a judge that looks random: no order of what matters.
fn fails(schedule: &Schedule, seed: u64) -> bool {
    let mut mixed = seed;
    for entry in schedule.entries() {
        mixed = mixed
            .wrapping_add(u64::from(entry.at))
            .wrapping_mul(6_364_136_223_846_793_005)
            .rotate_left(23);
    }
    schedule.entries().len() > 6 || mixed % 3 == 0
}

/// Whether a schedule fails, and passes without any one entry.
fn is_minimal(alloc: Global, schedule: &Schedule, seed: u64) -> Option<bool> {
    let count = schedule.entries().len();
    for place in 0..count {
        if fails(&schedule.copy_without(alloc, place, place + 1).ok()?, seed) {
            return Some(false);
        }
    }
    Some(fails(schedule, seed))
}

/// Whether entries are due one after another.
fn are_in_order(entries: &[Entry]) -> bool {
    entries.windows(2).all(|pair| match pair {
        [one, other] => one.at < other.at,
        _ => false,
    })
}

/// Whether a judge of a seed is told what is minimal.
fn is_right(alloc: Global, seed: u64) -> Option<bool> {
    let mut random = Random::new(seed);
    let count = u32::try_from(random.below(24)).ok()?;
    let judge = |schedule: &Schedule| Some(fails(schedule, seed));
    match shrink(alloc, schedule(alloc, count)?, judge, 10_000, &mut Nobody).ok()? {
        Shrunk::Minimal(schedule) => Some(
            are_in_order(schedule.entries()) && is_minimal(alloc, &schedule, seed)?,
        ),
        Shrunk::NotFailing(schedule) => Some(!fails(&schedule, seed)),
        Shrunk::Budget(_) => Some(false),
    }
}

#[test]
fn random_judges_are_told_what_is_minimal(rt: HostRuntime) {
    for seed in 0..200 {
        let right = match is_right(rt.alloc(), seed) {
            None => is_right(rt.alloc(), seed),
            right => right,
        };
        assert_eq!(rt; right, Some(true));
    }
}
