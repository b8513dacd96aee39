//! Random histories, on each of which a checker or the judge is compared with a plain slow program; and a long one.

ghost use Rattle.jh_linear.specs.Order.{EndAfterInvoked};

use crate::check::register::found;
use crate::check::rows::{Ask, answer, calls_in};
use crate::plain_check::{
    busy_history, cut, ends_at, is_possible, judged_slowly, random_case, random_history,
    value_after,
};
use jh_linear::{LinVerdict, RegOp, Stuck, check, check_order};
use jh_ops::Workload;
use jh_test_kit::Dice;
use std::alloc::Global;

/// Whether a checker's answer to a random history is that of the plain program. None: memory was refused.
fn agrees(alloc: Global, workload: Workload, seed: u64) -> Option<bool> {
    let case = random_case(alloc, workload, seed).ok()?;
    let found = answer(alloc, Ask::Checker(workload), &case.history)?;
    Some(found.as_str() == case.answer.as_str())
}

/// The first of so many random histories on which they differ.
fn first_different(alloc: Global, workload: Workload) -> Option<u64> {
    for seed in 0..1_500 {
        let same = match agrees(alloc, workload, seed) {
            None => agrees(alloc, workload, seed),
            same => same,
        };
        if same != Some(true) {
            return Some(seed);
        }
    }
    None
}

#[test]
fn sets_agree(rt: HostRuntime) {
    assert_eq!(rt; first_different(rt.alloc(), Workload::Set), None);
}

#[test]
fn counters_agree(rt: HostRuntime) {
    assert_eq!(rt; first_different(rt.alloc(), Workload::Counter), None);
}

#[test]
fn ids_agree(rt: HostRuntime) {
    assert_eq!(rt; first_different(rt.alloc(), Workload::Ids), None);
}

/// Whether an answer within a budget is right, where it is known whether there is an order.
fn is_right(calls: &[RegOp], verdict: &LinVerdict, budget: u64, possible: bool) -> bool
    requires { EndAfterInvoked calls.now }
{
    match verdict {
        LinVerdict::Valid(order) => {
            possible
                && budget > 0
                && judged_slowly(calls, Some(0), order.as_slice()).is_ok()
                && check_order(calls, Some(0), order.as_slice()).is_ok()
        }
        LinVerdict::Invalid(_) => !possible && budget > 0,
        LinVerdict::Unknown(reached) => {
            budget < 1000 && reached.as_slice().len() as u64 == budget
        }
    }
}

/// Whether a no is stuck where it says: at the completion of what happened, with an order before it and none behind it.
fn is_stuck(alloc: Global, calls: &[RegOp], stuck: &Stuck) -> Option<bool> {
    let before = cut(alloc, calls, stuck.end).ok()?;
    let behind = cut(alloc, calls, stuck.end.saturating_add(1)).ok()?;
    let order = stuck.order.as_slice();
    let is_order = judged_slowly(&before, Some(0), order).is_ok();
    let is_held = value_after(&before, Some(0), order) == Some(stuck.value);
    let is_end = ends_at(calls, stuck.end);
    Some(is_order && is_held && is_end && !is_possible(alloc, &behind, Some(0)).ok()?)
}

/// Whether the judge, where its budget suffices, says rightly where it is stuck, if it is. None: memory was refused.
fn is_stuck_if_at_all(alloc: Global, calls: &[RegOp]) -> Option<bool>
    requires { EndAfterInvoked calls.now }
{
    match check(alloc, calls, Some(0), 1000).ok()? {
        LinVerdict::Invalid(stuck) => is_stuck(alloc, calls, &stuck),
        _ => Some(true),
    }
}

/// Whether there is an order, where the judge is right within each budget. None: it is not, or memory was refused.
fn judged(alloc: Global, calls: &[RegOp]) -> Option<bool>
    requires { EndAfterInvoked calls.now }
{
    let possible = is_possible(alloc, calls, Some(0)).ok()?;
    for budget in [0, 1, 2, 4, 1000] {
        let verdict = check(alloc, calls, Some(0), budget).ok()?;
        if !is_right(calls, &verdict, budget, possible) {
            return None;
        }
    }
    Some(possible)
}

/// Whether random places, also too large and repeated ones, are refused as they are slowly.
fn is_refused_alike(alloc: Global, calls: &[RegOp], dice: &mut Dice) -> Option<bool>
    requires { EndAfterInvoked calls.now }
{
    let mut places = Vec::new(alloc);
    let count = (calls.len() as u64).saturating_add(dice.below(2));
    for _ in 0..dice.below(7) {
        places.push(dice.below(count.max(1)) as usize).ok()?;
    }
    Some(check_order(calls, Some(0), &places) == judged_slowly(calls, Some(0), &places))
}

/// Whether a random history has an order, and the dice after it. None: an answer is another than that of the slow
/// programs, or memory was refused.
fn compared(alloc: Global, mut dice: Dice) -> Option<(bool, Dice)> {
    let most = dice.below(7).min(dice.below(9));
    let history = random_history(alloc, &mut dice, most).ok()?;
    let calls = calls_in(alloc, &history)?.ok()?;
    let possible = judged(alloc, &calls)?;
    is_stuck_if_at_all(alloc, &calls)?.then_some(())?;
    is_refused_alike(alloc, &calls, &mut dice)?.then_some((possible, dice))
}

/// How many of so many histories have an order.
fn possible_count(alloc: Global, histories: u32) -> Option<u32> {
    let mut dice = Dice::new(7);
    let mut count = 0u32;
    for _ in 0..histories {
        let (possible, next) = match compared(alloc, dice) {
            None => compared(alloc, dice)?,
            Some(compared) => compared,
        };
        dice = next;
        count = count.saturating_add(u32::from(possible));
    }
    Some(count)
}

/// There are many of both sorts, so that the comparison says something.
#[test]
fn judges_as_the_slow_search_does(rt: HostRuntime) {
    let count = possible_count(rt.alloc(), 3_000);
    assert!(rt; matches!(count, Some(501..=2_499)));
}

/// The number of calls of a long history of many clients, if it is decided within the default budget of the command.
fn busy_calls(alloc: Global) -> Option<usize> {
    let history = busy_history(alloc, 10_000).ok()?;
    let (calls, _) = found(alloc, &history, 100_000)?;
    Some(calls)
}

#[test]
fn decides_a_busy_history(rt: HostRuntime) {
    let calls = match busy_calls(rt.alloc()) {
        None => busy_calls(rt.alloc()),
        calls => calls,
    };
    assert_eq!(rt; calls, Some(10_000));
}
