//! The checker of queues. `specs/TotalQueue.antt` has the rule.

ghost use Rattle.std.specs.Prelude.{◌≡◌, ◌∷◌, [], ◌++◌, ◌≤◌, IfOk, MatchResult, OnOk, filter};
ghost use Rattle.std.specs.Prelude.{length, sum_by};
ghost use Rattle.jh_check.specs.Distinct.{Ascends, count_of, distinct_values};
ghost use Rattle.jh_check.specs.Tallies.{view_tally};
ghost use Rattle.jh_check.specs.Verdicts as verdicts;
ghost use Rattle.jh_edn.specs.Order.{in_order, is_below};
ghost use Rattle.jh_edn.specs.View.{view, views};
ghost use Rattle.jh_ops.specs.Operation.{operations};
ghost use Rattle.jh_total_queue.specs.CountsInside.{AreOrdered, ok_times, part_times, times_of};
ghost use Rattle.jh_total_queue.specs.TotalQueue as rule;
ghost use Rattle.jh_total_queue.specs.TotalQueue.{AreDrainsKnown, RefusesTotalQueue, above_zero};
ghost use Rattle.jh_total_queue.specs.TotalQueue.{is_counted, total_queue_result};

use crate::dequeued::{first_bad_drain, sorted_dequeues};
use crate::lists::{Lists, Part};
use jh_check::{CheckError, Counted, Tally, Verdict, is_same, sorted_values};
use jh_edn::Value;
use jh_ops::{Kind, Op};
use std::alloc::{AllocError, Global};

/// What the checker of queues says of a history.
#[derive(Debug, Drop)]
pub struct TotalQueueResult {
    /// `True` where nothing is lost or unexpected, else `False`.
    pub verdict: Verdict,
    /// How many values clients tried to put in.
    pub attempted: usize,
    /// How many are known to have been put in.
    pub acknowledged: usize,
    /// How many came out that clients tried to put in, each as often as they tried at most.
    pub ok: usize,
    /// What is known to have been put in, and did not come out.
    pub lost: Tally,
    /// What came out, and no client tried to put in.
    pub unexpected: Tally,
    /// What came out more often than clients tried to put it in.
    pub duplicated: Tally,
    /// What is ok, and was not known to have been put in.
    pub recovered: Tally,
}

/// What went in and what came out, in normal order.
fn lists_of(alloc: Global, history: &[Op]) -> Result<Lists, AllocError>
    ensures attempts { IfOk result (λ lists. views lists.attempts.items
        ≡ in_order is_below (rule.enqueue_attempts (operations history.now))) }
    ensures enqueues { IfOk result (λ lists. views lists.enqueues.items
        ≡ in_order is_below (rule.enqueues (operations history.now))) }
    ensures dequeues { IfOk result (λ lists. views lists.dequeues.items
        ≡ in_order is_below (rule.dequeues (operations history.now))) }
    ensures ordered { IfOk result AreOrdered }
{
    Ok(Lists {
        attempts: sorted_values(alloc, Kind::Invoke, "enqueue", history)?,
        enqueues: sorted_values(alloc, Kind::Ok, "enqueue", history)?,
        dequeues: sorted_dequeues(alloc, history)?,
    })
}

/// Copies of the values, each once, where they ascend. `each_once` of `jh_check` uses its vector up; here
/// `Lists` is still counted in.
fn each_once(alloc: Global, values: &[Value]) -> Result<Vec<Value>, AllocError>
    requires { Ascends (views values.now) }
    ensures { IfOk result (λ found. views found.items ≡ distinct_values (views values.now)) }
{
    let mut found = Vec::new(alloc);
    let Some((first, others)) = values.split_first() else {
        return Ok(found);
    };
    found.push(first.copy(alloc)?)?;
    let mut last = first;
    for next in others {
        if !is_same(last, next) {
            found.push(next.copy(alloc)?)?;
            last = next;
        }
    }
    Ok(found)
}

/// Puts a copy of the value last, where it is there.
fn push_counted(
    alloc: Global,
    value: &Value,
    times: usize,
    found: &mut Vec<Counted>,
) -> Result<(), AllocError>
    ensures { OnOk result (view_tally found.new.items
        ≡ view_tally found.old.items ++ filter is_counted ((view value.now, times) ∷ [])) }
{
    if times > 0 {
        let value = value.copy(alloc)?;
        found.push(Counted { value, times })?;
    }
    Ok(())
}

/// How often each of the values is in a part of the result, where it is in it.
///
/// Takes O(n log m) comparisons for n values and m in the lists.
fn counted_in(
    alloc: Global,
    part: Part,
    lists: &Lists,
    values: &[Value],
) -> Result<Tally, AllocError>
    requires { AreOrdered lists.now }
    ensures { IfOk result (λ found. found
        ≡ above_zero (λ x. part_times part (times_of lists.now x)) (views values.now)) }
{
    let mut found = Vec::new(alloc);
    for value in values {
        let times = lists.times_of(value).in_part(part);
        push_counted(alloc, value, times, &mut found)?;
    }
    Ok(Tally::of(found))
}

/// How many of these values came out that clients tried to put in.
fn count_ok(lists: &Lists, values: &[Value]) -> usize
    requires ordered { AreOrdered lists.now }
    requires fits { sum_by (count_of (views lists.now.dequeues.items)) (views values.now)
        ≤ length lists.now.dequeues.items }
    ensures { result ≡ sum_by (λ x. ok_times (times_of lists.now x)) (views values.now) }
{
    let mut total = 0;
    for value in values {
        total += lists.times_of(value).ok();
    }
    total
}

/// The verdict where these are lost and unexpected.
fn verdict_of(lost: &Tally, unexpected: &Tally) -> Verdict
    ensures { result ≡ verdicts.verdict_of (rule.is_whole_queue lost.now unexpected.now) }
{
    if lost.is_empty() && unexpected.is_empty() {
        Verdict::True
    } else {
        Verdict::False
    }
}

/// What is found.
fn found_in(alloc: Global, history: &[Op]) -> Result<TotalQueueResult, AllocError>
    ensures { IfOk result (λ found. found ≡ total_queue_result (operations history.now)) }
{
    let lists = lists_of(alloc, history)?;
    let put_in = each_once(alloc, &lists.enqueues)?;
    let taken = each_once(alloc, &lists.dequeues)?;
    let lost = counted_in(alloc, Part::Lost, &lists, &put_in)?;
    let unexpected = counted_in(alloc, Part::Unexpected, &lists, &taken)?;
    let duplicated = counted_in(alloc, Part::Duplicated, &lists, &taken)?;
    let recovered = counted_in(alloc, Part::Recovered, &lists, &taken)?;
    Ok(TotalQueueResult {
        verdict: verdict_of(&lost, &unexpected),
        attempted: lists.attempts.len(),
        acknowledged: lists.enqueues.len(),
        ok: count_ok(&lists, &taken),
        lost,
        unexpected,
        duplicated,
        recovered,
    })
}

/// Judges the history of a queue, whose clients `:enqueue` a value each, `:dequeue` one, or
/// `:drain` all that are left (Jepsen's checker `total-queue`): what goes in must come out.
///
/// Operations of the nemesis are left out. What clients tried to put in are the values of invoked
/// enqueues, what is known to have been put in those of enqueues that are `:ok`. What came out are
/// the values of dequeues that are `:ok`, and the elements of drains that are, each a list or a
/// vector. Values are equal as EDN says, and each counts as often as it is there. Operations are
/// not paired.
///
/// Errors: `BadValue` with the least place of a drain that is `:ok` with a value that is neither
/// list nor vector, or that is `:fail` or `:info` with a value that is not nil; then `OutOfMemory`,
/// never where there is such a drain.
///
/// Takes O(n log n) comparisons for n operations and elements of drains.
pub fn check_total_queue(alloc: Global, history: &[Op]) -> Result<TotalQueueResult, CheckError>
    ensures { MatchResult result
        (λ found. AreDrainsKnown (operations history.now)
        × (found ≡ total_queue_result (operations history.now)))
        (RefusesTotalQueue (operations history.now)) }
{
    if let Some(place) = first_bad_drain(history) {
        return Err(CheckError::BadValue(place));
    }
    let found = found_in(alloc, history)?;
    Ok(found)
}
