//! The checker of a first-in-first-out queue. `specs/FifoFindings.antt` has the rule.

ghost use Rattle.std.specs.Prelude.{◌≡◌, ◌<◌, All, IfOk, MatchResult, length, map};
ghost use Rattle.jh_ops.specs.Operation.{operations};
ghost use Rattle.jh_ops.specs.Pairing.{IsPairWithin};
ghost use Rattle.jh_check.specs.Shown.{AreOperationsAt};
ghost use Rattle.jh_fifo_check.specs.FifoFindings as rule;
ghost use Rattle.jh_fifo_check.specs.FifoFindings.{IsFifoFinding, IsFoundOf, IsNumberedVerdict};
ghost use Rattle.jh_fifo_check.specs.FifoHistories.{IsFifoHistory, RefusesFifo};

use crate::histories::{fifo_ops_of, first_bad_call, numbers_not_failed, pairs_not_failed};
use jh_check::{CheckError, Verdict, operations_of};
use jh_fifo::{FifoReason, FifoVerdict, judge_fifo};
use jh_ops::{Op, Pair, pair};
use std::alloc::{AllocError, Global};

/// What is found of a first-in-first-out queue.
#[derive(Debug, Drop)]
pub struct FifoFinding {
    /// The answer of the judge, in which operations have their numbers: their places among all pairs of
    /// the history, from 0.
    pub verdict: FifoVerdict,
    /// The last records of the operations that the verdict names, in its order, where it is to be
    /// explained; else none.
    pub operations: Vec<Op>,
}

impl FifoFinding {
    /// What the finding says of its history.
    pub fn verdict(&self) -> Verdict
        ensures { result ≡ rule.verdict_of_fifo self.now.verdict }
    {
        match &self.verdict {
            FifoVerdict::Valid(_) => Verdict::True,
            FifoVerdict::Invalid(_) => Verdict::False,
            FifoVerdict::EnqueuedTwice(..) | FifoVerdict::UnknownDequeue(_) => Verdict::Unknown,
        }
    }
}

/// The number of the operation at a place among those that were judged.
fn number_of_place(numbers: &[usize], place: usize) -> usize
    ensures { result ≡ rule.number_of_place numbers.now place }
{
    numbers.get(place).copied().unwrap_or(0)
}

/// The numbers of an order.
fn numbered_order(
    alloc: Global,
    numbers: &[usize],
    order: &[usize],
) -> Result<Vec<usize>, AllocError>
    ensures { IfOk result
        (λ numbered. numbered.items ≡ map (rule.number_of_place numbers.now) order.now) }
{
    order
        .iter()
        .map(|place| number_of_place(numbers, *place))
        .collect(alloc)
}

/// A reason with the numbers of its operations.
fn numbered_reason(numbers: &[usize], reason: FifoReason) -> FifoReason
    ensures { result ≡ rule.numbered_reason numbers.now reason }
{
    let number = |place| number_of_place(numbers, place);
    match reason {
        FifoReason::EndedBeforeInvoked(place) => FifoReason::EndedBeforeInvoked(number(place)),
        FifoReason::NeverEnqueued(place) => FifoReason::NeverEnqueued(number(place)),
        FifoReason::DequeuedTwice(first, second) => {
            FifoReason::DequeuedTwice(number(first), number(second))
        }
        FifoReason::DequeuedBeforeEnqueued(dequeue, enqueue) => {
            FifoReason::DequeuedBeforeEnqueued(number(dequeue), number(enqueue))
        }
        FifoReason::OutOfOrder(first, second) => {
            FifoReason::OutOfOrder(number(first), number(second))
        }
        FifoReason::NeverEmpty(place) => FifoReason::NeverEmpty(number(place)),
    }
}

/// A verdict with the numbers of its operations.
fn numbered(
    alloc: Global,
    numbers: &[usize],
    judged: &FifoVerdict,
) -> Result<FifoVerdict, AllocError>
    ensures { IfOk result (IsNumberedVerdict numbers.now judged.now) }
{
    let number = |place| number_of_place(numbers, place);
    match judged {
        FifoVerdict::Valid(order) => {
            Ok(FifoVerdict::Valid(numbered_order(alloc, numbers, order)?))
        }
        FifoVerdict::Invalid(reason) => {
            Ok(FifoVerdict::Invalid(numbered_reason(numbers, *reason)))
        }
        FifoVerdict::EnqueuedTwice(first, second) => {
            Ok(FifoVerdict::EnqueuedTwice(number(*first), number(*second)))
        }
        FifoVerdict::UnknownDequeue(place) => Ok(FifoVerdict::UnknownDequeue(number(*place))),
    }
}

/// The operations that a reason names.
fn named_by_reason(alloc: Global, reason: FifoReason) -> Result<Vec<usize>, AllocError>
    ensures { IfOk result (λ named. named.items ≡ rule.named_by_reason reason) }
{
    match reason {
        FifoReason::EndedBeforeInvoked(number)
        | FifoReason::NeverEnqueued(number)
        | FifoReason::NeverEmpty(number) => Ok(vec![in alloc; number]?),
        FifoReason::DequeuedTwice(first, second)
        | FifoReason::DequeuedBeforeEnqueued(first, second)
        | FifoReason::OutOfOrder(first, second) => Ok(vec![in alloc; first, second]?),
    }
}

/// The numbers of the operations that a verdict names: of a yes none, else one or two.
///
/// Errors: out of memory.
pub fn named_by_verdict(alloc: Global, verdict: &FifoVerdict) -> Result<Vec<usize>, AllocError>
    ensures { IfOk result (λ named. named.items ≡ rule.named_by_verdict verdict.now) }
{
    match verdict {
        FifoVerdict::Valid(_) => Ok(Vec::new(alloc)),
        FifoVerdict::Invalid(reason) => named_by_reason(alloc, *reason),
        FifoVerdict::EnqueuedTwice(first, second) => Ok(vec![in alloc; *first, *second]?),
        FifoVerdict::UnknownDequeue(number) => Ok(vec![in alloc; *number]?),
    }
}

/// The operations that a finding shows.
fn shown(
    alloc: Global,
    explain: bool,
    history: &[Op],
    pairs: &[Pair],
    verdict: &FifoVerdict,
) -> Result<Vec<Op>, AllocError>
    requires within { All (IsPairWithin (length history.now)) pairs.now }
    requires numbers { All (λ number. number < length pairs.now) (rule.named_by_verdict verdict.now) }
    ensures { IfOk result (λ ops. AreOperationsAt (operations history.now) pairs.now
        (rule.shown_by_verdict explain verdict.now) ops.items) }
{
    if !explain {
        return Ok(Vec::new(alloc));
    }
    let named = named_by_verdict(alloc, verdict)?;
    operations_of(alloc, history, pairs, &named)
}

/// What is found in a history with these pairs.
fn found(
    alloc: Global,
    explain: bool,
    history: &[Op],
    pairs: &[Pair],
) -> Result<FifoFinding, AllocError>
    requires within { All (IsPairWithin (length history.now)) pairs.now }
    ensures { IfOk result (IsFoundOf explain (operations history.now) pairs.now) }
{
    let kept = pairs_not_failed(alloc, history, pairs)?;
    let numbers = numbers_not_failed(alloc, history, pairs)?;
    let ops = fifo_ops_of(alloc, history, &kept)?;
    let judged = judge_fifo(alloc, &ops)?;
    let verdict = numbered(alloc, &numbers, &judged)?;
    let operations = shown(alloc, explain, history, pairs, &verdict)?;
    Ok(FifoFinding {
        verdict,
        operations,
    })
}

/// Judges the history of a first-in-first-out queue, whose clients `:enqueue` and `:dequeue` a value each:
/// whether each operation can have taken effect at one moment between its invocation and its completion
/// (Herlihy and Wing 1990; the model `fifo-queue` of knossos).
///
/// Operations of the nemesis are left out. An enqueue has the value of its invocation, a dequeue that of
/// its `:ok` completion, and values are equal as EDN says. A dequeue of nil found the queue empty. What
/// failed did not happen; an enqueue without a completion, or with `:info`, may have. The history is not
/// judged, and the finding is unknown, where two enqueues that did not fail have one value, or where a
/// dequeue neither failed nor is known to have happened: it may have taken any value.
///
/// Errors: `Pair` where the operations do not pair; `BadValue` at the first invocation of another function
/// or of an enqueue of nil; then `OutOfMemory`.
///
/// Takes O(n log n) comparisons for n operations. Where it is to be explained, the operations that it
/// names are copied: two at most.
pub fn check_fifo(alloc: Global, history: &[Op], explain: bool) -> Result<FifoFinding, CheckError>
    ensures { MatchResult result
        (λ found. IsFifoHistory (operations history.now)
        × IsFifoFinding explain (operations history.now) found)
        (RefusesFifo (operations history.now)) }
{
    let pairs = pair(alloc, history)?;
    if let Some(place) = first_bad_call(history, &pairs) {
        return Err(CheckError::BadValue(place));
    }
    Ok(found(alloc, explain, history, &pairs)?)
}
