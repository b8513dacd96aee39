//! Why a history of a register or a mutex is not valid, beside the verdict.
//! `specs/Explanations.antt` has the rule.

ghost use Rattle.std.specs.Prelude.{◌≡◌, ◌<◌, IfOk, length};
ghost use Rattle.jh_ops.specs.Operation.{operations};
ghost use Rattle.jh_linear.specs.Order.{EndAfterInvoked};
ghost use Rattle.jh_linear.specs.Stuck as stuck;
ghost use Rattle.jh_linear.specs.Verdict.{HaveNoOrder};
ghost use Rattle.jh_linear.specs.declared.verdict.LinVerdict.TheVariants.{Invalid};
ghost use Rattle.jh_linear.specs.declared.verdict.Stuck.{Stuck};
ghost use Rattle.jh_checkers.specs.Explanations as rule;
ghost use Rattle.jh_checkers.specs.Explanations.{Explains, IsBecause, IsExplained};
ghost use Rattle.jh_checkers.specs.Lines as lines;
ghost use Rattle.jh_checkers.specs.RegisterInside as inside;

use jh_linear::{LinVerdict, Outcome, RegOp, op_end};
use jh_ops::Op;
use jh_unique::{UniqueReason, UniqueVerdict, judge_unique};
use std::alloc::{AllocError, Global};

/// What stands beside the verdict on a history of a register or a mutex that is not valid, where it
/// is asked for.
#[derive(Debug, Drop)]
pub struct Explanation {
    /// The completion at which the history is stuck, as the history has it.
    pub completion: Op,
    /// The numbers of the operations that are pending there: invoked before it, with no `:ok` before
    /// it, and none that failed. They ascend, and are places among the pairs, as in orders. Those
    /// of unknown outcome are among them, unlike in a configuration of `jh_linear`.
    pub pending: Vec<usize>,
    /// Why no order exists, where each value is written once, and none elsewhere. Its operations go
    /// by their numbers too. A mutex has none, since what it holds repeats.
    pub because: Option<UniqueReason>,
}

/// The numbers of the operations that a reason names: one, or two.
///
/// Errors: out of memory.
pub fn named_by_unique_reason(alloc: Global, reason: UniqueReason) -> Result<Vec<usize>, AllocError>
    ensures { IfOk result (λ named. named.items ≡ lines.named_by_unique_reason reason) }
{
    match reason {
        UniqueReason::Nowhere(number) => Ok(vec![in alloc; number]?),
        UniqueReason::FromOne(first, second) => Ok(vec![in alloc; first, second]?),
        UniqueReason::Behind(first, second) => Ok(vec![in alloc; first, second]?),
    }
}

/// Whether an operation is still open at a place of the history.
fn is_open_at(place: usize, op: RegOp) -> bool
    ensures { result ≡ rule.is_open_at place op.outcome (stuck.op_end op) }
{
    match op.outcome {
        Outcome::Done => place <= op_end(op),
        Outcome::Failed => false,
        Outcome::Unsure => true,
    }
}

/// Whether an operation was invoked before a place of the history, and is open there.
fn is_pending(place: usize, op: RegOp) -> bool
    ensures { result ≡ rule.is_pending place op }
{
    op.invoked < place && is_open_at(place, op)
}

/// The numbers of the operations that are pending at this place of the history.
fn pending_at(alloc: Global, ops: &[RegOp], end: usize) -> Result<Vec<usize>, AllocError>
    ensures { IfOk result (λ pending. pending.items ≡ rule.numbers_pending ops.now end) }
{
    ops.iter()
        .enumerate()
        .filter(|(_, op)| is_pending(end, **op))
        .map(|(number, _)| number)
        .collect(alloc)
}

/// The reason of a no.
fn reason_in(verdict: &UniqueVerdict) -> Option<UniqueReason>
    ensures { result ≡ inside.reason_in verdict.now }
{
    match verdict {
        UniqueVerdict::Invalid(reason) => Some(*reason),
        _ => None,
    }
}

/// Why operations that have no order have none: the reason that the judge of values that are written
/// once names, and none where some value is not.
fn reason_of(
    alloc: Global,
    ops: &[RegOp],
    initial: Option<i64>,
) -> Result<Option<UniqueReason>, AllocError>
    requires ends { EndAfterInvoked ops.now }
    requires none { HaveNoOrder ops.now initial }
    ensures { IfOk result (IsBecause ops.now initial) }
{
    let verdict = judge_unique(alloc, ops, initial)?;
    Ok(reason_in(&verdict))
}

/// The explanation of a history that is stuck at this place.
fn explanation_at(
    alloc: Global,
    history: &[Op],
    ops: &[RegOp],
    initial: Option<i64>,
    end: usize,
) -> Result<Explanation, AllocError>
    requires within { end < length history.now }
    requires ends { EndAfterInvoked ops.now }
    requires none { HaveNoOrder ops.now initial }
    ensures { IfOk result (Explains (operations history.now) ops.now initial end) }
{
    Ok(Explanation {
        completion: history[end].copy(alloc)?,
        pending: pending_at(alloc, ops, end)?,
        because: reason_of(alloc, ops, initial)?,
    })
}

/// The explanation that stands beside a verdict, where one is asked for or not.
///
/// Takes time in the order of n log n for n operations, and copies one of them.
pub(crate) fn explained(
    alloc: Global,
    explain: bool,
    history: &[Op],
    ops: &[RegOp],
    initial: Option<i64>,
    judged: &LinVerdict,
) -> Result<Option<Explanation>, AllocError>
    requires within { (stuck : Stuck) → judged.now ≡ Invalid stuck → stuck.end < length history.now }
    requires ends { EndAfterInvoked ops.now }
    requires none { (stuck : Stuck) → judged.now ≡ Invalid stuck → HaveNoOrder ops.now initial }
    ensures { IfOk result
        (IsExplained explain (operations history.now) ops.now initial judged.now) }
{
    match judged {
        LinVerdict::Invalid(stuck) if explain => {
            Ok(Some(explanation_at(alloc, history, ops, initial, stuck.end)?))
        }
        _ => Ok(None),
    }
}
