//! Checks whether a given order is a linearization, and takes no memory for it.
//!
//! `specs/Order.antt` says what an order is, part by part, and `specs/Verdict.antt` which part each
//! refusal stands for. Each part has a function here, whose clause says exactly that part.

ghost use Rattle.std.specs.Prelude.{◌≡◌, ◌+◌, ◌<◌, ◌↔◌, ◌∷◌, ℤ, Option, length, drop, filter, true};
ghost use Rattle.std.specs.Prelude.{IsTrue, MatchResult};
ghost use Rattle.jh_linear.specs.CheckingInside.{IsNoneLate, is_op_done, done_numbers_below};
ghost use Rattle.jh_linear.specs.Order.{IsOrder, AreThere, HasNoneTwice, ArePossible, HasAllDone};
ghost use Rattle.jh_linear.specs.Order.{IsLegalFrom};
ghost use Rattle.jh_linear.specs.Order.{IsPossible, EndAfterInvoked, EndsBefore, has};
ghost use Rattle.jh_linear.specs.Order as rule;
ghost use Rattle.jh_linear.specs.Verdict.{RefusesOrder};
ghost use Rattle.jh_linear.specs.declared.register.Outcome.TheVariants.{Done};

use crate::register::{Outcome, RegCall, RegOp, after, is_done};
use thiserror::Error;

/// Why a list of numbers is no order. The first of these that applies is given.
#[derive(Clone, Copy, Debug, PartialEq, Eq, Error)]
pub enum OrderFault {
    /// A number is that of no operation.
    #[error("no such operation")]
    NoSuch,
    /// A number stands in the list twice.
    #[error("repeated operation")]
    Repeat,
    /// One of the operations failed.
    #[error("failed operation")]
    Failed,
    /// An operation that is known to have happened is missing.
    #[error("missing operation")]
    Missing,
    /// An operation that ended before another was invoked stands behind that other one.
    #[error("precedence")]
    Precedence,
    /// A register with the initial value does not allow the operations one after another.
    #[error("illegal")]
    Illegal,
}

/// Whether these numbers are an order in which the operations can have happened, on a register with
/// this initial value. Each operation has to end after its invocation.
///
/// Errors, in this order: `NoSuch`, `Repeat`, `Failed`, `Missing`, `Precedence`, `Illegal`.
///
/// Takes no memory. Takes time linear in the operations and the numbers, except for `Repeat`: there
/// each number is looked for among those behind it, up to the first that was invoked after its end.
/// So an order of m numbers with w operations in flight at once takes m * w steps, and up to m more
/// for each operation that is not known to have happened. Where numbers break precedence, each is
/// compared with each, which takes m * m steps.
pub fn check_order(ops: &[RegOp], initial: Option<i64>, order: &[usize]) -> Result<(), OrderFault>
    requires ends { EndAfterInvoked ops.now }
    ensures judged { MatchResult result
        (λ _. IsOrder ops.now initial order.now)
        (RefusesOrder ops.now initial order.now) }
{
    if !are_there(ops, order) {
        return Err(OrderFault::NoSuch);
    }
    if !are_apart(ops, order) {
        return Err(OrderFault::Repeat);
    }
    if !are_possible(ops, order) {
        return Err(OrderFault::Failed);
    }
    if !has_all_done(ops, order) {
        return Err(OrderFault::Missing);
    }
    if !none_late(ops, order) {
        return Err(OrderFault::Precedence);
    }
    if !runs(ops, initial, order) {
        return Err(OrderFault::Illegal);
    }
    Ok(())
}

/// The operation with a number. Past the end it is one that failed.
pub(crate) fn op_at(ops: &[RegOp], number: usize) -> RegOp
    ensures { result ≡ rule.op_at ops.now number }
{
    match ops.get(number) {
        Some(op) => *op,
        None => RegOp {
            invoked: 0,
            ended: None,
            outcome: Outcome::Failed,
            call: RegCall::Read(None),
        },
    }
}

/// Whether each number is that of an operation.
fn are_there(ops: &[RegOp], order: &[usize]) -> bool
    ensures { IsTrue result ↔ AreThere ops.now order.now }
{
    order.iter().all(|number| *number < ops.len())
}

/// Whether the operation with a number did not fail.
fn is_possible(ops: &[RegOp], number: usize) -> bool
    ensures { IsTrue result ↔ IsPossible ops.now number }
{
    match op_at(ops, number).outcome {
        Outcome::Failed => false,
        _ => true,
    }
}

/// Whether no operation of the order failed.
fn are_possible(ops: &[RegOp], order: &[usize]) -> bool
    ensures { IsTrue result ↔ ArePossible ops.now order.now }
{
    order.iter().all(|number| is_possible(ops, *number))
}

/// Whether the operation with a number is known to have happened.
fn is_done_at(ops: &[RegOp], number: usize) -> bool
    ensures { result ≡ is_op_done ops.now number }
{
    is_done(op_at(ops, number))
}

/// How many of the numbers are those of operations that are known to have happened.
fn count_done(ops: &[RegOp], order: &[usize]) -> usize
    ensures { result ≡ length (filter (is_op_done ops.now) order.now) }
{
    let mut count = 0;
    for number in order {
        if is_done_at(ops, *number) {
            count += 1;
        }
    }
    count
}

/// How many operations are known to have happened.
fn count_all_done(ops: &[RegOp]) -> usize
    ensures { result ≡ length (done_numbers_below ops.now (length ops.now)) }
{
    let mut count = 0;
    for number in 0..ops.len() {
        if is_done_at(ops, number) {
            count += 1;
        }
    }
    count
}

/// Whether all operations that are known to have happened are among the numbers. Since no number
/// stands there twice, it is enough to count them.
fn has_all_done(ops: &[RegOp], order: &[usize]) -> bool
    requires apart { HasNoneTwice order.now }
    ensures { IsTrue result ↔ HasAllDone ops.now order.now }
{
    count_done(ops, order) == count_all_done(ops)
}

/// Whether an operation is known to have happened, and ended before this place.
fn is_over(op: RegOp, at: usize) -> bool
    ensures { IsTrue result ↔ ((op.outcome ≡ Done) × EndsBefore op.ended at) }
{
    match (op.outcome, op.ended) {
        (Outcome::Done, Some(end)) => end < at,
        _ => false,
    }
}

/// Whether no operation stands behind one that was invoked after its end. It is enough to know the
/// latest invocation so far.
fn none_late(ops: &[RegOp], order: &[usize]) -> bool
    ensures { IsTrue result ↔ IsNoneLate ops.now order.now }
{
    let mut latest = 0;
    for number in order {
        let op = op_at(ops, *number);
        if is_over(op, latest) {
            return false;
        }
        latest = latest.max(op.invoked);
    }
    true
}

/// Whether a number is among those behind it. Where these keep precedence (`in_time`), it can stand
/// only before the first of them that was invoked after its end.
fn stands_again(ops: &[RegOp], number: usize, behind: &[usize], in_time: bool) -> bool
    requires in_time { in_time ≡ true → IsNoneLate ops.now (number ∷ behind.now) }
    ensures { result ≡ has behind.now number }
{
    let op = op_at(ops, number);
    for other in behind {
        if *other == number {
            return true;
        }
        if in_time && is_over(op, op_at(ops, *other).invoked) {
            return false;
        }
    }
    false
}

/// The numbers behind an index.
fn behind(order: &[usize], index: usize) -> &[usize]
    requires { index < length order.now }
    ensures { result.now ≡ drop (index + 1) order.now }
{
    &order[index + 1..]
}

/// Whether no number stands in the list twice.
fn are_apart(ops: &[RegOp], order: &[usize]) -> bool
    ensures { IsTrue result ↔ HasNoneTwice order.now }
{
    let in_time = none_late(ops, order);
    for (index, number) in order.iter().enumerate() {
        if stands_again(ops, *number, behind(order, index), in_time) {
            return false;
        }
    }
    true
}

/// Whether a register with the initial value allows the operations one after another.
fn runs(ops: &[RegOp], initial: Option<i64>, order: &[usize]) -> bool
    ensures { IsTrue result ↔ ((last : Option ℤ) × IsLegalFrom ops.now initial order.now last) }
{
    let mut value = initial;
    for number in order {
        let Some(next) = after(op_at(ops, *number).call, value) else {
            return false;
        };
        value = next;
    }
    true
}
