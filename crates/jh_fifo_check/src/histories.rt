//! The operations of a queue in a history. `specs/FifoHistories.antt` has the rule.

ghost use Rattle.std.specs.Prelude.{◌≡◌, ◌++◌, ◌∷◌, [], IfOk, OnOk, find, option_copied, option_map};
ghost use Rattle.std.specs.List.{filter_map};
ghost use Rattle.jh_edn.specs.View.{view, views};
ghost use Rattle.jh_ops.specs.Operation.{operations};
ghost use Rattle.jh_check.specs.Distinct.{Ascends};
ghost use Rattle.jh_fifo_check.specs.FifoHistories as rule;

use jh_check::{asks, end_of, has_ended, in_normal_order, value_at};
use jh_edn::Value;
use jh_fifo::{FifoCall, FifoOp};
use jh_ops::{Kind, Op, Pair};
use std::alloc::{AllocError, Global};

/// Whether the operation did not fail.
fn did_not_fail(history: &[Op], pair: Pair) -> bool
    ensures { result ≡ rule.did_not_fail (operations history.now) pair }
{
    !has_ended(Kind::Fail, history, pair)
}

/// The pairs of operations that did not fail.
pub(crate) fn pairs_not_failed(
    alloc: Global,
    history: &[Op],
    pairs: &[Pair],
) -> Result<Vec<Pair>, AllocError>
    ensures { IfOk result
        (λ kept. kept.items ≡ rule.pairs_not_failed (operations history.now) pairs.now) }
{
    pairs
        .iter()
        .filter(|pair| did_not_fail(history, **pair))
        .map(|pair| *pair)
        .collect(alloc)
}

/// The numbers of operations that did not fail.
pub(crate) fn numbers_not_failed(
    alloc: Global,
    history: &[Op],
    pairs: &[Pair],
) -> Result<Vec<usize>, AllocError>
    ensures { IfOk result
        (λ numbers. numbers.items ≡ rule.numbers_not_failed (operations history.now) pairs.now) }
{
    pairs
        .iter()
        .enumerate()
        .filter(|(_, pair)| did_not_fail(history, **pair))
        .map(|(number, _)| number)
        .collect(alloc)
}

/// The value, unless it is nil.
fn unless_nil(value: &Value) -> Option<&Value>
    ensures { option_map (λ v. view v.now) result ≡ rule.unless_nil (view value.now) }
{
    match value {
        Value::Nil => None,
        _ => Some(value),
    }
}

/// What a dequeue answered, if it is known to have happened and was no nil.
fn answered_by(history: &[Op], pair: Pair) -> Option<&Value>
    ensures { option_map (λ v. view v.now) result ≡ rule.answered_by (operations history.now) pair }
{
    if !has_ended(Kind::Ok, history, pair) {
        return None;
    }
    unless_nil(value_at(history, end_of(pair))?)
}

/// The value that an operation puts in or took out.
fn moved_by(history: &[Op], pair: Pair) -> Option<&Value>
    ensures { option_map (λ v. view v.now) result ≡ rule.moved_by (operations history.now) pair }
{
    if asks("enqueue", history, pair) {
        value_at(history, pair.invoke)
    } else {
        answered_by(history, pair)
    }
}

/// Puts the value that an operation moves last, in normal form.
fn push_moved(
    alloc: Global,
    history: &[Op],
    pair: Pair,
    values: &mut Vec<Value>,
) -> Result<(), AllocError>
    ensures { OnOk result (views values.new.items ≡ views values.old.items
        ++ filter_map (rule.normal_moved_by (operations history.now)) (pair ∷ [])) }
{
    if let Some(value) = moved_by(history, pair) {
        values.push(value.normal(alloc)?)?;
    }
    Ok(())
}

/// All values that operations move, in normal order.
///
/// Takes O(n log n) comparisons for n pairs.
fn values_through(alloc: Global, history: &[Op], pairs: &[Pair]) -> Result<Vec<Value>, AllocError>
    ensures values { IfOk result (λ values. views values.items
        ≡ rule.values_through (operations history.now) pairs.now) }
    ensures ascends { IfOk result (λ values. Ascends (views values.items)) }
{
    let mut values = Vec::new(alloc);
    for pair in pairs {
        push_moved(alloc, history, *pair, &mut values)?;
    }
    in_normal_order(values)
}

/// How many of the values are below one.
///
/// Takes O(log n) comparisons for n values.
fn value_number(values: &[Value], value: &Value) -> usize
    requires { Ascends (views values.now) }
    ensures { result ≡ rule.value_number (views values.now) (view value.now) }
{
    values.partition_point(|other| other.compare(value).is_lt())
}

/// The call that moves the value with a number.
fn call_that_moves(enqueues: bool, number: usize) -> FifoCall
    ensures { result ≡ rule.call_that_moves enqueues number }
{
    if enqueues {
        FifoCall::Enqueue(number)
    } else {
        FifoCall::Dequeue(number)
    }
}

/// The call of an operation.
fn fifo_call_of(
    alloc: Global,
    values: &[Value],
    history: &[Op],
    pair: Pair,
) -> Result<FifoCall, AllocError>
    requires { Ascends (views values.now) }
    ensures { IfOk result (λ call. call
        ≡ rule.fifo_call_of (views values.now) (operations history.now) pair) }
{
    let Some(value) = moved_by(history, pair) else {
        return Ok(FifoCall::Empty);
    };
    let number = value_number(values, &value.normal(alloc)?);
    Ok(call_that_moves(asks("enqueue", history, pair), number))
}

/// Where an operation ended, if it is known to have happened.
fn known_end(history: &[Op], pair: Pair) -> Option<usize>
    ensures { result ≡ rule.known_end (operations history.now) pair }
{
    if has_ended(Kind::Ok, history, pair) {
        pair.outcome
    } else {
        None
    }
}

/// The operations of pairs.
///
/// Takes O(n log n) comparisons for n pairs.
pub(crate) fn fifo_ops_of(
    alloc: Global,
    history: &[Op],
    pairs: &[Pair],
) -> Result<Vec<FifoOp>, AllocError>
    ensures { IfOk result
        (λ ops. ops.items ≡ rule.fifo_ops_of (operations history.now) pairs.now) }
{
    let values = values_through(alloc, history, pairs)?;
    let mut ops = Vec::with_capacity(alloc, pairs.len())?;
    for pair in pairs {
        ops.push(FifoOp {
            invoked: pair.invoke,
            ended: known_end(history, *pair),
            call: fifo_call_of(alloc, &values, history, *pair)?,
        })?;
    }
    Ok(ops)
}

/// Whether an operation enqueues nil.
fn enqueues_nil(history: &[Op], pair: Pair) -> bool
    ensures { result ≡ rule.enqueues_nil (operations history.now) pair }
{
    asks("enqueue", history, pair) && !has_value_at(history, pair.invoke)
}

/// Whether there is a value at a place, other than nil.
fn has_value_at(history: &[Op], place: usize) -> bool
    ensures { result ≡ rule.has_value_at (operations history.now) place }
{
    match value_at(history, place) {
        Some(value) => unless_nil(value).is_some(),
        None => false,
    }
}

/// Whether an operation is none that a queue can be asked for.
fn has_bad_call(history: &[Op], pair: Pair) -> bool
    ensures { result ≡ rule.has_bad_call (operations history.now) pair }
{
    enqueues_nil(history, pair)
        || !(asks("enqueue", history, pair) || asks("dequeue", history, pair))
}

/// The first pair whose operation is none that a queue can be asked for.
fn first_bad_pair<'a>(history: &[Op], pairs: &'a [Pair]) -> Option<&'a Pair>
    ensures { option_copied result ≡ find (rule.has_bad_call (operations history.now)) pairs.now }
{
    pairs.iter().find(|pair| has_bad_call(history, **pair))
}

/// Where the first operation is invoked that is none that a queue can be asked for.
pub(crate) fn first_bad_call(history: &[Op], pairs: &[Pair]) -> Option<usize>
    ensures { result ≡ rule.first_bad_call (operations history.now) pairs.now }
{
    let pair = first_bad_pair(history, pairs).copied()?;
    Some(pair.invoke)
}
