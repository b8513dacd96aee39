//! The operations of a history, by pairs of their records, for all checkers; and what is a
//! counter's own: amounts, and errors of values. `specs/CounterResults.antt` has the rule.

ghost use Rattle.std.specs.Prelude.{◌≡◌, ◌^◌, ◌<◌, IfSome, option_map, slice_get};
ghost use Rattle.jh_edn.specs.View.{view};
ghost use Rattle.jh_ops.specs.Operation.{operation, operations};
ghost use Rattle.jh_check.specs.CounterInside as inside;
ghost use Rattle.jh_check.specs.CounterInside.{IsFirstOf, IsValueError};
ghost use Rattle.jh_check.specs.CounterResults as rule;
ghost use Rattle.jh_check.specs.CounterResults.{errors_in};

use crate::error::CheckError;
use jh_edn::Value;
use jh_ops::{Kind, Op, Pair};

/// The record at a place, if there is one.
pub fn op_at(history: &[Op], place: usize) -> Option<&Op>
    ensures { option_map (λ op. operation op.now) result
        ≡ slice_get (operations history.now) place }
{
    history.get(place)
}

/// Whether what the operation asks for is the function of this name. A place that the history does
/// not have makes it none.
pub fn asks(name: &str, history: &[Op], pair: Pair) -> bool
    ensures { result ≡ rule.asks name.now (operations history.now) pair }
{
    match op_at(history, pair.invoke) {
        Some(op) => op.f.is_keyword(name),
        None => false,
    }
}

/// Whether the operation has an outcome of this kind.
pub fn has_ended(kind: Kind, history: &[Op], pair: Pair) -> bool
    ensures { result ≡ rule.has_ended kind (operations history.now) pair }
{
    let Some(place) = pair.outcome else {
        return false;
    };
    match op_at(history, place) {
        Some(op) => kind.is(op.kind),
        None => false,
    }
}

/// The value of the record at a place, if there is one.
pub fn value_at(history: &[Op], place: usize) -> Option<&Value>
    ensures { option_map (λ value. view value.now) result
        ≡ rule.value_at (operations history.now) place }
{
    Some(&op_at(history, place)?.value)
}

/// The place of an operation's outcome, or where there is none that of its invocation. For a
/// register, `op_end` of `jh_linear` puts the end behind all others there.
pub fn end_of(pair: Pair) -> usize
    ensures { result ≡ rule.end_place pair }
{
    pair.outcome.unwrap_or(pair.invoke)
}

/// The integer from 0 on that a value is, and 0 for any other.
fn natural(value: Option<&Value>) -> u64
    ensures value { result ≡ rule.natural (option_map (λ v. view v.now) value.entry) }
    ensures bound { result < 2 ^ 63 }
{
    match value {
        Some(Value::Int(number)) => u64::try_from(*number).unwrap_or(0),
        _ => 0,
    }
}

/// The integer that a value is, and 0 for any other.
fn integer(value: Option<&Value>) -> i64
    ensures { result ≡ rule.integer (option_map (λ v. view v.now) value.entry) }
{
    match value {
        Some(Value::Int(number)) => *number,
        _ => 0,
    }
}

/// The amount of an add.
pub(crate) fn amount(history: &[Op], pair: Pair) -> u64
    ensures value { result ≡ rule.amount (operations history.now) pair }
    ensures bound { result < 2 ^ 63 }
{
    natural(value_at(history, pair.invoke))
}

/// What a read gave.
pub(crate) fn value_read(history: &[Op], pair: Pair) -> i64
    ensures { result ≡ rule.integer (rule.value_at (operations history.now) (rule.end_place pair)) }
{
    integer(value_at(history, end_of(pair)))
}

/// Whether the operation is an add that is known to have happened.
pub(crate) fn is_surely_added(history: &[Op], pair: Pair) -> bool
    ensures { result ≡ rule.is_surely_added (operations history.now) pair }
{
    asks("add", history, pair) && has_ended(Kind::Ok, history, pair)
}

/// Whether the operation is an add that may have happened.
pub(crate) fn may_be_added(history: &[Op], pair: Pair) -> bool
    ensures { result ≡ rule.may_be_added (operations history.now) pair }
{
    asks("add", history, pair) && !has_ended(Kind::Fail, history, pair)
}

/// Whether an operation is a read that happened: its invocation asks for `:read`, and it is
/// completed as `:ok`. A place that the history does not have makes it none.
pub fn is_ok_read(history: &[Op], pair: Pair) -> bool
    ensures { result ≡ rule.is_ok_read (operations history.now) pair }
{
    asks("read", history, pair) && has_ended(Kind::Ok, history, pair)
}

/// What is wrong with the amount of an add at a place.
fn add_error(place: usize, value: Option<&Value>) -> Option<CheckError>
    ensures error { result ≡ rule.add_error place (option_map (λ v. view v.now) value.entry) }
    ensures kind { IfSome result IsValueError }
{
    match value {
        Some(Value::Int(number)) if *number >= 0 => None,
        Some(Value::Int(_)) => Some(CheckError::NegativeAdd(place)),
        _ => Some(CheckError::BadValue(place)),
    }
}

/// What is wrong with what a read gave at a place.
fn read_error(place: usize, value: Option<&Value>) -> Option<CheckError>
    ensures error { result ≡ rule.read_error place (option_map (λ v. view v.now) value.entry) }
    ensures kind { IfSome result IsValueError }
{
    match value {
        Some(Value::Int(_)) => None,
        _ => Some(CheckError::BadValue(place)),
    }
}

/// What is wrong with the values of an operation.
fn value_error(history: &[Op], pair: Pair) -> Option<CheckError>
    ensures error { result ≡ rule.value_error (operations history.now) pair }
    ensures kind { IfSome result IsValueError }
{
    if asks("add", history, pair) {
        add_error(pair.invoke, value_at(history, pair.invoke))
    } else if is_ok_read(history, pair) {
        read_error(end_of(pair), value_at(history, end_of(pair)))
    } else {
        None
    }
}

/// The place of an error of a value, and 0 for any other error.
fn place_of(error: CheckError) -> usize
    ensures { result ≡ rule.place_of_error error }
{
    match error {
        CheckError::BadValue(place) => place,
        CheckError::NegativeAdd(place) => place,
        CheckError::RepeatedAppend(place) => place,
        _ => 0,
    }
}

/// The one of two errors that is at the earlier place, where there is one.
fn earlier(first: Option<CheckError>, next: Option<CheckError>) -> Option<CheckError>
    ensures { result ≡ inside.earlier_error first next }
{
    match (first, next) {
        (None, next) => next,
        (first, None) => first,
        (Some(first), Some(next)) => {
            if place_of(next) < place_of(first) {
                Some(next)
            } else {
                Some(first)
            }
        }
    }
}

/// The first error of the values of operations.
pub(crate) fn first_error(history: &[Op], pairs: &[Pair]) -> Option<CheckError>
    ensures { IsFirstOf result (errors_in (operations history.now) pairs.now) }
{
    let mut first = None;
    for pair in pairs {
        first = earlier(first, value_error(history, *pair));
    }
    first
}
