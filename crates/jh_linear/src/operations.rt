//! The operations in a history of an object that clients share: one for each pair of an invocation
//! and its completion. All are operations of a register: a mutex is one too, which has one number
//! while it is free and another while it is held.
//!
//! `specs/Operations.antt` says which operation each pair stands for, and where a bad value is
//! reported.

ghost use Rattle.std.specs.Prelude.{◌≡◌, All, IfOk, MatchResult, length, slice_get, option_map};
ghost use Rattle.jh_edn.specs.View.{view};
ghost use Rattle.jh_ops.specs.Operation.{operation, operations};
ghost use Rattle.jh_ops.specs.Pairing.{IsPairWithin};
ghost use Rattle.jh_linear.specs.Operations as rule;
ghost use Rattle.jh_linear.specs.CheckingInside as inside;
ghost use Rattle.jh_linear.specs.Operations.{AreRegOps, IsLeastBad, RefusesPairs};
ghost use Rattle.jh_linear.specs.Order.{EndAfterInvoked};
ghost use Rattle.jh_linear.specs.declared.operations.RegOpsError.TheVariants.{OutOfMemory};

use crate::register::{Outcome, RegCall, RegOp};
use jh_edn::Value;
use jh_ops::{Kind, Op, Pair};
use std::alloc::{AllocError, AllocFailed, Global};
use thiserror::Error;

/// What object the operations of a history are of (Herlihy and Wing 1990 call what clients share an
/// object).
#[derive(Clone, Copy, Debug, PartialEq, Eq)]
pub enum Object {
    /// A register with read, write and compare-and-set, as the model `cas-register` of
    /// `knossos.model` has it.
    Register,
    /// A lock that is free or held, whoever holds it, as the model `mutex` of `knossos.model` has
    /// it. It is judged as a register that has `FREE` or `HELD`.
    Mutex,
}

/// The value of a mutex that is free.
pub const FREE: i64 = 0;

/// The value of a mutex that is held.
pub const HELD: i64 = 1;

/// Why a history has no operations of an object.
#[derive(Clone, Copy, Debug, PartialEq, Eq, Error)]
pub enum RegOpsError {
    /// The invocation or completion at this place of the history, from 0, has a value that its
    /// function does not take, or a function that the object does not have.
    #[error("operation {0}: bad value")]
    BadValue(usize),
    #[error("out of memory")]
    OutOfMemory,
}

impl From<AllocError> for RegOpsError {
    ghost from_gives = { λ _ e. e ≡ OutOfMemory };

    fn from(_error: AllocError) -> RegOpsError {
        RegOpsError::OutOfMemory
    }
}

impl<T: Drop> From<AllocFailed<T>> for RegOpsError {
    ghost from_gives = { λ _ e. e ≡ OutOfMemory };

    fn from(_error: AllocFailed<T>) -> RegOpsError {
        RegOpsError::OutOfMemory
    }
}

/// The operations of an object that pairs stand for, one each, in the order of the pairs: those
/// that `jh_ops::pair` gives for the history. Only what clients did is in pairs.
///
/// The function of an operation is that of its invocation. An operation that completed `:ok`
/// happened, and one that completed `:fail` did not. Of one that completed `:info`, or has no
/// completion, it is not known. An operation ended at the place of its completion, whatever that
/// was.
///
/// Of a register, a `:read` has the value of its `:ok` completion, which is an integer or nil. A
/// `:read` that did not complete `:ok` has nil. A `:write` has the integer that it was invoked
/// with, and a `:cas` the two integers `[old new]`, in a vector or a list.
///
/// Of a mutex, `:acquire` is the compare-and-set from `FREE` to `HELD`, and `:release` that from
/// `HELD` to `FREE`. Values are not looked at. A mutex that is free at first is judged from the
/// initial value `Some(FREE)`, and one that is held at first from `Some(HELD)`.
///
/// The operations meet the condition of `check` and `check_order`.
///
/// Errors: `BadValue` at the least place of a bad value. That of a `:read` of a register is
/// reported at its completion, that of any other operation at its invocation, and so is a function
/// that the object does not have. `OutOfMemory` only where no value is bad.
///
/// Takes time linear in the pairs.
pub fn reg_ops(
    alloc: Global,
    object: Object,
    history: &[Op],
    pairs: &[Pair],
) -> Result<Vec<RegOp>, RegOpsError>
    requires within { All (IsPairWithin (length history.now)) pairs.now }
    ensures parsed { MatchResult result
        (λ ops. AreRegOps object (operations history.now) pairs.now ops.items)
        (RefusesPairs object (operations history.now) pairs.now) }
    ensures ends { IfOk result (λ ops. EndAfterInvoked ops.items) }
{
    if let Some(place) = least_bad(object, history, pairs) {
        return Err(RegOpsError::BadValue(place));
    }
    let mut ops = Vec::with_capacity(alloc, pairs.len())?;
    for pair in pairs {
        if let Some(op) = reg_op(object, history, *pair) {
            ops.push(op)?;
        }
    }
    Ok(ops)
}

// Each of these functions computes the definition of nearly the same name in specs/Operations.antt.

/// The invocation or completion at a place of the history, if there is one.
fn record_at(history: &[Op], place: usize) -> Option<&Op>
    ensures { option_map (λ found. operation found.now) result
        ≡ slice_get (operations history.now) place }
{
    history.get(place)
}

/// The read that answered this value, which has to be an integer or nil.
fn read_of(value: &Value) -> Option<RegCall>
    ensures { result ≡ rule.read_of (view value.now) }
{
    match value {
        Value::Nil => Some(RegCall::Read(None)),
        Value::Int(seen) => Some(RegCall::Read(Some(*seen))),
        _ => None,
    }
}

/// The write of a value, which has to be an integer.
fn write_of(value: &Value) -> Option<RegCall>
    ensures { result ≡ rule.write_of (view value.now) }
{
    let new = value.as_integer()?;
    Some(RegCall::Write(new))
}

/// The compare-and-set of a value, which has to be two integers in a vector or a list.
fn cas_of(value: &Value) -> Option<RegCall>
    ensures { result ≡ rule.cas_of (view value.now) }
{
    match value.elements()? {
        [Value::Int(old), Value::Int(new)] => Some(RegCall::Cas(*old, *new)),
        _ => None,
    }
}

/// What an invocation asks of a register. The value of a read is its answer, and not that of its
/// invocation.
fn register_call_of(invocation: &Op, answer: Option<&Value>) -> Option<RegCall>
    ensures { result
        ≡ rule.register_call_of (view invocation.now.f) (view invocation.now.value)
        (option_map (λ v. view v.now) answer.entry) }
{
    if invocation.f.is_keyword("read") {
        match answer {
            Some(value) => read_of(value),
            None => Some(RegCall::Read(None)),
        }
    } else if invocation.f.is_keyword("write") {
        write_of(&invocation.value)
    } else if invocation.f.is_keyword("cas") {
        cas_of(&invocation.value)
    } else {
        None
    }
}

/// What an invocation asks of a mutex, by its function alone.
fn mutex_call_of(invocation: &Op) -> Option<RegCall>
    ensures { result ≡ rule.mutex_call_of (view invocation.now.f) }
{
    if invocation.f.is_keyword("acquire") {
        Some(RegCall::Cas(FREE, HELD))
    } else if invocation.f.is_keyword("release") {
        Some(RegCall::Cas(HELD, FREE))
    } else {
        None
    }
}

/// What an invocation asks of the object.
fn call_of(object: Object, invocation: &Op, answer: Option<&Value>) -> Option<RegCall>
    ensures { result
        ≡ rule.reg_call_of object (view invocation.now.f) (view invocation.now.value)
        (option_map (λ v. view v.now) answer.entry) }
{
    match object {
        Object::Register => register_call_of(invocation, answer),
        Object::Mutex => mutex_call_of(invocation),
    }
}

/// The completion of a pair, if it has one.
fn completion_of(history: &[Op], pair: Pair) -> Option<&Op>
    ensures { option_map (λ found. operation found.now) result
        ≡ rule.completion_of (operations history.now) pair }
{
    let place = pair.outcome?;
    record_at(history, place)
}

/// How an operation with this completion ended. One without a completion may have happened.
fn outcome_of(completion: Option<&Op>) -> Outcome
    ensures { result ≡ rule.outcome_of (option_map (λ found. found.now.kind) completion.entry) }
{
    let Some(found) = completion else {
        return Outcome::Unsure;
    };
    match found.kind {
        Kind::Ok => Outcome::Done,
        Kind::Fail => Outcome::Failed,
        _ => Outcome::Unsure,
    }
}

/// The value of a completion, where that is `:ok`.
fn answer_of(completion: Option<&Op>) -> Option<&Value>
    ensures { option_map (λ v. view v.now) result
        ≡ rule.answered_value (option_map (λ found. operation found.now) completion.entry) }
{
    let found = completion?;
    match found.kind {
        Kind::Ok => Some(&found.value),
        _ => None,
    }
}

/// The operation of an object that a pair of the history stands for, as `reg_ops` gives them. None
/// where its function or its value is one that `reg_ops` refuses, or where the history has no such
/// invocation.
pub fn reg_op(object: Object, history: &[Op], pair: Pair) -> Option<RegOp>
    ensures { result ≡ rule.reg_op_of object (operations history.now) pair }
{
    let invocation = record_at(history, pair.invoke)?;
    let completion = completion_of(history, pair);
    let call = call_of(object, invocation, answer_of(completion))?;
    Some(RegOp {
        invoked: pair.invoke,
        ended: pair.outcome,
        outcome: outcome_of(completion),
        call,
    })
}

/// Whether a read is invoked at a place.
fn is_read_at(history: &[Op], place: usize) -> bool
    ensures { result ≡ rule.is_read_at (operations history.now) place }
{
    match record_at(history, place) {
        Some(found) => found.f.is_keyword("read"),
        None => false,
    }
}

/// The place at which a bad value of a pair would be reported, of a register.
fn register_place(history: &[Op], pair: Pair) -> usize
    ensures { result ≡ rule.register_place (operations history.now) pair }
{
    if is_read_at(history, pair.invoke) {
        pair.outcome.unwrap_or(pair.invoke)
    } else {
        pair.invoke
    }
}

/// The place at which a bad value of a pair would be reported.
fn place_of_value(object: Object, history: &[Op], pair: Pair) -> usize
    ensures { result ≡ rule.place_of_value object (operations history.now) pair }
{
    match object {
        Object::Register => register_place(history, pair),
        Object::Mutex => pair.invoke,
    }
}

/// The place at which a bad value of a pair is reported, if it has one.
fn bad_place(object: Object, history: &[Op], pair: Pair) -> Option<usize>
    ensures { result ≡ rule.bad_place object (operations history.now) pair }
{
    if reg_op(object, history, pair).is_some() {
        return None;
    }
    Some(place_of_value(object, history, pair))
}

/// The lesser of two places, of which one or both may be missing.
fn lesser(first: Option<usize>, second: Option<usize>) -> Option<usize>
    ensures { result ≡ inside.lesser_place first second }
{
    match (first, second) {
        (Some(one), Some(other)) => Some(one.min(other)),
        (None, other) => other,
        (one, None) => one,
    }
}

/// The least place at which a bad value of the pairs is reported, if there is one.
fn least_bad(object: Object, history: &[Op], pairs: &[Pair]) -> Option<usize>
    ensures { IsLeastBad object (operations history.now) pairs.now result }
{
    let mut least = None;
    for pair in pairs {
        least = lesser(least, bad_place(object, history, *pair));
    }
    least
}
