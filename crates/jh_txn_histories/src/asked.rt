//! What the pairs of a history ask for, and whether they were answered. `specs/Histories.antt` says what each of these
//! means, under the same name.

ghost use Rattle.std.specs.Prelude.{◌≡◌, IfOk, option_map, slice_get};
ghost use Rattle.jh_edn.specs.View.{view};
ghost use Rattle.jh_ops.specs.Operation.{operation, operations};
ghost use Rattle.jh_txn_histories.specs.Histories as rule;
ghost use Rattle.jh_txn_histories.specs.ReadingInside.{written_ops};

use crate::written::{Stage, WrittenOp, answers, micro_ops_of};
use jh_edn::Value;
use jh_ops::{Kind, Op, Pair};
use jh_txn::Outcome;
use std::alloc::{AllocError, Global};

/// The operation at a place, if there is one.
fn record_at(history: &[Op], place: usize) -> Option<&Op>
    ensures { option_map (λ op. operation op.now) result ≡ slice_get (operations history.now) place }
{
    history.get(place)
}

/// Whether a transaction is invoked at a place.
fn is_txn_at(history: &[Op], place: usize) -> bool
    ensures { result ≡ rule.is_txn_at (operations history.now) place }
{
    match record_at(history, place) {
        Some(op) => op.f.is_keyword("txn"),
        None => false,
    }
}

/// The micro-operations that an invocation asks for.
fn asked_by(alloc: Global, op: &Op) -> Result<Option<Vec<WrittenOp<'_>>>, AllocError>
    ensures { IfOk result (λ asked. option_map (λ ops. written_ops ops.items) asked
        ≡ rule.asked_by (operation op.now)) }
{
    if op.f.is_keyword("txn") {
        micro_ops_of(alloc, Stage::Asked, &op.value)
    } else {
        Ok(Some(Vec::new(alloc)))
    }
}

/// The micro-operations that a pair was invoked with.
pub(crate) fn txn_asked(
    alloc: Global,
    history: &[Op],
    pair: Pair,
) -> Result<Option<Vec<WrittenOp<'_>>>, AllocError>
    ensures { IfOk result (λ asked. option_map (λ ops. written_ops ops.items) asked
        ≡ rule.txn_asked (operations history.now) pair) }
{
    match record_at(history, pair.invoke) {
        Some(op) => asked_by(alloc, op),
        None => Ok(None),
    }
}

/// The completion of a pair, if it has one.
fn pair_completion(history: &[Op], pair: Pair) -> Option<&Op>
    ensures { option_map (λ op. operation op.now) result
        ≡ rule.pair_completion (operations history.now) pair }
{
    record_at(history, pair.outcome?)
}

/// The value of the completion of a transaction, where that is `:ok`.
fn txn_answer(history: &[Op], pair: Pair) -> Option<&Value>
    ensures { option_map (λ value. view value.now) result
        ≡ rule.txn_answer (operations history.now) pair }
{
    if !is_txn_at(history, pair.invoke) {
        return None;
    }
    let op = pair_completion(history, pair)?;
    match op.kind {
        Kind::Ok => Some(&op.value),
        _ => None,
    }
}

/// The micro-operations of a pair: as they were answered, else as they were asked for.
pub(crate) fn txn_said(
    alloc: Global,
    history: &[Op],
    pair: Pair,
) -> Result<Option<Vec<WrittenOp<'_>>>, AllocError>
    ensures { IfOk result (λ said. option_map (λ ops. written_ops ops.items) said
        ≡ rule.txn_said (operations history.now) pair) }
{
    match txn_answer(history, pair) {
        Some(value) => micro_ops_of(alloc, Stage::Answered, value),
        None => txn_asked(alloc, history, pair),
    }
}

/// How the transaction of a pair ended.
pub(crate) fn txn_outcome(history: &[Op], pair: Pair) -> Outcome
    ensures { result ≡ rule.txn_outcome (operations history.now) pair }
{
    if !is_txn_at(history, pair.invoke) {
        return Outcome::Failed;
    }
    match pair_completion(history, pair) {
        Some(op) => match op.kind {
            Kind::Ok => Outcome::Done,
            Kind::Fail => Outcome::Failed,
            _ => Outcome::Unsure,
        },
        None => Outcome::Unsure,
    }
}

/// The place of the bad value of a pair, if it has one.
pub(crate) fn bad_value_place(
    alloc: Global,
    history: &[Op],
    pair: Pair,
) -> Result<Option<usize>, AllocError>
    ensures { IfOk result (λ place. place ≡ rule.bad_value_place (operations history.now) pair) }
{
    let Some(asked) = txn_asked(alloc, history, pair)? else {
        return Ok(Some(pair.invoke));
    };
    let Some(answer) = txn_answer(history, pair) else {
        return Ok(None);
    };
    if answers(alloc, &asked, answer)? {
        Ok(None)
    } else {
        Ok(pair.outcome)
    }
}
