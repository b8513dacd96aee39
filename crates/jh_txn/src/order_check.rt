//! A given serial order, checked in linear time.
//!
//! `specs/SerialOrders.antt` says what a serial order is, part by part. How a part is looked at may
//! be changed; each part has a function with its exact clause.

ghost use Rattle.std.specs.Prelude.{◌≡◌, ◌<◌, ◌↔◌, ℕ, true, false, length, IsTrue, IfOk};
ghost use Rattle.std.specs.Prelude.{MatchOption, slice_index_or};
ghost use Rattle.std.specs.List.{All};
ghost use Rattle.jh_txn.specs.OrderCheckInside.{IsNoneTooLate, AreMarks};
ghost use Rattle.jh_txn.specs.RealTime.{IsDoneBefore};
ghost use Rattle.jh_txn.specs.RealTime as time;
ghost use Rattle.jh_txn.specs.SerialOrders.{IsSerialOrderFor};
ghost use Rattle.jh_txn.specs.Transactions.{IsPossibleAt, IsDoneAt, HasNoRepeat, AreKeysBelow};
ghost use Rattle.jh_txn.specs.Transactions.{IsKeyBelow};
ghost use Rattle.jh_txn.specs.Transactions as rule;

use crate::reads::explains_reads;
use crate::txn::{MicroOp, Outcome, Txn};
use std::alloc::{AllocError, Global};

/// Whether these places are a serial order of the transactions, which keeps real time where that is
/// asked for. All keys are below `keys` (`are_keys_below`).
///
/// Errors: where there is no memory for the lists.
///
/// Takes time linear in the number of keys, the micro-operations, and the elements that reads saw,
/// and memory for a list for each key.
pub fn check_order(
    alloc: Global,
    txns: &[Txn],
    keys: usize,
    real_time: bool,
    order: &[usize],
) -> Result<bool, AllocError>
    requires keys { AreKeysBelow keys txns.now }
    ensures { IfOk result (λ yes. IsTrue yes ↔ IsSerialOrderFor txns.now real_time order.now) }
{
    if !are_possible(txns, order) {
        return Ok(false);
    }
    match marked(alloc, txns.len(), order)? {
        None => Ok(false),
        Some(marks) => {
            if !has_all_done(txns, &marks) {
                return Ok(false);
            }
            if !keeps_time(txns, real_time, order) {
                return Ok(false);
            }
            explains_reads(alloc, txns, keys, order)
        }
    }
}

/// Whether all keys of the transactions are below a number.
pub fn are_keys_below(txns: &[Txn], keys: usize) -> bool
    ensures { IsTrue result ↔ AreKeysBelow keys txns.now }
{
    txns.iter().all(|txn| has_keys_below(txn, keys))
}

/// Whether all keys of a transaction are below a number.
fn has_keys_below(txn: &Txn, keys: usize) -> bool
    ensures { IsTrue result ↔ All (IsKeyBelow keys) txn.now.ops }
{
    txn.ops.as_slice().iter().all(|op| is_key_below(op, keys))
}

/// Whether the key of a micro-operation is below a number.
fn is_key_below(op: &MicroOp, keys: usize) -> bool
    ensures { IsTrue result ↔ IsKeyBelow keys op.now }
{
    match op {
        MicroOp::Append { key, .. } => *key < keys,
        MicroOp::Read { key, .. } => *key < keys,
    }
}

/// How the transaction at a place ended; past the end, as one that failed.
fn outcome_at(txns: &[Txn], place: usize) -> Outcome
    ensures { result ≡ rule.outcome_at txns.now place }
{
    match txns.get(place) {
        Some(txn) => txn.outcome,
        None => Outcome::Failed,
    }
}

/// Whether the transaction at a place did not fail.
pub(crate) fn is_possible(txns: &[Txn], place: usize) -> bool
    ensures { IsTrue result ↔ IsPossibleAt txns.now place }
{
    match outcome_at(txns, place) {
        Outcome::Failed => false,
        _ => true,
    }
}

/// Whether none of these transactions failed.
fn are_possible(txns: &[Txn], order: &[usize]) -> bool
    ensures { IsTrue result ↔ All (IsPossibleAt txns.now) order.now }
{
    order.iter().all(|place| is_possible(txns, *place))
}

/// Whether the transaction at a place is done.
pub(crate) fn is_done(txns: &[Txn], place: usize) -> bool
    ensures { IsTrue result ↔ IsDoneAt txns.now place }
{
    match outcome_at(txns, place) {
        Outcome::Done => true,
        _ => false,
    }
}

/// Which of the places below a number stand in an order, or none where a place stands there twice.
fn marked(alloc: Global, count: usize, order: &[usize]) -> Result<Option<Vec<bool>>, AllocError>
    requires { All (λ place. place < count) order.now }
    ensures { IfOk result (λ found. MatchOption found (¬ HasNoRepeat order.now)
        (λ marks. HasNoRepeat order.now × AreMarks count order.now marks.items)) }
{
    let mut marks = vec![in alloc; false; count]?;
    for place in order {
        if marks[*place] {
            return Ok(None);
        }
        marks[*place] = true;
    }
    Ok(Some(marks))
}

/// Whether each transaction that is done is marked.
fn has_all_done(txns: &[Txn], marks: &[bool]) -> bool
    requires { length marks.now ≡ length txns.now }
    ensures { IsTrue result ↔ ((place : ℕ) → IsDoneAt txns.now place
        → slice_index_or marks.now place false ≡ true) }
{
    for place in 0..txns.len() {
        if is_done(txns, place) && !marks[place] {
            return false;
        }
    }
    true
}

/// Whether the transaction at a place is done, and was completed before this index.
pub(crate) fn is_done_before(txns: &[Txn], place: usize, index: usize) -> bool
    ensures { IsTrue result ↔ IsDoneBefore txns.now place index }
{
    match txns.get(place) {
        Some(txn) => match (txn.outcome, txn.completed) {
            (Outcome::Done, Some(completed)) => completed < index,
            _ => false,
        },
        None => false,
    }
}

/// The index at which the transaction at a place was invoked.
pub(crate) fn invoked_at(txns: &[Txn], place: usize) -> usize
    ensures { result ≡ time.invoked_at txns.now place }
{
    match txns.get(place) {
        Some(txn) => txn.invoked,
        None => 0,
    }
}

/// Whether none was done before itself, or one in front of it, was invoked, where that is asked
/// for.
fn keeps_time(txns: &[Txn], real_time: bool, order: &[usize]) -> bool
    ensures { IsTrue result ↔ (real_time ≡ true → IsNoneTooLate txns.now order.now) }
{
    !real_time || none_late(txns, order)
}

/// Whether none was done before itself, or one in front of it, was invoked. It is enough to know
/// the latest invocation so far.
fn none_late(txns: &[Txn], order: &[usize]) -> bool
    ensures { IsTrue result ↔ IsNoneTooLate txns.now order.now }
{
    let mut latest: usize = 0;
    for place in order {
        latest = latest.max(invoked_at(txns, *place));
        if is_done_before(txns, *place, latest) {
            return false;
        }
    }
    true
}
