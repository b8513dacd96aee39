//! What goes into a queue and comes out of it. `specs/Queue.antt` has the rule.

ghost use Rattle.std.specs.Prelude.{◌≡◌, [], ◌++◌, IfOk, IsPermutation, OnOk, if◌then◌else◌, None};
ghost use Rattle.std.specs.List.{cons_option};
ghost use Rattle.jh_edn.specs.View.{view};
ghost use Rattle.jh_ops.specs.Operation.{operations};
ghost use Rattle.jh_queue.specs.Queue as rule;
ghost use Rattle.jh_queue.specs.QueueInside.{ArePassagesInOrder, cmp_to, passage, passage_cmp};
ghost use Rattle.jh_queue.specs.QueueInside.{passages};

use jh_check::{asks, end_of, has_ended, value_at};
use jh_edn::Value;
use jh_ops::{Kind, Op, Pair};
use std::alloc::{AllocError, Global};
use std::cmp::Ordering;

/// A passage: a value that goes in or comes out, in normal form, and where in the history.
#[derive(Debug, Drop)]
pub(crate) struct ValueAt {
    pub(crate) value: Value,
    pub(crate) place: usize,
}

/// Whether the operation is an enqueue that may have happened.
fn may_be_enqueued(history: &[Op], pair: Pair) -> bool
    ensures { result ≡ rule.may_be_enqueued (operations history.now) pair }
{
    asks("enqueue", history, pair) && !has_ended(Kind::Fail, history, pair)
}

/// Whether the operation is a dequeue that happened.
fn is_ok_dequeue(history: &[Op], pair: Pair) -> bool
    ensures { result ≡ rule.is_ok_dequeue (operations history.now) pair }
{
    asks("dequeue", history, pair) && has_ended(Kind::Ok, history, pair)
}

/// Puts the passage of the value at a place last, if it is wanted.
fn push_passage(
    alloc: Global,
    history: &[Op],
    place: usize,
    wanted: bool,
    held: &mut Vec<ValueAt>,
) -> Result<(), AllocError>
    ensures { OnOk result (passages held.new.items ≡ passages held.old.items
        ++ cons_option
        (if wanted then rule.passage_at (operations history.now) place else None) []) }
{
    if !wanted {
        return Ok(());
    }
    let Some(value) = value_at(history, place) else {
        return Ok(());
    };
    let value = value.normal(alloc)?;
    held.push(ValueAt { value, place })?;
    Ok(())
}

/// What enqueues put in, in the order of invocations.
pub(crate) fn enqueues(
    alloc: Global,
    history: &[Op],
    pairs: &[Pair],
) -> Result<Vec<ValueAt>, AllocError>
    ensures { IfOk result
        (λ held. passages held.items ≡ rule.passages_in (operations history.now) pairs.now) }
{
    let mut held = Vec::new(alloc);
    for pair in pairs {
        let wanted = may_be_enqueued(history, *pair);
        push_passage(alloc, history, pair.invoke, wanted, &mut held)?;
    }
    Ok(held)
}

/// What dequeues take out, in the order of invocations.
pub(crate) fn dequeues(
    alloc: Global,
    history: &[Op],
    pairs: &[Pair],
) -> Result<Vec<ValueAt>, AllocError>
    ensures { IfOk result
        (λ held. passages held.items ≡ rule.passages_out (operations history.now) pairs.now) }
{
    let mut held = Vec::new(alloc);
    for pair in pairs {
        let wanted = is_ok_dequeue(history, *pair);
        push_passage(alloc, history, end_of(*pair), wanted, &mut held)?;
    }
    Ok(held)
}

/// How a passage compares to a value and a place.
fn compare_to(held: &ValueAt, value: &Value, place: usize) -> Ordering
    ensures { result ≡ cmp_to (view value.now) place (passage held.now) }
{
    let values = held.value.compare(value);
    if values != Ordering::Equal {
        return values;
    }
    held.place.cmp(&place)
}

/// How two passages compare.
fn compare_passages(a: &ValueAt, b: &ValueAt) -> Ordering
    ensures { result ≡ passage_cmp (passage a.now) (passage b.now) }
{
    compare_to(a, &b.value, b.place)
}

/// The passages by value, and those of one value by place.
pub(crate) fn in_passage_order(held: Vec<ValueAt>) -> Result<Vec<ValueAt>, AllocError>
    ensures permutation { IfOk result (λ sorted. IsPermutation held.items sorted.items) }
    ensures order { IfOk result (λ sorted. ArePassagesInOrder sorted.items) }
{
    let mut held = held;
    held.sort_by(compare_passages)?;
    Ok(held)
}

/// How many of the enqueues are of this value, and were invoked before a place.
///
/// Takes O(log n) comparisons for n enqueues.
fn enqueues_before(ins: &[ValueAt], value: &Value, place: usize) -> usize
    requires { ArePassagesInOrder ins.now }
    ensures { result ≡ rule.enqueues_before (passages ins.now) (view value.now) place }
{
    let begin = ins.partition_point(|other| other.value.compare(value).is_lt());
    let end = ins.partition_point(|other| compare_to(other, value, place).is_lt());
    end.saturating_sub(begin)
}

/// How many of the dequeues are of this value, and completed at a place or before it.
///
/// Takes O(log n) comparisons for n dequeues.
fn dequeues_upto(outs: &[ValueAt], value: &Value, place: usize) -> usize
    requires { ArePassagesInOrder outs.now }
    ensures { result ≡ rule.dequeues_upto (passages outs.now) (view value.now) place }
{
    let begin = outs.partition_point(|other| other.value.compare(value).is_lt());
    let end = outs.partition_point(|other| compare_to(other, value, place).is_le());
    end.saturating_sub(begin)
}

/// Whether a dequeue finds no enqueue.
///
/// Takes O(log n) comparisons for n passages.
pub(crate) fn finds_none(ins: &[ValueAt], outs: &[ValueAt], out: &ValueAt) -> bool
    requires ins { ArePassagesInOrder ins.now }
    requires outs { ArePassagesInOrder outs.now }
    ensures { result ≡ rule.finds_none (passages ins.now) (passages outs.now) (passage out.now) }
{
    enqueues_before(ins, &out.value, out.place) < dequeues_upto(outs, &out.value, out.place)
}
