//! The counter checker. `specs/CounterResults.antt` has the rule.

ghost use Rattle.std.specs.Prelude.{◌≡◌, ℕ, ◌^◌, ◌<◌, length, slice_index, not, filter, map, All};
ghost use Rattle.std.specs.Prelude.{IfOk, MatchResult};
ghost use Rattle.std.specs.Ordering.{is_lt};
ghost use Rattle.jh_ops.specs.Operation.{operations};
ghost use Rattle.jh_ops.specs.Pairing.{IsPairWithin};
ghost use Rattle.jh_check.specs.CounterInside.{bounds_at};
ghost use Rattle.jh_check.specs.CounterResults as rule;
ghost use Rattle.jh_check.specs.CounterResults.{IsCountable, RefusesCounter, counter_result};
ghost use Rattle.jh_check.specs.CounterResults.{ends_before, reads_in};
ghost use Rattle.jh_check.specs.CounterResults.{result_of};

use crate::error::CheckError;
use crate::pairs::{end_of, first_error, is_ok_read, value_read};
use crate::totals::{Bound, bounds};
use crate::verdict::{Verdict, verdict_of};
use jh_ops::{Op, Pair, pair};
use std::alloc::{AllocError, Global};
use std::cmp::Ordering;
use std::marker::Model;

/// A read of a counter, with what it may have given.
#[derive(Clone, Copy, Debug)]
pub struct ReadBounds {
    /// The sum of the amounts that were surely added before the read was invoked.
    pub lower: i128,
    /// What it gave.
    pub value: i64,
    /// The sum of the amounts that may have been added before it completed.
    pub upper: i128,
}

/// Reads in order. A contract sees a list.
#[derive(Debug, Drop)]
pub struct Reads {
    items: Vec<ReadBounds>,
}

impl Model for Reads {
    ghost use Rattle.std.specs.Prelude.{List};
    ghost use Rattle.jh_check.specs.declared.counter.ReadBounds.{ReadBounds};

    ghost Value = { List ReadBounds };

    ghost view = { λ a. a.items.items };
}

impl Reads {
    /// The reads of a vector. Takes no memory.
    pub fn of(items: Vec<ReadBounds>) -> Reads
        ensures { result ≡ items.items }
    {
        Reads { items }
    }

    /// The reads in order.
    pub fn as_slice(&self) -> &[ReadBounds]
        ensures { result.now ≡ self.now }
    {
        &self.items
    }

    /// The vector, given back without memory.
    pub fn into_vec(self) -> Vec<ReadBounds>
        ensures { result.items ≡ self }
    {
        let Reads { items } = self;
        items
    }
}

/// What the counter checker says of a history.
#[derive(Debug, Drop)]
pub struct CounterResult {
    /// `True` where each read lies within its bounds, else `False`.
    pub verdict: Verdict,
    /// The reads that happened, in the order of their completions.
    pub reads: Reads,
    /// Those that lie outside their bounds.
    pub errors: Reads,
}

/// How two operations compare by the places of their ends.
fn compare_ends(a: &Pair, b: &Pair) -> Ordering
    ensures { is_lt result ≡ ends_before a.now b.now }
{
    end_of(*a).cmp(&end_of(*b))
}

/// The reads that happened, in the order of their completions.
fn sorted_reads(alloc: Global, history: &[Op], pairs: &[Pair]) -> Result<Vec<Pair>, AllocError>
    ensures reads { IfOk result
        (λ reads. reads.items ≡ reads_in (operations history.now) pairs.now) }
    ensures within { All (IsPairWithin (length history.now)) pairs.now
        → IfOk result (λ reads. All (IsPairWithin (length history.now)) reads.items) }
{
    let mut reads = Vec::new(alloc);
    for pair in pairs {
        if is_ok_read(history, *pair) {
            reads.push(*pair)?;
        }
    }
    reads.sort_by(compare_ends)?;
    Ok(reads)
}

/// Where those of these operations of a history end that are reads which happened, in order: where
/// these are the operations that `check_counter` judges, in the order of the reads of its result.
///
/// Errors: out of memory.
///
/// Takes O(n log n) for n operations.
pub fn read_ends(alloc: Global, history: &[Op], pairs: &[Pair]) -> Result<Vec<usize>, AllocError>
    ensures { IfOk result
        (λ ends. ends.items ≡ rule.read_ends (operations history.now) pairs.now) }
{
    let reads = sorted_reads(alloc, history, pairs)?;
    let mut ends = Vec::new(alloc);
    for read in &reads {
        ends.push(end_of(*read))?;
    }
    Ok(ends)
}

/// A read with its bounds, by what these are at each place.
fn bounds_at(history: &[Op], read: Pair, lower: &[u128], upper: &[u128]) -> ReadBounds
    requires invoke { read.invoke < length lower.now }
    requires end { rule.end_place read < length lower.now }
    requires alike { length upper.now ≡ length lower.now }
    requires lower_fits { (place : ℕ) → slice_index lower.now place < 2 ^ 127 }
    requires upper_fits { (place : ℕ) → slice_index upper.now place < 2 ^ 127 }
    ensures { result ≡ bounds_at (operations history.now) read lower.now upper.now }
{
    ReadBounds {
        lower: lower[read.invoke] as i128,
        value: value_read(history, read),
        upper: upper[end_of(read)] as i128,
    }
}

/// The reads that happened with their bounds, in the order of their completions.
fn bounded_reads(
    alloc: Global,
    history: &[Op],
    pairs: &[Pair],
) -> Result<Vec<ReadBounds>, AllocError>
    requires { All (IsPairWithin (length history.now)) pairs.now }
    ensures { IfOk result (λ bounded. bounded.items
        ≡ map (rule.bounds_of (operations history.now) pairs.now)
        (reads_in (operations history.now) pairs.now)) }
{
    let lower = bounds(alloc, Bound::Lower, history, pairs)?;
    let upper = bounds(alloc, Bound::Upper, history, pairs)?;
    let reads = sorted_reads(alloc, history, pairs)?;
    let mut bounded = Vec::new(alloc);
    for read in &reads {
        bounded.push(bounds_at(history, *read, &lower, &upper))?;
    }
    Ok(bounded)
}

/// Whether a read gave a value within its bounds.
pub fn is_within(read: ReadBounds) -> bool
    ensures { result ≡ rule.is_in_bounds read }
{
    let value = i128::from(read.value);
    read.lower <= value && value <= read.upper
}

/// The reads that lie outside their bounds.
fn errors_of(alloc: Global, reads: &[ReadBounds]) -> Result<Vec<ReadBounds>, AllocError>
    ensures { IfOk result
        (λ errors. errors.items ≡ filter (λ read. not (rule.is_in_bounds read)) reads.now) }
{
    let mut errors = Vec::new(alloc);
    for read in reads {
        if !is_within(*read) {
            errors.push(*read)?;
        }
    }
    Ok(errors)
}

/// What the counter checker says of a history with these operations.
fn judged(alloc: Global, history: &[Op], pairs: &[Pair]) -> Result<CounterResult, AllocError>
    requires { All (IsPairWithin (length history.now)) pairs.now }
    ensures { IfOk result (λ found. found ≡ result_of (operations history.now) pairs.now) }
{
    let reads = bounded_reads(alloc, history, pairs)?;
    let errors = errors_of(alloc, &reads)?;
    Ok(CounterResult {
        verdict: verdict_of(errors.is_empty()),
        reads: Reads::of(reads),
        errors: Reads::of(errors),
    })
}

/// Judges the history of a counter from zero, whose clients `:add` amounts and `:read` it (Jepsen's
/// checker `counter`).
///
/// Operations of the nemesis are left out. A read that is `:ok` lies between two sums, both
/// included: of the amounts of the adds that were `:ok` before it was invoked, and of those of the
/// adds that were invoked before it completed and do not fail, also where they fail later. An add's
/// amount is the value of its invocation, from 0 on.
///
/// Errors: `Pair` where the operations do not pair; then, at the least place, `BadValue` for the
/// invocation of an add or the completion of an `:ok` read whose value is not an integer, and
/// `NegativeAdd` for the invocation of an add below zero; then `OutOfMemory`.
///
/// Takes O(n log n) for n operations, whatever the number of adds and reads.
pub fn check_counter(alloc: Global, history: &[Op]) -> Result<CounterResult, CheckError>
    ensures { MatchResult result
        (λ found. IsCountable (operations history.now)
        × (found ≡ counter_result (operations history.now)))
        (RefusesCounter (operations history.now)) }
{
    let pairs = pair(alloc, history)?;
    if let Some(error) = first_error(history, &pairs) {
        return Err(error);
    }
    Ok(judged(alloc, history, &pairs)?)
}
