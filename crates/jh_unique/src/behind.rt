//! What must stand behind each value: its reads, by their invocations, and the compare-and-set from
//! it.

ghost use Rattle.std.specs.Prelude.{◌≡◌, ◌≢◌, ◌<◌, ◌∷◌, ◌++◌, [], ℕ, ℤ, Some, IfOk, OnOk, MatchOption, length};
ghost use Rattle.jh_unique.specs.Sorted.{IsTurnOfOps};
ghost use Rattle.jh_unique.specs.Steps.{AreStandingMarks, IsNextFrom, IsNextOf, IsReadOf};
ghost use Rattle.jh_linear.specs.declared.register.RegCall.TheVariants.{Cas};
ghost use Rattle.jh_unique.specs.Tables.{AreNextsOf, KnowsOps, IsReadTable, reads_under};
ghost use Rattle.jh_unique.specs.Walk.{AreReads};

use crate::calls::{Held, op_at};
use crate::tables::{found, put};
use jh_linear::{RegCall, RegOp};
use std::alloc::{AllocError, Global};
use std::collections::BTreeMap;

/// The compare-and-set from each value, or two from one.
#[derive(Drop)]
pub(crate) enum Nexts {
    Once(BTreeMap<i64, usize>),
    Twice(usize, usize),
}

/// What must stand, and what of that stands behind each value.
#[derive(Drop)]
pub(crate) struct Known {
    pub(crate) there: Vec<bool>,
    pub(crate) reads: BTreeMap<i64, Vec<usize>>,
    pub(crate) nexts: BTreeMap<i64, usize>,
}

/// A compare-and-set, and what it writes.
#[derive(Clone, Copy)]
pub(crate) struct Next {
    pub(crate) number: usize,
    pub(crate) new: Held,
}

/// The value that an operation reads, where it must stand.
fn read_at(ops: &[RegOp], there: &[bool], number: usize) -> Option<Held>
    requires marks { AreStandingMarks ops.now there.now }
    requires number { number < length ops.now }
    ensures { MatchOption result ((value : ℤ) → IsReadOf ops.now value number → ⊥)
        (λ held. IsReadOf ops.now held.int number) }
{
    if !there[number] {
        return None;
    }
    match ops[number].call {
        RegCall::Read(Some(int)) => Some(Held { int }),
        _ => None,
    }
}

/// Puts a read behind the other reads of its value.
fn add_read(
    alloc: Global,
    reads: &mut BTreeMap<i64, Vec<usize>>,
    value: Held,
    number: usize,
) -> Result<(), AllocError>
    ensures this { OnOk result
        (reads_under reads.new value.int ≡ reads_under reads.old value.int ++ number ∷ []) }
    ensures others { OnOk result ((other : ℤ) → other ≢ value.int
        → reads_under reads.new other ≡ reads_under reads.old other) }
{
    let mut list = match reads.remove(&value.int) {
        Some(list) => list,
        None => Vec::new(alloc),
    };
    list.push(number)?;
    reads.insert(value.int, list)?;
    Ok(())
}

/// The reads of each value.
pub(crate) fn reads_by_value(
    alloc: Global,
    ops: &[RegOp],
    there: &[bool],
    turn: &[usize],
) -> Result<BTreeMap<i64, Vec<usize>>, AllocError>
    requires marks { AreStandingMarks ops.now there.now }
    requires turn { IsTurnOfOps ops.now turn.now }
    ensures { IfOk result (IsReadTable ops.now) }
{
    let mut reads = BTreeMap::new(alloc);
    for number in turn {
        if let Some(value) = read_at(ops, there, *number) {
            add_read(alloc, &mut reads, value, *number)?;
        }
    }
    Ok(reads)
}

/// The value that a compare-and-set needs, where it must stand.
fn cas_at(ops: &[RegOp], there: &[bool], number: usize) -> Option<Held>
    requires marks { AreStandingMarks ops.now there.now }
    requires number { number < length ops.now }
    ensures { MatchOption result ((value : ℤ) → IsNextFrom ops.now value number → ⊥)
        (λ held. IsNextFrom ops.now held.int number) }
{
    if !there[number] {
        return None;
    }
    match ops[number].call {
        RegCall::Cas(int, _) => Some(Held { int }),
        _ => None,
    }
}

/// The compare-and-set from each value.
pub(crate) fn nexts_of(alloc: Global, ops: &[RegOp], there: &[bool]) -> Result<Nexts, AllocError>
    requires marks { AreStandingMarks ops.now there.now }
    ensures { IfOk result (AreNextsOf ops.now) }
{
    let mut table = BTreeMap::new(alloc);
    for number in 0..ops.len() {
        if let Some(value) = cas_at(ops, there, number) {
            let before = put(&mut table, value, number)?;
            if let Some(first) = before {
                return Ok(Nexts::Twice(first, number));
            }
        }
    }
    Ok(Nexts::Once(table))
}

/// The reads of a value.
pub(crate) fn reads_of(known: &Known, value: Held) -> &[usize]
    ensures { result.now ≡ reads_under known.now.reads value.int }
{
    match known.reads.get(&value.int) {
        Some(list) => list.as_slice(),
        None => &[],
    }
}

/// What a compare-and-set writes.
fn new_of(call: RegCall) -> Held
    ensures { (old new : ℤ) → call ≡ Cas old new → result.int ≡ new }
{
    match call {
        RegCall::Cas(_, int) => Held { int },
        _ => Held { int: 0 },
    }
}

/// The compare-and-set from a value.
pub(crate) fn next_from(ops: &[RegOp], known: &Known, value: Held) -> Option<Next>
    requires known { KnowsOps ops.now known.now }
    ensures { MatchOption result ((number : ℕ) → IsNextFrom ops.now value.int number → ⊥)
        (IsNextOf ops.now value.int) }
{
    match found(&known.nexts, value) {
        Some(number) => Some(Next {
            number,
            new: new_of(op_at(ops, number).call),
        }),
        None => None,
    }
}
