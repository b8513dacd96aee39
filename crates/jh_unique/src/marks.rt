//! What must stand in each order: what is known to have happened, who wrote what that needs, and so
//! on.

ghost use Rattle.std.specs.Prelude.{◌≡◌, ◌<◌, ℕ, ℤ, true, false, IfOk, MatchOption, length, slice_index_or, slice_set};
ghost use Rattle.jh_unique.specs.Marks.{KeepsMarks, MarkOnlyNeeded, MarkWriters};
ghost use Rattle.jh_linear.specs.Order.{IsDone};
ghost use Rattle.jh_unique.specs.Steps.{AreStandingMarks};
ghost use Rattle.jh_unique.specs.Tables.{IsWriterTable};
ghost use Rattle.jh_unique.specs.Unique.{MustStand, NeedsValue, WritesAt, reg_call_at};

use crate::calls::{is_done, needed, op_at};
use crate::tables::found;
use jh_linear::RegOp;
use std::alloc::{AllocError, Global};
use std::collections::BTreeMap;

/// Who writes what an operation needs.
fn writer_before(ops: &[RegOp], writers: &BTreeMap<i64, usize>, number: usize) -> Option<usize>
    requires writers { IsWriterTable ops.now writers.now }
    requires number { number < length ops.now }
    ensures { MatchOption result
        ((value : ℤ) (writer : ℕ) → NeedsValue (reg_call_at ops.now number) value
        → WritesAt ops.now writer value → ⊥)
        (λ writer. (writer < length ops.now) × ((value : ℤ)
        × NeedsValue (reg_call_at ops.now number) value × WritesAt ops.now writer value)) }
{
    match needed(op_at(ops, number).call) {
        Some(value) => found(writers, value),
        None => None,
    }
}

/// Marks an operation.
pub(crate) fn mark(there: &mut Vec<bool>, number: usize)
    requires { number < length there.old.items }
    ensures { there.new.items ≡ slice_set there.old.items number true }
{
    there[number] = true;
}

/// Marks an operation, who wrote what it needs, and so on.
fn mark_from(there: &mut Vec<bool>, ops: &[RegOp], writers: &BTreeMap<i64, usize>, number: usize)
    requires writers { IsWriterTable ops.now writers.now }
    requires count { length there.old.items ≡ length ops.now }
    requires sound { MarkOnlyNeeded ops.now there.old.items }
    requires closed { MarkWriters ops.now there.old.items }
    requires number { number < length ops.now }
    requires must { MustStand ops.now number }
    ensures keeps { KeepsMarks ops.now there.old.items there.new.items }
    ensures this { slice_index_or there.new.items number false ≡ true }
{
    let mut at = number;
    'marking: while !there[at] {
        mark(there, at);
        let Some(writer) = writer_before(ops, writers, at) else {
            return;
        };
        at = writer;
    }
}

/// Marks an operation that happened, and what it needs.
fn mark_if(there: &mut Vec<bool>, ops: &[RegOp], writers: &BTreeMap<i64, usize>, number: usize)
    requires writers { IsWriterTable ops.now writers.now }
    requires count { length there.old.items ≡ length ops.now }
    requires sound { MarkOnlyNeeded ops.now there.old.items }
    requires closed { MarkWriters ops.now there.old.items }
    requires number { number < length ops.now }
    ensures keeps { KeepsMarks ops.now there.old.items there.new.items }
    ensures this { IsDone ops.now number → slice_index_or there.new.items number false ≡ true }
{
    if is_done(ops[number].outcome) {
        mark_from(there, ops, writers, number)
    }
}

/// Marks what must stand.
pub(crate) fn marks_of(
    alloc: Global,
    ops: &[RegOp],
    writers: &BTreeMap<i64, usize>,
) -> Result<Vec<bool>, AllocError>
    requires writers { IsWriterTable ops.now writers.now }
    ensures { IfOk result (λ there. AreStandingMarks ops.now there.items) }
{
    let mut there = vec![in alloc; false; ops.len()]?;
    for number in 0..ops.len() {
        mark_if(&mut there, ops, writers, number);
    }
    Ok(there)
}
