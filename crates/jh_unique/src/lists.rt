//! The clusters, each in a list: number 0 is that of the initial value, and n + 1 that of the write of
//! number n.

ghost use Rattle.std.specs.Prelude.{◌≡◌, ◌+◌, ◌<◌, ◌∷◌, [], ℤ, None, Some, IfOk, MatchOption, length};
ghost use Rattle.jh_unique.specs.Lists.{HaveLists};
ghost use Rattle.jh_unique.specs.Steps.{AreStandingMarks, IsClusterList};
ghost use Rattle.jh_unique.specs.Tables.{KnowsOps};
ghost use Rattle.jh_unique.specs.Unique.{MustStand, WriteOnce, reg_call_at};
ghost use Rattle.jh_linear.specs.declared.register.RegCall.TheVariants.{Write};

use crate::behind::Known;
use crate::calls::Held;
use crate::walk::walk;
use jh_linear::{RegCall, RegOp};
use std::alloc::{AllocError, Global};

/// The initial value, where it is one.
fn start_value(initial: Option<i64>) -> Option<Held>
    ensures { MatchOption result (initial ≡ None) (λ held. initial ≡ Some held.int) }
{
    match initial {
        Some(int) => Some(Held { int }),
        None => None,
    }
}

/// The cluster of the start.
fn start_list(
    alloc: Global,
    ops: &[RegOp],
    initial: Option<i64>,
    known: &Known,
) -> Result<Vec<usize>, AllocError>
    requires once { WriteOnce ops.now initial }
    requires known { KnowsOps ops.now known.now }
    ensures { IfOk result (λ numbers. IsClusterList ops.now initial 0 numbers.items) }
{
    match start_value(initial) {
        None => Ok(Vec::new(alloc)),
        Some(value) => walk(ops, initial, known, 0, Vec::new(alloc), value),
    }
}

/// What an operation writes, where it is a write that must stand.
fn begun_by(ops: &[RegOp], there: &[bool], number: usize) -> Option<Held>
    requires marks { AreStandingMarks ops.now there.now }
    requires number { number < length ops.now }
    ensures { MatchOption result
        ((value : ℤ) → MustStand ops.now number → reg_call_at ops.now number ≡ Write value → ⊥)
        (λ held. MustStand ops.now number × (reg_call_at ops.now number ≡ Write held.int)) }
{
    if !there[number] {
        return None;
    }
    match ops[number].call {
        RegCall::Write(int) => Some(Held { int }),
        _ => None,
    }
}

/// A list with one number.
fn list_of_one(alloc: Global, number: usize) -> Result<Vec<usize>, AllocError>
    ensures { IfOk result (λ list. list.items ≡ number ∷ []) }
{
    let mut list = Vec::new(alloc);
    list.push(number)?;
    Ok(list)
}

/// The cluster of a write, which is empty where it is none or may be missing.
fn write_list(
    alloc: Global,
    ops: &[RegOp],
    initial: Option<i64>,
    known: &Known,
    number: usize,
) -> Result<Vec<usize>, AllocError>
    requires once { WriteOnce ops.now initial }
    requires known { KnowsOps ops.now known.now }
    requires number { number < length ops.now }
    ensures { IfOk result (λ numbers. IsClusterList ops.now initial (number + 1) numbers.items) }
{
    match begun_by(ops, &known.there, number) {
        None => Ok(Vec::new(alloc)),
        Some(value) => walk(
            ops,
            initial,
            known,
            number + 1,
            list_of_one(alloc, number)?,
            value,
        ),
    }
}

/// All clusters: that of the start, and one for each operation.
pub(crate) fn lists_of(
    alloc: Global,
    ops: &[RegOp],
    initial: Option<i64>,
    known: &Known,
) -> Result<Vec<Vec<usize>>, AllocError>
    requires once { WriteOnce ops.now initial }
    requires known { KnowsOps ops.now known.now }
    ensures { IfOk result (λ lists. HaveLists ops.now initial lists.items) }
{
    let mut lists = Vec::new(alloc);
    lists.push(start_list(alloc, ops, initial, known)?)?;
    for number in 0..ops.len() {
        let list = write_list(alloc, ops, initial, known, number)?;
        lists.push(list)?;
    }
    Ok(lists)
}
