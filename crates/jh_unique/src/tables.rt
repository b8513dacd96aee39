//! Tables of operations by their values.

ghost use Rattle.std.specs.Prelude.{◌≡◌, ◌≢◌, ℤ, Some, IfOk, OnOk};
ghost use Rattle.std.specs.BTreeMap.{get};
ghost use Rattle.std.specs.Ordering.{int_cmp};

use crate::calls::Held;
use std::alloc::AllocError;
use std::collections::BTreeMap;

/// The operation of a value, if it has one.
pub(crate) fn found(table: &BTreeMap<i64, usize>, value: Held) -> Option<usize>
    ensures { result ≡ get int_cmp table.now value.int }
{
    table.get(&value.int).copied()
}

/// Gives a value an operation. The result is the one that it had before.
pub(crate) fn put(
    table: &mut BTreeMap<i64, usize>,
    value: Held,
    number: usize,
) -> Result<Option<usize>, AllocError>
    ensures before { IfOk result (λ before. before ≡ get int_cmp table.old value.int) }
    ensures this { OnOk result (get int_cmp table.new value.int ≡ Some number) }
    ensures others { OnOk result ((other : ℤ) → other ≢ value.int
        → get int_cmp table.new other ≡ get int_cmp table.old other) }
{
    let before = table.insert(value.int, number)?;
    Ok(before)
}
