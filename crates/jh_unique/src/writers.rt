//! Who writes each value.

ghost use Rattle.std.specs.Prelude.{◌≡◌, ◌↔◌, ℤ, Option, Some, IfOk, IsTrue};
ghost use Rattle.jh_unique.specs.Tables.{AreWritersOf};

use crate::calls::{Held, written};
use crate::tables::put;
use jh_linear::RegOp;
use std::alloc::{AllocError, Global};
use std::collections::BTreeMap;

/// Who writes each value, or why that is not one operation: two write the same value, or one writes
/// the initial value.
#[derive(Drop)]
pub(crate) enum Writers {
    Once(BTreeMap<i64, usize>),
    Twice(usize, usize),
    Initial(usize),
}

/// Whether a value is the initial one.
fn is_initial(initial: Option<i64>, value: Held) -> bool
    ensures { IsTrue result ↔ (initial ≡ Some value.int) }
{
    match initial {
        Some(int) => int == value.int,
        None => false,
    }
}

/// Who writes each value.
pub(crate) fn writers_of(
    alloc: Global,
    ops: &[RegOp],
    initial: Option<i64>,
) -> Result<Writers, AllocError>
    ensures { IfOk result (AreWritersOf ops.now initial) }
{
    let mut table = BTreeMap::new(alloc);
    for number in 0..ops.len() {
        if let Some(value) = written(ops, number) {
            if is_initial(initial, value) {
                return Ok(Writers::Initial(number));
            }
            let before = put(&mut table, value, number)?;
            if let Some(first) = before {
                return Ok(Writers::Twice(first, number));
            }
        }
    }
    Ok(Writers::Once(table))
}
