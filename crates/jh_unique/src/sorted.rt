//! Pairs, sorted by what stands first in them.

ghost use Rattle.std.specs.Prelude.{◌≡◌, IfOk, length};
ghost use Rattle.jh_unique.specs.Sorted.{AreKeyedNumbers, AreSortedOut, HasInvocation, IsTurnOfOps};

use crate::calls::op_at;
use jh_linear::RegOp;
use std::alloc::{AllocError, Global};

/// What stands second in pairs, sorted by what stands first.
pub(crate) fn sorted_out(
    alloc: Global,
    entries: Vec<(u128, usize)>,
) -> Result<Vec<usize>, AllocError>
    ensures { IfOk result (λ numbers. AreSortedOut entries.items numbers.items) }
{
    let mut entries = entries;
    entries.sort()?;
    let mut numbers = Vec::new(alloc);
    for entry in &entries {
        numbers.push(entry.1)?;
    }
    Ok(numbers)
}

/// The operations, each with the place of its invocation.
fn invocations(alloc: Global, ops: &[RegOp]) -> Result<Vec<(u128, usize)>, AllocError>
    ensures { IfOk result (λ entries.
        AreKeyedNumbers (HasInvocation ops.now) 0 (length ops.now) entries.items) }
{
    let mut entries = Vec::new(alloc);
    for number in 0..ops.len() {
        let op = op_at(ops, number);
        entries.push((op.invoked as u128, number))?;
    }
    Ok(entries)
}

/// The operations in the order of their invocations.
pub(crate) fn turn_of(alloc: Global, ops: &[RegOp]) -> Result<Vec<usize>, AllocError>
    ensures { IfOk result (λ turn. IsTurnOfOps ops.now turn.items) }
{
    let entries = invocations(alloc, ops)?;
    let turn = sorted_out(alloc, entries)?;
    Ok(turn)
}
