//! The operations that a finding shows. `specs/Shown.antt` has the rule.

ghost use Rattle.std.specs.Prelude.{◌≡◌, ◌<◌, All, IfOk, length};
ghost use Rattle.jh_ops.specs.Operation.{operations};
ghost use Rattle.jh_ops.specs.Pairing.{IsPairWithin};
ghost use Rattle.jh_check.specs.Shown.{AreOperationsAt};

use crate::pairs::end_of;
use jh_ops::{Op, Pair};
use std::alloc::{AllocError, Global};

/// Copies of the last records of operations, in the order of the numbers: of each the completion, or
/// the invocation where there is none. The number of an operation is its place among the pairs.
///
/// Takes time linear in the numbers and in the size of the records.
///
/// Errors: out of memory.
pub fn operations_of(
    alloc: Global,
    history: &[Op],
    pairs: &[Pair],
    numbers: &[usize],
) -> Result<Vec<Op>, AllocError>
    requires within { All (IsPairWithin (length history.now)) pairs.now }
    requires numbers { All (λ number. number < length pairs.now) numbers.now }
    ensures { IfOk result (λ ops.
        AreOperationsAt (operations history.now) pairs.now numbers.now ops.items) }
{
    let mut shown = Vec::with_capacity(alloc, numbers.len())?;
    for number in numbers {
        shown.push(history[end_of(pairs[*number])].copy(alloc)?)?;
    }
    Ok(shown)
}
