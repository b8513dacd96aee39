//! The checker of registers: the judge where each value is written once, and the search elsewhere.

ghost use Rattle.std.specs.Prelude.{◌<◌, IfOk};
ghost use Rattle.jh_linear.specs.Order.{EndAfterInvoked};
ghost use Rattle.jh_linear.specs.Verdict.{IsJudged};
ghost use Rattle.jh_unique.specs.Judged.{IsDecided};
ghost use Rattle.jh_unique.specs.Unique.{WriteOnce};

use crate::cuts::stuck_of;
use crate::judge::judge_unique;
use crate::verdict::UniqueVerdict;
use jh_linear::{LinVerdict, RegOp, check};
use std::alloc::{AllocError, Global};

/// Whether the operations are linearizable on a register with this initial value: what `check` of
/// `jh_linear` promises, and never `Unknown` where each value is written once at most, the initial one by
/// none, and the budget is not 0. Where that is so the operations are judged exactly (`judge_unique`), and
/// the budget is not used up; elsewhere `check` searches, with the budget that is given. Each operation has to end
/// after its invocation. That the search can be left out is this project's own.
///
/// Errors: out of memory.
///
/// Where values are so written, a yes takes time in the order of n log n for n operations, and
/// a no some log n times as long, for the completion with which there is no order any more.
pub fn check_register(
    alloc: Global,
    ops: &[RegOp],
    initial: Option<i64>,
    budget: u64,
) -> Result<LinVerdict, AllocError>
    requires ends { EndAfterInvoked ops.now }
    ensures judged { IfOk result (λ verdict. IsJudged ops.now initial budget verdict) }
    ensures decided { IfOk result (λ verdict. WriteOnce ops.now initial → 0 < budget
        → IsDecided verdict) }
{
    if budget == 0 {
        return check(alloc, ops, initial, budget);
    }
    let verdict = judge_unique(alloc, ops, initial)?;
    match verdict {
        UniqueVerdict::Valid(order) => Ok(LinVerdict::Valid(order)),
        UniqueVerdict::Invalid(_) => {
            let stuck = stuck_of(alloc, ops, initial)?;
            Ok(LinVerdict::Invalid(stuck))
        }
        UniqueVerdict::Repeated(_, _) => check(alloc, ops, initial, budget),
        UniqueVerdict::WritesInitial(_) => check(alloc, ops, initial, budget),
    }
}
