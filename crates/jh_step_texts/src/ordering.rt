//! Steps with their faults in order, as they are written. `specs/StepWritten.antt` has the rule.

ghost use Rattle.std.specs.Prelude.{◌≡◌, IfOk};
ghost use Rattle.jh_step_texts.specs.StepWritten.{step_in_order};

use jh_nemesis::Step;
use std::alloc::{AllocError, Global};

/// The same step, with the links, nodes or bumps of its fault in order, so that it is the step that
/// its text means. A fault does the same in any order.
pub fn step_in_order(alloc: Global, step: &Step) -> Result<Step, AllocError>
    ensures { IfOk result (λ ordered. ordered ≡ step_in_order step.now) }
{
    match step {
        Step::Begin(id, fault) => Ok(Step::Begin(*id, fault.in_order(alloc)?)),
        Step::Withdraw(id) => Ok(Step::Withdraw(*id)),
        Step::WithdrawAll => Ok(Step::WithdrawAll),
        Step::Undo => Ok(Step::Undo),
        Step::Redo => Ok(Step::Redo),
    }
}
