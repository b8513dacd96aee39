//! Operations by what they ask for, and the two of a call.

ghost use Rattle.std.specs.Prelude.{◌≡◌, option_map};
ghost use Rattle.jh_ops.specs.Operation.{operation, operations};
ghost use Rattle.jh_timeline_marks.specs.Marked as rule;

use jh_check::op_at;
use jh_ops::Op;
use jh_timeline::Call;

/// The completion of a call, if it has one.
pub(crate) fn completion_of<'a>(history: &'a [Op], call: &Call) -> Option<&'a Op>
    ensures { option_map (λ op. operation op.now) result
        ≡ rule.call_completion (operations history.now) call.now }
{
    let index = call.completion?;
    op_at(history, index)
}

/// Whether a call is completed at an index.
pub(crate) fn is_completed_at(index: usize, call: &Call) -> bool
    ensures { result ≡ rule.is_completed_at index call.now }
{
    match call.completion {
        Some(completion) => completion == index,
        None => false,
    }
}
