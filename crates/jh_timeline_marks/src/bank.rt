//! The marks of banks. `specs/Marked.antt` has the rule.

ghost use Rattle.std.specs.Prelude.{◌≡◌, IfOk};
ghost use Rattle.jh_timeline_marks.specs.Marked.{bank_note, marks_by};

use crate::completed::completed_marks;
use jh_bank::BankResult;
use jh_timeline::{Call, Mark, Note};
use std::alloc::{AllocError, Global};

/// A mark at each read that has an error.
pub(crate) fn bank_marks(
    alloc: Global,
    found: &BankResult,
    calls: &[Call],
) -> Result<Vec<Mark>, AllocError>
    ensures { IfOk result (λ marks. marks.items ≡ marks_by (bank_note found.now) calls.now) }
{
    completed_marks(alloc, &found.wrong, Note::WrongBalances, calls)
}
