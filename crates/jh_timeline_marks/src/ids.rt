//! The marks of unique ids. `specs/Marked.antt` has the rule.

ghost use Rattle.std.specs.Prelude.{◌≡◌, IfOk};
ghost use Rattle.jh_ops.specs.Operation.{operations};
ghost use Rattle.jh_check.specs.Tallies.{view_tally};
ghost use Rattle.jh_timeline_marks.specs.Marked.{ids_note, marks_by};

use crate::notes::{noted, push_note};
use crate::values::{ends_with_one_of, sorted_counted};
use jh_check::Counted;
use jh_ops::Op;
use jh_timeline::{Call, Mark, Note};
use std::alloc::{AllocError, Global};

/// A mark at each call that gave an id that was given more than once.
pub(crate) fn ids_marks(
    alloc: Global,
    duplicated: &[Counted],
    history: &[Op],
    calls: &[Call],
) -> Result<Vec<Mark>, AllocError>
    ensures { IfOk result (λ marks. marks.items
        ≡ marks_by (ids_note (view_tally duplicated.now) (operations history.now)) calls.now) }
{
    let ids = sorted_counted(alloc, duplicated)?;
    let mut marks = Vec::new(alloc);
    for (number, call) in calls.iter().enumerate() {
        let gives = ends_with_one_of(alloc, "generate", &ids, history, call)?;
        push_note(noted(gives, Note::Repeated), number, &mut marks)?;
    }
    Ok(marks)
}
