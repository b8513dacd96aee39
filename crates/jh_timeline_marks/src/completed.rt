//! One mark at each call that is completed at one of some places.

ghost use Rattle.std.specs.Prelude.{◌≡◌, false, is_some, IfOk};
ghost use Rattle.std.specs.BTreeMap.{get};
ghost use Rattle.std.specs.Option.{option_map_or};
ghost use Rattle.std.specs.Ordering.{nat_cmp};
ghost use Rattle.jh_timeline_marks.specs.Marked as rule;
ghost use Rattle.jh_timeline_marks.specs.Marked.{marks_by};

use crate::notes::{noted, push_note};
use crate::places::{place_of, places_of};
use jh_timeline::{Call, Mark, Note};
use std::alloc::{AllocError, Global};
use std::collections::BTreeMap;

/// Whether a call is completed at a place that this table has.
fn is_completed_in(table: &BTreeMap<usize, usize>, call: &Call) -> bool
    ensures { result
        ≡ option_map_or (λ place. is_some (get nat_cmp table.now place)) call.now.completion false }
{
    match call.completion {
        Some(completion) => place_of(table, completion).is_some(),
        None => false,
    }
}

/// A note at each call that is completed at one of these places.
///
/// Takes O((n + m) log n) for n places and m calls.
pub(crate) fn completed_marks(
    alloc: Global,
    places: &[usize],
    note: Note,
    calls: &[Call],
) -> Result<Vec<Mark>, AllocError>
    ensures { IfOk result (λ marks. marks.items
        ≡ marks_by (λ call. rule.note_if (rule.is_completed_among places.now call) note) calls.now) }
{
    let table = places_of(alloc, places)?;
    let mut marks = Vec::new(alloc);
    for (number, call) in calls.iter().enumerate() {
        let holds = is_completed_in(&table, call);
        push_note(noted(holds, note), number, &mut marks)?;
    }
    Ok(marks)
}
