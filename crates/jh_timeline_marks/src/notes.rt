//! Marks that are put behind others.

ghost use Rattle.std.specs.Prelude.{◌≡◌, ◌++◌, None, OnOk};
ghost use Rattle.std.specs.Option.{option_to_list};
ghost use Rattle.jh_timeline_marks.specs.Marked as rule;
ghost use Rattle.jh_timeline_marks.specs.Marked.{mark_at, marks_by};

use jh_timeline::{Call, Mark, Note};
use std::alloc::{AllocError, Global};

/// A note, where something holds.
pub(crate) fn noted(holds: bool, note: Note) -> Option<Note>
    ensures { result ≡ rule.note_if holds note }
{
    if holds { Some(note) } else { None }
}

/// No marks, at calls that have no note.
pub(crate) fn no_marks(alloc: Global, calls: &[Call]) -> Vec<Mark>
    ensures { result.items ≡ marks_by (λ call. None) calls.now }
{
    Vec::new(alloc)
}

/// Puts the mark of a note last, where there is one.
pub(crate) fn push_note(
    note: Option<Note>,
    call: usize,
    marks: &mut Vec<Mark>,
) -> Result<(), AllocError>
    ensures { OnOk result (marks.new.items ≡ marks.old.items ++ option_to_list (mark_at call note)) }
{
    if let Some(note) = note {
        marks.push(Mark { call, note })?;
    }
    Ok(())
}
