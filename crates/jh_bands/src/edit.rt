//! Edits of the list of active faults, each of which gives the edit that takes it back, and the
//! changes that they make. `specs/BandsInside.antt` says what they are.

ghost use Rattle.std.specs.Prelude.{◌≡◌, ◌++◌, IfOk, OnOk};
ghost use Rattle.jh_bands.specs.BandsInside.{AllowsEdit, TakesBack, changes_at, changes_with};
ghost use Rattle.jh_bands.specs.BandsInside.{edited, view_changes, view_all_begun};

use crate::step::Fault;
use std::alloc::{AllocError, Global};
use std::mem;

/// What is done to a list of faults.
#[derive(Drop)]
pub(crate) enum Edit<'a> {
    /// A fault is put at a place, and those from there on move up.
    Insert(usize, Fault<'a>),
    /// The fault at a place is taken out, and those behind it move down.
    Remove(usize),
    /// These faults are put into a list that has none.
    Fill(Vec<Fault<'a>>),
    /// All faults are taken out.
    Clear,
}

/// A fault becomes active at a record, or ends there.
#[derive(Clone, Copy)]
pub(crate) struct Change<'a> {
    /// The index of the record.
    pub(crate) index: usize,
    /// Whether it becomes active.
    pub(crate) begins: bool,
    pub(crate) fault: Fault<'a>,
}

/// Adds that faults become active at an index, or end there.
fn add_all<'a>(
    index: usize,
    begins: bool,
    faults: &[Fault<'a>],
    changes: &mut Vec<Change<'a>>,
) -> Result<(), AllocError>
    ensures { OnOk result (view_changes changes.new.items ≡ view_changes changes.old.items
        ++ changes_with index begins (view_all_begun faults.now)) }
{
    for fault in faults {
        changes.push(Change {
            index,
            begins,
            fault: *fault,
        })?;
    }
    Ok(())
}

/// Adds the changes that an edit makes at an index.
fn add_changes<'a>(
    edit: &Edit<'a>,
    index: usize,
    active: &[Fault<'a>],
    changes: &mut Vec<Change<'a>>,
) -> Result<(), AllocError>
    requires { AllowsEdit edit.now (view_all_begun active.now) }
    ensures { OnOk result (view_changes changes.new.items ≡ view_changes changes.old.items
        ++ changes_at index (view_all_begun active.now)
        (edited edit.now (view_all_begun active.now))) }
{
    match edit {
        Edit::Insert(_, fault) => add_all(index, true, &[*fault], changes),
        Edit::Remove(place) => add_all(index, false, &[active[*place]], changes),
        Edit::Fill(faults) => add_all(index, true, faults, changes),
        Edit::Clear => add_all(index, false, active, changes),
    }
}

/// Makes an edit, and gives the one that takes it back. Moves faults, and copies no list.
fn make_edit<'a>(
    alloc: Global,
    edit: Edit<'a>,
    active: &mut Vec<Fault<'a>>,
) -> Result<Edit<'a>, AllocError>
    requires { AllowsEdit edit (view_all_begun active.old.items) }
    ensures edited { OnOk result
        (view_all_begun active.new.items ≡ edited edit.entry (view_all_begun active.old.items)) }
    ensures back { IfOk result (λ back.
        TakesBack back (view_all_begun active.new.items) (view_all_begun active.old.items)) }
{
    match edit {
        Edit::Insert(place, fault) => {
            active.insert(place, fault)?;
            Ok(Edit::Remove(place))
        }
        Edit::Remove(place) => {
            let fault = active.remove(place);
            Ok(Edit::Insert(place, fault))
        }
        Edit::Fill(faults) => {
            *active = faults;
            Ok(Edit::Clear)
        }
        Edit::Clear => Ok(Edit::Fill(mem::replace(active, Vec::new(alloc)))),
    }
}

/// Makes an edit at an index, adds the changes that it makes, and gives the edit that takes it back.
pub(crate) fn edit_at<'a>(
    alloc: Global,
    edit: Edit<'a>,
    index: usize,
    active: &mut Vec<Fault<'a>>,
    changes: &mut Vec<Change<'a>>,
) -> Result<Edit<'a>, AllocError>
    requires { AllowsEdit edit (view_all_begun active.old.items) }
    ensures edited { OnOk result
        (view_all_begun active.new.items ≡ edited edit.entry (view_all_begun active.old.items)) }
    ensures back { IfOk result (λ back.
        TakesBack back (view_all_begun active.new.items) (view_all_begun active.old.items)) }
    ensures changes { OnOk result (view_changes changes.new.items
        ≡ view_changes changes.old.items
        ++ changes_at index (view_all_begun active.old.items) (view_all_begun active.new.items)) }
{
    add_changes(&edit, index, active, changes)?;
    make_edit(alloc, edit, active)
}
