//! The replay of accepted steps. `specs/Replay.antt` says what they make of the list of active
//! faults. Of the lists of the past, and of those that are undone, only the edits are kept that lead
//! to them.

ghost use Rattle.std.specs.Prelude.{◌≡◌, IfSome, OnOk, option_map, position};
ghost use Rattle.std.specs.Ordering.{int_eq};
ghost use Rattle.jh_bands.specs.BandsInside.{AddChanges, HaveOwnIds, AreFit, AllowsEdit, HasOwnIds};
ghost use Rattle.jh_bands.specs.BandsInside.{GoesOnTo, edited, view_begun, view_all_begun};
ghost use Rattle.jh_bands.specs.BandsInside.{view_replay, view_step};
ghost use Rattle.jh_bands.specs.Replay.{begin, first_replay, next_active, next_replay};
ghost use Rattle.jh_bands.specs.Replay.{replay_after, replay_back_to, replay_forth_to, withdraw};

use crate::edit::{Change, Edit, edit_at};
use crate::step::{Fault, Step};
use std::alloc::{AllocError, Global};

/// What steps have left.
#[derive(Drop)]
pub(crate) struct Replay<'a> {
    /// The edits that lead back through the lists of the past, the next one last.
    pub(crate) past: Vec<Edit<'a>>,
    pub(crate) active: Vec<Fault<'a>>,
    /// The edits that lead forth through the lists that are undone, the next one last.
    pub(crate) future: Vec<Edit<'a>>,
}

/// The place of the first fault of an id.
fn place_of(id: i64, active: &[Fault]) -> Option<usize>
    ensures { result ≡ position (λ fault. int_eq fault.id id) active.now }
{
    active.iter().position(|fault| fault.id == id)
}

/// The edit that begins a fault, where none of its id is active.
fn beginning<'a>(fault: Fault<'a>, active: &[Fault<'a>]) -> Option<Edit<'a>>
    ensures next { option_map (λ edit. edited edit (view_all_begun active.now)) result
        ≡ next_active (view_all_begun active.now) (begin fault.entry.id (view_begun fault.entry).1) }
    ensures fits { IfSome result (λ edit. AllowsEdit edit (view_all_begun active.now)) }
{
    match place_of(fault.id, active) {
        Some(_) => None,
        None => Some(Edit::Insert(active.len(), fault)),
    }
}

/// The edit that withdraws the fault of an id, where it is active.
fn withdrawal<'a>(id: i64, active: &[Fault<'a>]) -> Option<Edit<'a>>
    requires { HaveOwnIds (view_all_begun active.now) }
    ensures next { option_map (λ edit. edited edit (view_all_begun active.now)) result
        ≡ next_active (view_all_begun active.now) (withdraw id) }
    ensures fits { IfSome result (λ edit. AllowsEdit edit (view_all_begun active.now)) }
{
    match place_of(id, active) {
        Some(place) => Some(Edit::Remove(place)),
        None => None,
    }
}

/// The edit that a step makes which begins or withdraws, where the list allows the step.
fn edit_for<'a>(step: Step<'a>, active: &[Fault<'a>]) -> Option<Edit<'a>>
    requires { HaveOwnIds (view_all_begun active.now) }
    ensures next { option_map (λ edit. edited edit (view_all_begun active.now)) result
        ≡ next_active (view_all_begun active.now) (view_step step.entry) }
    ensures fits { IfSome result (λ edit. AllowsEdit edit (view_all_begun active.now)) }
{
    match step {
        Step::Begin(fault) => beginning(fault, active),
        Step::Withdraw(id) => withdrawal(id, active),
        Step::WithdrawAll if !active.is_empty() => Some(Edit::Clear),
        _ => None,
    }
}

impl<'a> Replay<'a> {
    /// Before any step.
    pub(crate) fn new(alloc: Global) -> Replay<'a>
        ensures replay { view_replay result ≡ first_replay }
        ensures fit { AreFit result }
    {
        Replay {
            past: Vec::new(alloc),
            active: Vec::new(alloc),
            future: Vec::new(alloc),
        }
    }

    /// Goes on to a new list.
    fn go_on(
        &mut self,
        alloc: Global,
        edit: Edit<'a>,
        index: usize,
        changes: &mut Vec<Change<'a>>,
    ) -> Result<(), AllocError>
        requires fits { AllowsEdit edit (view_all_begun self.old.active.items) }
        requires fit { AreFit self.old }
        ensures leads { OnOk result (GoesOnTo self.old self.new
            (next_replay (view_replay self.old)
            (edited edit.entry (view_all_begun self.old.active.items)))) }
        ensures changes { OnOk result (AddChanges index (view_replay self.old).active
            (view_replay self.new).active changes.old.items changes.new.items) }
    {
        let back = edit_at(alloc, edit, index, &mut self.active, changes)?;
        self.past.push(back)?;
        self.future.clear();
        Ok(())
    }

    /// Undoes the last edit that stands, if there is one.
    fn undo_step(
        &mut self,
        alloc: Global,
        index: usize,
        changes: &mut Vec<Change<'a>>,
    ) -> Result<(), AllocError>
        requires { AreFit self.old }
        ensures leads { OnOk result (GoesOnTo self.old self.new
            (replay_back_to (view_replay self.old) (view_replay self.old).past)) }
        ensures changes { OnOk result (AddChanges index (view_replay self.old).active
            (view_replay self.new).active changes.old.items changes.new.items) }
    {
        let Some(edit) = self.past.pop() else {
            return Ok(());
        };
        let forth = edit_at(alloc, edit, index, &mut self.active, changes)?;
        self.future.push(forth)?;
        Ok(())
    }

    /// Redoes the edit that was undone last, if there is one.
    fn redo_step(
        &mut self,
        alloc: Global,
        index: usize,
        changes: &mut Vec<Change<'a>>,
    ) -> Result<(), AllocError>
        requires { AreFit self.old }
        ensures leads { OnOk result (GoesOnTo self.old self.new
            (replay_forth_to (view_replay self.old) (view_replay self.old).future)) }
        ensures changes { OnOk result (AddChanges index (view_replay self.old).active
            (view_replay self.new).active changes.old.items changes.new.items) }
    {
        let Some(edit) = self.future.pop() else {
            return Ok(());
        };
        let back = edit_at(alloc, edit, index, &mut self.active, changes)?;
        self.past.push(back)?;
        Ok(())
    }

    /// Takes an accepted step, and adds what becomes active at an index or ends there.
    pub(crate) fn take_step(
        &mut self,
        alloc: Global,
        step: Step<'a>,
        index: usize,
        changes: &mut Vec<Change<'a>>,
    ) -> Result<(), AllocError>
        requires fit { AreFit self.old }
        requires distinct { HasOwnIds (view_replay self.old) }
        ensures leads { OnOk result (GoesOnTo self.old self.new
            (replay_after (view_replay self.old) (view_step step.entry))) }
        ensures changes { OnOk result (AddChanges index (view_replay self.old).active
            (view_replay self.new).active changes.old.items changes.new.items) }
    {
        match step {
            Step::Undo => self.undo_step(alloc, index, changes),
            Step::Redo => self.redo_step(alloc, index, changes),
            _ => match edit_for(step, &self.active) {
                Some(edit) => self.go_on(alloc, edit, index, changes),
                None => Ok(()),
            },
        }
    }
}
