//! A schedule under edits that can be undone. `specs/Edits.antt` says what an edit, an undo and a
//! redo make of it.

ghost use Rattle.std.specs.Prelude.{◌≡◌, ◌↔◌, ◌≤◌, [], length, slice_set, IfOk, IsErr, IsTrue};
ghost use Rattle.std.specs.Prelude.{MatchResult, OnErr, OnOk};
ghost use Rattle.std.specs.List.{insert, remove};
ghost use Rattle.jh_simnode.specs.Limits.{max_entries};
ghost use Rattle.jh_shrink.specs.Edits.{state_after_edit, edit_state_after_redo};
ghost use Rattle.jh_shrink.specs.Edits.{edit_state_after_undo, state_before_edits, HasRoom};
ghost use Rattle.jh_shrink.specs.Edits.{MayEdit, MayInsert, RefusesEdit, RefusesInsert};
ghost use Rattle.jh_shrink.specs.ChangesInside.{entries_after_change, Fits};

use crate::changes::{EntryChange, make};
use jh_simnode::{Entry, MAX_ENTRIES, Schedule};
use std::alloc::{AllocError, Global};
use std::marker::Model;
use thiserror::Error;

/// The most edits that can be undone.
pub const MAX_EDITS: usize = 4_096;

/// Why an entry is not deleted or replaced.
#[derive(Clone, Copy, Debug, PartialEq, Eq, Error)]
pub enum EditError {
    /// No entry stands at the place.
    #[error("bad place")]
    BadPlace,
    /// As many edits as can be undone were made.
    #[error("too many edits")]
    TooManyEdits,
    #[error("out of memory")]
    OutOfMemory,
}

impl From<AllocError> for EditError {
    ghost use Rattle.std.specs.Prelude.{◌≡◌};
    ghost use Rattle.jh_shrink.specs.declared.editor.EditError.TheVariants.{OutOfMemory};

    ghost from_gives = { λ _ e. e ≡ OutOfMemory };

    fn from(_error: AllocError) -> EditError {
        EditError::OutOfMemory
    }
}

/// Why an entry is not inserted.
#[derive(Clone, Copy, Debug, PartialEq, Eq, Error)]
pub enum InsertError {
    /// The place is above the end.
    #[error("bad place")]
    BadPlace,
    /// The schedule has as many entries as one may have.
    #[error("too long")]
    TooLong,
    /// As many edits as can be undone were made.
    #[error("too many edits")]
    TooManyEdits,
    #[error("out of memory")]
    OutOfMemory,
}

impl From<AllocError> for InsertError {
    ghost use Rattle.std.specs.Prelude.{◌≡◌};
    ghost use Rattle.jh_shrink.specs.declared.editor.InsertError.TheVariants.{OutOfMemory};

    ghost from_gives = { λ _ e. e ≡ OutOfMemory };

    fn from(_error: AllocError) -> InsertError {
        InsertError::OutOfMemory
    }
}

/// No edit was made that is not undone.
#[derive(Clone, Copy, Debug, PartialEq, Eq, Error)]
#[error("nothing to undo")]
pub struct NothingToUndo;

/// No edit was undone since the last one.
#[derive(Clone, Copy, Debug, PartialEq, Eq, Error)]
#[error("nothing to redo")]
pub struct NothingToRedo;

/// A schedule, and its edits back and forth. A contract sees the schedule now and at the moments
/// before and after.
#[derive(Debug, Drop)]
pub struct Editor {
    entries: Vec<Entry>,
    past: Vec<EntryChange>,
    future: Vec<EntryChange>,
}

impl Model for Editor {
    ghost use Rattle.jh_simnode.specs.Limits.{max_entries};
    ghost use Rattle.jh_shrink.specs.Edits.{EditState};

    ghost Value = { EditState };

    ghost use Rattle.jh_shrink.specs.ChangesInside.{edit_state_of, IsSoundEditor};

    ghost view = { edit_state_of };

    ghost invariant = { IsSoundEditor };
}

impl Editor {
    /// An editor of a schedule that was not edited yet. It takes the memory of 1,024 entries.
    ///
    /// Error: memory was refused.
    pub fn new(alloc: Global, schedule: Schedule) -> Result<Editor, AllocError>
        ensures { IfOk result (λ editor. editor ≡ state_before_edits schedule) }
    {
        let mut entries = schedule.into_entries();
        entries.reserve(MAX_ENTRIES - entries.len())?;
        Ok(Editor {
            entries,
            past: Vec::new(alloc),
            future: Vec::new(alloc),
        })
    }

    /// The entries of the schedule, at most 1,024.
    pub fn schedule(&self) -> &[Entry]
        ensures entries { result.now ≡ self.now.now }
        ensures few { length result.now ≤ max_entries }
    {
        &self.entries
    }

    /// The schedule, which is no longer edited. Takes no memory.
    pub fn into_schedule(self) -> Schedule
        ensures { result ≡ self.now }
    {
        match Schedule::of(self.entries) {
            Ok(schedule) => schedule,
            Err(_) => unreachable!(),
        }
    }

    /// Whether one more edit can be undone.
    fn has_room(&self) -> bool
        ensures { IsTrue result ↔ HasRoom self.now }
    {
        self.past.len() < MAX_EDITS
    }

    /// Whether the entry at a place may be edited, if there is memory.
    fn check(&self, place: usize) -> Result<(), EditError>
        ensures { MatchResult result (λ _. MayEdit self.now place) (RefusesEdit self.now place) }
    {
        if place >= self.entries.len() {
            return Err(EditError::BadPlace);
        }
        if !self.has_room() {
            return Err(EditError::TooManyEdits);
        }
        Ok(())
    }

    /// Whether an entry may be put in at a place, if there is memory.
    fn check_insert(&self, place: usize) -> Result<(), InsertError>
        ensures { MatchResult result (λ _. MayInsert self.now place)
            (RefusesInsert self.now place) }
    {
        if place > self.entries.len() {
            return Err(InsertError::BadPlace);
        }
        if self.entries.len() >= MAX_ENTRIES {
            return Err(InsertError::TooLong);
        }
        if !self.has_room() {
            return Err(InsertError::TooManyEdits);
        }
        Ok(())
    }

    /// Makes a change. All memory is taken first, that of its undo and redo too.
    fn edit(&mut self, change: EntryChange) -> Result<(), AllocError>
        requires { Fits change self.old.now }
        ensures edited { OnOk result
            (self.new ≡ state_after_edit self.old (entries_after_change change self.old.now)) }
        ensures unchanged { OnErr result (self.new ≡ self.old) }
    {
        let Editor {
            entries,
            past,
            future,
        } = self;
        past.reserve(1)?;
        future.reserve(past.len() + 1)?;
        future.clear();
        past.push_reserved(make(entries, change));
        Ok(())
    }

    /// Takes the entry at a place out.
    ///
    /// Errors, which change nothing: `BadPlace` where no entry stands there; `TooManyEdits` where
    /// 4,096 edits lie in the past; `OutOfMemory`.
    pub fn delete(&mut self, place: usize) -> Result<(), EditError>
        ensures answer { MatchResult result
            (λ _. MayEdit self.old place
            × (self.new ≡ state_after_edit self.old (remove self.old.now place)))
            (λ e. (self.new ≡ self.old) × RefusesEdit self.old place e) }
    {
        self.check(place)?;
        self.edit(EntryChange::Take(place))?;
        Ok(())
    }

    /// Puts an entry in at a place, or at the end. Those from there on stand one place higher.
    ///
    /// Errors, which change nothing: `BadPlace` where the place is above the length; `TooLong`
    /// where there are 1,024 entries; `TooManyEdits` where 4,096 edits lie in the past;
    /// `OutOfMemory`.
    pub fn insert(&mut self, place: usize, entry: Entry) -> Result<(), InsertError>
        ensures answer { MatchResult result
            (λ _. MayInsert self.old place
            × (self.new ≡ state_after_edit self.old (insert self.old.now place entry)))
            (λ e. (self.new ≡ self.old) × RefusesInsert self.old place e) }
    {
        self.check_insert(place)?;
        self.edit(EntryChange::Put(place, entry))?;
        Ok(())
    }

    /// Puts an entry in the place of another.
    ///
    /// Errors, which change nothing: `BadPlace` where no entry stands there; `TooManyEdits` where
    /// 4,096 edits lie in the past; `OutOfMemory`.
    pub fn replace(&mut self, place: usize, entry: Entry) -> Result<(), EditError>
        ensures answer { MatchResult result
            (λ _. MayEdit self.old place
            × (self.new ≡ state_after_edit self.old (slice_set self.old.now place entry)))
            (λ e. (self.new ≡ self.old) × RefusesEdit self.old place e) }
    {
        self.check(place)?;
        self.edit(EntryChange::Swap(place, entry))?;
        Ok(())
    }

    /// Takes the latest edit back that stands. Takes no memory.
    ///
    /// Error, which changes nothing: no edit lies in the past.
    pub fn undo(&mut self) -> Result<(), NothingToUndo>
        ensures undone { self.new ≡ edit_state_after_undo self.old }
        ensures refused { IsErr result ↔ (self.old.past ≡ []) }
    {
        let Some(change) = self.past.pop() else {
            return Err(NothingToUndo);
        };
        let back = make(&mut self.entries, change);
        self.future.push_reserved(back);
        Ok(())
    }

    /// Makes the edit again that the latest undo took back. Takes no memory.
    ///
    /// Error, which changes nothing: no edit was undone since the last one.
    pub fn redo(&mut self) -> Result<(), NothingToRedo>
        ensures redone { self.new ≡ edit_state_after_redo self.old }
        ensures refused { IsErr result ↔ (self.old.future ≡ []) }
    {
        let Some(change) = self.future.pop() else {
            return Err(NothingToRedo);
        };
        let back = make(&mut self.entries, change);
        self.past.push_reserved(back);
        Ok(())
    }
}
