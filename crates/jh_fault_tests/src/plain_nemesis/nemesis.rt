//! A nemesis that keeps the list of active faults as it is now, as it was before each step, and as
//! it was before each step back; and lays the whole list anew after each step.

use crate::plain_nemesis::cells::PlainCells;
use crate::plain_nemesis::faults::PlainFault;
use jh_nemesis::StepAnswer;
use std::alloc::Global;
use std::mem;

/// A step of a nemesis.
#[derive(Drop)]
pub enum PlainStep {
    /// Begins a fault under an id.
    Begin(u32, PlainFault),
    /// Withdraws the active fault of an id.
    Withdraw(u32),
    /// Withdraws all active faults.
    WithdrawAll,
    /// Goes back to the list before the last step.
    Undo,
    /// Goes forth again.
    Redo,
}

/// The ids of active faults, each with the place of its fault among all that were ever begun.
type Active = Vec<(u32, usize)>;

/// Takes steps as a nemesis should. None is answered where memory was refused.
#[derive(Drop)]
pub struct PlainNemesis {
    alloc: Global,
    start: PlainCells,
    cells: PlainCells,
    faults: Vec<PlainFault>,
    active: Active,
    past: Vec<Active>,
    future: Vec<Active>,
}

impl PlainNemesis {
    /// A nemesis over starting cells.
    pub fn new(alloc: Global, start: PlainCells) -> Option<PlainNemesis> {
        Some(PlainNemesis {
            alloc,
            cells: start.copy(alloc)?,
            start,
            faults: Vec::new(alloc),
            active: Vec::new(alloc),
            past: Vec::new(alloc),
            future: Vec::new(alloc),
        })
    }

    /// What the active faults make of the start.
    pub fn cells(&self) -> &PlainCells {
        &self.cells
    }

    /// How many faults are active.
    pub fn active_len(&self) -> usize {
        self.active.len()
    }

    /// The id of the active fault at this place, in the order in which they were begun.
    pub fn id_at(&self, place: usize) -> Option<u32> {
        let (id, _) = self.active.get(place)?;
        Some(*id)
    }

    /// Whether a fault of this id is active.
    fn is_active(&self, id: u32) -> bool {
        self.active.iter().any(|(other, _)| *other == id)
    }

    /// Lays the active faults in their order: those that fix delays, or all others.
    fn lay_active(&self, cells: &mut PlainCells, are_fixes: bool) -> Option<()> {
        for (_, place) in self.active.as_slice() {
            let fault = self.faults.get(*place)?;
            if fault.is_fix() == are_fixes {
                cells.lay(fault)?;
            }
        }
        Some(())
    }

    /// Lays all active faults anew. Fixes come first: a slow delay is added to the last fix, also
    /// to one that was begun after it.
    fn lay_anew(&mut self) -> Option<()> {
        let mut cells = self.start.copy(self.alloc)?;
        self.lay_active(&mut cells, true)?;
        self.lay_active(&mut cells, false)?;
        self.cells = cells;
        Some(())
    }

    /// Whether so many steps lie in the past that none can follow.
    fn is_full(&self) -> bool {
        self.past.len() >= 4096
    }

    /// Goes on to a list that was not there before.
    fn go_on(&mut self, next: Active) -> Option<StepAnswer> {
        let before = mem::replace(&mut self.active, next);
        self.past.push(before).ok()?;
        self.future.clear();
        self.lay_anew()?;
        Some(StepAnswer::Ok)
    }

    /// Begins a fault under an id, and answers the step.
    fn begin(&mut self, id: u32, fault: PlainFault) -> Option<StepAnswer> {
        if self.is_active(id) {
            return Some(StepAnswer::IdTaken);
        }
        if self.active.len() >= 256 {
            return Some(StepAnswer::TooManyActive);
        }
        if self.is_full() {
            return Some(StepAnswer::TooManySteps);
        }
        let mut next = self.active.as_slice().to_vec(self.alloc).ok()?;
        next.push((id, self.faults.len())).ok()?;
        self.faults.push(fault).ok()?;
        self.go_on(next)
    }

    /// Withdraws the active fault of an id, and answers the step.
    fn withdraw(&mut self, id: u32) -> Option<StepAnswer> {
        if !self.is_active(id) {
            return Some(StepAnswer::NotActive);
        }
        if self.is_full() {
            return Some(StepAnswer::TooManySteps);
        }
        let mut next = self.active.as_slice().to_vec(self.alloc).ok()?;
        next.retain(|(other, _)| *other != id);
        self.go_on(next)
    }

    /// Withdraws all active faults, and answers the step.
    fn withdraw_all(&mut self) -> Option<StepAnswer> {
        if self.active.is_empty() {
            return Some(StepAnswer::NothingActive);
        }
        if self.is_full() {
            return Some(StepAnswer::TooManySteps);
        }
        self.go_on(Vec::new(self.alloc))
    }

    /// Goes back to the list before the last step, and answers the step.
    fn undo(&mut self) -> Option<StepAnswer> {
        let Some(before) = self.past.pop() else {
            return Some(StepAnswer::NothingToUndo);
        };
        let after = mem::replace(&mut self.active, before);
        self.future.push(after).ok()?;
        self.lay_anew()?;
        Some(StepAnswer::Ok)
    }

    /// Goes forth again, and answers the step.
    fn redo(&mut self) -> Option<StepAnswer> {
        let Some(after) = self.future.pop() else {
            return Some(StepAnswer::NothingToRedo);
        };
        let before = mem::replace(&mut self.active, after);
        self.past.push(before).ok()?;
        self.lay_anew()?;
        Some(StepAnswer::Ok)
    }

    /// Takes a step, and answers it.
    pub fn apply(&mut self, step: PlainStep) -> Option<StepAnswer> {
        match step {
            PlainStep::Begin(id, fault) => self.begin(id, fault),
            PlainStep::Withdraw(id) => self.withdraw(id),
            PlainStep::WithdrawAll => self.withdraw_all(),
            PlainStep::Undo => self.undo(),
            PlainStep::Redo => self.redo(),
        }
    }
}
