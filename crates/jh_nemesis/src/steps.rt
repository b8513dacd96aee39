//! Steps and the answers to them. `specs/Steps.antt` says which answer a step has; a new kind of
//! step begins there.

ghost use Rattle.std.specs.Prelude.{◌≡◌, ◌↔◌, IfOk, IsTrue, length, pos};
ghost use Rattle.jh_nemesis.specs.Steps.{FitsNodes, code_of};

use jh_env::{Env, Fault, MAX_LAID};
use std::alloc::{AllocError, Global};
use std::marker::Model;
use thiserror::Error;

/// The most faults that are active at once: as many as can be laid.
pub const MAX_ACTIVE: usize = MAX_LAID;

/// The most begins and withdrawals that lie in the past, where undo can reach them.
pub const MAX_STEPS: usize = 4096;

/// A step of a nemesis.
#[derive(Debug, Drop)]
pub enum Step {
    /// Begins a fault under an id.
    Begin(u32, Fault),
    /// Withdraws the active fault of an id.
    Withdraw(u32),
    /// Withdraws all active faults.
    WithdrawAll,
    /// Takes back the last begin or withdrawal that stands.
    Undo,
    /// Takes the begin or withdrawal again that was taken back last.
    Redo,
}

impl Step {
    /// The same step once more, with a copy of its fault.
    pub fn copy(&self, alloc: Global) -> Result<Step, AllocError>
        ensures { IfOk result (λ copy. copy ≡ self.now) }
    {
        match self {
            Step::Begin(id, fault) => Ok(Step::Begin(*id, fault.copy(alloc)?)),
            Step::Withdraw(id) => Ok(Step::Withdraw(*id)),
            Step::WithdrawAll => Ok(Step::WithdrawAll),
            Step::Undo => Ok(Step::Undo),
            Step::Redo => Ok(Step::Redo),
        }
    }

    /// Whether each node that its fault names is in the environment; so it is where it has no fault.
    pub fn fits(&self, env: &Env) -> bool
        ensures { IsTrue result ↔ FitsNodes (length env.now.names) self.now }
    {
        match self {
            Step::Begin(_, fault) => fault.fits(env),
            Step::Withdraw(_) => true,
            Step::WithdrawAll => true,
            Step::Undo => true,
            Step::Redo => true,
        }
    }

    /// Whether the other is the same step, with the same fault where it begins one
    /// ([`Fault::is_same`]).
    pub fn is_same(&self, other: &Step) -> bool
        ensures { IsTrue result ↔ (self.now ≡ other.now) }
    {
        match (self, other) {
            (Step::Begin(id, fault), Step::Begin(other_id, other_fault)) => {
                id == other_id && fault.is_same(other_fault)
            }
            (Step::Withdraw(id), Step::Withdraw(other_id)) => id == other_id,
            (Step::WithdrawAll, Step::WithdrawAll) => true,
            (Step::Undo, Step::Undo) => true,
            (Step::Redo, Step::Redo) => true,
            _ => false,
        }
    }
}

/// The answer to a step.
#[derive(Clone, Copy, Debug, PartialEq, Eq)]
pub enum StepAnswer {
    /// The step is accepted.
    Ok,
    /// A fault of this id is active already.
    IdTaken,
    /// As many faults are active as can be (`MAX_ACTIVE`).
    TooManyActive,
    /// As many steps lie in the past as can be kept (`MAX_STEPS`).
    TooManySteps,
    /// No fault of this id is active.
    NotActive,
    /// No fault is active.
    NothingActive,
    /// No step stands that could be undone.
    NothingToUndo,
    /// No step was undone since the last begin or withdrawal.
    NothingToRedo,
}

impl StepAnswer {
    /// The code by which a history records the answer, from 0 to 7.
    pub fn code(self) -> i64
        ensures { result ≡ pos (code_of self) }
    {
        match self {
            StepAnswer::Ok => 0,
            StepAnswer::IdTaken => 1,
            StepAnswer::TooManyActive => 2,
            StepAnswer::TooManySteps => 3,
            StepAnswer::NotActive => 4,
            StepAnswer::NothingActive => 5,
            StepAnswer::NothingToUndo => 6,
            StepAnswer::NothingToRedo => 7,
        }
    }
}

/// Why a fault is not begun.
#[derive(Clone, Copy, Debug, PartialEq, Eq, Error)]
pub enum BeginError {
    #[error("id taken")]
    IdTaken,
    #[error("too many active")]
    TooManyActive,
    #[error("too many steps")]
    TooManySteps,
    #[error("out of memory")]
    OutOfMemory,
}

/// Why a fault is not withdrawn.
#[derive(Clone, Copy, Debug, PartialEq, Eq, Error)]
pub enum WithdrawError {
    #[error("not active")]
    NotActive,
    #[error("too many steps")]
    TooManySteps,
    #[error("out of memory")]
    OutOfMemory,
}

/// Why not all faults are withdrawn.
#[derive(Clone, Copy, Debug, PartialEq, Eq, Error)]
pub enum WithdrawAllError {
    #[error("nothing active")]
    NothingActive,
    #[error("too many steps")]
    TooManySteps,
    #[error("out of memory")]
    OutOfMemory,
}

/// No step stands that could be undone.
#[derive(Clone, Copy, Debug, PartialEq, Eq, Error)]
#[error("nothing to undo")]
pub struct NothingToUndo;

/// No step was undone that could be taken again.
#[derive(Clone, Copy, Debug, PartialEq, Eq, Error)]
#[error("nothing to redo")]
pub struct NothingToRedo;

/// Memory was refused before all steps were taken. A contract sees the answers to those that were.
#[derive(Debug, Drop)]
pub struct Stopped {
    pub(crate) taken: Vec<StepAnswer>,
}

impl Model for Stopped {
    ghost use Rattle.std.specs.Prelude.{List};
    ghost use Rattle.jh_nemesis.specs.declared.steps.StepAnswer.{StepAnswer};

    ghost Value = { List StepAnswer };

    ghost view = { λ a. a.taken.items };
}

impl Stopped {
    /// The answers to the steps that were taken, in order.
    pub fn answers(&self) -> &[StepAnswer]
        ensures { result.now ≡ self.now }
    {
        &self.taken
    }
}
