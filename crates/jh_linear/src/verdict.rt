//! What the checker answers.
//!
//! `specs/Verdict.antt` says what each answer means, over the lists that contracts see here.

ghost use Rattle.std.specs.Prelude.{◌≡◌};

use std::marker::Model;

/// The numbers of operations in the order in which these are linearized: a linearization, or a part
/// of one. The number of an operation is its index in the list that `reg_ops` gives, from 0, and no
/// place of the history. A contract sees a list.
#[derive(Debug, Drop)]
pub struct Linearization {
    numbers: Vec<usize>,
}

impl Model for Linearization {
    ghost use Rattle.std.specs.Prelude.{List, ℕ};

    ghost Value = { List ℕ };

    ghost view = { λ a. a.numbers.items };
}

impl Linearization {
    /// The linearization with the numbers of a vector. Takes no memory.
    pub fn of(numbers: Vec<usize>) -> Linearization
        ensures { result ≡ numbers.items }
    {
        Linearization { numbers }
    }

    /// The numbers, one after another.
    pub fn as_slice(&self) -> &[usize]
        ensures { result.now ≡ self.now }
    {
        self.numbers.as_slice()
    }

    /// The vector of the numbers. Takes no memory.
    pub fn into_vec(self) -> Vec<usize>
        ensures { result.items ≡ self }
    {
        let Linearization { numbers } = self;
        numbers
    }
}

/// A configuration that the search reached, given as an earlier one and the operations that were
/// linearized since: it stands for the order of the step `parent` with `placed` behind it. The
/// first step of all names itself as its parent, places nothing, and stands for the empty order.
#[derive(Debug, Drop)]
pub struct Step {
    pub parent: usize,
    pub placed: Linearization,
}

/// The configurations that the search reached, each as a step. A contract sees a list of steps.
#[derive(Debug, Drop)]
pub struct Reached {
    steps: Vec<Step>,
}

impl Model for Reached {
    ghost use Rattle.std.specs.Prelude.{List};
    ghost use Rattle.jh_linear.specs.declared.verdict.Step.{Step};

    ghost Value = { List Step };

    ghost view = { λ a. a.steps.items };
}

impl Reached {
    /// The configurations that the steps of a vector stand for. Takes no memory.
    pub fn of(steps: Vec<Step>) -> Reached
        ensures { result ≡ steps.items }
    {
        Reached { steps }
    }

    /// The steps.
    pub fn as_slice(&self) -> &[Step]
        ensures { result.now ≡ self.now }
    {
        self.steps.as_slice()
    }

    /// The vector of the steps. Takes no memory.
    pub fn into_vec(self) -> Vec<Step>
        ensures { result.items ≡ self }
    {
        let Reached { steps } = self;
        steps
    }
}

/// Why operations have no linearization: the completion right before which the history has to be
/// cut for them to have one. `specs/Stuck.antt` says what is known of operations in a history that
/// is cut.
#[derive(Debug, Drop)]
pub struct Stuck {
    /// The place in the history of the first completion with which there is no linearization any
    /// more. It is the place where the operation ended, and `usize::MAX` for an operation that
    /// happened and has no such place. Where several operations ended at that place, any of them
    /// may be meant.
    pub end: usize,
    /// A linearization of the history that is cut right before that completion.
    pub order: Linearization,
    /// The value of the register after it.
    pub value: Option<i64>,
}

/// The checker's answer on the operations of a register.
#[derive(Debug, Drop)]
pub enum LinVerdict {
    /// They are linearizable: they can have taken effect in this order.
    Valid(Linearization),
    /// They are not linearizable, and this is the completion at which that shows.
    Invalid(Stuck),
    /// The budget was used up. There are as many steps as the budget, no two of which stand for the
    /// same operations and value.
    Unknown(Reached),
}
