//! A nemesis: faults that are begun and withdrawn over an environment, with undo and redo.
//! `specs/Steps.antt` says what a step does, `specs/Work.antt` how much it may write,
//! `specs/AcceptedInside.antt` which faults the accepted steps make active, and what holds between
//! the fields.

ghost use Rattle.std.specs.Prelude.{◌≡◌, ◌≢◌, ◌+◌, ◌≤◌, ◌<◌, ◌↔◌, [], true, false, length, map};
ghost use Rattle.jh_edn.specs.Edn.{is_empty};
ghost use Rattle.std.specs.Prelude.{option_map, slice_get, MatchResult, OnErr, OnOk, IfOk, IsOk};
ghost use Rattle.std.specs.Prelude.{IsErr, nat_le};
ghost use Rattle.std.specs.List.{All};
ghost use Rattle.jh_env.specs.Overlay.{StandsFor, work_of};
ghost use Rattle.jh_env.specs.Faults.{FitsCount};
ghost use Rattle.jh_nemesis.specs.State.{faults_in, first_state, state_back_to};
ghost use Rattle.jh_nemesis.specs.State.{state_forth_to};
ghost use Rattle.jh_nemesis.specs.Work.{size_between, size_of_step, size_of_steps};
ghost use Rattle.jh_nemesis.specs.Changed.{changed_by, AgreeElsewhere};

use crate::accepted::{
    AcceptedStep, Stamps, apply_to_active, changed_at, faults_of, put_at, revert_in_active,
    stamp_of,
};
use crate::effects::{apply_to_environment, revert_in_environment};
use crate::steps::{
    BeginError, MAX_ACTIVE, MAX_STEPS, NothingToRedo, NothingToUndo, Step, StepAnswer, Stopped,
    WithdrawAllError, WithdrawError,
};
use jh_env::{Env, Fault};
use std::alloc::{AllocError, Global};
use std::marker::Model;

/// Faults over an environment, each begun under an id and active until it is withdrawn. A contract
/// sees the names, the starting cells, the active faults now and at the moments before and after,
/// and how often the environment was written.
#[derive(Debug, Drop)]
pub struct Nemesis {
    alloc: Global,
    env: Env,
    accepted: Vec<AcceptedStep>,
    cursor: usize,
    active: Stamps,
}

impl Model for Nemesis {
    ghost use Rattle.jh_nemesis.specs.Work.{NemesisValue};

    ghost Value = { NemesisValue };

    ghost use Rattle.jh_nemesis.specs.NemesisInside.{nemesis_of, IsSound};

    ghost view = { nemesis_of };

    ghost invariant = { IsSound };
}

impl Nemesis {
    ghost use Rattle.jh_nemesis.specs.Steps.{
      max_active,
      max_steps,
      begin_answer,
      withdraw_answer,
      withdraw_all_answer,
      answer_of,
      state_after,
      answers_of,
      state_after_all,
      is_free,
      is_ok,
      StepFits,
      TakesFirst,
      RefusesBegin,
      RefusesWithdraw,
      RefusesWithdrawAll,
    };
    ghost use Rattle.jh_nemesis.specs.declared.steps.Step.TheVariants.{Begin, Withdraw};
    ghost use Rattle.jh_nemesis.specs.declared.steps.Step.TheVariants.{WithdrawAll, Undo, Redo};

    /// A nemesis over an environment in which no fault is laid.
    pub fn new(alloc: Global, env: Env) -> Nemesis
        requires { StandsFor env [] }
        ensures state { result.state ≡ first_state env }
        ensures work { result.work ≡ work_of env }
    {
        Nemesis {
            alloc,
            env,
            accepted: Vec::new(alloc),
            cursor: 0,
            active: Stamps::new(),
        }
    }

    /// The environment: what the active faults make of its start.
    pub fn env(&self) -> &Env
        ensures overlay { StandsFor result.now (faults_in self.now.state.active) }
        ensures names { result.now.names ≡ self.now.state.names }
        ensures start { result.now.start ≡ self.now.state.start }
        ensures work { work_of result.now ≡ self.now.work }
    {
        &self.env
    }

    /// How many faults are active, at most `MAX_ACTIVE`.
    pub fn active_len(&self) -> usize
        ensures len { result ≡ length self.now.state.active }
        ensures few { result ≤ max_active }
    {
        self.active.len()
    }

    /// The active fault at this place from 0, with its id, in the order in which they were begun.
    pub fn active_at(&self, place: usize) -> Option<(u32, &Fault)>
        ensures { option_map (λ f. (f.0, f.1.now)) result ≡ slice_get self.now.state.active place }
    {
        let stamp = *self.active.get(place)?;
        match &self.accepted[stamp] {
            AcceptedStep::Begun(id, fault) => Some((*id, fault)),
            _ => None,
        }
    }

    /// Whether as many steps lie in the past as can be kept.
    fn is_full(&self) -> bool
        ensures { result ≡ nat_le max_steps (length self.now.state.past) }
    {
        self.cursor >= MAX_STEPS
    }

    /// The answer to a begin, if there is memory.
    fn check_begin(&self, id: u32) -> StepAnswer
        ensures { result ≡ begin_answer self.now.state id }
    {
        if stamp_of(&self.accepted, &self.active, id).is_some() {
            return StepAnswer::IdTaken;
        }
        if self.active.len() >= MAX_ACTIVE {
            return StepAnswer::TooManyActive;
        }
        if self.is_full() {
            return StepAnswer::TooManySteps;
        }
        StepAnswer::Ok
    }

    /// Begins a fault under an id, and answers the step. An accepted step is put at the cursor, as
    /// though it had been undone, and then taken as a redo takes it.
    fn begin_step(&mut self, id: u32, fault: Fault) -> Result<StepAnswer, AllocError>
        requires { FitsCount (length self.old.state.names) fault }
        ensures ok { IfOk result
            (λ answer. (answer ≡ begin_answer self.old.state id)
            × (self.new.state ≡ state_after self.old.state (Begin id fault))) }
        ensures refused { IfOk result (λ answer. is_ok answer ≡ false → self.new ≡ self.old) }
        ensures err { OnErr result
            ((begin_answer self.old.state id ≡ StepAnswer.Ok) × (self.new ≡ self.old)) }
        ensures work { self.new.work
            ≤ self.old.work + size_of_step self.old.state (Begin id fault) }
    {
        let answer = self.check_begin(id);
        if answer != StepAnswer::Ok {
            return Ok(answer);
        }
        put_at(
            &mut self.accepted,
            self.cursor,
            AcceptedStep::Begun(id, fault),
        )?;
        self.apply_next();
        Ok(StepAnswer::Ok)
    }

    /// Withdraws the active fault of an id, and answers the step, as `begin_step` does.
    fn withdraw_step(&mut self, id: u32) -> Result<StepAnswer, AllocError>
        ensures ok { IfOk result
            (λ answer. (answer ≡ withdraw_answer self.old.state id)
            × (self.new.state ≡ state_after self.old.state (Withdraw id))) }
        ensures refused { IfOk result (λ answer. is_ok answer ≡ false → self.new ≡ self.old) }
        ensures err { OnErr result
            ((withdraw_answer self.old.state id ≡ StepAnswer.Ok) × (self.new ≡ self.old)) }
        ensures work { self.new.work ≤ self.old.work + size_of_step self.old.state (Withdraw id) }
    {
        let answer = self.check_withdraw(id);
        if answer != StepAnswer::Ok {
            return Ok(answer);
        }
        let Some(stamp) = stamp_of(&self.accepted, &self.active, id) else {
            unreachable!();
        };
        put_at(
            &mut self.accepted,
            self.cursor,
            AcceptedStep::Withdrawn(stamp),
        )?;
        self.apply_next();
        Ok(StepAnswer::Ok)
    }

    /// The answer to a withdrawal, if there is memory.
    fn check_withdraw(&self, id: u32) -> StepAnswer
        ensures { result ≡ withdraw_answer self.now.state id }
    {
        if stamp_of(&self.accepted, &self.active, id).is_none() {
            return StepAnswer::NotActive;
        }
        if self.is_full() {
            return StepAnswer::TooManySteps;
        }
        StepAnswer::Ok
    }

    /// The answer to a withdrawal of all faults, if there is memory.
    fn check_withdraw_all(&self) -> StepAnswer
        ensures { result ≡ withdraw_all_answer self.now.state }
    {
        if self.active.is_empty() {
            return StepAnswer::NothingActive;
        }
        if self.is_full() {
            return StepAnswer::TooManySteps;
        }
        StepAnswer::Ok
    }

    /// Withdraws all active faults, and answers the step.
    fn withdraw_all_step(&mut self) -> Result<StepAnswer, AllocError>
        ensures ok { IfOk result
            (λ answer. (answer ≡ withdraw_all_answer self.old.state)
            × (self.new.state ≡ state_after self.old.state WithdrawAll)) }
        ensures refused { IfOk result (λ answer. is_ok answer ≡ false → self.new ≡ self.old) }
        ensures err { OnErr result
            ((withdraw_all_answer self.old.state ≡ StepAnswer.Ok) × (self.new ≡ self.old)) }
        ensures work { self.new.work ≤ self.old.work + size_of_step self.old.state WithdrawAll }
    {
        let answer = self.check_withdraw_all();
        if answer != StepAnswer::Ok {
            return Ok(answer);
        }
        let stamps = Vec::from_slice(self.alloc, &self.active)?;
        put_at(
            &mut self.accepted,
            self.cursor,
            AcceptedStep::WithdrawnAll(stamps),
        )?;
        self.apply_next();
        Ok(StepAnswer::Ok)
    }

    /// Whether no step lies before.
    fn is_at_start(&self) -> bool
        ensures { result ≡ is_empty self.now.state.past }
    {
        self.cursor == 0
    }

    /// Whether no step was undone.
    fn is_at_end(&self) -> bool
        ensures { result ≡ is_empty self.now.state.future }
    {
        self.cursor == self.accepted.len()
    }

    /// The answer to a step, if there is memory.
    fn check(&self, step: &Step) -> StepAnswer
        ensures { result ≡ answer_of self.now.state step.now }
    {
        match step {
            Step::Begin(id, _) => self.check_begin(*id),
            Step::Withdraw(id) => self.check_withdraw(*id),
            Step::WithdrawAll => self.check_withdraw_all(),
            Step::Undo if self.is_at_start() => StepAnswer::NothingToUndo,
            Step::Redo if self.is_at_end() => StepAnswer::NothingToRedo,
            _ => StepAnswer::Ok,
        }
    }

    /// The faults that this step would begin or end: those that are active before it or after it
    /// and not at both moments. A refused step has none. What none of them names stays as it is.
    /// Takes time for these faults, and for the stamps of the active ones, at most
    /// `MAX_ACTIVE`.
    ///
    /// Error: memory was refused, which a step without such faults does not take.
    pub fn changed_by<'a>(
        &'a self,
        alloc: Global,
        step: &'a Step,
    ) -> Result<Vec<&'a Fault>, AllocError>
        ensures faults { IfOk result
            (λ faults. map (λ f. f.now) faults.items ≡ changed_by self.now.state step.now) }
        ensures elsewhere { AgreeElsewhere (changed_by self.now.state step.now)
            (faults_in self.now.state.active)
            (faults_in (state_after self.now.state step.now).active) }
        ensures memory { OnErr result (changed_by self.now.state step.now ≢ []) }
    {
        if self.check(step) != StepAnswer::Ok {
            return Ok(Vec::new(alloc));
        }
        match step {
            Step::Begin(_, fault) => Ok(vec![in alloc; fault]?),
            Step::Withdraw(id) => match stamp_of(&self.accepted, &self.active, *id) {
                Some(stamp) => faults_of(alloc, &self.accepted, &[stamp]),
                None => Ok(Vec::new(alloc)),
            },
            Step::WithdrawAll => faults_of(alloc, &self.accepted, &self.active),
            Step::Undo => changed_at(alloc, &self.accepted, self.cursor - 1),
            Step::Redo => changed_at(alloc, &self.accepted, self.cursor),
        }
    }

    /// Reverts the last step, in the environment and in the active list.
    fn revert_last(&mut self)
        requires { is_empty self.old.state.past ≡ false }
        ensures state { self.new.state ≡ state_back_to self.old.state self.old.state.past }
        ensures work { self.new.work
            ≤ self.old.work + size_between self.old.state.active self.new.state.active }
    {
        self.cursor -= 1;
        revert_in_environment(&mut self.env, &self.accepted, self.cursor);
        revert_in_active(&self.accepted, self.cursor, &mut self.active);
    }

    /// Applies the step behind the cursor, to the environment and to the active list.
    fn apply_next(&mut self)
        requires { is_empty self.old.state.future ≡ false }
        ensures state { self.new.state ≡ state_forth_to self.old.state self.old.state.future }
        ensures work { self.new.work
            ≤ self.old.work + size_between self.old.state.active self.new.state.active }
    {
        apply_to_environment(&mut self.env, &self.accepted, self.cursor);
        apply_to_active(&self.accepted, self.cursor, &mut self.active);
        self.cursor += 1;
    }

    /// Undoes the last step that stands, and answers the request.
    fn undo_step(&mut self) -> StepAnswer
        ensures answer { result ≡ answer_of self.old.state Undo }
        ensures state { self.new.state ≡ state_after self.old.state Undo }
        ensures refused { is_ok result ≡ false → self.new ≡ self.old }
        ensures work { self.new.work ≤ self.old.work + size_of_step self.old.state Undo }
    {
        if self.is_at_start() {
            return StepAnswer::NothingToUndo;
        }
        self.revert_last();
        StepAnswer::Ok
    }

    /// Redoes the step that was undone last, and answers the request.
    fn redo_step(&mut self) -> StepAnswer
        ensures answer { result ≡ answer_of self.old.state Redo }
        ensures state { self.new.state ≡ state_after self.old.state Redo }
        ensures refused { is_ok result ≡ false → self.new ≡ self.old }
        ensures work { self.new.work ≤ self.old.work + size_of_step self.old.state Redo }
    {
        if self.is_at_end() {
            return StepAnswer::NothingToRedo;
        }
        self.apply_next();
        StepAnswer::Ok
    }

    /// Takes a step, and answers it; a refused step changes nothing. The fault of a begin must fit
    /// the environment, as `Fault::fits` tests. An accepted step writes no more often than the sizes of
    /// the faults that it begins or ends say (`steps_write_their_faults`). It takes time for the links and
    /// nodes of these faults, and for the stamps of the active faults, at most `MAX_ACTIVE`.
    ///
    /// Error: memory was refused to a step that would be accepted. Then nothing has changed. Undo and
    /// redo take no memory.
    pub fn apply(&mut self, step: Step) -> Result<StepAnswer, AllocError>
        requires { StepFits self.old.state step }
        ensures answer { MatchResult result
            (λ answer. (answer ≡ answer_of self.old.state step)
            × (self.new.state ≡ state_after self.old.state step))
            (λ _. (answer_of self.old.state step ≡ StepAnswer.Ok) × (self.new ≡ self.old)) }
        ensures refused { IfOk result (λ answer. is_ok answer ≡ false → self.new ≡ self.old) }
        ensures work { self.new.work ≤ self.old.work + size_of_step self.old.state step }
        ensures free { is_free step ≡ true → IsOk result }
    {
        match step {
            Step::Begin(id, fault) => self.begin_step(id, fault),
            Step::Withdraw(id) => self.withdraw_step(id),
            Step::WithdrawAll => self.withdraw_all_step(),
            Step::Undo => Ok(self.undo_step()),
            Step::Redo => Ok(self.redo_step()),
        }
    }

    /// Takes steps, one after another, and answers each. The fault of each begin must fit the
    /// environment.
    ///
    /// Error: memory was refused, for all answers before any step was taken, or to a step that
    /// would be accepted. What was taken until then stands, and `Stopped` has its answers; the next
    /// step changed nothing.
    pub fn apply_all(&mut self, alloc: Global, steps: Vec<Step>) -> Result<Vec<StepAnswer>, Stopped>
        requires { All (StepFits self.old.state) steps.items }
        ensures answer { MatchResult result
            (λ answers. (answers.items ≡ answers_of self.old.state steps.items)
            × (self.new.state ≡ state_after_all self.old.state steps.items))
            (λ stopped. TakesFirst self.old.state steps.items stopped self.new.state) }
        ensures work { self.new.work ≤ self.old.work + size_of_steps self.old.state steps.items }
    {
        let mut answers = Vec::new(alloc);
        if answers.reserve(steps.len()).is_err() {
            return Err(Stopped { taken: answers });
        }
        for step in steps {
            match self.apply(step) {
                Ok(answer) => answers.push_reserved(answer),
                Err(_) => return Err(Stopped { taken: answers }),
            }
        }
        Ok(answers)
    }

    /// Begins a fault under an id that no active fault has. The fault must fit the environment, as
    /// `Fault::fits` tests.
    ///
    /// Errors, which change nothing: `IdTaken`; `TooManyActive` where `MAX_ACTIVE` faults are
    /// active; `TooManySteps` where `MAX_STEPS` steps lie in the past; `OutOfMemory`.
    pub fn begin(&mut self, id: u32, fault: Fault) -> Result<(), BeginError>
        requires { FitsCount (length self.old.state.names) fault }
        ensures answer { MatchResult result
            (λ _. (begin_answer self.old.state id ≡ StepAnswer.Ok)
            × (self.new.state ≡ state_after self.old.state (Begin id fault)))
            (λ e. (self.new ≡ self.old) × RefusesBegin self.old.state id e) }
        ensures work { self.new.work
            ≤ self.old.work + size_of_step self.old.state (Begin id fault) }
    {
        match self.begin_step(id, fault) {
            Ok(StepAnswer::IdTaken) => Err(BeginError::IdTaken),
            Ok(StepAnswer::TooManyActive) => Err(BeginError::TooManyActive),
            Ok(StepAnswer::TooManySteps) => Err(BeginError::TooManySteps),
            Ok(_) => Ok(()),
            Err(_) => Err(BeginError::OutOfMemory),
        }
    }

    /// Withdraws the active fault of an id. What other faults or the start make of the environment
    /// stays.
    ///
    /// Errors, which change nothing: `NotActive`; `TooManySteps` where `MAX_STEPS` steps lie in the past;
    /// `OutOfMemory`.
    pub fn withdraw(&mut self, id: u32) -> Result<(), WithdrawError>
        ensures answer { MatchResult result
            (λ _. (withdraw_answer self.old.state id ≡ StepAnswer.Ok)
            × (self.new.state ≡ state_after self.old.state (Withdraw id)))
            (λ e. (self.new ≡ self.old) × RefusesWithdraw self.old.state id e) }
        ensures work { self.new.work ≤ self.old.work + size_of_step self.old.state (Withdraw id) }
    {
        match self.withdraw_step(id) {
            Ok(StepAnswer::NotActive) => Err(WithdrawError::NotActive),
            Ok(StepAnswer::TooManySteps) => Err(WithdrawError::TooManySteps),
            Ok(_) => Ok(()),
            Err(_) => Err(WithdrawError::OutOfMemory),
        }
    }

    /// Withdraws all active faults: the environment is its start again, whatever that was.
    ///
    /// Errors, which change nothing: `NothingActive`; `TooManySteps` where `MAX_STEPS` steps lie in the
    /// past; `OutOfMemory`.
    pub fn withdraw_all(&mut self) -> Result<(), WithdrawAllError>
        ensures answer { MatchResult result
            (λ _. (withdraw_all_answer self.old.state ≡ StepAnswer.Ok)
            × (self.new.state ≡ state_after self.old.state WithdrawAll))
            (λ e. (self.new ≡ self.old) × RefusesWithdrawAll self.old.state e) }
        ensures work { self.new.work ≤ self.old.work + size_of_step self.old.state WithdrawAll }
    {
        match self.withdraw_all_step() {
            Ok(StepAnswer::NothingActive) => Err(WithdrawAllError::NothingActive),
            Ok(StepAnswer::TooManySteps) => Err(WithdrawAllError::TooManySteps),
            Ok(_) => Ok(()),
            Err(_) => Err(WithdrawAllError::OutOfMemory),
        }
    }

    /// Takes back the last begin or withdrawal that stands: the faults that were active before it
    /// are active again, each in its place. It takes no memory.
    ///
    /// Error, which changes nothing: no step lies in the past.
    pub fn undo(&mut self) -> Result<(), NothingToUndo>
        ensures undone { OnOk result (self.new.state ≡ state_after self.old.state Undo) }
        ensures unchanged { OnErr result (self.new ≡ self.old) }
        ensures refused { IsErr result ↔ (self.old.state.past ≡ []) }
        ensures work { self.new.work ≤ self.old.work + size_of_step self.old.state Undo }
    {
        match self.undo_step() {
            StepAnswer::NothingToUndo => Err(NothingToUndo),
            _ => Ok(()),
        }
    }

    /// Takes the begin or withdrawal again that was taken back last. It takes no memory.
    ///
    /// Error, which changes nothing: no step was undone since the last begin or withdrawal.
    pub fn redo(&mut self) -> Result<(), NothingToRedo>
        ensures redone { OnOk result (self.new.state ≡ state_after self.old.state Redo) }
        ensures unchanged { OnErr result (self.new ≡ self.old) }
        ensures refused { IsErr result ↔ (self.old.state.future ≡ []) }
        ensures work { self.new.work ≤ self.old.work + size_of_step self.old.state Redo }
    {
        match self.redo_step() {
            StepAnswer::NothingToRedo => Err(NothingToRedo),
            _ => Ok(()),
        }
    }
}
