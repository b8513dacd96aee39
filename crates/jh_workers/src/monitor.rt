//! What the threads of a run share beside the world and the log, under one lock: the generator's
//! driver, the number of answered client calls, and what went wrong. A thread that has nothing to
//! do sleeps until it has changed.

ghost use Rattle.std.specs.Prelude.{◌≡◌, ◌↔◌, ◌+◌, ◌<◌, ◌≤◌, ℕ, min, IsTrue, IsSome, IfSome};
ghost use Rattle.std.specs.Prelude.{IsSomeAnd, MatchOption, Some, None, false, true};
ghost use Rattle.jh_ops.specs.declared.call.Request.{Request};
ghost use Rattle.jh_workers.specs.declared.monitor.Assignment.TheVariants as assignment;

use crate::turns::Turns;
use jh_gen::{Driver, Ended, GenAnswer, Thread};
use jh_ops::{Call, Process, Request};
use jh_simnode::WorldError;
use jh_slots::Full;
use rand_core::utils::NextWord;
use rand_pcg::Lcg128Xsl64;
use std::alloc::AllocError;
use std::sync::{Condvar, Mutex, Wait};
use thiserror::Error;

/// Why a run on threads gave no outcome; `RunError` of `jh_simnode` says it of a serial run.
#[derive(Clone, Copy, Debug, PartialEq, Eq, Error)]
pub enum RunError {
    /// The log has too few rows for the records.
    #[error("history full")]
    HistoryFull,
    /// The port refused a call, a step or a tick.
    #[error("{0}")]
    World(WorldError),
    /// The port's journal was not empty at the start, an operation could not be recorded, a record
    /// is of no operation, or journal, history, shares and plan do not agree.
    #[error("mismatch")]
    Mismatch,
    /// A thread, a seat or a share could not be had.
    #[error("thread failed")]
    Thread,
    #[error("out of memory")]
    OutOfMemory,
}

impl From<AllocError> for RunError {
    ghost use Rattle.std.specs.Prelude.{◌≡◌};
    ghost use Rattle.jh_workers.specs.declared.monitor.RunError.TheVariants.{OutOfMemory};

    ghost from_gives = { λ _ e. e ≡ OutOfMemory };

    fn from(_error: AllocError) -> RunError {
        RunError::OutOfMemory
    }
}

impl From<WorldError> for RunError {
    ghost use Rattle.std.specs.Prelude.{◌≡◌};
    ghost use Rattle.jh_workers.specs.declared.monitor.RunError.TheVariants.{World};

    ghost from_gives = { λ error e. e ≡ World error };

    fn from(error: WorldError) -> RunError {
        RunError::World(error)
    }
}

impl From<Full> for RunError {
    ghost use Rattle.std.specs.Prelude.{◌≡◌};
    ghost use Rattle.jh_workers.specs.declared.monitor.RunError.TheVariants.{HistoryFull};

    ghost from_gives = { λ _ e. e ≡ HistoryFull };

    fn from(_error: Full) -> RunError {
        RunError::HistoryFull
    }
}

/// What a client thread is asked to do.
#[derive(Clone, Copy, Debug)]
pub(crate) enum Assignment {
    /// To make a request, as an operation of this process.
    Calls(u64, Request),
    /// To ask again once something has changed.
    Waits,
    /// To end: there is nothing more for any thread, or the run is stopped.
    Ends,
}

/// Where a run stands.
#[derive(Drop)]
struct RunState {
    driver: Driver,
    clients: u32,
    /// How many client calls were answered.
    answered: u32,
    /// At how many answered calls the next entry of the schedule is due, while there is one.
    due: Option<u32>,
    /// Who of the client threads asks next.
    turns: Turns,
    /// Whether all threads are there.
    is_open: bool,
    /// The first error.
    error: Option<RunError>,
}

impl RunState {
    /// The state before the work begins.
    fn new(driver: Driver, clients: u32, due: Option<u32>) -> Self
        ensures begun { (result.error ≡ None) × (result.is_open ≡ false) × (result.answered ≡ 0) }
        ensures due { result.due ≡ due }
    {
        RunState {
            driver,
            clients,
            answered: 0,
            due,
            turns: Turns::new(clients),
            is_open: false,
            error: None,
        }
    }

    /// Lets the work begin: all threads are there.
    fn open(&mut self)
        ensures opened { self.new.is_open ≡ true }
        ensures others { (self.new.error ≡ self.old.error) × (self.new.answered ≡ self.old.answered)
            × (self.new.driver ≡ self.old.driver) × (self.new.clients ≡ self.old.clients) }
    {
        self.is_open = true;
    }

    /// Ends the run with an error, unless another one came first.
    fn stop(&mut self, error: RunError)
        ensures first { MatchOption self.old.error (self.new.error ≡ Some error)
            (λ first. self.new.error ≡ Some first) }
        ensures others { (self.new.is_open ≡ self.old.is_open)
            × (self.new.answered ≡ self.old.answered) × (self.new.driver ≡ self.old.driver)
            × (self.new.clients ≡ self.old.clients) }
    {
        if self.error.is_none() {
            self.error = Some(error);
        }
    }

    /// Whether an error ended the run.
    fn is_stopped(&self) -> bool
        ensures { IsTrue result ↔ IsSome self.now.error }
    {
        self.error.is_some()
    }

    /// The first error, once the threads have ended.
    fn into_error(self) -> Option<RunError>
        ensures { result ≡ self.error }
    {
        self.error
    }

    /// Sets at how many answered calls the next entry of the schedule is due, if there is one.
    fn set_due(&mut self, due: Option<u32>)
        ensures due { self.new.due ≡ due }
        ensures error { self.new.error ≡ self.old.error }
        ensures answered { self.new.answered ≡ self.old.answered }
        ensures open { self.new.is_open ≡ self.old.is_open }
    {
        self.due = due;
    }

    /// Whether the next entry of the schedule is due, and was not taken yet.
    fn has_due_entry(&self) -> bool
        ensures { IsTrue result ↔ IsSomeAnd self.now.due (λ at. at ≤ self.now.answered) }
    {
        match self.due {
            Some(at) => at <= self.answered,
            None => false,
        }
    }

    /// What a client thread is asked to do next. It waits while an entry of the schedule is due, so
    /// that no call begins before the entry is taken; and it waits where it was the last to ask
    /// while others sleep, so that they ask first. Each question to the driver takes a random number.
    fn ask(&mut self, thread: u32, numbers: &mut Lcg128Xsl64) -> Assignment
        ensures stopped { IsSome self.old.error → result ≡ assignment.Ends }
        ensures in_time { (process : ℕ) (request : Request)
            → result ≡ assignment.Calls process request
            → IfSome self.old.due (λ at. self.old.answered < at) }
        ensures error { self.new.error ≡ self.old.error }
        ensures answered { self.new.answered ≡ self.old.answered }
    {
        if self.is_stopped() {
            return Assignment::Ends;
        }
        if !self.is_open || self.has_due_entry() {
            return Assignment::Waits;
        }
        if self.turns.hold(thread) {
            return Assignment::Waits;
        }
        match self.driver.ask(Thread::Client(thread), numbers.next_word()) {
            Ok(GenAnswer::Call(Process::Client(process), Call::Client(request))) => {
                Assignment::Calls(process, request)
            }
            Ok(GenAnswer::Pending) => Assignment::Waits,
            // `Done` alone comes: the generator of a plan has no steps, and a thread asks only when
            // its last operation has ended, so the driver refuses none.
            Ok(GenAnswer::Call(_, _)) | Ok(GenAnswer::Done) | Err(_) => Assignment::Ends,
        }
    }

    /// Frees the thread that lets others ask first, once one has, and says whether there was one.
    fn free_held(&mut self) -> bool
        ensures error { self.new.error ≡ self.old.error }
        ensures answered { self.new.answered ≡ self.old.answered }
    {
        self.turns.free_held()
    }

    /// Counts a client thread that goes to sleep.
    fn begin_sleep(&mut self)
        ensures error { self.new.error ≡ self.old.error }
    {
        self.turns.begin_sleep();
    }

    /// Counts a client thread as awake: it was woken, or asks for the first time.
    fn end_sleep(&mut self)
        ensures error { self.new.error ≡ self.old.error }
    {
        self.turns.end_sleep();
    }

    /// Counts one more answered client call.
    fn count_answer(&mut self)
        ensures error { self.new.error ≡ self.old.error }
        ensures counted { self.new.answered ≡ min (self.old.answered + 1) 4294967295 }
    {
        self.answered = self.answered.saturating_add(1);
    }

    /// Tells the driver how the call of a client thread ended, once it is recorded.
    fn complete(&mut self, thread: u32, ended: Ended)
        ensures error { self.new.error ≡ self.old.error }
        ensures answered { self.new.answered ≡ self.old.answered }
    {
        // A thread completes only what it was given, so this is never refused.
        let _ = self.driver.complete(Thread::Client(thread), ended);
    }

    /// Whether an entry of the schedule is due: enough calls were answered, or the clients have
    /// ended.
    fn is_due(&mut self, at: u32) -> bool
        ensures error { self.new.error ≡ self.old.error }
        ensures waits { IsTrue result → self.old.is_open ≡ true }
        ensures due { self.old.is_open ≡ true → at ≤ self.old.answered → IsTrue result }
    {
        self.is_open && (at <= self.answered || self.have_clients_ended())
    }

    /// Whether the driver has nothing more for any thread, and none has an operation outstanding.
    ///
    /// The generator is for clients alone (`driver_of`), so asking for the nemesis takes no call:
    /// `Done` says that all is spent; then asking a client takes none either, and says only whether
    /// it is busy.
    fn have_clients_ended(&mut self) -> bool
        ensures { self.new.error ≡ self.old.error }
    {
        if !self.is_done(Thread::Nemesis) {
            return false;
        }
        for thread in 0..self.clients {
            if !self.is_done(Thread::Client(thread)) {
                return false;
            }
        }
        true
    }

    /// Whether the driver has nothing more for this thread, which has no operation outstanding.
    fn is_done(&mut self, thread: Thread) -> bool
        ensures error { self.new.error ≡ self.old.error }
        ensures clients { self.new.clients ≡ self.old.clients }
    {
        matches!(self.driver.ask(thread, 0), Ok(GenAnswer::Done))
    }
}

/// A monitor (Hoare, "Monitors: An Operating System Structuring Concept", 1974): the state of a run
/// under its lock, and the sleep of those who wait for a change of it.
#[derive(Drop)]
pub(crate) struct Monitor {
    state: Mutex<RunState>,
    changed: Condvar,
}

impl Monitor {
    /// The monitor of a run before the work begins.
    pub(crate) fn new(driver: Driver, clients: u32, due: Option<u32>) -> Self {
        Monitor {
            state: Mutex::new(RunState::new(driver, clients, due)),
            changed: Condvar::new(),
        }
    }

    /// Lets the work begin: all threads are there.
    pub(crate) fn open(&self, rt: &impl Wait) {
        self.state.lock(rt).open();
        self.changed.notify_all();
    }

    /// Ends the run with an error, unless another one came first.
    pub(crate) fn stop(&self, rt: &impl Wait, error: RunError) {
        self.state.lock(rt).stop(error);
        self.changed.notify_all();
    }

    /// The first error, once the threads have ended.
    pub(crate) fn into_error(self) -> Option<RunError> {
        let Monitor { state, changed: _ } = self;
        state.into_inner().into_error()
    }

    /// Counts one more answered client call.
    pub(crate) fn count_answer(&self, rt: &impl Wait) {
        self.state.lock(rt).count_answer();
        self.changed.notify_all();
    }

    /// Tells the driver how the call of a client thread ended, once it is recorded.
    pub(crate) fn complete(&self, rt: &impl Wait, thread: u32, ended: Ended) {
        self.state.lock(rt).complete(thread, ended);
        self.changed.notify_all();
    }

    /// Counts a client thread as awake, before it asks for the first time.
    pub(crate) fn enter(&self, rt: &impl Wait) {
        self.state.lock(rt).end_sleep();
    }

    /// What a client thread is asked to do next. While there is nothing for it, it sleeps until the
    /// state has changed, and asks again with another random number.
    pub(crate) fn next_assignment<R: Wait>(
        &self,
        rt: &R,
        thread: u32,
        numbers: &mut Lcg128Xsl64,
    ) -> Assignment {
        let mut state = self.state.lock(rt);
        for _ in rt.forever() {
            let next = state.ask(thread, numbers);
            if state.free_held() {
                self.changed.notify_all();
            }
            if !matches!(next, Assignment::Waits) {
                return next;
            }
            state.begin_sleep();
            state = self.changed.wait(rt, state);
            state.end_sleep();
        }
        Assignment::Ends
    }

    /// No entry of the schedule is left, so client threads wait for none.
    pub(crate) fn end_schedule(&self, rt: &impl Wait) {
        self.state.lock(rt).set_due(None);
        self.changed.notify_all();
    }

    /// Sleeps until the next entry of the schedule is due, and says whether it is still wanted.
    pub(crate) fn wait_until_due<R: Wait>(&self, rt: &R, at: u32) -> bool {
        let mut state = self.state.lock(rt);
        state.set_due(Some(at));
        self.changed.notify_all();
        for _ in rt.forever() {
            if state.is_stopped() {
                return false;
            }
            if state.is_due(at) {
                return true;
            }
            state = self.changed.wait(rt, state);
        }
        false
    }
}
