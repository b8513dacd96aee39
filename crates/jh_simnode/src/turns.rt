//! The turns of a serial run: who is asked, what comes of it, and which entries of the schedule are
//! due. `specs/Runs.antt` has the rules, `specs/Running.antt` what holds between two turns.

ghost use Rattle.std.specs.Prelude.{◌≡◌, ◌%◌, ◌<◌, ◌≤◌, List, length, IfOk, IfErr, OnOk, false};
ghost use Rattle.jh_gen.specs.DriverState.{max_clients};
ghost use Rattle.jh_simnode.specs.Limits.{max_events};
ghost use Rattle.jh_simnode.specs.Runs as rule;
ghost use Rattle.jh_simnode.specs.Runs.{Turns};
ghost use Rattle.jh_simnode.specs.Running as running;
ghost use Rattle.jh_simnode.specs.Running.{Asks, StopsOrFills, HasReply, BeforeFirstTurn, MayCall};
ghost use Rattle.jh_simnode.specs.Running.{NothingDue, BetweenTurns};
ghost use Rattle.jh_simnode.specs.declared.events.Event.{Event};

use crate::plan::Plan;
use crate::replicas::Reply;
use crate::schedule::Entry;
use crate::serial::RunError;
use crate::world::World;
use jh_env::Node;
use jh_gen::{Driver, Ended, Gen, GenAnswer, Inner, Thread};
use jh_ops::{Call, Process, Request};
use rand_core::utils::NextWord;
use rand_pcg::Lcg128Xsl64;
use std::alloc::Global;

/// Where a run stands, beside its world.
#[derive(Drop)]
pub(crate) struct Run {
    driver: Driver,
    random_numbers: Lcg128Xsl64,
    /// How many calls of each client thread were answered.
    calls: Vec<u32>,
    /// How many calls of all client threads were answered.
    answered: u32,
    /// How many entries of the schedule were applied.
    applied: usize,
    /// How many times a client thread was asked.
    asks: u64,
    /// How many of the last asks got nothing.
    pub(crate) waits: u32,
    /// Whether the calls have ended: the generator is spent.
    pub(crate) has_ended: bool,
}

/// What a thread is asked to do.
#[derive(Clone, Copy)]
enum Assignment {
    /// To make a request, as an operation of this process.
    Calls(u64, Request),
    Waits,
    Ends,
}

/// How an operation with this reply ends.
pub fn reply_ending(reply: &Reply) -> Ended
    ensures { result ≡ running.reply_ending reply.now }
{
    match reply {
        Reply::Ok(_) => Ended::Ok,
        Reply::Fail => Ended::Fail,
        Reply::Info => Ended::Info,
    }
}

/// The number of a client's process.
fn number_of(process: Process) -> u64
    ensures { result ≡ running.process_number process }
{
    match process {
        Process::Client(number) => number,
        Process::Nemesis => 0,
    }
}

/// Whether a thread that has made so many calls ticks now.
pub fn ticks_at(plan: &Plan, calls: u32) -> bool
    ensures { result ≡ rule.ticks_at plan.now calls }
{
    plan.tick_every() != 0 && calls % plan.tick_every() == 0
}

/// The node that the client thread of this number, from 0, calls.
pub fn node_of(plan: &Plan, thread: u32) -> Node
    ensures node { result ≡ thread % length plan.now.env.names }
    ensures within { result < length plan.now.env.names }
{
    plan.environment().nodes().of_thread(thread)
}

/// The driver of the plan's generator, cut off after as many calls as the plan has, for clients
/// alone.
pub fn driver_of(alloc: Global, plan: &Plan) -> Result<Driver, RunError>
    ensures driver { IfOk result (running.IsFirstDriver plan.now) }
    ensures stopped { IfErr result (StopsOrFills plan.now) }
{
    let limited = Gen::Limit(plan.ops(), Inner::of(alloc, plan.generator().copy(alloc)?)?);
    let source = Gen::Clients(Inner::of(alloc, limited)?);
    match Driver::new(alloc, source, plan.clients()) {
        Ok(driver) => Ok(driver),
        // The plan has as many clients as a driver may have, and its generator suits them, so
        // memory alone can be refused here.
        Err(_) => Err(RunError::OutOfMemory),
    }
}

impl Run {
    /// A run of a plan before its first turn.
    pub(crate) fn new(alloc: Global, plan: &Plan) -> Result<Run, RunError>
        ensures first { IfOk result (BeforeFirstTurn plan.now) }
        ensures stopped { IfErr result (StopsOrFills plan.now) }
    {
        Ok(Run {
            driver: driver_of(alloc, plan)?,
            random_numbers: Lcg128Xsl64::new(u128::from(plan.seed()), 0),
            calls: vec![in alloc; 0; plan.clients() as usize]?,
            answered: 0,
            applied: 0,
            asks: 0,
            waits: 0,
            has_ended: false,
        })
    }

    /// Whether an entry is due, once those before it were applied.
    fn is_due(&self, entry: &Entry) -> bool
        ensures { result ≡ running.is_run_due self.now entry.now }
    {
        self.has_ended || entry.at <= self.answered
    }

    /// Applies the entries of the schedule that are due, in order.
    pub(crate) fn apply_due(
        &mut self,
        alloc: Global,
        plan: &Plan,
        world: &mut World,
    ) -> Result<(), RunError>
        requires { BetweenTurns plan.now self.old world.old }
        ensures settled { OnOk result (NothingDue plan.now self.new world.new) }
        ensures turns { OnOk result
            ((self.new.waits ≡ self.old.waits) × (self.new.has_ended ≡ self.old.has_ended)) }
        ensures grown { OnOk result (length world.old.journal ≤ length world.new.journal) }
        ensures stopped { IfErr result (StopsOrFills plan.now) }
    {
        let entries = plan.schedule().entries();
        while self.applied < entries.len() {
            let entry = &entries[self.applied];
            if !self.is_due(entry) {
                break;
            }
            let step = entry.step.copy(alloc)?;
            // What the world promises of its journal holds before each step.
            // Not used: the contract of this call bounds the journal.
            let _events = world.journal().len();
            world.step(step)?;
            self.applied += 1;
        }
        Ok(())
    }

    /// The thread whose turn it is.
    fn next_thread(&self, plan: &Plan) -> u32
        ensures turn { result ≡ self.now.asks % plan.now.clients }
        ensures within { result < plan.now.clients }
    {
        (self.asks % u64::from(plan.clients())) as u32
    }

    /// Asks for the call of the thread whose turn it is.
    fn ask(&mut self, plan: &Plan, thread: u32) -> Assignment
        requires { running.HasRoomToAsk self.old thread }
        ensures { (r : Turns) (journal : List Event)
            → running.IsAsking plan.now r journal self.old thread
            → Asks plan.now r journal result self.new }
    {
        let random_number = self.random_numbers.next_word();
        self.asks += 1;
        match self.driver.ask(Thread::Client(thread), random_number) {
            Ok(GenAnswer::Call(process, Call::Client(request))) => {
                Assignment::Calls(number_of(process), request)
            }
            // This never comes: the generator of a plan has no steps.
            Ok(GenAnswer::Call(_, Call::Step(_))) => {
                self.has_ended = true;
                Assignment::Ends
            }
            Ok(GenAnswer::Pending) => {
                self.waits += 1;
                Assignment::Waits
            }
            Ok(GenAnswer::Done) => {
                self.has_ended = true;
                Assignment::Ends
            }
            Err(_) => unreachable!(),
        }
    }

    /// Makes the call that a thread was given.
    fn call(
        &mut self,
        plan: &Plan,
        world: &mut World,
        thread: u32,
        process: u64,
        request: Request,
    ) -> Result<(), RunError>
        requires { MayCall plan.now self.old world.old thread process request }
        ensures called { OnOk result (HasReply plan.now self.new world.new thread) }
        ensures grown { OnOk result (length world.old.journal < length world.new.journal) }
        ensures turns { OnOk result ((self.new.waits ≡ 0) × (self.new.has_ended ≡ false)) }
        ensures stopped { IfErr result (StopsOrFills plan.now) }
    {
        let draw = self.random_numbers.next_word();
        let (_, reply) = world.call(process, node_of(plan, thread), request, draw)?;
        match self
            .driver
            .complete(Thread::Client(thread), reply_ending(&reply))
        {
            Ok(()) => {}
            Err(_) => unreachable!(),
        }
        self.calls[thread as usize] += 1;
        self.answered += 1;
        self.waits = 0;
        Ok(())
    }

    /// Ticks where the thread's last call is followed by a tick.
    fn tick_if_due(&self, plan: &Plan, world: &mut World, thread: u32) -> Result<(), RunError>
        requires { HasReply plan.now self.now world.old thread }
        ensures stands { OnOk result (BetweenTurns plan.now self.now world.new) }
        ensures grown { OnOk result (length world.old.journal ≤ length world.new.journal) }
        ensures few { length world.old.journal ≤ max_events }
        ensures stopped { IfErr result (StopsOrFills plan.now) }
    {
        // Not used: the contract of this call bounds the journal.
        let _events = world.journal().len();
        if ticks_at(plan, self.calls[thread as usize]) {
            world.tick()?;
        }
        Ok(())
    }

    /// Asks the next thread, and makes the call that it is given.
    pub(crate) fn take_turn(&mut self, plan: &Plan, world: &mut World) -> Result<(), RunError>
        requires settled { NothingDue plan.now self.old world.old }
        requires going { self.old.has_ended ≡ false }
        requires patient { self.old.waits < plan.now.clients }
        requires crowd { plan.now.clients ≤ max_clients }
        ensures stands { OnOk result (BetweenTurns plan.now self.new world.new) }
        ensures falls { OnOk result (running.Falls self.old world.old self.new world.new) }
        ensures stopped { IfErr result (StopsOrFills plan.now) }
    {
        // Not used: the contract of this call bounds the journal.
        let _events = world.journal().len();
        let thread = self.next_thread(plan);
        match self.ask(plan, thread) {
            Assignment::Calls(process, request) => {
                self.call(plan, world, thread, process, request)?;
                self.tick_if_due(plan, world, thread)
            }
            Assignment::Waits => Ok(()),
            Assignment::Ends => Ok(()),
        }
    }
}
