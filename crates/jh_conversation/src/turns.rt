//! A turn of a test: all that can be said at a moment. `specs/Turn.antt` has the rule; whoever adds a phase
//! begins there. A turn of `jh_lines`, which holds the conversation, is another thing: to tell and to listen.

ghost use Rattle.std.specs.Prelude.{◌≡◌, ◌<◌, ◌≤◌, ◌^◌, length, true, IfOk, OnOk, None, Some, is_some};
ghost use Rattle.std.specs.Prelude.{slice_index_or};
ghost use Rattle.jh_edn.specs.View.{view};
ghost use Rattle.jh_nemesis.specs.State.{faults_in};
ghost use Rattle.jh_nemesis.specs.Steps.{StepFits, answer_of, code_of, state_after};
ghost use Rattle.jh_test_parts.specs.Changes as changes;
ghost use Rattle.jh_conversation.specs.Machine as machine;
ghost use Rattle.jh_conversation.specs.Sound.{HasSmallCounts, IsSoundMachine};
ghost use Rattle.jh_conversation.specs.Turn as rule;
ghost use Rattle.jh_conversation.specs.TurnInside as inside;

use crate::callers::{Caller, OpenStep};
use crate::machine::{ALL_STOPPED, Machine, has_no_call, new_callers};
use crate::phase::Phase;
use jh_edn::{Value, Values};
use jh_gen::{Driver, GenAnswer, GenError, Thread};
use jh_nemesis::{Nemesis, Step};
use jh_ops::{Call, Request};
use jh_test_parts::{
    ChangedCells, Datum, KeyShares, NamedCells, Recorded, Test, TestEntry, ValuedCall, When,
};
use rand_core::utils::NextWord;
use std::alloc::{AllocError, Global};

/// Nanoseconds of a second, and of a millisecond.
const NANOSECONDS_A_SECOND: u128 = 1_000_000_000;

const NANOSECONDS_A_MILLISECOND: u64 = 1_000_000;

/// A step that is due, with the place of its entry.
#[derive(Drop)]
pub struct Due {
    pub entry: u64,
    pub step: Step,
}

/// Whether a limit in milliseconds has come, where there is one.
fn has_come(limit: Option<u32>, now: u64) -> bool
    ensures { result ≡ rule.has_come limit now }
{
    match limit {
        None => false,
        Some(limit) => u64::from(limit) * NANOSECONDS_A_MILLISECOND <= now,
    }
}

/// Whether one more call keeps to a rate a second.
fn keeps_rate(rate: Option<u32>, given: u64, now: u64) -> bool
    ensures { result ≡ rule.keeps_rate rate given now }
{
    match rate {
        None => true,
        Some(rate) => u128::from(given) * NANOSECONDS_A_SECOND
            <= u128::from(now) * u128::from(rate),
    }
}

/// The value of a call with its key.
fn with_key(alloc: Global, key: u64, value: Value) -> Result<Value, AllocError>
    requires { key < 2 ^ 63 }
    ensures { IfOk result (λ both. view both ≡ inside.value_behind_key key (view value)) }
{
    let mut values = Vec::new(alloc);
    values.push(Value::Int(key as i64))?;
    values.push(value)?;
    Ok(Value::Vector(Values::of(values)))
}

/// Takes a step of the nemesis: the code of its answer, and the cells that it changed.
fn take_step(
    alloc: Global,
    nemesis: &mut Nemesis,
    step: Step,
) -> Result<(u64, ChangedCells), AllocError>
    requires { StepFits nemesis.old.state step }
    ensures state { OnOk result (nemesis.new.state ≡ state_after nemesis.old.state step) }
    ensures code { IfOk result (λ taken. taken.0 ≡ code_of (answer_of nemesis.old.state step)) }
    ensures cells { IfOk result (λ taken. taken.1 ≡ changes.changed_cells nemesis.old.state.start
        (faults_in nemesis.old.state.active)
        (faults_in (state_after nemesis.old.state step).active)) }
{
    let named = {
        let faults = nemesis.changed_by(alloc, &step)?;
        NamedCells::of(alloc, nemesis.env(), &faults)?
    };
    let answer = nemesis.apply(step)?;
    let cells = named.changed(alloc, nemesis.env())?;
    Ok((answer.code() as u64, cells))
}

impl Machine {
    /// Whether no calls are stopped.
    fn are_no_calls_stopped(&self) -> bool
        ensures { result ≡ rule.are_no_calls_stopped self.now.stops }
    {
        self.stops == 0
    }

    /// Whether all calls are stopped.
    fn are_all_calls_stopped(&self) -> bool
        ensures { result ≡ rule.are_all_calls_stopped self.now.stops }
    {
        ALL_STOPPED <= self.stops
    }

    /// Whether a call may be given.
    fn may_call(&self, test: &Test) -> bool
        ensures { result ≡ rule.may_call test.now self.now }
    {
        if self.has_spent {
            return false;
        }
        match self.phase {
            Phase::Main => {
                self.are_no_calls_stopped()
                    && !has_come(test.time_limit(), self.clock)
                    && keeps_rate(test.rate(), self.given, self.clock)
            }
            Phase::Final => !self.are_all_calls_stopped(),
            Phase::Heal | Phase::Rest | Phase::Over => false,
        }
    }

    /// Whether the calls of this phase are stopped, whatever the driver has.
    fn are_calls_stopped(&self, test: &Test) -> bool
        ensures { result ≡ rule.are_calls_stopped self.now.phase test.now self.now.stops self.now.clock }
    {
        match self.phase {
            Phase::Main => !self.are_no_calls_stopped() || has_come(test.time_limit(), self.clock),
            Phase::Heal | Phase::Rest | Phase::Final | Phase::Over => self.are_all_calls_stopped(),
        }
    }

    /// Whether no call is open, and no more may come.
    fn calls_ended(&self, test: &Test) -> bool
        ensures { result ≡ rule.calls_ended test.now self.now }
    {
        self.are_free() && (self.has_spent || self.are_calls_stopped(test))
    }

    /// Whether an entry's time or number of calls has come.
    fn has_come_to(&self, when: When) -> bool
        ensures { result ≡ rule.has_come_to when self.now }
    {
        match when {
            When::Calls(calls) => u64::from(calls) <= self.answered,
            When::Milliseconds(milliseconds) => {
                u64::from(milliseconds) * NANOSECONDS_A_MILLISECOND <= self.clock
            }
        }
    }

    /// The step of the next entry, if it is due.
    fn if_due(&self, alloc: Global, entry: &TestEntry) -> Result<Option<Due>, AllocError>
        ensures { IfOk result (λ due. due ≡ rule.if_due self.now (Some entry.now)) }
    {
        if !self.has_come_to(entry.at) {
            return Ok(None);
        }
        Ok(Some(Due {
            entry: self.taken as u64,
            step: entry.step.copy(alloc)?,
        }))
    }

    /// The step that is due.
    fn due(&self, alloc: Global, test: &Test) -> Result<Option<Due>, AllocError>
        ensures { IfOk result (λ due. due ≡ rule.due_in_phase self.now.phase test.now self.now) }
    {
        match self.phase {
            Phase::Main => {
                if self.calls_ended(test) || !self.are_no_calls_stopped() {
                    return Ok(None);
                }
                match test.schedule().get(self.taken) {
                    None => Ok(None),
                    Some(entry) => self.if_due(alloc, entry),
                }
            }
            Phase::Heal => {
                if self.nemesis.active_len() == 0 {
                    return Ok(None);
                }
                Ok(Some(Due {
                    entry: test.schedule().len() as u64,
                    step: Step::WithdrawAll,
                }))
            }
            Phase::Rest | Phase::Final | Phase::Over => Ok(None),
        }
    }

    /// Takes a step, and says which cells it changed.
    fn begin(&mut self, alloc: Global, test: &Test, due: Due) -> Result<(), AllocError>
        requires sound { IsSoundMachine test.now self.old }
        requires fits { StepFits self.old.nemesis due.step }
        ensures { OnOk result (self.new ≡ rule.begin due self.old) }
    {
        let Due { entry, step } = due;
        let kept = step.copy(alloc)?;
        let (code, cells) = take_step(alloc, &mut self.nemesis, step)?;
        self.step = Some(OpenStep { entry, code });
        self.taken += 1;
        self.say(Recorded::StepBegun {
            time: self.clock,
            entry,
            step: kept,
            cells,
        })
    }

    /// Takes the step that is due, where none is open.
    fn step(&mut self, alloc: Global, test: &Test) -> Result<(), AllocError>
        requires { IsSoundMachine test.now self.old }
        ensures { OnOk result (self.new ≡ rule.step test.now self.old) }
    {
        if self.step.is_some() {
            return Ok(());
        }
        // The answer is not used: this call's contract says that the test can be made.
        let _clients = test.clients();
        match self.due(alloc, test)? {
            None => Ok(()),
            Some(due) => self.begin(alloc, test, due),
        }
    }

    /// The number of the next call of a group of threads, from 0.
    fn number_in(&self, group: u32) -> u64
        ensures { result ≡ slice_index_or self.now.calls_by_group group 0 }
    {
        match self.calls_by_group.get(group as usize) {
            None => 0,
            Some(number) => *number,
        }
    }

    /// The key of the next call of a thread.
    fn key_of(&self, test: &Test, shares: KeyShares, thread: u32) -> u64
        requires small { HasSmallCounts test.now self.now }
        requires within { thread < test.now.clients }
        requires threads { 0 < shares.threads }
        requires calls { 0 < shares.calls }
        ensures key { result ≡ rule.key_of_call test.now shares (rule.group_of shares thread)
            (slice_index_or self.now.calls_by_group (rule.group_of shares thread) 0) }
        ensures small { result < 2 ^ 63 }
    {
        let group = thread / shares.threads;
        let groups = test.clients() / shares.threads;
        u64::from(group) + u64::from(groups) * (self.number_in(group) / u64::from(shares.calls))
    }

    /// The value with which a request asks. A transaction is the next one.
    fn value_asked(&mut self, alloc: Global, request: Request) -> Result<Value, AllocError>
        ensures value { IfOk result
            (λ value. view value ≡ rule.value_asked self.old.transactions request) }
        ensures machine { OnOk result (self.new ≡ inside.sourced request self.old) }
    {
        match request {
            Request::Txn => self.transactions.next(alloc),
            _ => request.argument(alloc),
        }
    }

    /// The call that a thread makes for a request that asks with a value.
    fn asked_with(
        &self,
        alloc: Global,
        test: &Test,
        thread: u32,
        request: Request,
        value: Value,
    ) -> Result<ValuedCall, AllocError>
        requires small { HasSmallCounts test.now self.now }
        requires within { thread < test.now.clients }
        ensures { IfOk result
            (λ call. call ≡ inside.asked_with test.now self.now thread request (view value)) }
    {
        let value = match test.keys() {
            None => value,
            Some(shares) => with_key(alloc, self.key_of(test, shares, thread), value)?,
        };
        Ok(ValuedCall {
            request,
            value: Datum::of(value),
        })
    }

    /// Counts one more call of a thread's group.
    fn count_call(&mut self, test: &Test, thread: u32)
        requires small { HasSmallCounts test.now self.old }
        requires within { thread < test.now.clients }
        ensures { self.new ≡ inside.counted test.now thread self.old }
    {
        let Some(shares) = test.keys() else {
            return;
        };
        let group = (thread / shares.threads) as usize;
        self.calls_by_group[group] += 1;
    }

    /// Gives a call to a thread.
    fn invoke(
        &mut self,
        alloc: Global,
        test: &Test,
        thread: u32,
        request: Request,
    ) -> Result<(), AllocError>
        requires small { HasSmallCounts test.now self.old }
        requires within { thread < test.now.clients }
        ensures { OnOk result (self.new ≡ rule.invoke test.now thread request self.old) }
    {
        let value = self.value_asked(alloc, request)?;
        let call = self.asked_with(alloc, test, thread, request, value)?;
        let kept = call.copy(alloc)?;
        let process = self.process_of(test, thread);
        let used_numbers = self.callers[thread as usize].used_numbers;
        self.count_call(test, thread);
        self.given += 1;
        self.callers[thread as usize] = Caller {
            used_numbers,
            call: Some(call),
        };
        let node = test.node_of(thread);
        self.say(Recorded::Invoked {
            time: self.clock,
            process,
            node,
            call: kept,
        })
    }

    /// Lets a thread ask that has no call open.
    fn ask(&mut self, alloc: Global, test: &Test, thread: u32) -> Result<(), AllocError>
        requires sound { IsSoundMachine test.now self.old }
        requires within { thread < test.now.clients }
        requires idle { machine.has_no_call (machine.caller_of self.old thread).call ≡ true }
        requires may { rule.may_call test.now self.old ≡ true }
        ensures { OnOk result (self.new ≡ rule.ask test.now thread self.old) }
    {
        let random_number = self.random_numbers.next_word();
        match self.driver.ask(Thread::Client(thread), random_number) {
            Ok(GenAnswer::Call(_, Call::Client(request))) => {
                self.invoke(alloc, test, thread, request)
            }
            Ok(GenAnswer::Pending) => Ok(()),
            Ok(GenAnswer::Call(_, Call::Step(_))) => {
                self.has_spent = true;
                Ok(())
            }
            Ok(GenAnswer::Done) => {
                self.has_spent = true;
                Ok(())
            }
            Err(GenError::TooManyOps) => {
                self.has_spent = true;
                Ok(())
            }
            Err(_) => unreachable!(),
        }
    }

    /// Lets a thread ask, if it has no call open and may be given one.
    fn visit(&mut self, alloc: Global, test: &Test, thread: u32) -> Result<(), AllocError>
        requires sound { IsSoundMachine test.now self.old }
        requires within { thread < test.now.clients }
        ensures { OnOk result (self.new ≡ rule.visit test.now thread self.old) }
    {
        if has_no_call(&self.callers[thread as usize].call) && self.may_call(test) {
            return self.ask(alloc, test, thread);
        }
        Ok(())
    }

    /// Goes through all threads once.
    fn round(&mut self, alloc: Global, test: &Test) -> Result<(), AllocError>
        requires { IsSoundMachine test.now self.old }
        ensures { OnOk result (self.new ≡ rule.round test.now self.old) }
    {
        for thread in 0..test.clients() {
            self.visit(alloc, test, thread)?;
        }
        Ok(())
    }

    /// How many calls were given.
    fn calls_given(&self) -> u64
        ensures { result ≡ self.now.given }
    {
        self.given
    }

    /// Lets threads ask until a whole round gave nothing.
    fn calls(&mut self, alloc: Global, test: &Test) -> Result<(), AllocError>
        requires { IsSoundMachine test.now self.old }
        ensures { OnOk result (self.new ≡ rule.calls test.now self.old) }
    {
        // Each round that gives a call makes a thread busy, so one more than the threads is enough.
        let most = test.clients() + 1;
        for _round in 0..most {
            let before = self.calls_given();
            self.round(alloc, test)?;
            if self.calls_given() == before {
                return Ok(());
            }
        }
        Ok(())
    }

    /// Whether *heal* is over: no step is open, and no fault is active.
    fn has_healed(&self) -> bool
        ensures { result ≡ rule.has_healed self.now self.now.step }
    {
        match self.step {
            None => self.nemesis.active_len() == 0,
            Some(_) => false,
        }
    }

    /// Whether the time of recovery has passed.
    fn has_recovered(&self, test: &Test) -> bool
        ensures { result ≡ rule.has_recovered test.now self.now }
    {
        let recovery = u128::from(u64::from(test.recovery()) * NANOSECONDS_A_MILLISECOND);
        u128::from(self.rest_began) + recovery <= u128::from(self.clock)
    }

    /// Begins *final*, with this driver: all threads begin anew.
    fn begin_final(&mut self, alloc: Global, test: &Test, driver: Driver) -> Result<(), AllocError>
        ensures { OnOk result (self.new ≡ rule.final test.now driver self.old) }
    {
        self.callers = new_callers(alloc, test.clients(), self.crashed)?;
        self.phase = Phase::Final;
        self.driver = driver;
        self.final_calls = None;
        self.has_spent = false;
        Ok(())
    }

    /// Ends *rest*, if its time has come, and says whether it had.
    fn end_rest(&mut self, alloc: Global, test: &Test) -> Result<bool, AllocError>
        ensures machine { OnOk result (self.new
            ≡ inside.moved self.old (rule.after_rest test.now self.old.final_calls self.old)) }
        ensures moved { IfOk result
            (λ moved. moved ≡ is_some (rule.after_rest test.now self.old.final_calls self.old)) }
    {
        if self.final_calls.is_none() || self.are_all_calls_stopped() {
            self.phase = Phase::Over;
            return Ok(true);
        }
        if !self.has_recovered(test) {
            return Ok(false);
        }
        match self.final_calls.take() {
            None => Ok(false),
            Some(driver) => {
                self.begin_final(alloc, test, driver)?;
                Ok(true)
            }
        }
    }

    /// Goes over to the next phase if this one is over, and says whether it was.
    fn next_phase(&mut self, alloc: Global, test: &Test) -> Result<bool, AllocError>
        ensures machine { OnOk result
            (self.new ≡ inside.moved self.old (rule.move test.now self.old)) }
        ensures moved { IfOk result (λ moved. moved ≡ is_some (rule.move test.now self.old)) }
    {
        match self.phase {
            Phase::Main => {
                if !self.calls_ended(test) {
                    return Ok(false);
                }
                self.phase = Phase::Heal;
                Ok(true)
            }
            Phase::Heal => {
                if !self.has_healed() {
                    return Ok(false);
                }
                self.phase = Phase::Rest;
                self.rest_began = self.clock;
                Ok(true)
            }
            Phase::Rest => self.end_rest(alloc, test),
            Phase::Final => {
                if !self.calls_ended(test) {
                    return Ok(false);
                }
                self.phase = Phase::Over;
                Ok(true)
            }
            Phase::Over => Ok(false),
        }
    }

    /// Says all that can be said now.
    #[tactic(auto, unfolding(crate::specs::Turn::turn))]
    pub(crate) fn turn(&mut self, alloc: Global, test: &Test) -> Result<(), AllocError>
        requires { IsSoundMachine test.now self.old }
        ensures { OnOk result (self.new ≡ rule.turn test.now self.old) }
    {
        // The answer is not used: this call's contract says that the test can be made.
        let _clients = test.clients();
        // There are five phases, and none comes twice.
        for _pass in 0..5usize {
            self.step(alloc, test)?;
            self.calls(alloc, test)?;
            if !self.next_phase(alloc, test)? {
                return Ok(());
            }
        }
        Ok(())
    }
}
