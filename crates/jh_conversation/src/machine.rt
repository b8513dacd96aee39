//! The machine of a test: what is known at a moment. `specs/Machine.antt` has it; `turns.rt` and
//! `taking.rt` have what becomes of it.

ghost use Rattle.std.specs.Prelude.{◌≡◌, ◌<◌, [], IfOk, OnOk};
ghost use Rattle.jh_nemesis.specs.State.{first_state};
ghost use Rattle.jh_conversation.specs.Lines.{at_first};
ghost use Rattle.jh_conversation.specs.Machine as rule;
ghost use Rattle.jh_conversation.specs.Sound.{HasSmallCounts};

use crate::callers::{BadLine, Caller, OpenStep};
use crate::phase::Phase;
use jh_gen::Driver;
use jh_nemesis::Nemesis;
use jh_test_parts::{Recorded, Test, TransactionSource, ValuedCall};
use rand_pcg::Lcg128Xsl64;
use std::alloc::{AllocError, Global};
use std::marker::Model;

/// Of `stops`: the calls of *main* are stopped.
pub(crate) const MAIN_STOPPED: u64 = 1;

/// Of `stops`: all calls are stopped.
pub(crate) const ALL_STOPPED: u64 = 2;

/// The machine of a test. What was said to the last line is the newest part of the history.
///
/// It is a state, and does not implement the trait `Machine` of `jh_lines`: a `Conversation` does,
/// which has this with its test.
#[derive(Drop)]
pub struct Machine {
    pub(crate) phase: Phase,
    /// What gives the calls of this phase.
    pub(crate) driver: Driver,
    /// What will give those of *final*, where it is to come.
    pub(crate) final_calls: Option<Driver>,
    /// Whether the driver of this phase has no more.
    pub(crate) has_spent: bool,
    /// The random numbers for the driver.
    pub(crate) random_numbers: Lcg128Xsl64,
    /// The transactions to come.
    pub(crate) transactions: TransactionSource,
    /// How many calls each group of threads was given.
    pub(crate) calls_by_group: Vec<u64>,
    pub(crate) callers: Vec<Caller>,
    /// How many calls were given, and how many were answered.
    pub(crate) given: u64,
    pub(crate) answered: u64,
    /// How many processes have crashed.
    pub(crate) crashed: u64,
    pub(crate) nemesis: Nemesis,
    /// How many entries of the schedule were taken.
    pub(crate) taken: usize,
    /// The step that is open: no reply has ended it.
    pub(crate) step: Option<OpenStep>,
    /// How far calls are stopped: 0 not, or `MAIN_STOPPED`, or `ALL_STOPPED`.
    pub(crate) stops: u64,
    /// The greatest time that was read, and that at which *rest* began, in nanoseconds.
    pub(crate) clock: u64,
    pub(crate) rest_began: u64,
    /// How many lines were read.
    pub(crate) read: u64,
    /// The first line that is no reply.
    pub(crate) bad: Option<BadLine>,
    pub(crate) history: Vec<Recorded>,
    /// How many records at the end of the history were said to the last line.
    pub(crate) said: usize,
}

impl Model for Machine {
    ghost use Rattle.jh_conversation.specs.Machine.{Machine as MachineValue};

    ghost Value = { MachineValue };

    ghost use Rattle.std.specs.Coded.{codes};
    ghost use Rattle.jh_edn.specs.Code.{edn_coded};
    ghost use Rattle.jh_gen.specs.DriverState.{driver_coded};

    ghost coded = { Prim.hlevel (codes, edn_coded, driver_coded) };

    ghost use Rattle.jh_conversation.specs.MachineInside.{machine_of, IsPartSaid};

    ghost view = { machine_of };

    ghost invariant = { IsPartSaid };
}

/// Whether no call is open here.
pub(crate) fn has_no_call(call: &Option<ValuedCall>) -> bool
    ensures { result ≡ rule.has_no_call call.now }
{
    match call {
        None => true,
        Some(_) => false,
    }
}

/// So many threads that have no call open, each of which has used up so many numbers of processes.
pub(crate) fn new_callers(
    alloc: Global,
    count: u32,
    used_numbers: u64,
) -> Result<Vec<Caller>, AllocError>
    ensures { IfOk result (λ callers. callers.items ≡ rule.new_callers count used_numbers) }
{
    let mut callers = Vec::new(alloc);
    for _thread in 0..count {
        callers.push(Caller {
            used_numbers,
            call: None,
        })?;
    }
    Ok(callers)
}

impl Machine {
    /// The machine before its first turn.
    pub(crate) fn at_first(
        alloc: Global,
        test: &Test,
        driver: Driver,
        final_calls: Option<Driver>,
    ) -> Result<Machine, AllocError>
        ensures { IfOk result (λ machine. machine
            ≡ at_first test.now driver final_calls (first_state test.now.start)) }
    {
        let clients = test.clients();
        Ok(Machine {
            phase: Phase::Main,
            driver,
            final_calls,
            has_spent: false,
            random_numbers: Lcg128Xsl64::new(u128::from(test.seed()), 0),
            transactions: TransactionSource::first(alloc, test.transactions(), test.seed())?,
            calls_by_group: vec![in alloc; 0; clients as usize]?,
            callers: new_callers(alloc, clients, 0)?,
            given: 0,
            answered: 0,
            crashed: 0,
            nemesis: Nemesis::new(alloc, test.environment().copy(alloc)?),
            taken: 0,
            step: None,
            stops: 0,
            clock: 0,
            rest_began: 0,
            read: 0,
            bad: None,
            history: Vec::new(alloc),
            said: 0,
        })
    }

    /// Adds a record that is said.
    pub(crate) fn say(&mut self, recorded: Recorded) -> Result<(), AllocError>
        ensures { OnOk result (self.new ≡ rule.say recorded self.old) }
    {
        self.history.push(recorded)?;
        self.said += 1;
        Ok(())
    }

    /// Adds a record that is heard, where nothing was said since the last line.
    pub(crate) fn hear(&mut self, recorded: Recorded) -> Result<(), AllocError>
        requires { self.old.said ≡ [] }
        ensures { OnOk result (self.new ≡ rule.hear recorded self.old) }
    {
        self.history.push(recorded)?;
        self.said = 0;
        Ok(())
    }

    /// Whether no call is open.
    pub(crate) fn are_free(&self) -> bool
        ensures { result ≡ rule.are_free self.now.callers }
    {
        self.callers.iter().all(|caller| has_no_call(&caller.call))
    }

    /// The process of a thread.
    pub(crate) fn process_of(&self, test: &Test, thread: u32) -> u64
        requires small { HasSmallCounts test.now self.now }
        requires within { thread < test.now.clients }
        ensures process { result ≡ rule.caller_process test.now self.now thread }
    {
        let used_numbers = self.callers[thread as usize].used_numbers;
        u64::from(thread) + u64::from(test.clients()) * used_numbers
    }
}
