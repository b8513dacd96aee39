//! A port that answers one of its calls only once the next one is answered, so that a run over it has an outcome only where
//! two threads call at once; and that may refuse all calls, all steps or all ticks.

ghost use Rattle.std.specs.Prelude.{◌≡◌, ◌+◌, ◌<◌, IfOk, OnOk, OnErr};

use crate::runs::{may_lack_memory, plan_of};
use jh_env::Node;
use jh_nemesis::{Step, StepAnswer};
use jh_ops::Request;
use jh_simnode::{Event, Got, MAX_EVENTS, Plan, Reply, WorldError};
use jh_workers::{Count, Outcome, Port, RunError, run};
use std::alloc::{AllocError, Global};
use std::sync::{Mutex, Wait};
use std::thread;
use std::thread::Threads;

/// How often a call that is held looks for the next one.
const TURNS: u32 = 10_000_000;

/// What a port refuses.
#[derive(Clone, Copy, PartialEq, Eq)]
enum Refused {
    Nothing,
    Calls,
    Steps,
    Ticks,
}

#[derive(Drop)]
struct Held {
    arrived: u32,
    journal: Vec<Event>,
}

/// A port in memory. It holds the call of a number, from 1, or none where that is 0.
#[derive(Drop)]
struct Gate {
    held: Mutex<Held>,
    holds: u32,
    refused: Refused,
}

#[derive(Drop)]
struct Counted {
    count: u64,
}

impl Count for Counted {
    ghost total = { λ mine. mine.count };

    fn count(&self) -> u64 {
        self.count
    }
}

impl Held {
    /// Adds an event to the journal, and answers its number.
    fn add(&mut self, mine: &mut Counted, event: Event) -> Result<u64, WorldError>
        ensures accepted { OnOk result (mine.new.count ≡ mine.old.count + 1) }
        ensures refused { OnErr result (mine.new.count ≡ mine.old.count) }
        ensures numbered { IfOk result (λ number. number < MAX_EVENTS) }
    {
        let number = self.journal.len();
        if number >= MAX_EVENTS || mine.count == u64::MAX {
            return Err(WorldError::TooManyEvents);
        }
        let Ok(()) = self.journal.push(event) else {
            return Err(WorldError::OutOfMemory);
        };
        mine.count += 1;
        Ok(number as u64)
    }
}

impl Gate {
    fn new(alloc: Global, holds: u32, refused: Refused) -> Gate {
        Gate {
            holds,
            refused,
            held: Mutex::new(Held {
                arrived: 0,
                journal: Vec::new(alloc),
            }),
        }
    }

    /// The number of a call that arrives, from 1.
    fn arrive<R: Wait>(&self, rt: &R) -> u32 {
        let mut held = self.held.lock(rt);
        held.arrived = held.arrived.saturating_add(1);
        held.arrived
    }

    /// Whether the call after the one that is held was answered in time.
    fn is_next_answered<R: Wait>(&self, rt: &R) -> bool {
        for _ in 0..TURNS {
            if self.held.lock(rt).journal.len() >= self.holds as usize {
                return true;
            }
            thread::yield_now();
        }
        false
    }

    /// Refuses what the port refuses.
    fn refuse(&self, asked: Refused) -> Result<(), WorldError> {
        if self.refused == asked {
            Err(WorldError::TooManyEvents)
        } else {
            Ok(())
        }
    }
}

/// A read that found nothing.
fn nothing_read() -> Reply {
    Reply::Ok(Got::One(None))
}

impl Port for Gate {
    type Share = Counted;

    ghost shows = { λ _ _. Unit {0} };

    fn share<R: Wait>(&self, _rt: &R) -> Option<Counted> {
        Some(Counted { count: 0 })
    }

    fn call<R: Wait>(
        &self,
        rt: &R,
        mine: &mut Counted,
        process: u64,
        node: Node,
        request: Request,
        draw: u64,
    ) -> Result<(u64, Reply), WorldError> {
        self.refuse(Refused::Calls)?;
        if self.arrive(rt) == self.holds && !self.is_next_answered(rt) {
            return Err(WorldError::OutOfMemory);
        }
        let event = Event::Call {
            process,
            node,
            request,
            draw,
            reply: nothing_read(),
        };
        let number = self.held.lock(rt).add(mine, event)?;
        Ok((number, nothing_read()))
    }

    fn step<R: Wait>(
        &self,
        rt: &R,
        mine: &mut Counted,
        step: Step,
    ) -> Result<(u64, StepAnswer), WorldError> {
        self.refuse(Refused::Steps)?;
        let answer = StepAnswer::Ok;
        let number = self.held.lock(rt).add(mine, Event::Step { step, answer })?;
        Ok((number, answer))
    }

    fn tick<R: Wait>(&self, rt: &R, mine: &mut Counted) -> Result<u64, WorldError> {
        self.refuse(Refused::Ticks)?;
        self.held.lock(rt).add(mine, Event::Tick)
    }

    fn events<R: Wait>(&self, rt: &R, alloc: Global) -> Result<Vec<Event>, AllocError> {
        let held = self.held.lock(rt);
        let mut events = Vec::new(alloc);
        for event in &held.journal {
            events.push(event.copy(alloc)?)?;
        }
        Ok(events)
    }
}

/// How many operations and events a run through the gate has, or its error.
type Counts = Result<(usize, usize), RunError>;

/// How many operations and events an outcome has, or the error.
fn counts_of(answer: Result<Outcome<Counted>, RunError>) -> Counts {
    match answer {
        Ok(outcome) => Ok((outcome.history.len(), outcome.journal.len())),
        Err(error) => Err(error),
    }
}

/// What a run of the plan through the gate comes to. None: memory was refused.
fn counts_through<R: Threads + Wait + Sync>(
    rt: &R,
    alloc: Global,
    plan: &Plan,
    gate: &Gate,
) -> Option<Counts> {
    match counts_of(run(rt, alloc, plan, gate)) {
        Err(error) if may_lack_memory(error) => None,
        counts => Some(counts),
    }
}

/// What a run of settings through the gate comes to. None: memory was refused.
fn counts_once<R: Threads + Wait + Sync>(
    rt: &R,
    alloc: Global,
    settings: &str,
    holds: u32,
    refused: Refused,
) -> Option<Counts> {
    match plan_of(alloc, settings) {
        Some(plan) => counts_through(rt, alloc, &plan, &Gate::new(alloc, holds, refused)),
        None => None,
    }
}

/// Whether a run through the gate comes to this. It is made once more where memory was refused.
fn are_counts<R: Threads + Wait + Sync>(
    rt: &R,
    alloc: Global,
    settings: &str,
    holds: u32,
    refused: Refused,
    wanted: Counts,
) -> bool {
    let counts = match counts_once(rt, alloc, settings, holds, refused) {
        None => counts_once(rt, alloc, settings, holds, refused),
        counts => counts,
    };
    counts == Some(wanted)
}

const TWO_READS: &str = r#"
start = '{:nodes ["n1"]}'
store = "local"
workload = "register"
clients = 2
ops = 2
generator = '[:forever :read]'
"#;

#[test]
fn threads_call_at_once(rt: HostRuntime) {
    let refused = Refused::Nothing;
    assert!(rt; are_counts(&rt, rt.alloc(), TWO_READS, 1, refused, Ok((4, 2))));
}

const A_READ_AND_TWO: &str = r#"
start = '{:nodes ["n1"]}'
store = "local"
workload = "register"
clients = 2
ops = 3
generator = '[:phases [:once :read] [:limit 2 [:forever :read]]]'
"#;

/// The thread that gets nothing while the first phase lasts makes one of the two calls that come at once.
#[test]
fn a_thread_waits_for_a_phase(rt: HostRuntime) {
    let refused = Refused::Nothing;
    assert!(rt; are_counts(&rt, rt.alloc(), A_READ_AND_TWO, 2, refused, Ok((6, 3))));
}

const A_READ_AND_A_STEP: &str = r#"
start = '{:nodes ["n1"]}'
store = "local"
workload = "register"
clients = 1
ops = 1
tick_every = 1
generator = '[:forever :read]'
schedule = ['[0 [:withdraw-all]]']
"#;

/// Whether a run with a step and ticks comes to this where so much is refused.
fn is_ended<R: Threads + Wait + Sync>(
    rt: &R,
    alloc: Global,
    refused: Refused,
    wanted: Counts,
) -> bool {
    are_counts(rt, alloc, A_READ_AND_A_STEP, 0, refused, wanted)
}

#[test]
fn a_refusal_ends_a_run(rt: HostRuntime) {
    let refusal = Err(RunError::World(WorldError::TooManyEvents));
    assert!(rt; is_ended(&rt, rt.alloc(), Refused::Calls, refusal));
    assert!(rt; is_ended(&rt, rt.alloc(), Refused::Steps, refusal));
    assert!(rt; is_ended(&rt, rt.alloc(), Refused::Ticks, refusal));
    assert!(rt; is_ended(&rt, rt.alloc(), Refused::Nothing, Ok((4, 3))));
}
