//! The driver of a generator: it gives calls to threads. `specs/DriverState.antt` has the rules.

ghost use Rattle.std.specs.Prelude.{◌≡◌, ◌+◌, ◌-◌, ◌<◌, ◌≤◌, ℕ, [], length, slice_index};
ghost use Rattle.std.specs.Prelude.{IfOk, MatchResult, OnErr, OnOk};
ghost use Rattle.std.specs.Option.{SomeIff};
ghost use Rattle.jh_gen.specs.Generator.{Generator};
ghost use Rattle.jh_gen.specs.View.{generator_of};
ghost use Rattle.jh_gen.specs.Trace.{Trace};
ghost use Rattle.jh_gen.specs.DriverState as rule;
ghost use Rattle.jh_gen.specs.DriverState.{Answers, CanDrive, IsFresh, IsKnown, MayAsk, MayEnd};
ghost use Rattle.jh_gen.specs.DriverState.{GivesSmallProcess, RefusesAsking};
ghost use Rattle.jh_gen.specs.DriverState.{RefusesDriver, RefusesEnding, IsDriverOf};
ghost use Rattle.jh_gen.specs.DriverState.{driver_after_end, max_clients, next_process};
ghost use Rattle.jh_gen.specs.DriverState.{thread_number};

use crate::answers::{DriverError, Ended, GenAnswer, GenError, Thread};
use crate::build::{build, fits};
use crate::generator::Gen;
use crate::node::{Node, Question};
use jh_ops::Process;
use std::alloc::{AllocError, Global};
use std::marker::Model;

/// How many client threads a driver has at most.
pub const MAX_CLIENTS: u32 = 16;

/// How many calls a driver gives at most.
pub const MAX_CALLS: u32 = 1_000_000;

/// Gives a generator's calls to the threads of a test: some client threads, and the nemesis. It
/// keeps what is left of the generator, who is busy, and whose operation a thread's next one is.
#[derive(Drop)]
pub struct Driver {
    clients: usize,
    root: Node,
    given: u32,
    busy: Vec<bool>,
    processes: Vec<u64>,
}

impl Model for Driver {
    ghost use Rattle.jh_gen.specs.DriverState.{DriverState, driver_coded};

    ghost Value = { DriverState };

    ghost coded = { driver_coded };

    ghost use Rattle.jh_gen.specs.DriverInside.{driver_state, IsSoundDriver};

    ghost view = { driver_state };

    ghost invariant = { IsSoundDriver };
}

/// The nemesis and all client threads, in order.
fn all_threads(alloc: Global, clients: usize) -> Result<Vec<usize>, AllocError>
    requires { clients ≤ max_clients }
    ensures { IfOk result (λ v. v.items ≡ rule.all_threads clients) }
{
    let mut threads = Vec::new(alloc);
    for thread in 0..clients + 1 {
        threads.push(thread)?;
    }
    Ok(threads)
}

/// The process of each thread. The nemesis has a place too, so that places are threads.
fn first_processes(alloc: Global, clients: usize) -> Result<Vec<u64>, AllocError>
    requires { clients ≤ max_clients }
    ensures long { IfOk result (λ v. length v.items ≡ clients + 1) }
    ensures numbered { IfOk result
        (λ v. (k : ℕ) → k < clients + 1 → slice_index v.items k ≡ k - 1) }
{
    let mut processes = vec![in alloc; 0]?;
    for number in 0..clients {
        processes.push(number as u64)?;
    }
    Ok(processes)
}

/// The number of a thread.
fn number_of(thread: Thread) -> usize
    ensures { result ≡ thread_number thread }
{
    match thread {
        Thread::Client(number) => number as usize + 1,
        Thread::Nemesis => 0,
    }
}

/// The process of a thread, by the numbers of the processes of all threads.
fn process_in(processes: &[u64], thread: Thread) -> Process
    requires { thread_number thread < length processes.now }
    ensures { result ≡ rule.process_of_thread processes.now thread }
{
    match thread {
        Thread::Client(number) => Process::Client(processes[number as usize + 1]),
        Thread::Nemesis => Process::Nemesis,
    }
}

impl Driver {
    /// A driver that has given no call, for this number of client threads, from 1 to 16. It makes
    /// all copies of the generator's parts that threads have for themselves; later calls take no
    /// memory.
    ///
    /// Errors, in this order: `BadClients`; `BadReserve` where the numbers of one reserve sum to
    /// more than `clients`; `OutOfMemory`.
    pub fn new(alloc: Global, source: Gen, clients: u32) -> Result<Driver, DriverError>
        ensures judged { MatchResult result
            (λ _. CanDrive clients (generator_of source))
            (RefusesDriver clients (generator_of source)) }
        ensures stands { IfOk result (λ driver. IsDriverOf driver (generator_of source) []) }
        ensures fresh { IfOk result (λ driver. IsFresh driver clients) }
    {
        if clients < 1 || clients > MAX_CLIENTS {
            return Err(DriverError::BadClients);
        }
        if !fits(&source, clients) {
            return Err(DriverError::BadReserve);
        }
        let clients = clients as usize;
        let threads = all_threads(alloc, clients)?;
        Ok(Driver {
            clients,
            root: build(alloc, &source, &threads)?,
            given: 0,
            busy: vec![in alloc; false; clients + 1]?,
            processes: first_processes(alloc, clients)?,
        })
    }

    /// The process whose operation a thread's next one is; none for a thread that the driver does
    /// not have. A client thread's is first its number, and each operation that ends as `Info` adds
    /// the number of client threads.
    pub fn process(&self, thread: Thread) -> Option<Process>
        ensures { SomeIff result (IsKnown self.now thread) (next_process self.now thread) }
    {
        if number_of(thread) > self.clients {
            return None;
        }
        Some(process_in(self.processes.as_slice(), thread))
    }

    /// Asks for a thread's next call. The random number is that by which mixtures choose. After a
    /// call, the thread is busy until `complete`. The answer depends on the driver, the thread and
    /// the random number alone, and a call's process is at most 16,000,000. Takes no memory; the
    /// time grows with the size of the generator and its copies, and not with the number of calls.
    ///
    /// Errors, in this order: `NoSuchThread`; `BusyThread`; `TooManyOps` after 1,000,000 calls,
    /// also where the generator is spent. The driver is then unchanged.
    pub fn ask(&mut self, thread: Thread, random_number: u64) -> Result<GenAnswer, GenError>
        ensures judged { MatchResult result (λ _. MayAsk self.old thread)
            (RefusesAsking self.old thread) }
        ensures unchanged { OnErr result (self.new ≡ self.old) }

        // The same state, thread and random number have the same answer, and lead to the same state.
        ensures asked { IfOk result
            (λ answer. (answer, self.new) ≡ rule.asked self.old thread random_number) }
        ensures small { IfOk result GivesSmallProcess }

        // Whatever generator and trace the driver stands for, the answer is theirs.
        ensures answered { (g : Generator) (t : Trace) → IsDriverOf self.old g t
            → IfOk result (λ answer. Answers g t self.old thread random_number answer self.new) }
    {
        let number = number_of(thread);
        if number > self.clients {
            return Err(GenError::NoSuchThread);
        }
        if self.busy[number] {
            return Err(GenError::BusyThread);
        }
        if self.given >= MAX_CALLS {
            return Err(GenError::TooManyOps);
        }
        if self.root.is_done() {
            return Ok(GenAnswer::Done);
        }
        let asked = Question {
            asker: number,
            random_number,
            busy: self.busy.as_slice(),
        };
        let Some(call) = self.root.take(asked) else {
            return Ok(GenAnswer::Pending);
        };
        self.busy[number] = true;
        self.given += 1;
        let process = process_in(self.processes.as_slice(), thread);
        Ok(GenAnswer::Call(process, call))
    }

    /// Ends a thread's operation. Takes no memory.
    ///
    /// Errors, in this order: `NoSuchThread`; `NothingOpen` where the thread has none outstanding.
    /// The driver is then unchanged.
    pub fn complete(&mut self, thread: Thread, ended: Ended) -> Result<(), GenError>
        ensures judged { MatchResult result (λ _. MayEnd self.old thread)
            (RefusesEnding self.old thread) }
        ensures unchanged { OnErr result (self.new ≡ self.old) }
        ensures ended { OnOk result (self.new ≡ driver_after_end self.old thread ended) }
    {
        let number = number_of(thread);
        if number > self.clients {
            return Err(GenError::NoSuchThread);
        }
        if !self.busy[number] {
            return Err(GenError::NothingOpen);
        }
        self.busy[number] = false;
        if let (Thread::Client(_), Ended::Info) = (thread, ended) {
            self.processes[number] += self.clients as u64;
        }
        Ok(())
    }
}
