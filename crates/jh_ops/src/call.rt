//! What clients and the nemesis are asked to do. `specs/Requests.antt` says which workload has
//! which requests, and how each is recorded.

ghost use Rattle.std.specs.Prelude.{◌≡◌, IfOk, IfSome, IsNone};
ghost use Rattle.jh_edn.specs.View.{view};
ghost use Rattle.jh_ops.specs.Requests as rule;
ghost use Rattle.jh_ops.specs.Requests.{is_request_of, workload_name, workload_named};
ghost use Rattle.jh_ops.specs.Words.{Several, content_value};
ghost use Rattle.jh_ops.specs.declared.call.Workload.{Workload};

use jh_edn::{Value, Values};
use std::alloc::{AllocError, Global};

/// What a client asks of the database: the functions `:read`, `:write`, `:cas`, `:add`, `:generate`
/// and `:txn` of Jepsen's workloads, each with its argument.
#[derive(Clone, Copy, Debug, PartialEq, Eq)]
pub enum Request {
    /// Read the register or the counter, or all elements of the set.
    Read,
    /// Write this value.
    Write(i64),
    /// Compare and set: where the first value is held, write the second.
    Cas(i64, i64),
    /// Add this amount to the counter, or this element to the set.
    Add(i64),
    /// Make an id that was never made before.
    Generate,
    /// Run a transaction. Which one is told by the test that asks, and not here.
    Txn,
}

/// One call that a generator gives to a thread.
#[derive(Clone, Copy, Debug, PartialEq, Eq)]
pub enum Call {
    /// A client asks this of the database.
    Client(Request),
    /// The nemesis takes the step at this place of the schedule, from 0.
    Step(u32),
}

/// What clients ask of a database that is run here: it says which requests a run may make, and
/// which checker judges its history. `--workload` of `check` has more names, those of `Checker` of
/// `jh_checkers`.
#[derive(Clone, Copy, Debug, PartialEq, Eq)]
pub enum Workload {
    /// One value that is read, written, and compared and set.
    Register,
    /// A sum that is added to and read.
    Counter,
    /// Elements that are added once and read all together.
    Set,
    /// Ids, each made once.
    Ids,
}

impl Workload {
    /// The workload of this name: `register`, `counter`, `set` or `unique-ids`.
    pub fn named(name: &str) -> Option<Workload>
        ensures workload { result ≡ workload_named name.now }
        ensures named { IfSome result (λ workload. name.now ≡ workload_name workload) }
        ensures unknown { IsNone result → (workload : Workload) → name.now ≡ workload_name workload
            → ⊥ }
    {
        match name {
            "register" => Some(Workload::Register),
            "counter" => Some(Workload::Counter),
            "set" => Some(Workload::Set),
            "unique-ids" => Some(Workload::Ids),
            _ => None,
        }
    }

    /// Its name, as `named` takes it.
    pub fn name(self) -> &'static str
        ensures { result.now ≡ workload_name self }
    {
        match self {
            Workload::Register => "register",
            Workload::Counter => "counter",
            Workload::Set => "set",
            Workload::Ids => "unique-ids",
        }
    }

    /// How many calls a run may make: 10,000, and 1,000 for a set, of which each read gives all
    /// elements.
    pub fn max_calls(self) -> u32
        ensures { result ≡ rule.max_calls_of self }
    {
        match self {
            Workload::Set => 1_000,
            Workload::Register | Workload::Counter | Workload::Ids => 10_000,
        }
    }
}

impl Request {
    /// Whether it is a request of the workload: a register is read, written, and compared and set;
    /// counters and sets are added to and read; ids are generated.
    pub fn is_of(self, workload: Workload) -> bool
        ensures { result ≡ is_request_of self workload }
    {
        match (self, workload) {
            (Request::Read, Workload::Register | Workload::Counter | Workload::Set) => true,
            (Request::Write(_) | Request::Cas(_, _), Workload::Register) => true,
            (Request::Add(_), Workload::Counter | Workload::Set) => true,
            (Request::Generate, Workload::Ids) => true,
            _ => false,
        }
    }

    /// The name of its function, which is recorded under `:f`.
    pub fn name(self) -> &'static str
        ensures { result.now ≡ rule.request_name self }
    {
        match self {
            Request::Read => "read",
            Request::Write(_) => "write",
            Request::Cas(_, _) => "cas",
            Request::Add(_) => "add",
            Request::Generate => "generate",
            Request::Txn => "txn",
        }
    }

    /// The value with which it asks: its number, the vector of its two numbers, or nil where it has
    /// none.
    ///
    /// Error: memory was refused.
    pub fn argument(self, alloc: Global) -> Result<Value, AllocError>
        ensures { IfOk result (λ value. view value ≡ content_value (rule.asked_content self)) }
    {
        match self {
            Request::Read | Request::Generate | Request::Txn => Ok(Value::Nil),
            Request::Write(value) => Ok(Value::Int(value)),
            Request::Cas(old, new) => vector_of(alloc, &[old, new]),
            Request::Add(amount) => Ok(Value::Int(amount)),
        }
    }
}

/// The vector of these numbers.
///
/// Error: memory was refused.
pub fn vector_of(alloc: Global, numbers: &[i64]) -> Result<Value, AllocError>
    ensures { IfOk result (λ value. view value ≡ content_value (Several numbers.now)) }
{
    let mut values = Vec::new(alloc);
    for number in numbers {
        values.push(Value::Int(*number))?;
    }
    Ok(Value::Vector(Values::of(values)))
}
