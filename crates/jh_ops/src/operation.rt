//! Operations, as programs hold them. `specs/Operation.antt` says what a contract sees of one.

ghost use Rattle.std.specs.Prelude.{◌≡◌, ◌↔◌, IsTrue};
ghost use Rattle.jh_ops.specs.Operation as rule;
ghost use Rattle.jh_ops.specs.Operation.{operation};
ghost use Rattle.jh_ops.specs.OperationWritten.{IsWritable};

use jh_edn::{Pairs, Value};

/// What an operation says of itself (`:type`).
#[derive(Clone, Copy, Debug, PartialEq, Eq)]
pub enum Kind {
    /// A process asks for something.
    Invoke,
    /// It happened.
    Ok,
    /// It did not happen.
    Fail,
    /// It is not known: it may take effect at any later time, or never.
    Info,
}

/// Who did an operation (`:process`).
#[derive(Clone, Copy, Debug, PartialEq, Eq)]
pub enum Process {
    /// A client process, by its number. Those that are read from a text are at most `i64::MAX`.
    Client(u64),
    /// The one that begins and ends faults.
    Nemesis,
}

impl Kind {
    /// Whether the two are one.
    pub fn is(self, other: Kind) -> bool
        ensures { result ≡ rule.is_kind self other }
    {
        match (self, other) {
            (Kind::Invoke, Kind::Invoke) => true,
            (Kind::Ok, Kind::Ok) => true,
            (Kind::Fail, Kind::Fail) => true,
            (Kind::Info, Kind::Info) => true,
            _ => false,
        }
    }
}

impl Process {
    /// Whether it is a client's, and not the nemesis.
    pub fn is_client(self) -> bool
        ensures { result ≡ rule.is_client self }
    {
        matches!(self, Process::Client(_))
    }

    /// Whether the process can be written: a client's number is at most `i64::MAX`.
    pub fn is_writable(self) -> bool
        ensures { IsTrue result ↔ IsWritable self }
    {
        match self {
            Process::Client(number) => number <= i64::MAX as u64,
            Process::Nemesis => true,
        }
    }
}

/// One record of a history: an invocation, or a completion. The crates above call an invocation
/// with its completion an operation too, where they speak of pairs ([`crate::pair`]).
#[derive(Debug, Drop)]
pub struct Op {
    pub kind: Kind,
    /// What is asked for, as `:read`.
    pub f: Value,
    /// What is asked with, or answered.
    pub value: Value,
    pub process: Process,
    /// Nanoseconds since the test began, where that is an integer.
    pub time: Option<i64>,
    /// The place in the history that the operation says it has, where that is an integer.
    pub index: Option<i64>,
    /// All other keys with their values, in order.
    pub rest: Pairs,
}

impl Op {
    /// Whether a client did it, and it is of this kind and of the function of this name, which
    /// stands without its colon: an invocation that asks for the function, or a completion of one.
    pub fn is_asked(&self, kind: Kind, name: &str) -> bool
        ensures { result ≡ rule.is_asked kind name.now (operation self.now) }
    {
        self.process.is_client() && kind.is(self.kind) && self.f.is_keyword(name)
    }
}
