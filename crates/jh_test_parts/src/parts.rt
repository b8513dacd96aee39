//! The parts of what a test is set to. `specs/Test.antt` says what they are for.

ghost use Rattle.std.specs.Prelude.{◌≡◌, IfOk};

use jh_nemesis::Step;
use std::alloc::{AllocError, Global};

/// Over how many keys at a time transactions are, at most.
pub const MAX_TRANSACTION_KEYS: u32 = 1_000;

/// How many micro-operations a transaction has, at most.
pub const MAX_TRANSACTION_OPS: u32 = 100;

/// How many appends of a key are made before another one takes its place, at most.
pub const MAX_KEY_APPENDS: u32 = 10_000;

/// When an entry of the schedule is due, once all before it were taken.
#[derive(Clone, Copy, Debug, PartialEq, Eq)]
pub enum When {
    /// After so many answered calls.
    Calls(u32),
    /// So many milliseconds after the test began.
    Milliseconds(u32),
}

/// An entry of the schedule of a test: a step of the nemesis, and when it is due.
#[derive(Debug, Drop)]
pub struct TestEntry {
    pub at: When,
    pub step: Step,
}

impl TestEntry {
    /// The same entry once more.
    ///
    /// Errors: where there is no memory for it.
    pub fn copy(&self, alloc: Global) -> Result<TestEntry, AllocError>
        ensures { IfOk result (λ copy. copy ≡ self.now) }
    {
        Ok(TestEntry {
            at: self.at,
            step: self.step.copy(alloc)?,
        })
    }
}

/// Keys are independent: threads fall into groups of so many, and so many calls of a group go to one
/// key before the next one takes its place.
#[derive(Clone, Copy, Debug, PartialEq, Eq)]
pub struct KeyShares {
    /// 1 to 16, by which the number of threads can be divided.
    pub threads: u32,
    /// 1 to 1,000,000.
    pub calls: u32,
}

/// How transactions are made: over so many keys at a time, of so many micro-operations at most, with
/// so many appends of a key before another one takes its place.
#[derive(Clone, Copy, Debug, PartialEq, Eq)]
pub struct TransactionShape {
    /// 1 to 1,000.
    pub keys: u32,
    /// 1 to 100.
    pub most: u32,
    /// 1 to 10,000.
    pub appends: u32,
}
