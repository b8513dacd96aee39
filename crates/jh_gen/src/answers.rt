//! Who asks a driver, how an operation ends, and what a driver answers.

ghost use Rattle.std.specs.Prelude.{◌≡◌};
ghost use Rattle.jh_gen.specs.declared.answers.DriverError.TheVariants.{OutOfMemory};

use jh_ops::{Call, Process};
use std::alloc::AllocError;
use thiserror::Error;

/// Who asks.
#[derive(Clone, Copy, Debug, PartialEq, Eq)]
pub enum Thread {
    /// A client thread, by its number, from 0.
    Client(u32),
    /// The thread that begins and ends faults.
    Nemesis,
}

/// How an operation ended (`:ok`, `:fail` and `:info` of jepsen.history).
#[derive(Clone, Copy, Debug, PartialEq, Eq)]
pub enum Ended {
    /// It happened.
    Ok,
    /// It did not happen.
    Fail,
    /// It is not known: the process has crashed, and its thread goes on as another one.
    Info,
}

/// What a thread is told when it asks.
#[derive(Clone, Copy, Debug, PartialEq, Eq)]
pub enum GenAnswer {
    /// The thread's next call, and the process whose operation it is.
    Call(Process, Call),
    /// There is nothing for this thread now; there may be later.
    Pending,
    /// The whole generator is spent: there is nothing more for any thread.
    Done,
}

/// Why a driver refuses to answer, or to end an operation.
#[derive(Clone, Copy, Debug, PartialEq, Eq, Error)]
pub enum GenError {
    /// The driver has no client thread of this number.
    #[error("no such thread")]
    NoSuchThread,
    /// The thread has an operation outstanding.
    #[error("busy thread")]
    BusyThread,
    /// `MAX_CALLS` calls were given, the most that a driver gives.
    #[error("too many operations")]
    TooManyOps,
    /// The thread has no operation outstanding.
    #[error("nothing open")]
    NothingOpen,
}

/// Why no driver is made.
#[derive(Clone, Copy, Debug, PartialEq, Eq, Error)]
pub enum DriverError {
    /// The number of client threads is not from 1 to 16.
    #[error("bad clients")]
    BadClients,
    /// The numbers of a reserve sum to more than the number of client threads.
    #[error("bad reserve")]
    BadReserve,
    #[error("out of memory")]
    OutOfMemory,
}

impl From<AllocError> for DriverError {
    ghost from_gives = { λ _ e. e ≡ OutOfMemory };

    fn from(_error: AllocError) -> DriverError {
        DriverError::OutOfMemory
    }
}
