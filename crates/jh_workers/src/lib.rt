//! Runs on threads: client threads and one thread of the schedule call one locked world, and record
//! in one log what they do. An outcome is given only where the audit accepts it.
//!
//! Nothing that changes is shared but the world under its lock, the log, and the monitor under a
//! second lock, which has the generator's driver. All that an outcome promises is checked once the
//! threads have ended, so it does not depend on the order in which they ran.
//!
//! Calls that take the runtime may wait, and promise only if they return.
#![tactic(auto)]

mod locked;
mod locked_runs;
mod log_seat;
mod monitor;
mod ports;
mod records;
mod runs;
mod turns;
mod workers;

pub use jh_audit::{AuditFault, audit, follows_plan};
pub use locked::{LockedWorld, WorldShare};
pub use locked_runs::{RecordedRun, run_locked};
pub use ports::{Count, Port};
pub use records::{GatherError, gather};
pub use runs::{Outcome, RunError, run};
