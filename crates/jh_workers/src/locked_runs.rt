//! Runs on threads over a locked world that is made for the run.

ghost use Rattle.std.specs.Prelude.{◌≡◌, [], All, IfOk};
ghost use Rattle.jh_ops.specs.Operation.{operations};
ghost use Rattle.jh_ops.specs.OperationWritten.{IsWritable};
ghost use Rattle.jh_slots.specs.Seats.{Marks};
ghost use Rattle.jh_workers.specs.Gather.{IsGathered};
ghost use Rattle.jh_workers.specs.Outcomes.{IsOutcome};
ghost use Rattle.jh_workers.specs.Shown.{world_parts};

use crate::locked::{LockedWorld, PARTS};
use crate::monitor::RunError;
use crate::runs::{Outcome, run};
use jh_ops::Op;
use jh_simnode::{Event, Plan, World, world_of};
use std::alloc::Global;
use std::marker::Brand;
use std::sync::Wait;
use std::sync::ledger::{Blank, Ledger};
use std::thread::Threads;

/// What a run on threads left: the history that its threads recorded, and the journal of its world.
#[derive(Drop)]
pub struct RecordedRun {
    pub history: Vec<Op>,
    pub journal: Vec<Event>,
}

/// Runs a plan on threads as `run` does, over a locked world that is made for it. The world is gone
/// when this returns.
///
/// May wait, and promises only if it returns.
///
/// Errors: those of `run`, of which the world, being new, never gives `Mismatch` at the start;
/// `OutOfMemory` also where the world could not be made.
pub fn run_locked<R: Threads + Wait + Sync>(
    rt: &R,
    alloc: Global,
    plan: &Plan,
) -> Result<RecordedRun, RunError>
    ensures outcome { IfOk result
        (λ run. IsOutcome plan.now run.journal.items (operations run.history.items)) }
    ensures gathered { IfOk result
        (λ run. (seen : Marks) × IsGathered seen plan.now.rows (operations run.history.items)) }
    ensures writable { IfOk result
        (λ run. All (λ op. IsWritable op.process) (operations run.history.items)) }
{
    let Ok(world) = world_of(alloc, plan) else {
        return Err(RunError::OutOfMemory);
    };
    run_over::<Brand, R>(rt, alloc, plan, world, Blank::new(PARTS))
}

/// Runs a plan on threads over this world, in which nothing has happened, as `run_locked` does. The
/// shares of the world are parts of a ledger with the name of the blank.
fn run_over<L: Ledger + Send + Sync, R: Threads + Wait + Sync>(
    rt: &R,
    alloc: Global,
    plan: &Plan,
    world: World,
    blank: Blank,
) -> Result<RecordedRun, RunError>
    requires empty { world.journal ≡ [] }
    requires name { blank.name ≡ L.name }
    requires parts { blank.parts ≡ L.parts }
    requires number { blank.parts ≡ world_parts }
    ensures outcome { IfOk result
        (λ run. IsOutcome plan.now run.journal.items (operations run.history.items)) }
    ensures gathered { IfOk result
        (λ run. (seen : Marks) × IsGathered seen plan.now.rows (operations run.history.items)) }
    ensures writable { IfOk result
        (λ run. All (λ op. IsWritable op.process) (operations run.history.items)) }
{
    let port = LockedWorld::<L>::new(world, blank);
    let Outcome {
        history,
        journal,
        shares: _,
    } = run(rt, alloc, plan, &port)?;
    Ok(RecordedRun { history, journal })
}
