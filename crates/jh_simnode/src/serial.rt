//! Serial runs: a plan, one event after the other, on a world of its own. `specs/Runs.antt` says
//! what a run is, `specs/Histories.antt` which history it has.

ghost use Rattle.std.specs.Prelude.{◌≡◌, [], All, MatchResult, IfOk, IfErr, OnOk};
ghost use Rattle.jh_ops.specs.Operation.{operations};
ghost use Rattle.jh_ops.specs.OperationWritten.{IsWritable};
ghost use Rattle.jh_simnode.specs.Histories.{CanBeText};
ghost use Rattle.jh_simnode.specs.Plans.{IsFit, IsKeptPlan};
ghost use Rattle.jh_simnode.specs.Running.{StopsOrFills, HasSmallProcess, IsOver};
ghost use Rattle.jh_simnode.specs.Runs.{HasOneRun, IsSerialRun, Stops, setup_of};

use crate::events::WorldError;
use crate::history::journal_history;
use crate::integers::events_have_integers;
use crate::plan::Plan;
use crate::turns::Run;
use crate::world::World;
use jh_ops::Op;
use std::alloc::{AllocError, Global};
use thiserror::Error;

/// Why a serial run was not completed; `RunError` of `jh_workers` says it of a run on threads.
#[derive(Clone, Copy, Debug, PartialEq, Eq, Error)]
pub enum RunError {
    /// The world refused an event.
    #[error("{0}")]
    World(WorldError),
    /// Each thread in a round got nothing. No plan that is known comes to this.
    #[error("stuck")]
    Stuck,
    #[error("out of memory")]
    OutOfMemory,
}

impl From<WorldError> for RunError {
    ghost use Rattle.std.specs.Prelude.{◌≡◌};
    ghost use Rattle.jh_simnode.specs.declared.serial.RunError.TheVariants.{World};

    ghost from_gives = { λ error e. e ≡ World error };

    fn from(error: WorldError) -> RunError {
        RunError::World(error)
    }
}

impl From<AllocError> for RunError {
    ghost use Rattle.std.specs.Prelude.{◌≡◌};
    ghost use Rattle.jh_simnode.specs.declared.serial.RunError.TheVariants.{OutOfMemory};

    ghost from_gives = { λ _ e. e ≡ OutOfMemory };

    fn from(_error: AllocError) -> RunError {
        RunError::OutOfMemory
    }
}

/// The world of a plan, in which nothing has happened.
pub fn world_of(alloc: Global, plan: &Plan) -> Result<World, AllocError>
    ensures { IfOk result (λ world. (world.journal ≡ []) × (world.setup ≡ setup_of plan.now)) }
{
    World::new(alloc, plan.environment().copy(alloc)?, plan.database())
}

/// Makes all moves of a run on a world in which nothing happened.
fn run_turns(alloc: Global, plan: &Plan, world: &mut World) -> Result<(), RunError>
    requires new { world.old.journal ≡ [] }
    requires setup { world.old.setup ≡ setup_of plan.now }
    ensures over { OnOk result (IsOver plan.now world.new) }
    ensures setup { OnOk result (world.new.setup ≡ setup_of plan.now) }
    ensures small { OnOk result (All HasSmallProcess world.new.journal) }
    ensures stopped { IfErr result (StopsOrFills plan.now) }
    ensures kept { IsKeptPlan plan.now }
{
    let clients = plan.clients();
    let mut run = Run::new(alloc, plan)?;
    loop {
        run.apply_due(alloc, plan, world)?;
        // Not used: the contract of this call bounds the journal.
        let _events = world.journal().len();
        if run.has_ended {
            return Ok(());
        }
        if run.waits >= clients {
            return Err(RunError::Stuck);
        }
        run.take_turn(plan, world)?;
    }
}

/// A serial run of a plan: the world after it, and its history. The same plan gives the same run
/// each time.
///
/// Takes time for each call and step, and for the size of the generator.
///
/// Errors: `Stuck` where in one round no thread got a call; `OutOfMemory`, or `World` with
/// `WorldError::OutOfMemory`. A run never fills its world: it has at most two events for each call, and
/// one for each entry of its schedule.
pub fn run_serial(alloc: Global, plan: &Plan) -> Result<(World, Vec<Op>), RunError>
    ensures judged { MatchResult result
        (λ run. (run.0.setup ≡ setup_of plan.now)
        × IsSerialRun plan.now run.0.journal (operations run.1.items))
        (Stops plan.now) }
    ensures writable { IfOk result
        (λ run. All (λ op. IsWritable op.process) (operations run.1.items)) }
    ensures text { IfOk result (λ run. CanBeText run.0.journal) }
    ensures fit { IfOk result (λ _. IsFit plan.now) }
{
    let mut world = world_of(alloc, plan)?;
    run_turns(alloc, plan, &mut world)?;
    let journal = world.journal();
    events_have_integers(journal);
    let history = journal_history(alloc, journal)?;
    Ok((world, history))
}

/// A law, on a function that does nothing: a plan has one run and one history at most.
pub fn one_run()
    ensures { HasOneRun }
{}
