//! The faults that a journal leads to, by its steps alone. `specs/Replay.antt` says why a journal
//! is refused.

ghost use Rattle.std.specs.Prelude.{◌≡◌, All, length, IfOk, IfErr, OnOk};
ghost use Rattle.jh_simnode.specs.Events.{faults_after};
ghost use Rattle.jh_simnode.specs.Laws.{state_at};
ghost use Rattle.jh_simnode.specs.Replay.{FitsEvent, RefusesEvent, RefusesReplay};
ghost use Rattle.jh_simnode.specs.Runs.{setup_of};

use crate::events::{Event, WorldError};
use crate::plan::Plan;
use jh_nemesis::Nemesis;
use std::alloc::Global;

/// Applies the step of an event, where it is one.
fn apply_event(alloc: Global, nemesis: &mut Nemesis, event: &Event) -> Result<(), WorldError>
    ensures state { OnOk result (nemesis.new.state ≡ faults_after nemesis.old.state event.now) }
    ensures fits { OnOk result (FitsEvent (length nemesis.old.state.names) event.now) }
    ensures refused { IfErr result (RefusesEvent (length nemesis.old.state.names) event.now) }
{
    let Event::Step { step, answer: _ } = event else {
        return Ok(());
    };
    if !step.fits(nemesis.env()) {
        return Err(WorldError::UnknownNode);
    }
    nemesis.apply(step.copy(alloc)?)?;
    Ok(())
}

/// The nemesis to which the steps of a journal were applied, in order, from the environment of a
/// plan on. Calls and ticks are left out, and the answers in the journal are not looked at.
///
/// Takes time for each event, and for what the steps' faults name.
///
/// Errors: `UnknownNode` where the fault of a step names a node that is not in the environment;
/// `OutOfMemory`.
pub fn nemesis_after(alloc: Global, plan: &Plan, journal: &[Event]) -> Result<Nemesis, WorldError>
    ensures state { IfOk result
        (λ nemesis. nemesis.state ≡ state_at (setup_of plan.now) journal.now) }
    ensures fits { OnOk result (All (FitsEvent (length plan.now.env.names)) journal.now) }
    ensures refused { IfErr result (RefusesReplay (length plan.now.env.names) journal.now) }
{
    let mut nemesis = Nemesis::new(alloc, plan.environment().copy(alloc)?);
    for event in journal {
        match apply_event(alloc, &mut nemesis, event) {
            Ok(()) => {}
            Err(error) => return Err(error),
        }
    }
    Ok(nemesis)
}
