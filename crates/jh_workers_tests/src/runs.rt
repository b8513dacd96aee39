//! Runs over a locked world, and what is left of them.
//!
//! None is answered where memory was refused.

ghost use Rattle.std.specs.Prelude.{◌≡◌, []};

use jh_nemesis::Step;
use jh_ops::Op;
use jh_settings::settings_of;
use jh_simnode::{Event, Plan, World, WorldError, world_of};
use jh_workers::{LockedWorld, Outcome, Port, RunError, run};
use std::alloc::Global;
use std::marker::Brand;
use std::sync::Wait;
use std::sync::ledger::{Blank, Ledger};
use std::thread::Threads;

/// What is left of a run.
#[derive(Drop)]
pub(crate) struct Finished {
    /// Its history, or why it gave none.
    pub(crate) history: Result<Vec<Op>, RunError>,
    /// What a second run over the same world came to, which should give nothing.
    pub(crate) again: Option<RunError>,
    /// The journal of the world, where memory sufficed to copy it.
    pub(crate) journal: Option<Vec<Event>>,
}

/// The history of an outcome.
fn history_in<S>(outcome: Result<Outcome<S>, RunError>) -> Result<Vec<Op>, RunError>
where
    S: Drop,
{
    match outcome {
        Ok(
            Outcome {
                history,
                journal: _,
                shares: _,
            },
        ) => Ok(history),
        Err(error) => Err(error),
    }
}

/// The error that came in place of an outcome.
fn error_in<S>(outcome: Result<Outcome<S>, RunError>) -> Option<RunError>
where
    S: Drop,
{
    match outcome {
        Ok(_) => None,
        Err(error) => Some(error),
    }
}

/// The journal of a world. None: memory was refused.
fn journal_in<L: Ledger, R: Wait>(
    rt: &R,
    alloc: Global,
    port: &LockedWorld<L>,
) -> Option<Vec<Event>> {
    match port.events(rt, alloc) {
        Ok(events) => Some(events),
        Err(_) => None,
    }
}

/// A run of the plan over this world, and a second one.
fn run_both<L: Ledger + Send + Sync, R: Threads + Wait + Sync>(
    rt: &R,
    alloc: Global,
    plan: &Plan,
    world: World,
    blank: Blank,
) -> Finished
    requires empty { world.journal ≡ [] }
    requires name { blank.name ≡ L.name }
    requires parts { blank.parts ≡ L.parts }
    requires number { blank.parts ≡ 32 }
{
    let port = LockedWorld::<L>::new(world, blank);
    let history = history_in(run(rt, alloc, plan, &port));
    let again = error_in(run(rt, alloc, plan, &port));
    let journal = match journal_in(rt, alloc, &port) {
        None => journal_in(rt, alloc, &port),
        journal => journal,
    };
    Finished {
        history,
        again,
        journal,
    }
}

/// What is left of a run of the plan over a new world.
pub(crate) fn ran<R: Threads + Wait + Sync>(
    rt: &R,
    alloc: Global,
    plan: &Plan,
) -> Option<Finished> {
    let Ok(world) = world_of(alloc, plan) else {
        return None;
    };
    Some(run_both::<Brand, R>(rt, alloc, plan, world, Blank::new(32)))
}

/// The plan of settings.
pub(crate) fn plan_of(alloc: Global, settings: &str) -> Option<Plan> {
    match settings_of(alloc, settings.as_bytes()) {
        Ok(settings) => Some(settings.plan),
        Err(_) => None,
    }
}

/// Whether a run may end with this error where memory is refused.
pub(crate) fn may_lack_memory(error: RunError) -> bool {
    matches!(
        error,
        RunError::OutOfMemory | RunError::World(WorldError::OutOfMemory) | RunError::Thread
    )
}

/// Takes a step once more. Whether that was possible.
fn repeat_step(alloc: Global, world: &mut World, step: &Step) -> bool {
    match step.copy(alloc) {
        Ok(step) => world.step(step).is_ok(),
        Err(_) => false,
    }
}

/// Does once more in a world what an event did. Whether that was possible: what comes of it stands in the world's journal.
fn repeat(alloc: Global, world: &mut World, event: &Event) -> bool {
    match event {
        Event::Call {
            process,
            node,
            request,
            draw,
            reply: _,
        } => world.call(*process, *node, *request, *draw).is_ok(),
        Event::Step { step, answer: _ } => repeat_step(alloc, world, step),
        Event::Tick => world.tick().is_ok(),
    }
}

/// Does once more what all events did. Whether that was possible.
fn repeat_all(alloc: Global, world: &mut World, journal: &[Event]) -> bool {
    for event in journal {
        if !repeat(alloc, world, event) {
            return false;
        }
    }
    true
}

/// The world of a plan in which all was done again that a journal has.
pub(crate) fn replayed(alloc: Global, plan: &Plan, journal: &[Event]) -> Option<World> {
    let Ok(mut world) = world_of(alloc, plan) else {
        return None;
    };
    if repeat_all(alloc, &mut world, journal) {
        Some(world)
    } else {
        None
    }
}
