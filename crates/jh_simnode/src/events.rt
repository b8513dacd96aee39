//! What happens in a world, and why a world refuses it. `specs/Events.antt` says which events are
//! due.

ghost use Rattle.std.specs.Prelude.{◌≡◌, IfOk};

use crate::replicas::Reply;
use jh_env::Node;
use jh_nemesis::{Step, StepAnswer};
use jh_ops::Request;
use std::alloc::{AllocError, Global};
use thiserror::Error;

/// The most events of a world.
pub const MAX_EVENTS: usize = 65_536;

/// What happened in a world.
#[derive(Debug, Drop)]
pub enum Event {
    /// A client's process asked a node for something, with a draw that decided about losses.
    Call {
        process: u64,
        node: Node,
        request: Request,
        draw: u64,
        reply: Reply,
    },
    /// The nemesis took a step, or refused it.
    Step {
        step: Step,
        answer: StepAnswer,
    },
    /// The nodes sent each other what they have.
    Tick,
}

impl Event {
    /// The same event again.
    pub fn copy(&self, alloc: Global) -> Result<Event, AllocError>
        ensures { IfOk result (λ copy. copy ≡ self.now) }
    {
        match self {
            Event::Call {
                process,
                node,
                request,
                draw,
                reply,
            } => Ok(Event::Call {
                process: *process,
                node: *node,
                request: *request,
                draw: *draw,
                reply: reply.copy(alloc)?,
            }),
            Event::Step { step, answer } => Ok(Event::Step {
                step: step.copy(alloc)?,
                answer: *answer,
            }),
            Event::Tick => Ok(Event::Tick),
        }
    }
}

/// Why a world refuses an event.
#[derive(Clone, Copy, Debug, PartialEq, Eq, Error)]
pub enum WorldError {
    #[error("unknown node")]
    UnknownNode,
    #[error("too many events")]
    TooManyEvents,
    #[error("out of memory")]
    OutOfMemory,
}

impl From<AllocError> for WorldError {
    ghost use Rattle.std.specs.Prelude.{◌≡◌};
    ghost use Rattle.jh_simnode.specs.declared.events.WorldError.TheVariants.{OutOfMemory};

    ghost from_gives = { λ _ e. e ≡ OutOfMemory };

    fn from(_error: AllocError) -> WorldError {
        WorldError::OutOfMemory
    }
}
