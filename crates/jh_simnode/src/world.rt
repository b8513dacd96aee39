//! A world: one environment, one nemesis and one replica for each node, changed in place, with the
//! journal of all that happened. `specs/Events.antt` recomputes where a world stands from its
//! journal.

ghost use Rattle.std.specs.Prelude.{◌≡◌, ◌+◌, ◌<◌, ◌≤◌, [], length, IfOk, MatchResult, ⊤};
ghost use Rattle.jh_env.specs.Overlay.{StandsFor};
ghost use Rattle.jh_nemesis.specs.Steps.{FitsNodes};
ghost use Rattle.jh_nemesis.specs.Work.{size_of_step};
ghost use Rattle.jh_simnode.specs.Events.{AddsEvent, Refuses, IsLegal, IsNewWorld, moment_at};
ghost use Rattle.jh_simnode.specs.Limits.{max_events};
ghost use Rattle.jh_simnode.specs.declared.events.Event.TheVariants as Event;

use crate::database::Database;
use crate::events::{Event, MAX_EVENTS, WorldError};
use crate::replicas::{Replica, Reply, first_replicas};
use crate::stores::{forget, killed_nodes, serve, take_over, tick_replicas};
use jh_env::{Env, Node};
use jh_nemesis::{Nemesis, Step, StepAnswer};
use jh_ops::Request;
use std::alloc::{AllocError, Global};
use std::marker::Model;

/// An environment under faults, the replicas of a database on its nodes, and a journal of all that
/// happened. A contract sees what the world keeps for good, its names, starting cells and database,
/// the journal, and how often the environment was written.
#[derive(Debug, Drop)]
pub struct World {
    alloc: Global,
    database: Database,
    nemesis: Nemesis,
    replicas: Vec<Replica>,
    journal: Vec<Event>,
}

impl Model for World {
    ghost use Rattle.jh_simnode.specs.Events.{WorldValue};

    ghost Value = { WorldValue };

    ghost use Rattle.jh_simnode.specs.Inside.{world_of, IsSoundWorld};

    ghost view = { world_of };

    ghost invariant = { IsSoundWorld };
}

impl World {
    /// A world in which nothing has happened, over an environment in which no fault is laid.
    pub fn new(alloc: Global, env: Env, database: Database) -> Result<World, AllocError>
        requires { StandsFor env [] }
        ensures { IfOk result (IsNewWorld env database) }
    {
        let replicas = first_replicas(alloc, &database, env.nodes().len())?;
        Ok(World {
            alloc,
            database,
            nemesis: Nemesis::new(alloc, env),
            replicas,
            journal: Vec::new(alloc),
        })
    }

    /// All that happened, in order, at most 65,536 events.
    pub fn journal(&self) -> &[Event]
        ensures events { result.now ≡ self.now.journal }
        ensures legal { IsLegal self.now.setup self.now.journal }
        ensures few { length self.now.journal ≤ max_events }
    {
        &self.journal
    }

    /// The faults, with their past and future: those that the journal leads to.
    pub fn nemesis(&self) -> &Nemesis
        ensures state { result.now.state ≡ (moment_at self.now.setup self.now.journal).faults }
        ensures work { result.now.work ≡ self.now.work }
    {
        &self.nemesis
    }

    /// The replicas of the database, one for each node by its place: those that the journal leads
    /// to.
    pub fn replicas(&self) -> &[Replica]
        ensures { result.now ≡ (moment_at self.now.setup self.now.journal).replicas }
    {
        &self.replicas
    }

    /// A client's call of a node. Answers the number of the event and the reply, which is the one
    /// that is due. `draw` decides whether a message of the call is lost: on a link of loss n it is
    /// where draw mod 20 is below n.
    ///
    /// Takes time for the nodes, and for the replicas that it reads or changes.
    ///
    /// Errors, which change nothing: `UnknownNode`; `TooManyEvents` after 65,536 events;
    /// `OutOfMemory`.
    pub fn call(
        &mut self,
        process: u64,
        node: Node,
        request: Request,
        draw: u64,
    ) -> Result<(u64, Reply), WorldError>
        ensures added { MatchResult result
            (λ given. AddsEvent self.old
            (Event.Call process node request draw given.1) given.0 self.new)
            (λ e. (self.new ≡ self.old)
            × Refuses (node < length self.old.setup.names) self.old.journal e) }
        ensures work { self.new.work ≡ self.old.work }
    {
        if node.place() as usize >= self.replicas.len() {
            return Err(WorldError::UnknownNode);
        }
        if self.journal.len() >= MAX_EVENTS {
            return Err(WorldError::TooManyEvents);
        }
        let number = self.journal.len() as u64;
        self.journal.reserve(1)?;
        let served = serve(
            self.alloc,
            &self.database,
            self.nemesis.env(),
            &self.replicas,
            number,
            node,
            request,
            draw,
        )?;
        let reply = served.reply.copy(self.alloc)?;
        take_over(&mut self.replicas, served.taken);
        self.journal.push_reserved(Event::Call {
            process,
            node,
            request,
            draw,
            reply: served.reply,
        });
        Ok((number, reply))
    }

    /// A step of the nemesis. Answers the number of the event and the answer of the nemesis; a step
    /// that it refuses is an event too. Where the database is volatile, a node that is killed by
    /// it loses its replica. A step back or forth takes memory for its event only.
    ///
    /// Errors, which change nothing: `UnknownNode` where the fault of a begin names one;
    /// `TooManyEvents` after 65,536 events; `OutOfMemory`.
    pub fn step(&mut self, step: Step) -> Result<(u64, StepAnswer), WorldError>
        ensures added { MatchResult result
            (λ given. AddsEvent self.old (Event.Step step given.1) given.0 self.new)
            (λ e. (self.new ≡ self.old)
            × Refuses (FitsNodes (length self.old.setup.names) step) self.old.journal e) }
        ensures work { self.new.work
            ≤ self.old.work + size_of_step (moment_at self.old.setup self.old.journal).faults step }
    {
        if !step.fits(self.nemesis.env()) {
            return Err(WorldError::UnknownNode);
        }
        if self.journal.len() >= MAX_EVENTS {
            return Err(WorldError::TooManyEvents);
        }
        let number = self.journal.len() as u64;
        self.journal.reserve(1)?;
        let kept = step.copy(self.alloc)?;
        let before = killed_nodes(self.nemesis.env());
        let answer = self.nemesis.apply(step)?;
        forget(
            self.alloc,
            &self.database,
            before.as_slice(),
            self.nemesis.env(),
            &mut self.replicas,
        );
        self.journal
            .push_reserved(Event::Step { step: kept, answer });
        Ok((number, answer))
    }

    /// A moment in which the nodes of a last-writer-wins store send each other what they have.
    /// Answers the number of the event.
    ///
    /// Errors, which change nothing: `TooManyEvents` after 65,536 events; `OutOfMemory`.
    pub fn tick(&mut self) -> Result<u64, WorldError>
        ensures added { MatchResult result
            (λ given. AddsEvent self.old Event.Tick given self.new)
            (λ e. (self.new ≡ self.old) × Refuses ⊤ self.old.journal e) }
        ensures work { self.new.work ≡ self.old.work }
    {
        if self.journal.len() >= MAX_EVENTS {
            return Err(WorldError::TooManyEvents);
        }
        let number = self.journal.len() as u64;
        self.journal.reserve(1)?;
        let taken = tick_replicas(
            self.alloc,
            self.database.store,
            self.nemesis.env(),
            &self.replicas,
        )?;
        take_over(&mut self.replicas, taken);
        self.journal.push_reserved(Event::Tick);
        Ok(number)
    }
}
