//! What stores do with requests, ticks and kills. The environment is that of a world's nemesis.
//!
//! None is answered where memory was refused, or where a place is none of the environment's.

use crate::plain_simnode::held::{first_held, held_after};
use crate::plain_simnode::reach::{link, node_at, process, reached, responding};
use jh_env::{Env, Life};
use jh_ops::Request;
use jh_simnode::{Database, Got, Reply, Store};
use std::alloc::Global;

/// How new a replica is, by a version or a time and then by a node, and what it holds.
#[derive(Drop)]
struct PlainReplica {
    time: i128,
    by: usize,
    held: Vec<i64>,
}

/// A reply to a request.
#[derive(Drop)]
pub enum PlainReply {
    /// It was done, and got what a replica held, where it asks for something.
    Ok(Option<Vec<i64>>),
    /// It was not done.
    Fail,
    /// It may have been done.
    Info,
}

/// The replicas of a database on its nodes, by place.
#[derive(Drop)]
pub struct PlainCluster {
    alloc: Global,
    settings: Database,
    replicas: Vec<PlainReplica>,
}

/// A request at a node, which is the number of its event, with the nodes that it reaches.
#[derive(Drop)]
struct PlainRequest {
    number: i128,
    at: usize,
    request: Request,
    reached: Vec<usize>,
    responding: Vec<usize>,
}

impl PlainReply {
    /// Whether a world's reply is the same.
    pub fn is_same(&self, reply: &Reply) -> bool {
        match (reply, self) {
            (Reply::Fail, PlainReply::Fail) | (Reply::Info, PlainReply::Info) => true,
            (Reply::Ok(Got::Nothing), PlainReply::Ok(None)) => true,
            (Reply::Ok(got), PlainReply::Ok(Some(held))) => is_got(got, held),
            _ => false,
        }
    }
}

/// Whether just this was got.
fn is_got(got: &Got, held: &[i64]) -> bool {
    match got {
        Got::Nothing => false,
        Got::One(None) => held.is_empty(),
        Got::One(Some(value)) => held == [*value].as_slice(),
        Got::Many(numbers) => held == numbers.as_slice(),
    }
}

/// A node's replica at first.
fn first_replica(alloc: Global, settings: &Database) -> Option<PlainReplica> {
    Some(PlainReplica {
        time: i128::MIN,
        by: 0,
        held: first_held(alloc, settings.workload, settings.initial).ok()?,
    })
}

/// The place of the first of the newest replicas.
fn newest(replicas: &[PlainReplica], these: &[usize]) -> Option<usize> {
    let mut best = *these.first()?;
    for place in these {
        if replicas.get(*place)?.time > replicas.get(best)?.time {
            best = *place;
        }
    }
    Some(best)
}

/// What a request gets that is done on what is held.
fn got(alloc: Global, request: Request, held: &[i64]) -> Option<PlainReply> {
    match request {
        Request::Read | Request::Generate => {
            Some(PlainReply::Ok(Some(held.to_vec(alloc).ok()?)))
        }
        _ => Some(PlainReply::Ok(None)),
    }
}

impl PlainCluster {
    /// So many nodes with their first replicas.
    pub fn new(alloc: Global, settings: Database, count: usize) -> Option<PlainCluster> {
        let mut replicas = Vec::new(alloc);
        for _place in 0..count {
            replicas.push(first_replica(alloc, &settings)?).ok()?;
        }
        Some(PlainCluster {
            alloc,
            settings,
            replicas,
        })
    }

    /// What the replica at a place holds.
    fn held(&self, place: usize) -> Option<&[i64]> {
        Some(self.replicas.get(place)?.held.as_slice())
    }

    /// Whether these are more than half of the nodes.
    fn is_majority(&self, these: &[usize]) -> bool {
        these.len() > self.replicas.len() / 2
    }

    /// Puts a new replica at a place: how new it is, and what it holds.
    fn keep(&mut self, place: usize, time: i128, by: usize, held: &[i64]) -> Option<()> {
        let held = held.to_vec(self.alloc).ok()?;
        *self.replicas.get_mut(place)? = PlainReplica { time, by, held };
        Some(())
    }

    /// Whether the replica at a place is older than one of this time and node.
    fn is_older(&self, place: usize, time: i128, by: usize) -> Option<bool> {
        let replica = self.replicas.get(place)?;
        Some(replica.time < time || replica.time == time && replica.by < by)
    }

    /// A read of the newest replica that responds; it fails where fewer than a majority respond.
    fn read_by_quorum(&self, asked: &PlainRequest) -> Option<PlainReply> {
        if !self.is_majority(asked.responding.as_slice()) {
            return Some(PlainReply::Fail);
        }
        let best = newest(self.replicas.as_slice(), asked.responding.as_slice())?;
        got(self.alloc, asked.request, self.held(best)?)
    }

    /// What is held after the request on the replica at a place. None within: the request fails.
    fn after(&self, asked: &PlainRequest, place: usize) -> Option<Option<Vec<i64>>> {
        let workload = self.settings.workload;
        held_after(self.alloc, workload, asked.request, self.held(place)?).ok()
    }

    /// A change of the newest replica reached, which goes to all nodes reached. It fails where
    /// fewer than a majority are reached.
    fn change_by_quorum(&mut self, asked: &PlainRequest) -> Option<PlainReply> {
        if !self.is_majority(asked.reached.as_slice()) {
            return Some(PlainReply::Fail);
        }
        let best = newest(self.replicas.as_slice(), asked.reached.as_slice())?;
        let Some(held) = self.after(asked, best)? else {
            return Some(PlainReply::Fail);
        };
        let reply = got(self.alloc, asked.request, self.held(best)?)?;
        let version = self.replicas.get(best)?.time.checked_add(1)?;
        for place in asked.reached.as_slice() {
            self.keep(*place, version, 0, held.as_slice())?;
        }
        if self.is_majority(asked.responding.as_slice()) {
            Some(reply)
        } else {
            Some(PlainReply::Info)
        }
    }

    /// A change of a node's own replica, which goes to the nodes that are told of it and have an
    /// older one.
    fn change_own(
        &mut self,
        asked: &PlainRequest,
        time: i128,
        given: &[usize],
    ) -> Option<PlainReply> {
        let Some(held) = self.after(asked, asked.at)? else {
            return Some(PlainReply::Fail);
        };
        let reply = got(self.alloc, asked.request, self.held(asked.at)?)?;
        for place in given {
            if asked.request != Request::Read && self.is_older(*place, time, asked.at)? {
                self.keep(*place, time, asked.at, held.as_slice())?;
            }
        }
        Some(reply)
    }

    /// The reply of a node that runs, with its clock off by so much.
    fn serve_running(&mut self, asked: &PlainRequest, clock: i64) -> Option<PlainReply> {
        match (self.settings.store, asked.request) {
            (Store::Quorum, Request::Read) => self.read_by_quorum(asked),
            (Store::Quorum, _) => self.change_by_quorum(asked),
            (Store::Lww, _) => {
                let time = i128::from(clock).saturating_add(asked.number);
                self.change_own(asked, time, asked.reached.as_slice())
            }
            (Store::Local, _) => self.change_own(asked, asked.number, &[asked.at]),
        }
    }

    /// The reply to a request at the node of a place, which is the event of this number. `draw` is
    /// that of `World::call`.
    pub fn serve(
        &mut self,
        env: &Env,
        number: usize,
        at: usize,
        request: Request,
        draw: u64,
    ) -> Option<PlainReply> {
        if !request.is_of(self.settings.workload) {
            return Some(PlainReply::Fail);
        }
        let cell = env.node(node_at(env, at)?)?;
        match (cell.process, request) {
            (Life::Killed, _) | (Life::Paused, Request::Read | Request::Generate) => {
                return Some(PlainReply::Fail);
            }
            (Life::Paused, _) => return Some(PlainReply::Info),
            (Life::Running, _) => (),
        }
        let reached = reached(self.alloc, env, at, draw)?;
        let asked = PlainRequest {
            number: number as i128,
            at,
            request,
            responding: responding(self.alloc, env, at, reached.as_slice())?,
            reached,
        };
        self.serve_running(&asked, cell.clock)
    }

    /// One node tells another what it has, where both run and the link is not cut: the other takes
    /// it where its own is older.
    fn send(&mut self, env: &Env, from: usize, to: usize) -> Option<()> {
        let is_running = process(env, from)? == Life::Running && process(env, to)? == Life::Running;
        if from == to || !is_running || link(env, from, to)?.cut {
            return Some(());
        }
        let replica = self.replicas.get(from)?;
        let (time, by) = (replica.time, replica.by);
        let held = replica.held.as_slice().to_vec(self.alloc).ok()?;
        if self.is_older(to, time, by)? {
            self.keep(to, time, by, held.as_slice())?;
        }
        Some(())
    }

    /// A moment in which the nodes of a last writer's store tell each other what they have.
    pub fn tick(&mut self, env: &Env) -> Option<()> {
        let count = self.replicas.len();
        if self.settings.store == Store::Lww {
            for from in 0..count {
                for to in 0..count {
                    self.send(env, from, to)?;
                }
            }
        }
        Some(())
    }

    /// Where replicas are volatile, nodes lose them that are killed and weren't `before`, by place.
    pub fn forget(&mut self, before: &[bool], env: &Env) -> Option<()> {
        for (place, was_killed) in before.iter().enumerate() {
            if self.settings.volatile && !*was_killed && process(env, place)? == Life::Killed {
                *self.replicas.get_mut(place)? = first_replica(self.alloc, &self.settings)?;
            }
        }
        Some(())
    }

    /// Which nodes are killed, by place.
    pub fn killed(&self, env: &Env) -> Option<Vec<bool>> {
        let mut all = Vec::new(self.alloc);
        for place in 0..self.replicas.len() {
            all.push(process(env, place)? == Life::Killed).ok()?;
        }
        Some(all)
    }
}
