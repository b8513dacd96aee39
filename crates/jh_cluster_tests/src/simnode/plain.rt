//! Random events in a world and in the plain cluster, side by side. A seed gives the store, the workload, whether
//! replicas are volatile, and the events.

ghost use Rattle.std.specs.Prelude.{[]};
ghost use Rattle.jh_env.specs.Overlay.{StandsFor};

use crate::plain_simnode::{PlainCluster, node_at, random_place, random_request, random_step};
use crate::simnode::fixtures::{env_of, value};
use jh_edn::Value;
use jh_env::Env;
use jh_ops::{Request, Workload};
use jh_simnode::{Database, Store, World};
use jh_test_kit::Random;
use std::alloc::Global;

/// A world with the definition beside it.
#[derive(Drop)]
struct Both {
    world: World,
    plain: PlainCluster,
    random: Random,
}

impl Both {
    /// Whether both reply the same to a call of the node at a place.
    fn is_same_reply(&mut self, at: usize, request: Request, draw: u64) -> Option<bool> {
        let env = self.world.nemesis().env();
        let node = node_at(env, at)?;
        let number = self.world.journal().len();
        let expected = self.plain.serve(env, number, at, request, draw)?;
        let (_, reply) = self.world.call(0, node, request, draw).ok()?;
        Some(expected.is_same(&reply))
    }

    /// A random call.
    fn call(&mut self) -> Option<bool> {
        let at = random_place(&mut self.random, self.world.nemesis().env());
        let request = random_request(&mut self.random);
        let draw = self.random.below(40);
        self.is_same_reply(at, request, draw)
    }

    /// A random step.
    fn step(&mut self, alloc: Global) -> Option<bool> {
        let before = self.plain.killed(self.world.nemesis().env())?;
        let step = random_step(alloc, &mut self.random, self.world.nemesis().env());
        self.world.step(step).ok()?;
        self.plain
            .forget(before.as_slice(), self.world.nemesis().env())?;
        Some(true)
    }

    /// A tick.
    fn tick(&mut self) -> Option<bool> {
        self.plain.tick(self.world.nemesis().env())?;
        self.world.tick().ok()?;
        Some(true)
    }

    /// A random event.
    fn act(&mut self, alloc: Global) -> Option<bool> {
        match self.random.below(10) {
            0 | 1 => self.step(alloc),
            2 => self.tick(),
            _ => self.call(),
        }
    }

    /// Whether they agree for so many random events.
    fn agree(&mut self, alloc: Global, events: u32) -> Option<bool> {
        for _event in 0..events {
            if !self.act(alloc)? {
                return Some(false);
            }
        }
        Some(true)
    }
}

/// The store of a seed.
fn store_of(seed: u64) -> Store {
    match seed % 3 {
        0 => Store::Quorum,
        1 => Store::Lww,
        _ => Store::Local,
    }
}

/// The workload of a seed.
fn workload_of(seed: u64) -> Workload {
    match seed / 3 % 4 {
        0 => Workload::Register,
        1 => Workload::Counter,
        2 => Workload::Set,
        _ => Workload::Ids,
    }
}

/// The database of a world that a seed gives.
fn database_of(seed: u64) -> Database {
    Database {
        store: store_of(seed),
        volatile: seed / 12 % 2 == 0,
        workload: workload_of(seed),
        initial: Some(3),
    }
}

/// The world of a seed over an environment.
fn world_of(alloc: Global, env: Env, seed: u64) -> Option<World>
    requires { StandsFor env [] }
{
    World::new(alloc, env, database_of(seed)).ok()
}

/// A world of a seed, with the definition beside it.
fn started(alloc: Global, settings: &Value, seed: u64) -> Option<Both> {
    let world = world_of(alloc, env_of(alloc, settings)?, seed)?;
    let count = world.nemesis().env().nodes().len();
    Some(Both {
        plain: PlainCluster::new(alloc, database_of(seed), count)?,
        world,
        random: Random::new(seed),
    })
}

/// Whether 300 random events agree. None: memory was refused.
fn agrees_once(alloc: Global, settings: &Value, seed: u64) -> Option<bool> {
    started(alloc, settings, seed)?.agree(alloc, 300)
}

/// The same, once more where memory was refused.
fn agrees(alloc: Global, settings: &Value, seed: u64) -> Option<bool> {
    match agrees_once(alloc, settings, seed) {
        None => agrees_once(alloc, settings, seed),
        agrees => agrees,
    }
}

/// How many of 120 seeds agree, up to the first that differs. None: memory was refused.
fn count_once(alloc: Global, settings: &str) -> Option<u64> {
    let settings = value(alloc, settings)?;
    for seed in 0..120 {
        if agrees(alloc, &settings, seed) != Some(true) {
            return Some(seed);
        }
    }
    Some(120)
}

/// The same, once more where memory was refused.
fn count(alloc: Global, settings: &str) -> Option<u64> {
    match count_once(alloc, settings) {
        None => count_once(alloc, settings),
        count => count,
    }
}

#[test]
fn three_nodes_follow_the_definition(rt: HostRuntime) {
    let settings = r#"{:start {:nodes ["n1" "n2" "n3"], :clock [["n2" 7]]}}"#;
    assert_eq!(rt; count(rt.alloc(), settings), Some(120));
}

#[test]
fn four_nodes_follow_the_definition(rt: HostRuntime) {
    let settings = r#"{:start {:nodes ["n1" "n2" "n3" "n4"], :slow [["n4" "n1" 1000]]}}"#;
    assert_eq!(rt; count(rt.alloc(), settings), Some(120));
}
