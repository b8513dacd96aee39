//! Shares of a locked world: how many there are, and what they count together.
//!
//! None is answered where memory was refused.

ghost use Rattle.std.specs.Prelude.{◌≡◌, []};

use crate::runs::plan_of;
use jh_simnode::{Plan, World, world_of};
use jh_workers::{LockedWorld, Outcome, Port, RunError, WorldShare, run};
use std::alloc::Global;
use std::marker::Brand;
use std::sync::Wait;
use std::sync::ledger::{Blank, Ledger};
use std::thread::Threads;

/// Shares of a world, or `None` also where so many are not left.
fn take<L: Ledger, R: Wait>(
    rt: &R,
    alloc: Global,
    port: &LockedWorld<L>,
    count: usize,
) -> Option<Vec<WorldShare<L>>> {
    let mut shares = Vec::new(alloc);
    for _ in 0..count {
        shares.push(port.share(rt)?).ok()?;
    }
    Some(shares)
}

/// Whether a world is settled with the first of so many shares that were taken of it.
fn settles<L: Ledger, R: Wait>(
    rt: &R,
    alloc: Global,
    world: World,
    blank: Blank,
    count: usize,
    kept: usize,
) -> Option<bool>
    requires empty { world.journal ≡ [] }
    requires name { blank.name ≡ L.name }
    requires parts { blank.parts ≡ L.parts }
    requires number { blank.parts ≡ 32 }
{
    let port = LockedWorld::<L>::new(world, blank);
    let mut shares = take(rt, alloc, &port, count)?;
    shares.truncate(kept);
    Some(port.settle(shares).is_some())
}

const SETTINGS: &str = r#"
start = '{:nodes ["n1" "n2" "n3"]}'
store = "lww"
workload = "counter"
ops = 40
generator = '[:forever [:add 1]]'
"#;

/// The plan of the settings with so many clients.
fn plan_with(alloc: Global, clients: u32) -> Option<Plan> {
    let settings = format!(in alloc; "{SETTINGS}clients = {clients}\n").ok()?;
    plan_of(alloc, &settings)
}

fn settles_once<R: Wait>(rt: &R, alloc: Global, count: usize, kept: usize) -> Option<bool> {
    let Ok(world) = world_of(alloc, &plan_with(alloc, 1)?) else {
        return None;
    };
    settles::<Brand, R>(rt, alloc, world, Blank::new(32), count, kept)
}

#[test]
fn a_world_has_32_shares(rt: HostRuntime) {
    for (count, kept, wanted) in [
        (32, 32, Some(true)),
        (32, 31, Some(false)),
        (0, 0, Some(true)),
        (33, 33, None),
    ] {
        let settled = match settles_once(&rt, rt.alloc(), count, kept) {
            None => settles_once(&rt, rt.alloc(), count, kept),
            settled => settled,
        };
        assert_eq!(rt; settled, wanted);
    }
}

/// Puts shares behind others. Whether memory sufficed.
fn put_all<L: Ledger>(shares: &mut Vec<WorldShare<L>>, more: Vec<WorldShare<L>>) -> bool {
    for share in more {
        if shares.push(share).is_err() {
            return false;
        }
    }
    true
}

/// Whether a world is settled with these shares and those of an outcome, with as many events as the outcome has.
fn is_settled<L: Ledger>(
    port: LockedWorld<L>,
    shares: Vec<WorldShare<L>>,
    outcome: Outcome<WorldShare<L>>,
) -> Option<bool>
    requires { L.parts ≡ 32 }
{
    let Outcome {
        history: _,
        journal,
        shares: own,
    } = outcome;
    let mut all = shares;
    if !put_all(&mut all, own) {
        return None;
    }
    match port.settle(all) {
        Some(world) => Some(world.journal().len() == journal.len()),
        None => None,
    }
}

/// What comes of a run where others have 16 of the shares.
fn run_beside<L: Ledger + Send + Sync, R: Threads + Wait + Sync>(
    rt: &R,
    alloc: Global,
    plan: &Plan,
    world: World,
    blank: Blank,
) -> Option<&'static str>
    requires empty { world.journal ≡ [] }
    requires name { blank.name ≡ L.name }
    requires parts { blank.parts ≡ L.parts }
    requires number { blank.parts ≡ 32 }
{
    let port = LockedWorld::<L>::new(world, blank);
    let shares = take(rt, alloc, &port, 16)?;
    match run(rt, alloc, plan, &port) {
        Ok(outcome) => match is_settled(port, shares, outcome)? {
            true => Some("an outcome"),
            false => Some("another journal"),
        },
        Err(RunError::Thread) => Some("thread failed"),
        Err(_) => None,
    }
}

fn given_once<R: Threads + Wait + Sync>(
    rt: &R,
    alloc: Global,
    clients: u32,
) -> Option<&'static str> {
    let plan = plan_with(alloc, clients)?;
    let Ok(world) = world_of(alloc, &plan) else {
        return None;
    };
    run_beside::<Brand, R>(rt, alloc, &plan, world, Blank::new(32))
}

/// The schedule's thread takes a share too.
#[test]
fn each_thread_needs_a_share(rt: HostRuntime) {
    for (clients, wanted) in [(15, "an outcome"), (16, "thread failed")] {
        let given = match given_once(&rt, rt.alloc(), clients) {
            Some(given) if given == wanted => Some(given),
            _ => given_once(&rt, rt.alloc(), clients),
        };
        assert_eq!(rt; given, Some(wanted));
    }
}
