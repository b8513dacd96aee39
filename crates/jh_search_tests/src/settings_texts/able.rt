//! Which plans can be written.
//!
//! A row has the workload of a plan, what is held at first or `-`, after how many calls a thread
//! ticks, the seed, after how many calls the one entry is due, how many levels the text of its
//! generator has, and whether it can be written.

ghost use Rattle.std.specs.Prelude.{[], IfSome};
ghost use Rattle.jh_env.specs.Overlay.{StandsFor};

use jh_edn::{Value, read_all};
use jh_env::{Env, env_of_value};
use jh_gen::{Gen, Inner};
use jh_nemesis::Step;
use jh_ops::{Call, Request, Workload};
use jh_settings_texts::can_be_written;
use jh_simnode::{Database, Entry, Plan, PlanData, Schedule, Store};
use std::alloc::Global;

/// An environment of two nodes.
fn two_nodes(alloc: Global) -> Option<Env>
    ensures { IfSome result (λ env. StandsFor env []) }
{
    let value: Value = read_all(alloc, &mut r#"{:nodes ["a" "b"]}"#.as_bytes(), 2)
        .ok()?
        .pop()?;
    env_of_value(alloc, &value).ok()
}

/// A generator whose text has so many levels, at least one.
fn nested(alloc: Global, levels: u64) -> Option<Gen> {
    let mut source = Gen::Once(Call::Client(Request::Read));
    for _ in 1..levels {
        source = Gen::Clients(Inner::of(alloc, source).ok()?);
    }
    Some(source)
}

/// A schedule of one entry, which is due after so many calls.
fn undone_at(alloc: Global, at: u64) -> Option<Schedule> {
    let mut entries = Vec::new(alloc);
    entries
        .push(Entry {
            at: u32::try_from(at).ok()?,
            step: Step::Undo,
        })
        .ok()?;
    Schedule::of(entries).ok()
}

/// The database of a run of a workload.
fn database_of(workload: &str, initial: &str) -> Option<Database> {
    Some(Database {
        store: Store::Local,
        volatile: false,
        workload: Workload::named(workload)?,
        initial: initial.parse::<i64>().ok(),
    })
}

/// The plan of these parts.
fn plan_of(alloc: Global, database: Database, numbers: [u64; 4]) -> Option<Plan> {
    let [tick_every, seed, at, levels] = numbers;
    let generator = nested(alloc, levels)?;
    let schedule = undone_at(alloc, at)?;
    let fields = PlanData {
        environment: two_nodes(alloc)?,
        database,
        clients: 1,
        ops: 1,
        generator,
        schedule,
        tick_every: u32::try_from(tick_every).ok()?,
        rows: 1,
        seed,
    };
    Plan::new(alloc, fields).ok()
}

/// The numbers of a row.
fn numbers_of(words: &str) -> Option<[u64; 4]> {
    let mut numbers = [0; 4];
    for (place, word) in words.split(' ').enumerate() {
        if place < 4 {
            numbers[place] = word.parse::<u64>().ok()?;
        }
    }
    Some(numbers)
}

/// Whether the plan of a row can be written, in a word. None: memory was refused.
fn answer_once(alloc: Global, row: &str) -> Option<&'static str> {
    let (workload, rest) = row.split_once(' ')?;
    let (initial, numbers) = rest.split_once(' ')?;
    let plan = plan_of(alloc, database_of(workload, initial)?, numbers_of(numbers)?)?;
    Some(if can_be_written(&plan) { "yes" } else { "no" })
}

const ROWS: &str = "register 0 10000 9223372036854775807 10000 64: yes
register - 0 0 0 1: yes
counter - 0 0 0 1: yes
counter 0 0 0 0 1: no
register 0 10001 0 0 1: no
register 0 0 9223372036854775808 0 1: no
register 0 0 0 10001 1: no
register 0 0 0 0 65: no";

#[test]
fn plans_can_be_written(rt: HostRuntime) {
    for row in ROWS.lines() {
        let (parts, wanted) = row.split_once(": ").unwrap_or((row, ""));
        let answer = answer_once(rt.alloc(), parts).or_else(|| answer_once(rt.alloc(), parts));
        assert!(rt; answer == Some(wanted), "at {row}");
    }
}
