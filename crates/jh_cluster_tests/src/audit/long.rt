//! A history as long as that of a run may be.

use crate::audit::rows::{Run, judged};
use crate::first::plan_of;
use jh_ops::{Op, Request};
use jh_simnode::{Event, Got, Reply, completion, invocation, node_of, push_indexed};
use std::alloc::Global;

/// How many processes ask, all before any is answered.
const PROCESSES: u64 = 16;

/// How often all ask.
const ROUNDS: u64 = 625;

const MAX_OPERATIONS: usize = 100_000;

// Ten thousand reads of sixteen clients.
const SETTINGS: &str = r#"
start = '{:nodes ["n1"]}'
store = "local"
workload = "register"
clients = 16
ops = 10_000
generator = '[:forever :read]'
"#;

/// A history and its journal, as they grow.
#[derive(Drop)]
struct Tale {
    run: Run,
    history: Vec<Op>,
}

fn seven() -> Reply {
    Reply::Ok(Got::One(Some(7)))
}

fn add(history: &mut Vec<Op>, op: Op) -> Option<()> {
    if history.len() > MAX_OPERATIONS {
        return None;
    }
    push_indexed(history, op).ok()
}

/// A process asks.
fn ask(alloc: Global, tale: &mut Tale, process: u64) -> Option<()> {
    add(
        &mut tale.history,
        invocation(alloc, process, Request::Read).ok()?,
    )
}

/// A process is answered, by the next event.
fn answer(alloc: Global, tale: &mut Tale, process: u64) -> Option<()> {
    let number = u64::from(u32::try_from(tale.run.journal.len()).ok()?);
    let node = node_of(&tale.run.plan, 0);
    let read = Event::Call {
        process,
        node,
        request: Request::Read,
        draw: 0,
        reply: seven(),
    };
    tale.run.journal.push(read).ok()?;
    let op = completion(alloc, number, process, Request::Read, &seven()).ok()?;
    add(&mut tale.history, op)
}

/// All processes ask, and then all are answered.
fn audit_round(alloc: Global, tale: &mut Tale) -> Option<()> {
    for process in 0..PROCESSES {
        ask(alloc, tale, process)?;
    }
    for process in 0..PROCESSES {
        answer(alloc, tale, process)?;
    }
    Some(())
}

fn given_once(alloc: Global) -> Option<String> {
    let run = Run {
        plan: plan_of(alloc, SETTINGS)?,
        journal: Vec::new(alloc),
    };
    let mut tale = Tale {
        run,
        history: Vec::new(alloc),
    };
    for _ in 0..ROUNDS {
        audit_round(alloc, &mut tale)?;
    }
    judged(alloc, &tale.run, &tale.history).ok()
}

#[test]
fn a_long_history_is_judged(rt: HostRuntime) {
    let audited = match given_once(rt.alloc()) {
        None => given_once(rt.alloc()),
        audited => audited,
    };
    let Some(audited) = audited else {
        panic!(rt; "nothing is told")
    };
    assert_eq!(rt; audited.as_str(), "ok, as planned");
}
