//! First calls of `jh_workers`, as its README shows them.

use crate::runs::plan_of;
use jh_workers::run_locked;
use std::alloc::Global;
use std::sync::Wait;
use std::thread::Threads;

/// Settings of a run of two clients.
const SETTINGS: &str = r#"
    start = '{:nodes ["n1" "n2"]}'
    store = "local"
    workload = "set"
    generator = '[:clients [:limit 4 [:rising 0]]]'
    clients = 2
    ops = 4"#;

/// How many records the history of a run on threads has.
fn records_of<R: Threads + Wait + Sync>(rt: &R, alloc: Global) -> Option<usize> {
    let plan = plan_of(alloc, SETTINGS)?;
    let run = run_locked(rt, alloc, &plan).ok()?;
    Some(run.history.len())
}

#[test]
fn each_call_has_two_records(rt: HostRuntime) {
    let answer = records_of(&rt, rt.alloc()).or_else(|| records_of(&rt, rt.alloc()));
    assert_eq!(rt; answer, Some(8));
}
