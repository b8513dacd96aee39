//! Histories that differ in one thing from that of a run.

use crate::audit::rows::{Run, first_wrong, judged, run_of};
use crate::first::plan_of;
use jh_ops::Request;
use jh_simnode::{Event, Got, Plan, Reply, node_of};
use std::alloc::Global;

// Two of three nodes are killed and lose their replicas of what was written.
const KILL: &str = r#"
start = '{:nodes ["n1" "n2" "n3"]}'
mode = "serial"
store = "quorum"
workload = "register"
volatile = true
initial = 0
clients = 1
ops = 2
generator = '[:seq [:once [:write 5]] [:once :read]]'
schedule = [
    '[0 [:begin 1 [:pause ["n3"]]]]',
    '[1 [:begin 2 [:kill ["n1" "n2"]]]]',
    '[1 [:withdraw 2]]',
    '[1 [:withdraw 1]]',
]
"#;

// The same with an entry more.
const LONGER: &str = r#"
start = '{:nodes ["n1" "n2" "n3"]}'
store = "quorum"
workload = "register"
clients = 1
ops = 2
generator = '[:forever :read]'
schedule = [
    '[0 [:begin 1 [:pause ["n3"]]]]',
    '[1 [:begin 2 [:kill ["n1" "n2"]]]]',
    '[1 [:withdraw 2]]',
    '[1 [:withdraw 1]]',
    '[1 [:undo]]',
]
"#;

// The same, where the first entry waits for a call.
const LATER: &str = r#"
start = '{:nodes ["n1" "n2" "n3"]}'
store = "quorum"
workload = "register"
clients = 1
ops = 2
generator = '[:forever :read]'
schedule = [
    '[1 [:begin 1 [:pause ["n3"]]]]',
    '[1 [:begin 2 [:kill ["n1" "n2"]]]]',
    '[1 [:withdraw 2]]',
    '[1 [:withdraw 1]]',
]
"#;

// The same, where a tick follows two calls.
const TICKING: &str = r#"
start = '{:nodes ["n1" "n2" "n3"]}'
store = "quorum"
workload = "register"
clients = 1
ops = 2
tick_every = 2
generator = '[:forever :read]'
schedule = [
    '[0 [:begin 1 [:pause ["n3"]]]]',
    '[1 [:begin 2 [:kill ["n1" "n2"]]]]',
    '[1 [:withdraw 2]]',
    '[1 [:withdraw 1]]',
]
"#;

const KILL_HISTORY: &str = r#"
{:type :info, :process :nemesis, :f :step, :value 0}
{:type :info, :process :nemesis, :f :step, :value [0 0], :event 0}
{:type :invoke, :process 0, :f :write, :value 5}
{:type :ok, :process 0, :f :write, :value 5, :event 1}
{:type :info, :process :nemesis, :f :step, :value 1}
{:type :info, :process :nemesis, :f :step, :value [1 0], :event 2}
{:type :info, :process :nemesis, :f :step, :value 2}
{:type :info, :process :nemesis, :f :step, :value [2 0], :event 3}
{:type :info, :process :nemesis, :f :step, :value 3}
{:type :info, :process :nemesis, :f :step, :value [3 0], :event 4}
{:type :invoke, :process 0, :f :read, :value nil}
{:type :ok, :process 0, :f :read, :value 0, :event 5}
"#;

const KILL_ROWS: &str = r#"
→ ok, as planned
§ 11
→ operation 10: unpaired, as planned
§ 10
11
→ event 5: not named, as planned
§ 2
→ operation 2: unpaired, as planned
§ 8
9
→ event 4: not named, not as planned
§ 11 {:type :ok, :process 0, :f :read, :value 0, :event 3}
→ operation 11: wrong event, as planned
§ 11 {:type :ok, :process 0, :f :read, :value 1, :event 5}
→ operation 11: wrong event, as planned
§ 9 {:type :info, :process :nemesis, :f :step, :value [3 1], :event 4}
→ operation 9: wrong event, not as planned
§ 11 {:type :ok, :process 0, :f :read, :value 0, :event 9}
→ operation 11: no such event, as planned
§ 11 {:type :ok, :process 0, :f :frob, :value 0, :event 5}
→ operation 11: bad operation, as planned
§ 11 {:index 10, :type :ok, :process 0, :f :read, :value 0, :event 5}
→ operation 11: bad operation, as planned
§ 12 {:index 12, :type :ok, :process 0, :f :read, :value 0, :event 5}
→ operation 12: repeated event, not as planned
"#;

/// What is answered of the run with the kill, under the plan of these settings.
fn given_once(alloc: Global, settings: &str) -> Option<String> {
    let (run, history) = run_of(alloc, KILL)?;
    let plan = plan_of(alloc, settings)?;
    judged(alloc, &Run { plan, ..run }, &history).ok()
}

fn is_given(alloc: Global, settings: &str, wanted: &str) -> bool {
    let audited = match given_once(alloc, settings) {
        None => given_once(alloc, settings),
        audited => audited,
    };
    match audited {
        Some(audited) => audited.as_str() == wanted,
        None => false,
    }
}

#[test]
fn a_run_follows_its_plan(rt: HostRuntime) {
    assert!(rt; is_given(rt.alloc(), KILL, "ok, as planned"));
    assert!(rt; is_given(rt.alloc(), LONGER, "ok, not as planned"));
    assert!(rt; is_given(rt.alloc(), LATER, "ok, not as planned"));
    assert!(rt; is_given(rt.alloc(), TICKING, "ok, not as planned"));
}

/// The first row of which something else is answered, for a history of the run of these settings.
fn first_wrong_of_run<'a>(
    alloc: Global,
    settings: &str,
    history: &str,
    rows: &'a str,
) -> Option<&'a str> {
    match run_of(alloc, settings) {
        Some((run, _)) => first_wrong(alloc, &run, history, rows),
        None => Some("no run"),
    }
}

#[test]
fn a_run_with_a_kill_is_judged(rt: HostRuntime) {
    assert_eq!(rt;
        first_wrong_of_run(rt.alloc(), KILL, KILL_HISTORY, KILL_ROWS),
        None
    );
}

// Two reads of one process, with a tick behind each.
const READS: &str = r#"
start = '{:nodes ["n1"]}'
store = "local"
workload = "register"
initial = 0
clients = 1
ops = 2
tick_every = 1
generator = '[:forever :read]'
"#;

const READS_HISTORY: &str = r#"
{:type :invoke, :process 0, :f :read, :value nil}
{:type :ok, :process 0, :f :read, :value 0, :event 0}
{:type :invoke, :process 0, :f :read, :value nil}
{:type :ok, :process 0, :f :read, :value 0, :event 2}
"#;

const READS_ROWS: &str = r#"
→ ok, as planned
§ 1 {:type :ok, :process 0, :f :read, :value 0, :event 2}
3 {:type :ok, :process 0, :f :read, :value 0, :event 0}
→ operation 3: wrong order, as planned
§ 3 {:type :ok, :process 0, :f :read, :value 0, :event 0}
→ operation 3: repeated event, as planned
§ 3 {:type :ok, :process 0, :f :read, :value 0, :event 1}
→ operation 3: wrong event, as planned
§ 3 {:type :ok, :process 0, :f :read, :value 0, :event 4}
→ operation 3: no such event, as planned
§ 1
2
→ event 0: not named, as planned
§ 2
3
→ event 2: not named, as planned
"#;

#[test]
fn reads_of_one_process_are_judged(rt: HostRuntime) {
    assert_eq!(rt;
        first_wrong_of_run(rt.alloc(), READS, READS_HISTORY, READS_ROWS),
        None
    );
}

fn call_of_0(plan: &Plan, request: Request, reply: Reply) -> Event {
    Event::Call {
        process: 0,
        node: node_of(plan, 0),
        request,
        draw: 0,
        reply,
    }
}

/// A write of process 0 whose answer was lost, and a read of the same process. The ticks behind both are missing.
fn unknown_write(alloc: Global) -> Option<Run> {
    let plan = plan_of(alloc, READS)?;
    let mut journal = Vec::new(alloc);
    let read = Reply::Ok(Got::One(Some(5)));
    journal
        .push(call_of_0(&plan, Request::Write(5), Reply::Info))
        .ok()?;
    journal.push(call_of_0(&plan, Request::Read, read)).ok()?;
    Some(Run { plan, journal })
}

const UNKNOWN_HISTORY: &str = r#"
{:type :invoke, :process 0, :f :write, :value 5}
{:type :info, :process 0, :f :write, :value 5, :event 0}
{:type :invoke, :process 0, :f :read, :value nil}
{:type :ok, :process 0, :f :read, :value 5, :event 1}
"#;

const UNKNOWN_ROWS: &str = r#"
→ operation 2: unpaired, not as planned
§ 1 {:type :ok, :process 0, :f :write, :value 5, :event 0}
→ operation 1: wrong event, not as planned
§ 2 {:type :invoke, :process 1, :f :read, :value nil}
3 {:type :ok, :process 1, :f :read, :value 5, :event 1}
→ operation 3: wrong event, not as planned
§ 2
3
→ event 1: not named, not as planned
"#;

#[test]
fn a_process_ends_with_what_is_unknown(rt: HostRuntime) {
    let run = match unknown_write(rt.alloc()) {
        None => unknown_write(rt.alloc()),
        run => run,
    };
    let Some(run) = run else { panic!(rt; "no run") };
    assert_eq!(rt;
        first_wrong(rt.alloc(), &run, UNKNOWN_HISTORY, UNKNOWN_ROWS),
        None
    );
}
