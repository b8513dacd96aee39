//! Which plans are refused and why, what a plan answers, and how long a schedule is.
//!
//! The text of a row is settings, as `fixtures` has them. They come to the parts of their plan: the number of nodes,
//! the store, whether replicas are volatile, the workload, what a register holds first; the clients, the calls, after
//! how many of them a client ticks, the rows and the seed; the generator, and the schedule.

use crate::simnode::fixtures::plan_of;
use crate::simnode::rows::{TextKind, ask_all};
use crate::simnode::runs::refusal;
use jh_nemesis::Step;
use jh_simnode::{Entry, MAX_ENTRIES, Plan, Schedule, TooLong};
use std::alloc::Global;
use std::io::Write;
use std::test::Fail;

// A row comes to a refusal, or to the events of a run of the least or the greatest number.
const REFUSALS: &str = r#"
{:start {:nodes ["n1"]}, :clients 0} → bad clients
§ {:start {:nodes ["n1"]}, :clients 17} → bad clients
§ {:start {:nodes ["n1"]}, :clients 16} → 0 events
§ {:start {:nodes ["n1"]}, :ops 0} → bad ops
§ {:start {:nodes ["n1"]}, :ops 10001} → bad ops
§ {:start {:nodes ["n1"]}, :ops 10000} → 0 events
§ {:start {:nodes ["n1"]}, :ops 1001, :workload :set} → bad ops
§ {:start {:nodes ["n1"]}, :ops 1000, :workload :set} → 0 events
§ {:start {:nodes ["n1"]}, :ops 1001, :workload :counter} → 0 events
§ {:start {:nodes ["n1"]}, :rows 0} → bad rows
§ {:start {:nodes ["n1"]}, :rows 65537} → bad rows
§ {:start {:nodes ["n1"]}, :rows 65536} → 0 events
§ {:start {:nodes ["n1"]}, :generator [:once [:add 1]]} → bad generator
§ {:start {:nodes ["n1"]}, :generator [:nemesis [:nil]]} → bad generator
§ {:start {:nodes ["n1"]}, :steps-start {:nodes ["n1" "n2"]}, :schedule [[0 [:withdraw 1]] [9 [:begin 1 [:kill ["n2"]]]]]} → bad step
§ {:start {:nodes ["n1"]}, :clients 17, :ops 0, :rows 0} → bad clients
§ {:start {:nodes ["n1"]}, :ops 0, :rows 0, :generator [:once [:add 1]]} → bad ops
§ {:start {:nodes ["n1"]}, :rows 0, :generator [:once [:add 1]]} → bad rows
§ {:start {:nodes ["n1"]}, :steps-start {:nodes ["n1" "n2"]}, :schedule [[9 [:begin 1 [:kill ["n2"]]]]], :generator [:once [:add 1]]} → bad generator
"#;

#[test]
fn plans_are_refused(rt: HostRuntime) -> Result<(), Fail> {
    ask_all(rt.alloc(), TextKind::Run, REFUSALS)
}

const SETTINGS: &str =
    r#"{:start {:nodes ["a" "b" "c"]}, :store :lww, :volatile true, :workload :counter, :initial 4, :clients 3,
    :ops 11, :generator [:once [:add 7]], :schedule [[5 [:undo]] [2 [:redo]]], :tick-every 6, :rows 12, :seed 13}
→ 3 nodes Lww true Counter Some(4); 3 11 6 12 13; Once(Client(Add(7))); 5 undo, 2 redo,"#;

#[test]
fn a_plan_has_its_parts(rt: HostRuntime) -> Result<(), Fail> {
    ask_all(rt.alloc(), TextKind::Plan, SETTINGS)
}

/// Writes the number of nodes, and what a world keeps for good.
fn put_settings(text: &mut Vec<u8>, plan: &Plan) -> Option<()> {
    let count = plan.environment().nodes().len();
    let (store, volatile) = (plan.store(), plan.volatile());
    let (workload, initial) = (plan.workload(), plan.initial());
    write!(
        text,
        "{count} nodes {store:?} {volatile} {workload:?} {initial:?}; "
    )
    .ok()
}

/// Writes the numbers of a plan.
fn put_numbers(text: &mut Vec<u8>, plan: &Plan) -> Option<()> {
    let (clients, ops, tick_every) = (plan.clients(), plan.ops(), plan.tick_every());
    let (rows, seed) = (plan.rows(), plan.seed());
    write!(text, "{clients} {ops} {tick_every} {rows} {seed}; ").ok()
}

/// Writes an entry: when it is due, and its step.
fn put_entry(text: &mut Vec<u8>, entry: &Entry) -> Option<()> {
    write!(&mut *text, " {} ", entry.at).ok()?;
    match &entry.step {
        Step::Begin(id, _) => write!(text, "begin {id},").ok(),
        Step::Withdraw(id) => write!(text, "withdraw {id},").ok(),
        Step::WithdrawAll => text.extend_from_slice(b"withdraw-all,").ok(),
        Step::Undo => text.extend_from_slice(b"undo,").ok(),
        Step::Redo => text.extend_from_slice(b"redo,").ok(),
    }
}

/// Writes the entries of a schedule.
fn put_entries(text: &mut Vec<u8>, entries: &[Entry]) -> Option<()> {
    for entry in entries {
        put_entry(text, entry)?;
    }
    Some(())
}

/// Writes the parts of a plan.
pub(crate) fn put_plan(text: &mut Vec<u8>, plan: &Plan) -> Option<()> {
    put_settings(text, plan)?;
    put_numbers(text, plan)?;
    write!(&mut *text, "{:?};", plan.generator()).ok()?;
    put_entries(text, plan.schedule().entries())
}

/// The parts of a plan.
pub(crate) fn parts_text(alloc: Global, plan: &Plan) -> Option<Vec<u8>> {
    let mut text = Vec::new(alloc);
    put_plan(&mut text, plan)?;
    Some(text)
}

/// The parts of the plan of settings. None: memory was refused.
pub(crate) fn plan_text(alloc: Global, settings: &str) -> Option<Vec<u8>> {
    match plan_of(alloc, settings) {
        Ok(plan) => parts_text(alloc, &plan),
        Err(error) => refusal(alloc, error),
    }
}

/// So many steps back.
fn steps_back(alloc: Global, count: u32) -> Option<Vec<Entry>> {
    let mut entries = Vec::new(alloc);
    for at in 0..count {
        let step = Step::Undo;
        entries.push(Entry { at, step }).ok()?;
    }
    Some(entries)
}

/// The number of entries, where each is in its place.
fn count_in_order(entries: &[Entry]) -> Option<usize> {
    for (place, entry) in entries.iter().enumerate() {
        if entry.at as usize != place {
            return None;
        }
    }
    Some(entries.len())
}

/// How many entries a schedule of so many has, where each is in its place. None: memory was refused.
fn kept_once(alloc: Global, count: u32) -> Option<Result<usize, TooLong>> {
    match Schedule::of(steps_back(alloc, count)?) {
        Ok(schedule) => count_in_order(schedule.entries()).map(Ok),
        Err(refusal) => Some(Err(refusal)),
    }
}

/// The same, once more where memory was refused.
fn kept(alloc: Global, count: u32) -> Option<Result<usize, TooLong>> {
    match kept_once(alloc, count) {
        None => kept_once(alloc, count),
        kept => kept,
    }
}

#[test]
fn a_schedule_gives_its_entries_back(rt: HostRuntime) {
    assert_eq!(rt; kept(rt.alloc(), 1_024), Some(Ok(MAX_ENTRIES)));
}

#[test]
fn a_schedule_is_too_long(rt: HostRuntime) {
    assert_eq!(rt; kept(rt.alloc(), 1_025), Some(Err(TooLong)));
}
