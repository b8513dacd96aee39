//! First calls of `jh_settings`, `jh_simnode`, `jh_audit` and `jh_shrink`, as their READMEs show them.

use jh_audit::{audit, follows_plan};
use jh_nemesis::Step;
use jh_ops::Op;
use jh_settings::settings_of;
use jh_shrink::{ShrinkObserver, Shrunk, shrink};
use jh_simnode::{Entry, Event, Plan, Schedule, run_serial};
use std::alloc::Global;

/// Settings of a run of one node.
const SETTINGS: &str = r#"
    start = '{:nodes ["n1"]}'
    store = "local"
    workload = "counter"
    generator = '[:clients [:mix [:forever [:add 1]] [:forever :read]]]'
    clients = 1
    ops = 4
    schedule = ['[0 [:begin 1 [:bump {"n1" 5}]]]', '[2 [:undo]]']"#;

/// The plan that settings mean.
pub(crate) fn plan_of(alloc: Global, text: &str) -> Option<Plan> {
    Some(settings_of(alloc, text.as_bytes()).ok()?.plan)
}

#[test]
fn settings_mean_a_plan(rt: HostRuntime) {
    let alloc = rt.alloc();
    let answer = plan_of(alloc, SETTINGS).or_else(|| plan_of(alloc, SETTINGS));
    assert!(rt; answer.is_some_and(|plan| plan.ops() == 4));
}

/// How many records the history of a serial run has.
fn records_of(alloc: Global, plan: &Plan) -> Option<usize> {
    let (_world, history) = run_serial(alloc, plan).ok()?;
    Some(history.len())
}

#[test]
fn each_call_and_each_entry_has_two_records(rt: HostRuntime) {
    let alloc = rt.alloc();
    let records = || records_of(alloc, &plan_of(alloc, SETTINGS)?);
    assert_eq!(rt; records().or_else(records), Some(12));
}

/// Whether the history of a run tells what its journal does, by its plan.
fn is_audited(plan: &Plan, journal: &[Event], history: &[Op]) -> bool {
    audit(journal, history).is_ok() && follows_plan(plan, journal, history)
}

/// Whether a serial run is audited.
fn is_run_audited(alloc: Global) -> Option<bool> {
    let plan = plan_of(alloc, SETTINGS)?;
    let (world, history) = run_serial(alloc, &plan).ok()?;
    Some(is_audited(&plan, world.journal(), &history))
}

#[test]
fn a_run_is_audited(rt: HostRuntime) {
    let answer = is_run_audited(rt.alloc()).or_else(|| is_run_audited(rt.alloc()));
    assert_eq!(rt; answer, Some(true));
}

/// Nobody is told how far the work is.
#[derive(Drop)]
pub(crate) struct Nobody;

impl ShrinkObserver for Nobody {
    fn see(&mut self, _entries: usize, _asked: u64) {}
}

/// What is left of a schedule that fails as long as it has an entry.
fn shrunk(alloc: Global, schedule: Schedule) -> Option<Shrunk> {
    let judge = |left: &Schedule| Some(!left.entries().is_empty());
    shrink(alloc, schedule, judge, 100, &mut Nobody).ok()
}

/// An entry that is due at a number.
pub(crate) fn entry(at: u32) -> Entry {
    Entry {
        at,
        step: Step::Undo,
    }
}

/// How many entries are left of a schedule of two; `None` also where fewer may fail.
fn left_of_two(alloc: Global) -> Option<usize> {
    let entries = vec![in alloc; entry(0), entry(1)].ok()?;
    let left = shrunk(alloc, Schedule::of(entries).ok()?)?;
    match &left {
        Shrunk::Minimal(schedule) => Some(schedule.entries().len()),
        _ => None,
    }
}

#[test]
fn one_entry_is_left(rt: HostRuntime) {
    let answer = left_of_two(rt.alloc()).or_else(|| left_of_two(rt.alloc()));
    assert_eq!(rt; answer, Some(1));
}
