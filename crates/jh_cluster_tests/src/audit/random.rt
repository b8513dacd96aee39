//! Histories of runs with random changes, judged by `audit` and by the plain slow program.
//!
//! None is answered where memory was refused.

use crate::audit::rows::{Run, run_of};
use crate::plain_audit::{Line, audited_slowly, change, lines_of, text_of};
use jh_audit::audit;
use jh_edn::{read_all, write};
use jh_ops::{Op, history_of, value_of};
use jh_simnode::Event;
use jh_test_kit::Random;
use std::alloc::Global;

fn put(alloc: Global, text: &mut Vec<u8>, op: &Op) -> Option<()> {
    if !op.process.is_writable() {
        return None;
    }
    write(&value_of(alloc, op).ok()?, text).ok()?;
    text.push(b'\n').ok()
}

/// A history as it is printed.
fn printed(alloc: Global, history: &[Op]) -> Option<String> {
    let mut text = Vec::new(alloc);
    for op in history {
        put(alloc, &mut text, op)?;
    }
    String::from_utf8(text).ok()
}

/// The history of lines.
fn history_in(alloc: Global, lines: &[Line<'_>]) -> Option<Vec<Op>> {
    let text = text_of(alloc, lines)?;
    let values = read_all(alloc, &mut text.as_bytes(), 3).ok()?;
    history_of(alloc, values).ok()
}

/// What the audit finds, as a text.
fn found(alloc: Global, journal: &[Event], history: &[Op]) -> Option<String> {
    match audit(journal, history) {
        Ok(()) => String::from_str(alloc, "ok").ok(),
        Err(fault) => fault.to_string(alloc).ok(),
    }
}

/// A history with one to three changes.
fn changed<'a>(alloc: Global, text: &'a str, seed: u64) -> Option<Vec<Line<'a>>> {
    let mut random = Random::new(seed);
    let mut lines = lines_of(alloc, text)?;
    for _ in 0..=random.below(3) {
        change(&mut random, &mut lines)?;
    }
    Some(lines)
}

/// Whether both find the same in a history with changes.
fn agree_once(alloc: Global, run: &Run, text: &str, seed: u64) -> Option<bool> {
    let lines = changed(alloc, text, seed)?;
    let history = history_in(alloc, &lines)?;
    let slowly = audited_slowly(alloc, &run.journal, &lines)?;
    Some(found(alloc, &run.journal, &history)?.as_str() == slowly.as_str())
}

/// The first of so many seeds with which they differ.
fn first_wrong(alloc: Global, run: &Run, text: &str, seeds: u64) -> Option<u64> {
    for seed in 0..seeds {
        let agree = match agree_once(alloc, run, text, seed) {
            None => agree_once(alloc, run, text, seed),
            agree => agree,
        };
        if agree != Some(true) {
            return Some(seed);
        }
    }
    None
}

/// Whether they agree for so many changes of the history of a run.
fn agree(alloc: Global, settings: &str, seeds: u64) -> bool {
    let Some((run, history)) = run_of(alloc, settings) else {
        return false;
    };
    let text = match printed(alloc, &history) {
        None => printed(alloc, &history),
        text => text,
    };
    match text {
        Some(text) => first_wrong(alloc, &run, &text, seeds).is_none(),
        None => false,
    }
}

// A register under faults, with ticks.
const REGISTER: &str = r#"
start = '{:nodes ["n1" "n2" "n3"]}'
store = "quorum"
workload = "register"
clients = 2
ops = 6
tick_every = 2
generator = '[:mix [:forever :read] [:forever [:write 5]] [:forever [:cas 0 1]]]'
schedule = ['[0 [:begin 1 [:pause ["n2"]]]]', '[3 [:withdraw 1]]', '[3 [:withdraw 1]]']
"#;

// A set that is read at the end.
const SET: &str = r#"
start = '{:nodes ["n1"]}'
store = "local"
workload = "set"
clients = 2
ops = 4
generator = '[:phases [:limit 3 [:rising 0]] [:once :read]]'
schedule = ['[1 [:undo]]']
"#;

// Ids, of which some are lost on their way.
const IDS: &str = r#"
start = '{:nodes ["n1" "n2"], :loss [["n1" "n2" 2]]}'
store = "lww"
workload = "unique-ids"
clients = 2
ops = 5
generator = '[:forever :generate]'
"#;

#[test]
fn a_plain_audit_finds_the_same(rt: HostRuntime) {
    for settings in [REGISTER, SET, IDS] {
        assert!(rt; agree(rt.alloc(), settings, 400), "{settings}");
    }
}
