//! Rows of a table, which is one text: `§` stands between two rows. A row is changes of a history, an arrow, and what is
//! answered of the history after them: `ok` or the message of the fault that the audit finds, and whether the history
//! follows the plan. White space around both is no part of them.

use crate::audit::histories::changed;
use crate::first::plan_of;
use jh_audit::{audit, follows_plan};
use jh_ops::Op;
use jh_simnode::{Event, Plan, run_serial};
use std::alloc::{AllocError, Global};

/// What histories are judged by.
#[derive(Drop)]
pub(crate) struct Run {
    pub(crate) plan: Plan,
    pub(crate) journal: Vec<Event>,
}

fn copy_of(alloc: Global, journal: &[Event]) -> Option<Vec<Event>> {
    let mut copy = Vec::new(alloc);
    for event in journal {
        copy.push(event.copy(alloc).ok()?).ok()?;
    }
    Some(copy)
}

/// The serial run of settings, and its history.
fn run_once(alloc: Global, settings: &str) -> Option<(Run, Vec<Op>)> {
    let plan = plan_of(alloc, settings)?;
    let (world, history) = run_serial(alloc, &plan).ok()?;
    let journal = copy_of(alloc, world.journal())?;
    Some((Run { plan, journal }, history))
}

/// The serial run of settings, made once more where memory was refused.
pub(crate) fn run_of(alloc: Global, settings: &str) -> Option<(Run, Vec<Op>)> {
    match run_once(alloc, settings) {
        None => run_once(alloc, settings),
        run => run,
    }
}

/// What is answered of a history.
pub(crate) fn judged(alloc: Global, run: &Run, history: &[Op]) -> Result<String, AllocError> {
    let follows = if follows_plan(&run.plan, &run.journal, history) {
        "as planned"
    } else {
        "not as planned"
    };
    match audit(&run.journal, history) {
        Ok(()) => format!(in alloc; "ok, {follows}"),
        Err(fault) => format!(in alloc; "{fault}, {follows}"),
    }
}

fn given_once(alloc: Global, run: &Run, history: &str, changes: &str) -> Option<String> {
    let history = changed(alloc, history, changes)?;
    judged(alloc, run, &history).ok()
}

fn is_right(alloc: Global, run: &Run, history: &str, changes: &str, wanted: &str) -> bool {
    let audited = match given_once(alloc, run, history, changes) {
        None => given_once(alloc, run, history, changes),
        audited => audited,
    };
    match audited {
        Some(audited) => audited.as_str() == wanted,
        None => false,
    }
}

/// The first row of which something else is answered.
pub(crate) fn first_wrong<'a>(
    alloc: Global,
    run: &Run,
    history: &str,
    rows: &'a str,
) -> Option<&'a str> {
    for row in rows.split('§') {
        let (changes, wanted) = row.split_once('→').unwrap_or((row, ""));
        if !is_right(alloc, run, history.trim(), changes.trim(), wanted.trim()) {
            return Some(row);
        }
    }
    None
}
