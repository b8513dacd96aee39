//! What runs come to.
//!
//! The text of a row is settings. They come to the error of their run; or to the number of client completions and of the
//! nemesis's operations in its history, the ids that are active after its journal, what the audit finds, whether the
//! journal is that of a replay under the same settings, and the error of a second run. Or they come to the value of the
//! last operation.

use crate::journals;
use crate::rows::{ComparedPart, ask_all};
use crate::runs::{Finished, may_lack_memory, plan_of, ran, replayed};
use crate::texts::journal_text;
use jh_edn::write;
use jh_nemesis::Nemesis;
use jh_ops::{Kind, Op, Process};
use jh_simnode::{Event, Plan, nemesis_after};
use jh_workers::{RunError, audit, follows_plan};
use std::alloc::Global;
use std::sync::Wait;
use std::test::Fail;
use std::thread::Threads;

fn is_nemesis(op: &Op) -> bool {
    matches!(op.process, Process::Nemesis)
}

fn is_completion(op: &Op) -> bool {
    !is_nemesis(op) && !matches!(op.kind, Kind::Invoke)
}

/// The numbers of client completions and of operations of the nemesis.
fn counts(alloc: Global, history: &[Op]) -> Option<String> {
    let completions = history.iter().filter(|op| is_completion(op)).count();
    let steps = history.iter().filter(|op| is_nemesis(op)).count();
    format!(in alloc; "{completions} completions, {steps} of the nemesis").ok()
}

fn ids(alloc: Global, nemesis: &Nemesis) -> Option<Vec<u32>> {
    let mut ids = Vec::new(alloc);
    for place in 0..nemesis.active_len() {
        let (id, _) = nemesis.active_at(place)?;
        ids.push(id).ok()?;
    }
    Some(ids)
}

fn ids_after(alloc: Global, plan: &Plan, journal: &[Event]) -> Option<Vec<u32>> {
    match nemesis_after(alloc, plan, journal) {
        Ok(nemesis) => ids(alloc, &nemesis),
        Err(_) => None,
    }
}

/// The ids that are active after a journal.
fn active(alloc: Global, plan: &Plan, journal: &[Event]) -> Option<String> {
    let ids = ids_after(alloc, plan, journal)?;
    format!(in alloc; "{ids:?}").ok()
}

/// What the audit finds.
fn audited(plan: &Plan, journal: &[Event], history: &[Op]) -> &'static str {
    if audit(journal, history).is_err() {
        return "refused";
    }
    if follows_plan(plan, journal, history) {
        "audited"
    } else {
        "not as planned"
    }
}

/// The text of the journal of a replay.
fn replayed_text(alloc: Global, plan: &Plan, journal: &[Event]) -> Option<String> {
    match replayed(alloc, plan, journal) {
        Some(world) => journal_text(alloc, world.journal()),
        None => None,
    }
}

/// Whether a journal is that of a replay.
fn compared(alloc: Global, plan: &Plan, journal: &[Event]) -> Option<&'static str> {
    let text = journal_text(alloc, journal)?;
    let again = replayed_text(alloc, plan, journal)?;
    if again.as_str() == text.as_str() {
        Some("replayed")
    } else {
        Some("not replayed")
    }
}

fn outcome_text(alloc: Global, plan: &Plan, journal: &[Event], history: &[Op]) -> Option<String> {
    let counts = counts(alloc, history)?;
    let active = active(alloc, plan, journal)?;
    let compared = compared(alloc, plan, journal)?;
    let audited = audited(plan, journal, history);
    format!(in alloc; "{counts}, {active} active, {audited}, {compared}").ok()
}

fn error_text(alloc: Global, error: RunError) -> Option<String> {
    if may_lack_memory(error) {
        return None;
    }
    error.to_string(alloc).ok()
}

/// What a run and a second one came to.
fn both_text(alloc: Global, plan: &Plan, finished: &Finished, history: &[Op]) -> Option<String> {
    let Some(journal) = &finished.journal else {
        return None;
    };
    let text = outcome_text(alloc, plan, journal, history)?;
    let again = error_text(alloc, finished.again?)?;
    format!(in alloc; "{text}, then {again}").ok()
}

fn value_text(alloc: Global, history: &[Op]) -> Option<String> {
    let mut text = Vec::new(alloc);
    let Ok(()) = write(&history.last()?.value, &mut text) else {
        return None;
    };
    String::from_utf8(text).ok()
}

/// What is told of what is left of a run.
fn answer_of(
    alloc: Global,
    part: ComparedPart,
    plan: &Plan,
    finished: &Finished,
) -> Option<String> {
    match &finished.history {
        Err(error) => error_text(alloc, *error),
        Ok(history) => match part {
            ComparedPart::Outcome => both_text(alloc, plan, finished, history),
            ComparedPart::LastValue => value_text(alloc, history),
        },
    }
}

/// What the run of a plan comes to. None: memory was refused.
fn answer_by<R: Threads + Wait + Sync>(
    rt: &R,
    alloc: Global,
    part: ComparedPart,
    plan: &Plan,
) -> Option<String> {
    match ran(rt, alloc, plan) {
        Some(finished) => answer_of(alloc, part, plan, &finished),
        None => None,
    }
}

/// What the run of settings comes to. None: memory was refused.
pub(crate) fn answer_once<R: Threads + Wait + Sync>(
    rt: &R,
    alloc: Global,
    part: ComparedPart,
    settings: &str,
) -> Option<String> {
    match plan_of(alloc, settings) {
        Some(plan) => answer_by(rt, alloc, part, &plan),
        None => None,
    }
}

const OUTCOMES: &str = r#"
start = '{:nodes ["n1" "n2" "n3"]}'
store = "quorum"
workload = "register"
initial = 0
clients = 2
ops = 8
tick_every = 4
generator = '[:mix [:forever :read] [:forever [:write 1]] [:forever [:cas 0 1]]]'
schedule = ['[0 [:begin 1 [:cut []]]]']
→ 8 completions, 2 of the nemesis, [1] active, audited, replayed, then mismatch
§ # too few rows
start = '{:nodes ["n1" "n2" "n3"]}'
store = "quorum"
workload = "register"
initial = 0
clients = 2
ops = 8
rows = 5
generator = '[:mix [:forever :read] [:forever [:write 1]] [:forever [:cas 0 1]]]'
schedule = ['[0 [:begin 1 [:cut []]]]']
→ history full
§ # more clients than a second run could have shares
start = '{:nodes ["n1" "n2" "n3"]}'
store = "lww"
workload = "counter"
clients = 16
ops = 100
tick_every = 2
generator = '[:mix [:forever :read] [:forever [:add 2]]]'
schedule = ['[20 [:begin 1 [:kill ["n2"]]]]', '[40 [:begin 2 [:cut []]]]', '[60 [:withdraw 1]]']
→ 100 completions, 6 of the nemesis, [2] active, audited, replayed, then mismatch
§ # writes that nobody may have kept: their processes go on under other numbers
start = '{:nodes ["n1" "n2" "n3"]}'
store = "quorum"
workload = "register"
clients = 3
ops = 300
generator = '[:forever [:write 1]]'
schedule = ['[0 [:begin 1 [:pause ["n1" "n2"]]]]', '[100 [:begin 2 [:slow 600 [["n3" "n1"]]]]]', '[200 [:withdraw-all]]']
→ 300 completions, 6 of the nemesis, [] active, audited, replayed, then mismatch
§ # an entry that is due after the last call
start = '{:nodes ["n1" "n2" "n3"]}'
store = "quorum"
workload = "register"
clients = 2
ops = 4
generator = '[:forever :read]'
schedule = ['[0 [:begin 1 [:cut []]]]', '[10000 [:withdraw 1]]']
→ 4 completions, 4 of the nemesis, [] active, audited, replayed, then mismatch
"#;

#[test]
fn runs_have_outcomes(rt: HostRuntime) -> Result<(), Fail> {
    ask_all(&rt, rt.alloc(), ComparedPart::Outcome, OUTCOMES)
}

const SETS: &str = r#"
start = '{:nodes ["n1" "n2" "n3"]}'
store = "quorum"
workload = "set"
clients = 2
ops = 10
rows = 22
generator = '[:phases [:limit 9 [:rising 0]] [:once :read]]'
→ [0 1 2 3 4 5 6 7 8]
§ # the read's completion takes three rows
start = '{:nodes ["n1" "n2" "n3"]}'
store = "quorum"
workload = "set"
clients = 2
ops = 10
rows = 21
generator = '[:phases [:limit 9 [:rising 0]] [:once :read]]'
→ history full
"#;

#[test]
fn a_set_is_read_whole(rt: HostRuntime) -> Result<(), Fail> {
    ask_all(&rt, rt.alloc(), ComparedPart::LastValue, SETS)
}

const MIXED: &str = r#"
start = '{:nodes ["n1" "n2" "n3"]}'
store = "quorum"
workload = "register"
initial = 0
clients = 2
ops = 8
tick_every = 4
generator = '[:mix [:forever :read] [:forever [:write 1]] [:forever [:cas 0 1]]]'
schedule = ['[0 [:begin 1 [:cut []]]]']
"#;

/// What is wrong with a run that may have been out of memory.
fn wrong_with(alloc: Global, plan: &Plan, finished: &Finished) -> Option<&'static str> {
    let Some(journal) = &finished.journal else {
        return Some("no journal");
    };
    if compared(alloc, plan, journal) == Some("not replayed") {
        return Some("the journal is not that of a replay");
    }
    match &finished.history {
        Ok(history) if audited(plan, journal, history) == "audited" => None,
        Ok(_) => Some("the audit refuses the outcome"),
        Err(error) if may_lack_memory(*error) => None,
        Err(_) => Some("another error"),
    }
}

#[test]
fn a_run_may_lack_memory(rt: HostRuntime) {
    if let Some(plan) = plan_of(rt.alloc(), MIXED)
        && let Some(finished) = ran(&rt, rt.alloc(), &plan)
    {
        assert_eq!(rt; wrong_with(rt.alloc(), &plan, &finished), None);
    }
}

// One client asks and calls in turn, so the draws are every second number of its stream.
const ALONE: &str = r#"
start = '{:nodes ["n1" "n2" "n3"]}'
store = "quorum"
workload = "register"
clients = 1
ops = 3
seed = 7
generator = '[:forever :read]'
"#;

/// The second, fourth and sixth number of PCG XSL RR 128/64 with state 7 and stream 1, as its paper has it.
const DRAWS: [u64; 3] = [
    9_816_695_004_564_706_232,
    5_191_670_780_560_574_109,
    16_364_278_647_694_089_004,
];

/// Whether the calls of a run have these draws. None: it has no history, or no journal.
fn has_draws_left(finished: &Finished) -> Option<bool> {
    match (&finished.history, &finished.journal) {
        (Ok(_), Some(journal)) => Some(journals::has_draws(journal, &DRAWS)),
        _ => None,
    }
}

/// Whether the calls of the one client have these draws.
fn is_drawn_once<R: Threads + Wait + Sync>(rt: &R, alloc: Global) -> Option<bool> {
    match plan_of(alloc, ALONE) {
        Some(plan) => has_draws_left(&ran(rt, alloc, &plan)?),
        None => None,
    }
}

#[test]
fn a_client_has_its_own_random_numbers(rt: HostRuntime) {
    let drawn = match is_drawn_once(&rt, rt.alloc()) {
        None => is_drawn_once(&rt, rt.alloc()),
        drawn => drawn,
    };
    assert_eq!(rt; drawn, Some(true));
}

/// Settings of so many clients, whose entries are due at 0, 3, 3 and 30 answered calls of 30.
static IN_TIME: [(usize, &str); 2] = [
    (
        1,
        r#"
start = '{:nodes ["n1" "n2" "n3"]}'
store = "quorum"
workload = "register"
clients = 1
ops = 30
generator = '[:forever :read]'
schedule = ['[0 [:begin 1 [:cut []]]]', '[3 [:withdraw 1]]', '[3 [:begin 2 [:cut []]]]', '[30 [:withdraw-all]]']
"#,
    ),
    (
        4,
        r#"
start = '{:nodes ["n1" "n2" "n3"]}'
store = "quorum"
workload = "register"
clients = 4
ops = 30
generator = '[:forever :read]'
schedule = ['[0 [:begin 1 [:cut []]]]', '[3 [:withdraw 1]]', '[3 [:begin 2 [:cut []]]]', '[30 [:withdraw-all]]']
"#,
    ),
];

/// At how many answered calls these entries are due.
const DUES: [usize; 4] = [0, 3, 3, 30];

/// Whether each step stands behind as many calls as its entry says, and those that the other clients had under way.
fn is_in_time(counts: &[usize], clients: usize) -> bool {
    counts.len() == DUES.len()
        && counts.iter().zip(DUES.iter()).all(|(calls, due)| *due <= *calls
            && *calls < due.saturating_add(clients))
}

/// Whether the entries of a run of these settings come in time. None: memory was refused.
fn comes_in_time<R: Threads + Wait + Sync>(
    rt: &R,
    alloc: Global,
    clients: usize,
    settings: &str,
) -> Option<bool> {
    let plan = plan_of(alloc, settings)?;
    let finished = ran(rt, alloc, &plan)?;
    let journal = finished.journal?;
    let counts = journals::calls_before_steps(alloc, &journal)?;
    Some(is_in_time(&counts, clients))
}

#[test]
fn entries_come_in_time(rt: HostRuntime) {
    for (clients, settings) in IN_TIME.iter() {
        let right = match comes_in_time(&rt, rt.alloc(), *clients, settings) {
            None => comes_in_time(&rt, rt.alloc(), *clients, settings),
            right => right,
        };
        assert_eq!(rt; right, Some(true));
    }
}
