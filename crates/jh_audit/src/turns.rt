//! Whether each event of a journal keeps to its turn in the plan. `specs/Plans.antt` has the rule
//! (`KeepsTurn`).

ghost use Rattle.std.specs.Prelude.{◌≡◌, ◌+◌, ◌<◌, ◌≤◌, ◌%◌, ◌↔◌, length, min, take, IsTrue};
ghost use Rattle.std.specs.Prelude.{slice_get, Some};
ghost use Rattle.jh_simnode.specs.Counts as count;
ghost use Rattle.jh_simnode.specs.declared.schedule.Entry.{Entry};
ghost use Rattle.jh_audit.specs.Plans.{AreTurnsKept, IsTurnKept, KeepsTurn};

use jh_env::Node;
use jh_nemesis::Step;
use jh_simnode::{Entry, Event, Plan, node_of};

/// Whether it is a client's call.
fn is_call(event: &Event) -> bool
    ensures { result ≡ count.is_call event.now }
{
    matches!(event, Event::Call { .. })
}

/// Whether it is a step of the nemesis.
fn is_step(event: &Event) -> bool
    ensures { result ≡ count.is_step event.now }
{
    matches!(event, Event::Step { .. })
}

/// How many calls were answered.
fn calls_in(journal: &[Event]) -> usize
    ensures { result ≡ count.answered_count journal.now }
{
    let mut answered = 0;
    for event in journal {
        if is_call(event) {
            answered += 1;
        }
    }
    answered
}

/// Whether a call of this process is one of this node.
fn is_at_home(plan: &Plan, process: u64, node: Node) -> bool
    ensures { IsTrue result
        ↔ (node ≡ process % plan.now.clients % length plan.now.env.names) }
{
    let thread = process % u64::from(plan.clients());
    node == node_of(plan, thread as u32)
}

/// Whether the entry of this number has the step and is due, where so many of all calls were
/// answered.
fn is_due_entry(entries: &[Entry], number: usize, step: &Step, calls: usize, all: usize) -> bool
    ensures { IsTrue result ↔ ((due : Entry) × (slice_get entries.now number ≡ Some due)
        × (step.now ≡ due.step) × (min due.at all ≤ calls)) }
{
    match entries.get(number) {
        Some(due) => step.is_same(&due.step) && all.min(due.at as usize) <= calls,
        None => false,
    }
}

/// Whether an event keeps to its turn, behind so many steps and so many of all calls: a call is of
/// its thread's node, and a step is the next one of the schedule and due. (That the completions of
/// the history end the entries in this order too is asked in `planned.rt`.)
fn keeps_turn(plan: &Plan, event: &Event, steps: usize, calls: usize, all: usize) -> bool
    ensures { IsTrue result ↔ KeepsTurn plan.now steps calls all event.now }
{
    match event {
        Event::Call { process, node, .. } => is_at_home(plan, *process, *node),
        Event::Step { step, .. } => {
            is_due_entry(plan.schedule().entries(), steps, step, calls, all)
        }
        Event::Tick => true,
    }
}

/// Whether the event of this number does, behind so many steps and so many of all calls.
fn is_turn_kept(
    plan: &Plan,
    journal: &[Event],
    number: usize,
    steps: usize,
    calls: usize,
    all: usize,
) -> bool
    requires number { number < length journal.now }
    requires steps { steps ≡ count.applied_count (take number journal.now) }
    requires calls { calls ≡ count.answered_count (take number journal.now) }
    requires all { all ≡ count.answered_count journal.now }
    ensures { IsTrue result ↔ IsTurnKept plan.now journal.now number }
{
    keeps_turn(plan, &journal[number], steps, calls, all)
}

/// How many steps stand up to a number, where so many stand below it.
fn steps_after(journal: &[Event], number: usize, steps: usize) -> usize
    requires number { number < length journal.now }
    requires steps { steps ≡ count.applied_count (take number journal.now) }
    requires few { steps ≤ number }
    ensures steps { result ≡ count.applied_count (take (number + 1) journal.now) }
    ensures few { result ≤ number + 1 }
{
    if is_step(&journal[number]) {
        steps + 1
    } else {
        steps
    }
}

/// How many calls were answered up to a number, where so many were below it.
fn calls_after(journal: &[Event], number: usize, calls: usize) -> usize
    requires number { number < length journal.now }
    requires calls { calls ≡ count.answered_count (take number journal.now) }
    requires few { calls ≤ number }
    ensures calls { result ≡ count.answered_count (take (number + 1) journal.now) }
    ensures few { result ≤ number + 1 }
{
    if is_call(&journal[number]) {
        calls + 1
    } else {
        calls
    }
}

/// Whether each event of the journal keeps to its turn.
pub(crate) fn are_turns_kept(plan: &Plan, journal: &[Event]) -> bool
    ensures { IsTrue result ↔ AreTurnsKept plan.now journal.now (length journal.now) }
{
    let all = calls_in(journal);
    let (mut steps, mut calls) = (0, 0);
    for number in 0..journal.len() {
        if !is_turn_kept(plan, journal, number, steps, calls, all) {
            return false;
        }
        steps = steps_after(journal, number, steps);
        calls = calls_after(journal, number, calls);
    }
    true
}
