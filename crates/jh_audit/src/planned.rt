//! Whether a journal and a history keep to the plan of their run. `specs/Plans.antt` has the rule.

ghost use Rattle.std.specs.Prelude.{◌≡◌, ◌+◌, ◌<◌, ◌≤◌, ◌↔◌, length, IsTrue, MatchOption};
ghost use Rattle.jh_ops.specs.Operation.{operation, operations};
ghost use Rattle.std.specs.List.{count_by};
ghost use Rattle.jh_nemesis.specs.declared.steps.StepAnswer.{StepAnswer};
ghost use Rattle.jh_simnode.specs.Histories.{indexed_entry_completion};
ghost use Rattle.jh_simnode.specs.declared.events.Event.TheVariants as Event;
ghost use Rattle.jh_audit.specs.Forms.{Says};
ghost use Rattle.jh_audit.specs.Plans as rule;
ghost use Rattle.jh_audit.specs.Plans.{AreInTurn, EndsEntryAt, FollowsPlan, IsInTurn};
ghost use Rattle.jh_audit.specs.declared.forms.Form.TheVariants.{Ends};

use crate::forms::{Form, form_at};
use crate::replies::has_answer;
use crate::ticks::has_its_ticks;
use crate::turns::are_turns_kept;
use jh_edn::Value;
use jh_nemesis::Step;
use jh_ops::{Kind, Op};
use jh_simnode::{Entry, Event, Plan};

/// Whether it is a client's completion.
fn is_answered_call(op: &Op) -> bool
    ensures { result ≡ rule.is_answered_call (operation op.now) }
{
    op.process.is_client() && !matches!(op.kind, Kind::Invoke)
}

/// Whether it is a completion of the nemesis.
fn is_answered_step(op: &Op) -> bool
    ensures { result ≡ rule.is_answered_step (operation op.now) }
{
    !op.process.is_client() && matches!(op.value, Value::Vector(_))
}

/// Whether the event is of the step that was due, and the operation, which says that this entry has
/// ended, its completion.
fn ends_by(event: &Event, due: &Step, place: usize, op: &Op, entry: u64, number: u64) -> bool
    requires { Says place (operation op.now) (Ends entry number) }
    ensures { IsTrue result ↔ ((answer : StepAnswer) × (event.now ≡ Event.Step due.now answer)
        × (operation op.now ≡ indexed_entry_completion place number entry answer)) }
{
    match event {
        Event::Step { step, answer } => {
            step.is_same(due) && has_answer(op, place, entry, number, *answer)
        }
        _ => false,
    }
}

/// Whether the operation at a place says that this entry of the schedule has ended, by an event of
/// its step.
fn ends_entry(
    schedule: &[Entry],
    journal: &[Event],
    history: &[Op],
    place: usize,
    entry: usize,
) -> bool
    requires { place < length history.now }
    ensures { IsTrue result
        ↔ EndsEntryAt schedule.now journal.now (operations history.now) place entry }
{
    if entry >= schedule.len() {
        return false;
    }
    let Some(
        Form::Ends {
            entry: given,
            event: number,
        },
    ) = form_at(history, place)
    else {
        return false;
    };
    if given != entry as u64 || number >= journal.len() as u64 {
        return false;
    }
    ends_by(
        &journal[number as usize],
        &schedule[entry].step,
        place,
        &history[place],
        given,
        number,
    )
}

/// How many calls the clients completed.
fn completed_calls(history: &[Op]) -> usize
    ensures { result ≡ count_by rule.is_answered_call (operations history.now) }
{
    let mut answered = 0;
    for op in history {
        if is_answered_call(op) {
            answered += 1;
        }
    }
    answered
}

/// Whether a completion of the nemesis ends the entry whose number is that of the completions
/// before it.
fn is_in_turn(
    schedule: &[Entry],
    journal: &[Event],
    history: &[Op],
    place: usize,
    ended: usize,
) -> bool
    requires place { place < length history.now }
    requires ended { ended ≡ rule.steps_below (operations history.now) place }
    ensures { IsTrue result ↔ IsInTurn schedule.now journal.now (operations history.now) place }
{
    !is_answered_step(&history[place]) || ends_entry(schedule, journal, history, place, ended)
}

/// How many completions of the nemesis stand up to a place, where so many stand below it.
fn ended_after(history: &[Op], place: usize, ended: usize) -> usize
    requires place { place < length history.now }
    requires ended { ended ≡ rule.steps_below (operations history.now) place }
    requires few { ended ≤ place }
    ensures ended { result ≡ rule.steps_below (operations history.now) (place + 1) }
    ensures few { result ≤ place + 1 }
{
    if is_answered_step(&history[place]) {
        ended + 1
    } else {
        ended
    }
}

/// How many entries the completions of the nemesis end, where they are in turn.
fn ended_in_turn(schedule: &[Entry], journal: &[Event], history: &[Op]) -> Option<usize>
    ensures { let ops = operations history.now in MatchOption result
        (AreInTurn schedule.now journal.now ops (length ops) → ⊥)
        (λ ended. AreInTurn schedule.now journal.now ops (length ops)
        × (ended ≡ count_by rule.is_answered_step ops)) }
{
    let mut ended = 0;
    for place in 0..history.len() {
        if !is_in_turn(schedule, journal, history, place, ended) {
            return None;
        }
        ended = ended_after(history, place, ended);
    }
    Some(ended)
}

/// Whether the history of a run keeps to its plan: the nemesis's completions end all entries of
/// the schedule in order, each by an event of the journal that is of its step, and the clients
/// completed no more calls than the plan has. And whether its journal does: each call is of the node
/// of its thread, each step is that of the next entry, taken once as many calls were answered as
/// the entry waits for, or all calls of the journal, and there are as many ticks as follow the
/// calls of its threads.
///
/// Takes no memory, and time linear in the history, in the journal for each client, and in what the
/// faults of the schedule name.
pub fn follows_plan(plan: &Plan, journal: &[Event], history: &[Op]) -> bool
    ensures { IsTrue result ↔ FollowsPlan plan.now journal.now (operations history.now) }
{
    let schedule = plan.schedule().entries();
    match ended_in_turn(schedule, journal, history) {
        Some(ended) => {
            ended == schedule.len()
                && completed_calls(history) <= plan.ops() as usize
                && are_turns_kept(plan, journal)
                && has_its_ticks(plan, journal)
        }
        None => false,
    }
}
