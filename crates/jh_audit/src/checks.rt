//! The audit. `specs/Audit.antt` says what is asked of each operation and event; each question has
//! a function here, and `IsCompletionBy` one in `replies.rt`.

ghost use Rattle.std.specs.Prelude.{◌≡◌, ◌<◌, ◌≤◌, ◌↔◌, length, Some, IsTrue, MatchOption};
ghost use Rattle.std.specs.Prelude.{MatchResult};
ghost use Rattle.jh_ops.specs.Operation.{operation, operations};
ghost use Rattle.jh_audit.specs.Audit.{AreNamed, AreSoundBelow, HasFaultAt, FollowsInvocation};
ghost use Rattle.jh_audit.specs.Audit.{HasEvent, IsAudited, IsFirstFault, IsNotLast, IsInOrder};
ghost use Rattle.jh_audit.specs.Audit.{IsNamed, IsNamedAsDue, IsNewEvent, IsOverBy, IsOverAt};
ghost use Rattle.jh_audit.specs.Audit.{IsPaired, IsSoundAt, IsJustBefore, MayInvoke, NeedsName};
ghost use Rattle.jh_audit.specs.Audit.{HasNothingBefore, HasSameProcess, CompletesEvent};
ghost use Rattle.jh_audit.specs.Forms.{Says};
ghost use Rattle.jh_audit.specs.HorizonInside.{IsBehind, NamesBelow};

use crate::forms::{Form, form_at, named_event_at};
use crate::horizon::Horizon;
use crate::replies::is_completion_by;
use jh_ops::{Kind, Op, Process};
use jh_simnode::Event;
use thiserror::Error;

/// What is wrong first with a journal and a history, by the place of the operation, or by the
/// number of the event. It is no fault of the nemesis.
#[derive(Clone, Copy, Debug, PartialEq, Eq, Error)]
pub enum AuditFault {
    /// It is no operation of a run.
    #[error("operation {0}: bad operation")]
    BadOp(usize),
    /// The journal has no event of the number that it names.
    #[error("operation {0}: no such event")]
    NoEvent(usize),
    /// The event that it names is another.
    #[error("operation {0}: wrong event")]
    WrongEvent(usize),
    /// The event that it names was named before.
    #[error("operation {0}: repeated event")]
    Repeat(usize),
    /// It is no invocation that may be made and is completed, and no completion of the invocation
    /// before it.
    #[error("operation {0}: unpaired")]
    Unpaired(usize),
    /// Its event is not above all that were named before its invocation.
    #[error("operation {0}: wrong order")]
    WrongOrder(usize),
    /// No completion names the event.
    #[error("event {0}: not named")]
    Unnamed(usize),
}

/// Whether the operations at both places are of one process.
fn same_process(history: &[Op], one: usize, other: usize) -> bool
    requires one { one < length history.now }
    requires other { other < length history.now }
    ensures { IsTrue result ↔ HasSameProcess (operations history.now) one other }
{
    match (history[one].process, history[other].process) {
        (Process::Client(one), Process::Client(other)) => one == other,
        (Process::Nemesis, Process::Nemesis) => true,
        _ => false,
    }
}

/// Where the process of a place acted just before it.
fn just_before(history: &[Op], place: usize) -> Option<usize>
    requires { place < length history.now }
    ensures { MatchOption result (HasNothingBefore (operations history.now) place)
        (λ k. IsJustBefore (operations history.now) k place) }
{
    for back in 0..place {
        let earlier = place - back - 1;
        if same_process(history, earlier, place) {
            return Some(earlier);
        }
    }
    None
}

/// Whether the event of a completion is one of the journal.
fn has_event(journal: &[Event], form: Form) -> bool
    ensures { IsTrue result ↔ HasEvent journal.now form }
{
    match form.event() {
        Some(number) => number < journal.len() as u64,
        None => true,
    }
}

/// Whether a completion is that of its event.
fn completes_event(journal: &[Event], place: usize, op: &Op, form: Form) -> bool
    requires event { HasEvent journal.now form }
    requires says { Says place (operation op.now) form }
    ensures { IsTrue result ↔ CompletesEvent journal.now place (operation op.now) form }
{
    match form.event() {
        Some(number) => is_completion_by(&journal[number as usize], place, op, form),
        None => true,
    }
}

/// Whether an operation before a place names the event.
fn is_named(history: &[Op], horizon: Horizon, place: usize, number: u64) -> bool
    requires place { place ≤ length history.now }
    requires behind { IsBehind (operations history.now) horizon }
    ensures { IsTrue result ↔ IsNamed (operations history.now) place number }
{
    let start = horizon.start(history, number);
    for earlier in start..place {
        if named_event_at(history, earlier) == Some(number) {
            return true;
        }
    }
    false
}

/// Whether no earlier operation names the event of a completion.
fn is_new(history: &[Op], horizon: Horizon, place: usize, form: Form) -> bool
    requires place { place < length history.now }
    requires behind { IsBehind (operations history.now) horizon }
    ensures { IsTrue result ↔ IsNewEvent (operations history.now) place form }
{
    match form.event() {
        Some(number) => !is_named(history, horizon, place, number),
        None => true,
    }
}

/// Whether a process may ask again after an operation that says this.
fn is_over(op: &Op, form: Form) -> bool
    ensures { IsTrue result ↔ IsOverBy (operation op.now) form }
{
    match form {
        Form::Completes { .. } => op.kind != Kind::Info,
        Form::Ends { .. } => true,
        Form::Asks { .. } | Form::Begins { .. } => false,
    }
}

/// Whether its process may ask again after the operation at a place.
fn is_over_at(history: &[Op], place: usize) -> bool
    requires { place < length history.now }
    ensures { IsTrue result ↔ IsOverAt (operations history.now) place }
{
    match form_at(history, place) {
        Some(form) => is_over(&history[place], form),
        None => false,
    }
}

/// Whether just before an invocation stands nothing, or what is over.
fn may_invoke(history: &[Op], place: usize) -> bool
    requires { place < length history.now }
    ensures { IsTrue result ↔ MayInvoke (operations history.now) place }
{
    match just_before(history, place) {
        Some(earlier) => is_over_at(history, earlier),
        None => true,
    }
}

/// Whether an operation is not the last of its process.
fn is_not_last(history: &[Op], place: usize) -> bool
    requires { place < length history.now }
    ensures { IsTrue result ↔ IsNotLast (operations history.now) place }
{
    for later in place + 1..history.len() {
        if same_process(history, later, place) {
            return true;
        }
    }
    false
}

/// Whether two forms are one.
fn same_form(one: Form, other: Form) -> bool
    ensures { IsTrue result ↔ (one ≡ other) }
{
    match (one, other) {
        (
            Form::Asks {
                process: one,
                request: asked,
            },
            Form::Asks {
                process: other,
                request: given,
            },
        ) => one == other && asked == given,
        (
            Form::Completes {
                process: one,
                request: asked,
                event,
            },
            Form::Completes {
                process: other,
                request: given,
                event: number,
            },
        ) => one == other && asked == given && event == number,
        (Form::Begins { entry: one }, Form::Begins { entry: other }) => one == other,
        (
            Form::Ends { entry: one, event },
            Form::Ends {
                entry: other,
                event: number,
            },
        ) => one == other && event == number,
        _ => false,
    }
}

/// Whether just before a completion stands its invocation.
fn follows(history: &[Op], place: usize, asked: Form) -> bool
    requires { place < length history.now }
    ensures { IsTrue result ↔ FollowsInvocation (operations history.now) place asked }
{
    let Some(earlier) = just_before(history, place) else {
        return false;
    };
    match form_at(history, earlier) {
        Some(form) => same_form(form, asked),
        None => false,
    }
}

/// Whether an invocation may be made and is completed, or a completion follows its invocation.
fn is_paired(history: &[Op], place: usize, form: Form) -> bool
    requires { place < length history.now }
    ensures { IsTrue result ↔ IsPaired (operations history.now) place form }
{
    match form {
        Form::Asks { .. } | Form::Begins { .. } => {
            may_invoke(history, place) && is_not_last(history, place)
        }
        Form::Completes {
            process,
            request,
            ..
        } => follows(history, place, Form::Asks { process, request }),
        Form::Ends { entry, .. } => follows(history, place, Form::Begins { entry }),
    }
}

/// Whether all operations before a place name events below a number.
fn names_below(history: &[Op], horizon: Horizon, place: usize, number: u64) -> bool
    requires place { place ≤ length history.now }
    requires behind { IsBehind (operations history.now) horizon }
    ensures { IsTrue result ↔ NamesBelow (operations history.now) place number }
{
    let start = horizon.start(history, number);
    for earlier in start..place {
        if let Some(other) = named_event_at(history, earlier)
            && other >= number
        {
            return false;
        }
    }
    true
}

/// Whether the event of a completion comes after all that are named before its invocation.
fn is_in_order(history: &[Op], horizon: Horizon, place: usize, form: Form) -> bool
    requires place { place < length history.now }
    requires behind { IsBehind (operations history.now) horizon }
    ensures { IsTrue result ↔ IsInOrder (operations history.now) place form }
{
    let Some(number) = form.event() else {
        return true;
    };
    match just_before(history, place) {
        Some(asked) => names_below(history, horizon, asked, number),
        None => true,
    }
}

/// What is wrong at a place.
fn check_at(
    journal: &[Event],
    history: &[Op],
    horizon: Horizon,
    place: usize,
) -> Result<(), AuditFault>
    requires place { place < length history.now }
    requires behind { IsBehind (operations history.now) horizon }
    ensures { MatchResult result
        (λ _. IsSoundAt journal.now (operations history.now) place)
        (HasFaultAt journal.now (operations history.now) place) }
{
    let Some(form) = form_at(history, place) else {
        return Err(AuditFault::BadOp(place));
    };
    if !has_event(journal, form) {
        return Err(AuditFault::NoEvent(place));
    }
    if !completes_event(journal, place, &history[place], form) {
        return Err(AuditFault::WrongEvent(place));
    }
    if !is_new(history, horizon, place, form) {
        return Err(AuditFault::Repeat(place));
    }
    if !is_paired(history, place, form) {
        return Err(AuditFault::Unpaired(place));
    }
    if !is_in_order(history, horizon, place, form) {
        return Err(AuditFault::WrongOrder(place));
    }
    Ok(())
}

/// Whether a completion must name the event: a call or a step, and no tick.
fn needs_name(event: &Event) -> bool
    ensures { IsTrue result ↔ NeedsName event.now }
{
    !matches!(event, Event::Tick)
}

/// Whether the event of a number is named where it must be.
fn is_named_as_due(journal: &[Event], history: &[Op], horizon: Horizon, number: usize) -> bool
    requires number { number < length journal.now }
    requires behind { IsBehind (operations history.now) horizon }
    ensures { IsTrue result ↔ IsNamedAsDue journal.now (operations history.now) number }
{
    !needs_name(&journal[number]) || is_named(history, horizon, history.len(), number as u64)
}

/// Refuses the first operation that is not sound.
fn check_operations(journal: &[Event], history: &[Op]) -> Result<(), AuditFault>
    ensures { MatchResult result
        (λ _. AreSoundBelow journal.now (operations history.now) (length (operations history.now)))
        (IsFirstFault journal.now (operations history.now)) }
{
    let mut horizon = Horizon::first(history);
    for place in 0..history.len() {
        horizon = horizon.before(history, place);
        match check_at(journal, history, horizon, place) {
            Ok(()) => {}
            Err(fault) => return Err(fault),
        }
    }
    Ok(())
}

/// The least number of an event that is not named and must be.
fn first_unnamed(journal: &[Event], history: &[Op]) -> Option<usize>
    ensures { MatchOption result
        (AreNamed journal.now (operations history.now) (length journal.now))
        (λ number. (number < length journal.now)
        × AreNamed journal.now (operations history.now) number
        × (IsNamedAsDue journal.now (operations history.now) number → ⊥)) }
{
    let mut horizon = Horizon::first(history);
    for number in 0..journal.len() {
        horizon = horizon.below(history, number as u64);
        if !is_named_as_due(journal, history, horizon, number) {
            return Some(number);
        }
    }
    None
}

/// Whether a journal and a history tell the same: each completion follows its invocation, a process
/// ends with a completion, a client's `:info` is its last, each completion names one event of the
/// journal, later than all that were named before its invocation, and each event but a tick is
/// named once.
///
/// Takes no memory. Each operation is compared with those since the operation of its process before
/// it, and with those from the horizon on, 64 to 127 operations back; with all, where its event's
/// number is below the horizon's bound. So a history of few processes takes time linear in its
/// length; one in which most processes crash, or most completions stand far from their events,
/// takes its square.
///
/// Errors: the fault at the least place, at one place in this order: `BadOp`, `NoEvent`,
/// `WrongEvent`, `Repeat`, `Unpaired`, `WrongOrder`; where there is none, `Unnamed` with the least
/// number of a call or a step that no completion names.
pub fn audit(journal: &[Event], history: &[Op]) -> Result<(), AuditFault>
    ensures { MatchResult result
        (λ _. IsAudited journal.now (operations history.now))
        (IsFirstFault journal.now (operations history.now)) }
{
    match check_operations(journal, history) {
        Ok(()) => {}
        Err(fault) => return Err(fault),
    }
    match first_unnamed(journal, history) {
        Some(number) => Err(AuditFault::Unnamed(number)),
        None => Ok(()),
    }
}
