//! What the operations of a run say. `specs/Forms.antt` has the rule; a new form is a variant here
//! and a case there.

ghost use Rattle.std.specs.Prelude.{◌≡◌, ◌<◌, ◌^◌, length, IfSome, MatchOption};
ghost use Rattle.jh_edn.specs.View.{view};
ghost use Rattle.jh_ops.specs.Operation.{operation, operations};
ghost use Rattle.jh_audit.specs.DecodeInside as rule;
ghost use Rattle.jh_audit.specs.Forms.{SaysAt, event_in, named_event_at};

use crate::decode::{
    begun_entry, completed_request, ended_entry_in, event_by, name_in, named_event, request_asked,
};
use jh_edn::Value;
use jh_ops::{Kind, Op, Process, Request};

/// What an operation of a run says, but for what a request got and what a step was answered.
#[derive(Clone, Copy, Debug)]
pub(crate) enum Form {
    /// A client's process asks.
    Asks {
        process: u64,
        request: Request,
    },
    /// A client's process was answered, by the event of this number.
    Completes {
        process: u64,
        request: Request,
        event: u64,
    },
    /// An entry of the schedule begins.
    Begins {
        entry: u64,
    },
    /// An entry of the schedule has ended, by the event of this number.
    Ends {
        entry: u64,
        event: u64,
    },
}

/// The form of a client's operation with these parts.
fn client_form(
    process: u64,
    kind: Kind,
    name: &str,
    value: &Value,
    event: Option<u64>,
) -> Option<Form>
    ensures { result ≡ rule.client_form process kind name.now (view value.now) event }
{
    match event {
        None => match kind {
            Kind::Invoke => Some(Form::Asks {
                process,
                request: request_asked(name, value)?,
            }),
            _ => None,
        },
        Some(number) => Some(Form::Completes {
            process,
            request: completed_request(kind, name, value)?,
            event: number,
        }),
    }
}

/// The form of an operation of the schedule with these parts.
fn step_form(value: &Value, event: Option<u64>) -> Option<Form>
    ensures { result ≡ rule.step_form (view value.now) event }
{
    match event {
        None => Some(Form::Begins {
            entry: begun_entry(value)?,
        }),
        Some(number) => Some(Form::Ends {
            entry: ended_entry_in(value)?,
            event: number,
        }),
    }
}

/// The form of an operation with these parts.
fn form_by(
    process: Process,
    kind: Kind,
    name: &str,
    value: &Value,
    event: Option<u64>,
) -> Option<Form>
    ensures { result ≡ rule.form_by process kind name.now (view value.now) event }
{
    match process {
        Process::Client(process) => client_form(process, kind, name, value, event),
        Process::Nemesis => match kind {
            Kind::Info => {
                if name == "step" {
                    step_form(value, event)
                } else {
                    None
                }
            }
            _ => None,
        },
    }
}

/// Whether an index says this place.
fn is_index_of(place: usize, index: Option<i64>) -> bool
    ensures { result ≡ rule.is_index_of place index }
{
    match index {
        Some(index) => 0 <= index && index as usize == place,
        None => false,
    }
}

/// The form of an operation at its place, where it has one.
fn form_of(place: usize, op: &Op) -> Option<Form>
    ensures { result ≡ rule.form_of place (operation op.now) }
{
    if !is_index_of(place, op.index) {
        return None;
    }
    if op.time.is_some() {
        return None;
    }
    let event = event_by(op.rest.as_slice())?;
    form_by(op.process, op.kind, name_in(&op.f), &op.value, event)
}

/// The form of the operation at a place, where it has one.
pub(crate) fn form_at(history: &[Op], place: usize) -> Option<Form>
    requires { place < length history.now }
    ensures found { result ≡ rule.form_at (operations history.now) place }
    ensures says { MatchOption result
        ((form : Form) → SaysAt (operations history.now) place form → ⊥)
        (SaysAt (operations history.now) place) }
{
    form_of(place, &history[place])
}

/// The number of the event that the operation at a place names.
pub(crate) fn named_event_at(history: &[Op], place: usize) -> Option<u64>
    requires { place < length history.now }
    ensures named { result ≡ named_event_at (operations history.now) place }
    ensures small { IfSome result (λ number. number < 2 ^ 63) }
{
    named_event(history[place].rest.as_slice())
}

impl Form {
    /// The number of the event, in a completion.
    pub(crate) fn event(self) -> Option<u64>
        ensures { result ≡ event_in self }
    {
        match self {
            Form::Completes { event, .. } | Form::Ends { event, .. } => Some(event),
            Form::Asks { .. } | Form::Begins { .. } => None,
        }
    }
}
