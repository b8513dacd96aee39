//! Whether an operation is the completion of an event. `specs/Audit.antt` has the rule
//! (`IsCompletionBy`), `specs/RepliesInside.antt` which values are compared.

ghost use Rattle.std.specs.Prelude.{◌≡◌, ◌↔◌, IsTrue};
ghost use Rattle.jh_edn.specs.View.{view, views};
ghost use Rattle.jh_ops.specs.Operation.{operation};
ghost use Rattle.jh_ops.specs.Words.{content_value};
ghost use Rattle.jh_simnode.specs.Histories.{indexed_entry_completion, completion_kind};
ghost use Rattle.jh_nemesis.specs.Steps.{code_of};
ghost use Rattle.jh_simnode.specs.Histories.{replied_content};
ghost use Rattle.jh_audit.specs.Audit.{IsCompletionBy};
ghost use Rattle.jh_audit.specs.Forms.{Says};
ghost use Rattle.jh_audit.specs.RepliesInside as rule;
ghost use Rattle.jh_audit.specs.declared.forms.Form.TheVariants.{Ends};

use crate::decode::pair_in;
use crate::forms::Form;
use jh_edn::Value;
use jh_nemesis::StepAnswer;
use jh_ops::{Op, Request};
use jh_simnode::{Event, Got, Reply, completion_kind};

/// Whether the value is this integer.
fn is_number(value: &Value, number: i64) -> bool
    ensures { result ≡ rule.is_number number (view value.now) }
{
    match value {
        Value::Int(integer) => *integer == number,
        _ => false,
    }
}

/// Whether the values are these integers.
fn are_numbers(values: &[Value], numbers: &[i64]) -> bool
    ensures { result ≡ rule.are_numbers numbers.now (views values.now) }
{
    let mut rest = numbers;
    for value in values {
        let [number, others @ ..] = rest else {
            return false;
        };
        if !is_number(value, *number) {
            return false;
        }
        rest = others;
    }
    rest.is_empty()
}

/// Whether the value is a vector of these integers.
fn is_numbers(value: &Value, numbers: &[i64]) -> bool
    ensures { result ≡ rule.is_numbers numbers.now (view value.now) }
{
    match value {
        Value::Vector(items) => are_numbers(items.as_slice(), numbers),
        _ => false,
    }
}

/// Whether the value is the one that a request asks with.
fn is_asked_value(value: &Value, request: Request) -> bool
    ensures { result ≡ rule.is_asked_value request (view value.now) }
{
    match request {
        Request::Read | Request::Generate | Request::Txn => value.is_nil(),
        Request::Write(number) => is_number(value, number),
        Request::Add(amount) => is_number(value, amount),
        Request::Cas(old, new) => is_numbers(value, &[old, new]),
    }
}

/// Whether the value is the one in the completion of a request that was done.
fn is_got(value: &Value, request: Request, got: &Got) -> bool
    ensures { result ≡ rule.is_got request got.now (view value.now) }
{
    match got {
        Got::Nothing => is_asked_value(value, request),
        Got::One(None) => value.is_nil(),
        Got::One(Some(number)) => is_number(value, *number),
        Got::Many(numbers) => is_numbers(value, numbers.as_slice()),
    }
}

/// Whether the value is that of a completion with this reply.
fn is_replied(value: &Value, request: Request, reply: &Reply) -> bool
    ensures { result ≡ rule.is_replied request reply.now (view value.now) }
{
    match reply {
        Reply::Ok(got) => is_got(value, request, got),
        Reply::Fail | Reply::Info => is_asked_value(value, request),
    }
}

/// Whether a completion of this request has this reply.
fn has_reply(op: &Op, request: Request, reply: &Reply) -> bool
    ensures { IsTrue result ↔ ((op.now.kind ≡ completion_kind reply.now)
        × (view op.now.value ≡ content_value (replied_content request reply.now))) }
{
    op.kind == completion_kind(reply) && is_replied(&op.value, request, reply)
}

/// Whether an entry has ended with this answer.
pub(crate) fn has_answer(op: &Op, place: usize, entry: u64, number: u64, answer: StepAnswer) -> bool
    requires { Says place (operation op.now) (Ends entry number) }
    ensures { IsTrue result
        ↔ (operation op.now ≡ indexed_entry_completion place number entry answer) }
{
    match pair_in(&op.value) {
        Some((_, code)) => code == answer.code(),
        None => false,
    }
}

/// Whether an operation that says this is the completion of the event.
pub(crate) fn is_completion_by(event: &Event, place: usize, op: &Op, form: Form) -> bool
    requires { Says place (operation op.now) form }
    ensures { IsTrue result ↔ IsCompletionBy event.now place (operation op.now) form }
{
    match (event, form) {
        (
            Event::Call {
                process,
                node: _,
                request,
                draw: _,
                reply,
            },
            Form::Completes {
                process: completer,
                request: given,
                event: _,
            },
        ) => *process == completer && *request == given && has_reply(op, given, reply),
        (
            Event::Step { step: _, answer },
            Form::Ends {
                entry,
                event: number,
            },
        ) => has_answer(op, place, entry, number, *answer),
        _ => false,
    }
}
