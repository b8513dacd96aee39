//! The parts of an operation of a run. `specs/DecodeInside.antt` says what is found of each; a new
//! request is a case here and there, and of `specs/Forms.antt`.

ghost use Rattle.std.specs.Prelude.{◌≡◌, ◌<◌, ◌^◌, IfSome};
ghost use Rattle.jh_edn.specs.View.{view, view_pairs, views};
ghost use Rattle.jh_audit.specs.DecodeInside as rule;
ghost use Rattle.jh_audit.specs.Forms as form;

use jh_edn::Value;
use jh_ops::{Kind, Request, are_integers};

/// The text of a keyword, and none of another value.
pub(crate) fn name_in(value: &Value) -> &str
    ensures { result.now ≡ rule.name_in (view value.now) }
{
    match value {
        Value::Keyword(name) => name.as_str(),
        _ => "",
    }
}

/// The two integers that are all of some values.
fn pair_among(values: &[Value]) -> Option<(i64, i64)>
    ensures { result ≡ rule.pair_among (views values.now) }
{
    match values {
        [Value::Int(one), Value::Int(other)] => Some((*one, *other)),
        _ => None,
    }
}

/// The two integers that a vector holds.
pub(crate) fn pair_in(value: &Value) -> Option<(i64, i64)>
    ensures { result ≡ rule.pair_in (view value.now) }
{
    match value {
        Value::Vector(items) => pair_among(items.as_slice()),
        _ => None,
    }
}

/// Whether it is what a read may get.
fn is_read_value(value: &Value) -> bool
    ensures { result ≡ rule.is_read_value (view value.now) }
{
    match value {
        Value::Nil | Value::Int(_) => true,
        Value::Vector(items) => are_integers(items.as_slice()),
        _ => false,
    }
}

/// Whether it is nil or an integer, what a new id may be.
fn is_one(value: &Value) -> bool
    ensures { result ≡ rule.is_one (view value.now) }
{
    matches!(value, Value::Nil | Value::Int(_))
}

/// The request that is asked by this name with this value.
pub(crate) fn request_asked(name: &str, value: &Value) -> Option<Request>
    ensures { result ≡ rule.request_asked name.now (view value.now) }
{
    match name {
        "read" => value.is_nil().then_some(Request::Read),
        "write" => Some(Request::Write(value.as_integer()?)),
        "cas" => {
            let (old, new) = pair_in(value)?;
            Some(Request::Cas(old, new))
        }
        "add" => Some(Request::Add(value.as_integer()?)),
        "generate" => value.is_nil().then_some(Request::Generate),
        "txn" => value.is_nil().then_some(Request::Txn),
        _ => None,
    }
}

/// The request of this name that was done, where its completion may have this value.
fn request_done(name: &str, value: &Value) -> Option<Request>
    ensures { result ≡ rule.request_done name.now (view value.now) }
{
    match name {
        "read" => is_read_value(value).then_some(Request::Read),
        "generate" => is_one(value).then_some(Request::Generate),
        _ => request_asked(name, value),
    }
}

/// The request of a client's completion.
pub(crate) fn completed_request(kind: Kind, name: &str, value: &Value) -> Option<Request>
    ensures { result ≡ rule.completed_request kind name.now (view value.now) }
{
    match kind {
        Kind::Invoke => None,
        Kind::Ok => request_done(name, value),
        Kind::Fail | Kind::Info => request_asked(name, value),
    }
}

/// The number that an integer is, where it is not negative.
fn natural_in(integer: i64) -> Option<u64>
    ensures { result ≡ rule.natural_in integer }
{
    u64::try_from(integer).ok()
}

/// The entry of the schedule that begins.
pub(crate) fn begun_entry(value: &Value) -> Option<u64>
    ensures { result ≡ rule.begun_entry (view value.now) }
{
    natural_in(value.as_integer()?)
}

/// How many codes of answers to steps there are: from 0 on, as `StepAnswer::code` of `jh_nemesis` gives them.
const ANSWER_CODES: i64 = 8;

/// Whether it is the code of an answer to a step.
fn is_code(integer: i64) -> bool
    ensures { result ≡ rule.is_code integer }
{
    0 <= integer && integer < ANSWER_CODES
}

/// The entry of the schedule that has ended, with the code of an answer.
pub(crate) fn ended_entry_in(value: &Value) -> Option<u64>
    ensures { result ≡ rule.ended_entry_in (view value.now) }
{
    let (entry, code) = pair_in(value)?;
    if !is_code(code) {
        return None;
    }
    natural_in(entry)
}

/// The event that is named by these keys of an operation, which are `:event` alone.
pub(crate) fn named_event(rest: &[(Value, Value)]) -> Option<u64>
    ensures named { result ≡ form.named_event (view_pairs rest.now) }
    ensures small { IfSome result (λ number. number < 2 ^ 63) }
{
    match rest {
        [(Value::Keyword(name), Value::Int(number))] if name.as_str() == "event" => {
            u64::try_from(*number).ok()
        }
        _ => None,
    }
}

/// The event that these keys name, where they are `:event` alone or none at all.
pub(crate) fn event_by(rest: &[(Value, Value)]) -> Option<Option<u64>>
    ensures { result ≡ rule.event_by (view_pairs rest.now) }
{
    if rest.is_empty() {
        return Some(None);
    }
    Some(Some(named_event(rest)?))
}
