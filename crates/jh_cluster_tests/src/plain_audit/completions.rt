//! Whether a line is the completion of an event: it has what is printed of the event.
//!
//! None is answered where memory was refused.

use crate::plain_audit::forms::pair_in;
use crate::plain_audit::lines::Line;
use jh_nemesis::StepAnswer;
use jh_ops::Request;
use jh_simnode::{Event, Got, Reply};
use std::alloc::Global;

/// The name of a request, and the value that it asks with.
fn asked(alloc: Global, request: Request) -> Option<(&'static str, String)> {
    match request {
        Request::Read => Some(("read", String::from_str(alloc, "nil").ok()?)),
        Request::Generate => Some(("generate", String::from_str(alloc, "nil").ok()?)),
        Request::Txn => Some(("txn", String::from_str(alloc, "nil").ok()?)),
        Request::Write(value) => Some(("write", format!(in alloc; "{value}").ok()?)),
        Request::Add(value) => Some(("add", format!(in alloc; "{value}").ok()?)),
        Request::Cas(old, new) => Some(("cas", format!(in alloc; "[{old} {new}]").ok()?)),
    }
}

/// The text of numbers between brackets.
fn vector(alloc: Global, numbers: &[i64]) -> Option<String> {
    let mut text = String::from_str(alloc, "[").ok()?;
    for number in numbers {
        if text.len() > 1 {
            text.push_str(" ").ok()?;
        }
        text.push_str(&format!(in alloc; "{number}").ok()?).ok()?;
    }
    text.push_str("]").ok()?;
    Some(text)
}

/// The value of what was got, where it is not the one that was asked with.
fn got(alloc: Global, reply: &Reply) -> Option<Option<String>> {
    match reply {
        Reply::Ok(Got::One(None)) => Some(Some(String::from_str(alloc, "nil").ok()?)),
        Reply::Ok(Got::One(Some(number))) => Some(Some(format!(in alloc; "{number}").ok()?)),
        Reply::Ok(Got::Many(numbers)) => Some(Some(vector(alloc, numbers.as_slice())?)),
        Reply::Ok(Got::Nothing) | Reply::Fail | Reply::Info => Some(None),
    }
}

/// The type of a completion with this reply, as it is printed.
fn completion_kind(reply: &Reply) -> &'static str {
    match reply {
        Reply::Ok(_) => "ok",
        Reply::Fail => "fail",
        Reply::Info => "info",
    }
}

/// Whether a completion is that of a call of this process, with this request and reply.
fn is_given_by_call(
    alloc: Global,
    process: u64,
    request: Request,
    reply: &Reply,
    line: &Line<'_>,
) -> Option<bool> {
    let (f, value) = asked(alloc, request)?;
    let value = got(alloc, reply)?.unwrap_or(value);
    let is_same = line.f == f
        && line.value == value.as_str()
        && line.kind == completion_kind(reply);
    Some(is_same && line.process.parse::<u64>() == Ok(process))
}

/// The code by which an answer to a step is recorded, as it is printed.
fn code_of(answer: StepAnswer) -> &'static str {
    match answer {
        StepAnswer::Ok => "0",
        StepAnswer::IdTaken => "1",
        StepAnswer::TooManyActive => "2",
        StepAnswer::TooManySteps => "3",
        StepAnswer::NotActive => "4",
        StepAnswer::NothingActive => "5",
        StepAnswer::NothingToUndo => "6",
        StepAnswer::NothingToRedo => "7",
    }
}

/// Whether a completion is that of the event.
pub(crate) fn is_completed(alloc: Global, event: &Event, line: &Line<'_>) -> Option<bool> {
    match event {
        Event::Call {
            process,
            request,
            reply,
            ..
        } => is_given_by_call(alloc, *process, *request, reply, line),
        Event::Step { answer, .. } => Some(
            line.is_nemesis()
                && pair_in(line.value).is_some_and(|(_, code)| code == code_of(*answer)),
        ),
        Event::Tick => Some(false),
    }
}
