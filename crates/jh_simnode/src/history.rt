//! The history of the journal of a run. `specs/Histories.antt` has the rule.

ghost use Rattle.std.specs.Prelude.{◌≡◌, ◌≤◌, ◌<◌, ◌+◌, ◌*◌, ◌^◌, ◌++◌, ◌∷◌, [], length, IfOk};
ghost use Rattle.std.specs.Prelude.{OnOk};
ghost use Rattle.jh_edn.specs.View.{view};
ghost use Rattle.jh_ops.specs.Operation.{operation, operations};
ghost use Rattle.jh_ops.specs.Words.{Several, content_value};
ghost use Rattle.jh_simnode.specs.Histories as rule;
ghost use Rattle.jh_simnode.specs.Limits.{max_events};
ghost use Rattle.jh_simnode.specs.Histories.{indexed_entry_completion};
ghost use Rattle.jh_ops.specs.Requests.{asked_content};
ghost use Rattle.jh_simnode.specs.Histories.{indexed_operation, indexed_entry_invocation};
ghost use Rattle.jh_simnode.specs.Histories.{indexed_completion, indexed_invocation, replied_content};
ghost use Rattle.jh_simnode.specs.Histories.{got_content};

use crate::events::Event;
use crate::replicas::{Got, Reply};
use jh_edn::Value;
use jh_nemesis::StepAnswer;
use jh_ops::{Kind, Op, Process, Request, event_pairs, vector_of};
use std::alloc::{AllocError, Global};

/// How a completion with this reply is recorded.
pub fn completion_kind(reply: &Reply) -> Kind
    ensures { result ≡ rule.completion_kind reply.now }
{
    match reply {
        Reply::Ok(_) => Kind::Ok,
        Reply::Fail => Kind::Fail,
        Reply::Info => Kind::Info,
    }
}

/// The value in the completion of a request that was done.
fn value_got(alloc: Global, request: Request, got: &Got) -> Result<Value, AllocError>
    ensures { IfOk result (λ value. view value ≡ content_value (got_content request got.now)) }
{
    match got {
        Got::Nothing => request.argument(alloc),
        Got::One(None) => Ok(Value::Nil),
        Got::One(Some(value)) => Ok(Value::Int(*value)),
        Got::Many(numbers) => vector_of(alloc, numbers.as_slice()),
    }
}

/// The value of the completion of a request with this reply.
fn value_replied(alloc: Global, request: Request, reply: &Reply) -> Result<Value, AllocError>
    ensures { IfOk result
        (λ value. view value ≡ content_value (replied_content request reply.now)) }
{
    match reply {
        Reply::Ok(got) => value_got(alloc, request, got),
        Reply::Fail | Reply::Info => request.argument(alloc),
    }
}

/// The operation in which a client's process asks, in no history yet.
pub fn invocation(alloc: Global, process: u64, request: Request) -> Result<Op, AllocError>
    ensures { IfOk result (λ op. operation op ≡ rule.invocation process request) }
{
    Ok(Op {
        kind: Kind::Invoke,
        f: Value::keyword(alloc, request.name())?,
        value: request.argument(alloc)?,
        process: Process::Client(process),
        time: None,
        index: None,
        rest: event_pairs(alloc, None)?,
    })
}

/// The completion of a request by a client's process, with this reply, by the event of this number,
/// in no history yet.
pub fn completion(
    alloc: Global,
    number: u64,
    process: u64,
    request: Request,
    reply: &Reply,
) -> Result<Op, AllocError>
    requires { number < 2 ^ 63 }
    ensures { IfOk result (λ op. operation op ≡ rule.completion number process request reply.now) }
{
    Ok(Op {
        kind: completion_kind(reply),
        f: Value::keyword(alloc, request.name())?,
        value: value_replied(alloc, request, reply)?,
        process: Process::Client(process),
        time: None,
        index: None,
        rest: event_pairs(alloc, Some(number))?,
    })
}

/// The operation of an entry of the schedule before the nemesis takes its step, in no history yet.
pub fn entry_invocation(alloc: Global, entry: u64) -> Result<Op, AllocError>
    requires { entry < 2 ^ 63 }
    ensures { IfOk result (λ op. operation op ≡ rule.entry_invocation entry) }
{
    Ok(Op {
        kind: Kind::Info,
        f: Value::keyword(alloc, "step")?,
        value: Value::Int(entry as i64),
        process: Process::Nemesis,
        time: None,
        index: None,
        rest: event_pairs(alloc, None)?,
    })
}

/// The operation of an entry of the schedule once its step was answered, by the event of this
/// number, in no history yet.
pub fn entry_completion(
    alloc: Global,
    number: u64,
    entry: u64,
    answer: StepAnswer,
) -> Result<Op, AllocError>
    requires number { number < 2 ^ 63 }
    requires entry { entry < 2 ^ 63 }
    ensures { IfOk result (λ op. operation op ≡ rule.entry_completion number entry answer) }
{
    Ok(Op {
        kind: Kind::Info,
        f: Value::keyword(alloc, "step")?,
        value: vector_of(alloc, &[entry as i64, answer.code()])?,
        process: Process::Nemesis,
        time: None,
        index: None,
        rest: event_pairs(alloc, Some(number))?,
    })
}

/// Adds an operation to a history, at its place.
pub fn push_indexed(history: &mut Vec<Op>, op: Op) -> Result<(), AllocError>
    requires { length history.old.items < 2 ^ 63 }
    ensures { OnOk result (operations history.new.items ≡ operations history.old.items
        ++ indexed_operation (length history.old.items) (operation op) ∷ []) }
{
    let index = Some(history.len() as i64);
    history.push(Op { index, ..op })?;
    Ok(())
}

/// The two operations of a call.
fn push_call(
    alloc: Global,
    history: &mut Vec<Op>,
    number: u64,
    process: u64,
    request: Request,
    reply: &Reply,
) -> Result<(), AllocError>
    requires { (length history.old.items ≤ 2 * max_events) × (number ≤ max_events) }
    ensures { OnOk result (operations history.new.items ≡ operations history.old.items
        ++ indexed_invocation (length history.old.items) process request
        ∷ indexed_completion (length history.old.items + 1) number process request reply.now ∷ []) }
{
    push_indexed(history, invocation(alloc, process, request)?)?;
    push_indexed(history, completion(alloc, number, process, request, reply)?)
}

/// The two operations of a step.
fn push_step(
    alloc: Global,
    history: &mut Vec<Op>,
    number: u64,
    entry: u64,
    answer: StepAnswer,
) -> Result<(), AllocError>
    requires { (length history.old.items ≤ 2 * max_events) × (number ≤ max_events)
        × (entry ≤ max_events) }
    ensures { OnOk result (operations history.new.items ≡ operations history.old.items
        ++ indexed_entry_invocation (length history.old.items) entry
        ∷ indexed_entry_completion (length history.old.items + 1) number entry answer ∷ []) }
{
    push_indexed(history, entry_invocation(alloc, entry)?)?;
    push_indexed(history, entry_completion(alloc, number, entry, answer)?)
}

/// The history of a journal: two operations for each call and each step, and none for a tick. Takes
/// time linear in what the journal holds.
pub(crate) fn journal_history(alloc: Global, journal: &[Event]) -> Result<Vec<Op>, AllocError>
    requires { length journal.now ≤ max_events }
    ensures { IfOk result (λ history. operations history.items ≡ rule.journal_history journal.now) }
{
    let mut history = Vec::new(alloc);
    let mut number = 0;
    let mut entry = 0;
    for event in journal {
        match event {
            Event::Call {
                process,
                node: _,
                request,
                draw: _,
                reply,
            } => push_call(alloc, &mut history, number, *process, *request, reply)?,
            Event::Step { step: _, answer } => {
                push_step(alloc, &mut history, number, entry, *answer)?;
                entry += 1;
            }
            Event::Tick => {}
        }
        number += 1;
    }
    Ok(history)
}
