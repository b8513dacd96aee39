//! The calls of a history. `specs/Lanes.antt` has the rule.

ghost use Rattle.std.specs.Prelude.{◌≡◌, [], ◌++◌, unwrap_or, IfOk, OnOk};
ghost use Rattle.std.specs.BTreeMap.{get};
ghost use Rattle.std.specs.Ordering.{nat_cmp};
ghost use Rattle.jh_ops.specs.Operation.{operations};
ghost use Rattle.jh_ops.specs.Pairing.{is_invoke};
ghost use Rattle.jh_timeline.specs.Lanes as rule;
ghost use Rattle.jh_timeline.specs.LanesInside as inside;
ghost use Rattle.jh_timeline.specs.LanesInside.{answers_behind, invoking_with, new_calls};

use crate::picture::Call;
use jh_ops::{Kind, Op, Process};
use std::alloc::{AllocError, Global};
use std::collections::BTreeMap;

/// What comes behind a record in its process: whether the next record completes it, and where the
/// last one stands.
#[derive(Clone, Copy, Debug)]
struct Ahead {
    /// The index of the next record of the process, if that is a completion.
    completion: Option<usize>,
    /// The index of the last record of the process.
    last: usize,
}

/// Whether a record is an invocation.
fn is_invocation(kind: Kind) -> bool
    ensures { result ≡ is_invoke kind }
{
    matches!(kind, Kind::Invoke)
}

/// Whether the next record of a process answers an invocation. `invoking` has of each client whether
/// its last record is an invocation.
fn is_answering(invoking: &BTreeMap<u64, bool>, process: Process) -> bool
    ensures { result ≡ invoking_with invoking.now process }
{
    match process {
        Process::Client(client) => invoking.get(&client).copied().unwrap_or(false),
        Process::Nemesis => false,
    }
}

/// Of each record whether it answers an invocation.
fn answers_in(alloc: Global, history: &[Op]) -> Result<Vec<bool>, AllocError>
    ensures { IfOk result
        (λ answers. answers.items ≡ answers_behind [] (operations history.now)) }
{
    let mut invoking = BTreeMap::new(alloc);
    let mut answers = Vec::new(alloc);
    for op in history {
        answers.push(is_answering(&invoking, op.process))?;
        if let Process::Client(client) = op.process {
            invoking.insert(client, is_invocation(op.kind))?;
        }
    }
    Ok(answers)
}

/// The index of the last record of a process, from the one at an index on.
fn last_with(index: usize, behind: Option<Ahead>) -> usize
    ensures { result ≡ inside.last_with index behind }
{
    behind.map_or(index, |ahead| ahead.last)
}

/// What comes behind a record of a process whose next record has this kind and this index; `behind` is what
/// comes behind that next record.
fn ahead_with(kind: Kind, index: usize, behind: Option<Ahead>) -> Ahead
    ensures { result ≡ inside.ahead_with kind index behind }
{
    let completion = match kind {
        Kind::Invoke => None,
        _ => Some(index),
    };
    let last = last_with(index, behind);
    Ahead { completion, last }
}

/// The call that a record begins.
fn call_with(kind: Kind, client: u64, index: usize, behind: Option<Ahead>) -> Call
    ensures { result ≡ inside.call_with kind client index behind }
{
    let completion = match kind {
        Kind::Invoke => behind.and_then(|ahead| ahead.completion),
        _ => Some(index),
    };
    let last = last_with(index, behind);
    Call {
        client,
        first: index,
        completion,
        last,
    }
}

/// Adds the call of a record, if it begins one: an invocation does, and so does a completion that
/// answers none.
fn add_call(
    kind: Kind,
    answers: bool,
    client: u64,
    index: usize,
    behind: Option<Ahead>,
    calls: &mut Vec<Call>,
) -> Result<(), AllocError>
    ensures { OnOk result
        (calls.new.items ≡ calls.old.items ++ new_calls kind answers client index behind) }
{
    if is_invocation(kind) || !answers {
        calls.push(call_with(kind, client, index, behind))?;
    }
    Ok(())
}

/// What the clients of a history did, in order: a call for each invocation, with its completion, if
/// the client's next record is one, and a call for each completion that answers no invocation. Takes
/// O(n log n) for n records.
///
/// Errors: where memory runs out.
pub fn calls_of(alloc: Global, history: &[Op]) -> Result<Vec<Call>, AllocError>
    ensures calls { IfOk result (λ calls. calls.items ≡ rule.calls_of (operations history.now)) }
{
    let answers = answers_in(alloc, history)?;
    let mut ahead = BTreeMap::new(alloc);
    let mut calls = Vec::new(alloc);
    let mut index = history.len();
    while index > 0 {
        index -= 1;
        let op = &history[index];
        if let Process::Client(client) = op.process {
            let behind = ahead.get(&client).copied();
            add_call(op.kind, answers[index], client, index, behind, &mut calls)?;
            ahead.insert(client, ahead_with(op.kind, index, behind))?;
        }
    }
    calls.reverse();
    Ok(calls)
}
