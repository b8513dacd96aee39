//! The calls of a history, as they are plotted. `specs/Calls.antt` has the rule.

ghost use Rattle.std.specs.Prelude.{◌≡◌, IfOk, length, All};
ghost use Rattle.jh_ops.specs.Operation.{operations};
ghost use Rattle.jh_ops.specs.Pairing.{IsPairWithin, history_pairs};
ghost use Rattle.jh_plots.specs.Calls.{AreTimedCallsOf, functions};
ghost use Rattle.jh_plots.specs.CallsInside.{AreCallsWithin, IsCallWithin, IsTimedCall};
ghost use Rattle.jh_plots.specs.MomentsInside.{AreTimesOf};

use crate::moments::Times;
use jh_numbers::Numbers;
use jh_ops::{Kind, Op, Pair};
use std::alloc::{AllocError, Global};

/// A call, with its times in nanoseconds.
#[derive(Clone, Copy, Debug, PartialEq, Eq)]
pub(crate) struct TimedCall {
    /// The number of its function.
    pub(crate) function: usize,
    /// When it was asked for.
    pub(crate) asked: u64,
    /// When it ended, if it did.
    pub(crate) ended: Option<u64>,
    /// How it ended: `Ok`, `Fail` or `Info`.
    pub(crate) kind: Kind,
}

/// The calls of a history, and its functions.
#[derive(Drop)]
pub(crate) struct Calls {
    /// Each function, with its number.
    pub(crate) functions: Numbers,
    /// In the order of their invocations.
    pub(crate) calls: Vec<TimedCall>,
}

/// The call of a pair.
fn call_of(history: &[Op], times: &Times, pair: Pair, function: usize) -> TimedCall
    requires times { AreTimesOf (operations history.now) times.now }
    requires within { IsPairWithin (length history.now) pair }
    ensures call { IsTimedCall (operations history.now) pair function result }
    ensures within { IsCallWithin times.now.end result }
{
    let (ended, kind) = match pair.outcome {
        Some(place) => (Some(times.moments[place]), history[place].kind),
        None => (None, Kind::Info),
    };
    TimedCall {
        function,
        asked: times.moments[pair.invoke],
        ended,
        kind,
    }
}

/// The calls of pairs, and their functions.
pub(crate) fn calls_of(
    alloc: Global,
    history: &[Op],
    times: &Times,
    pairs: &[Pair],
) -> Result<Calls, AllocError>
    requires times { AreTimesOf (operations history.now) times.now }
    requires pairs { pairs.now ≡ history_pairs (operations history.now) }
    requires within { All (IsPairWithin (length history.now)) pairs.now }
    ensures functions { IfOk result
        (λ found. found.functions ≡ functions (operations history.now)) }
    ensures calls { IfOk result
        (λ found. AreTimedCallsOf (operations history.now) found.calls.items) }
    ensures within { IfOk result (λ found. AreCallsWithin times.now.end found.calls.items) }
{
    let mut functions = Numbers::new(alloc);
    let mut calls = Vec::new(alloc);
    for pair in pairs {
        let function = functions.number(alloc, 0, &history[pair.invoke].f)?;
        calls.push(call_of(history, times, *pair, function))?;
    }
    Ok(Calls { functions, calls })
}
