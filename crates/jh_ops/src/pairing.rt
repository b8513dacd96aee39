//! Invocations paired with their completions, in one pass.
//!
//! `specs/Pairing.antt` says which histories are well formed, which pairs they have and why others
//! are refused, each process by itself over the whole history. `specs/StageInside.antt` says what is kept
//! of a process on the way.

ghost use Rattle.std.specs.Prelude.{◌≡◌, ◌<◌, length, All, IfOk, IsOkUnless, MatchResult, OnOk};
ghost use Rattle.std.specs.Option.{ForSome};
ghost use Rattle.jh_ops.specs.Operation.{operations};
ghost use Rattle.jh_ops.specs.Pairing.{IsWellFormed, IsPairWithin, RefusesPairing, history_pairs};
ghost use Rattle.jh_ops.specs.StageInside.{pair_awaited, pairs_after, stage_after};
ghost use Rattle.jh_ops.specs.declared.pairs.PairError.TheVariants.{OutOfMemory};

use crate::operation::{Kind, Op, Process};
use crate::pairs::{Pair, PairError};
use std::alloc::{AllocError, Global};
use std::collections::BTreeMap;

/// How far a process has come.
#[derive(Clone, Copy, Debug)]
enum Stage {
    /// It has no operation outstanding.
    Idle,
    /// It has one outstanding, which is the invocation of the pair at this place.
    Waiting(usize),
    /// Its last operation was an `:info`.
    Crashed,
}

/// The stage after an operation at a place, where a new pair would stand at `opened`.
fn next_stage(stage: Stage, kind: Kind, place: usize, opened: usize) -> Result<Stage, PairError>
    ensures { result ≡ stage_after stage kind place opened }
{
    match (stage, kind) {
        (Stage::Crashed, _) => Err(PairError::AfterCrash(place)),
        (Stage::Idle, Kind::Invoke) => Ok(Stage::Waiting(opened)),
        (Stage::Idle, _) => Err(PairError::NoInvoke(place)),
        (Stage::Waiting(_), Kind::Invoke) => Err(PairError::DoubleInvoke(place)),
        (Stage::Waiting(_), Kind::Info) => Ok(Stage::Crashed),
        (Stage::Waiting(_), _) => Ok(Stage::Idle),
    }
}

/// Closes the pair that waits for the operation at a place, or opens one.
fn record_pair(pairs: &mut Vec<Pair>, stage: Stage, place: usize) -> Result<(), AllocError>
    requires { ForSome (pair_awaited stage) (λ at. at < length pairs.old.items) }
    ensures { OnOk result (pairs.new.items ≡ pairs_after stage place pairs.old.items) }
{
    match stage {
        Stage::Waiting(at) => pairs[at].outcome = Some(place),
        _ => pairs.push(Pair {
            invoke: place,
            outcome: None,
        })?,
    }
    Ok(())
}

/// The pairs of a history's client operations, in order of invocation, by their places in the
/// whole history. What the nemesis did is skipped wherever it stands.
///
/// Errors: that of the first operation in error, and of one in error in several ways `AfterCrash`
/// before `DoubleInvoke` before `NoInvoke`; `OutOfMemory` at an operation where none up to it is
/// in error.
///
/// Takes one pass, O(n log n) for n operations, whatever the number of processes.
pub fn pair(alloc: Global, history: &[Op]) -> Result<Vec<Pair>, PairError>
    ensures judged { MatchResult result
        (λ pairs. IsWellFormed (operations history.now)
        × (pairs.items ≡ history_pairs (operations history.now)))
        (RefusesPairing (operations history.now)) }
    ensures accepts { IsWellFormed (operations history.now) → IsOkUnless result OutOfMemory }
    ensures within { IfOk result (λ pairs. All (IsPairWithin (length history.now)) pairs.items) }
{
    let mut stages = BTreeMap::new(alloc);
    let mut pairs = Vec::new(alloc);
    for (place, op) in history.iter().enumerate() {
        let Process::Client(client) = op.process else {
            continue;
        };
        let stage = stages.get(&client).copied().unwrap_or(Stage::Idle);
        let next = next_stage(stage, op.kind, place, pairs.len())?;
        record_pair(&mut pairs, stage, place)?;
        stages.insert(client, next)?;
    }
    Ok(pairs)
}
