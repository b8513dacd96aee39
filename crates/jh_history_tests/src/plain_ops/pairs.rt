//! Pairs found slowly: for each operation all others of its process are looked for.

use jh_ops::{Kind, Pair, PairError, Process};
use std::alloc::Global;

/// What an operation says of itself, and who did it.
pub type Step = (Kind, Process);

/// The kinds of the operations of a process before a place, in order.
fn kinds_before(
    alloc: Global,
    steps: &[Step],
    process: Process,
    place: usize,
) -> Result<Vec<Kind>, PairError> {
    let mut kinds = Vec::new(alloc);
    for (earlier, step) in steps.iter().enumerate() {
        if earlier < place && step.1 == process {
            kinds.push(step.0)?;
        }
    }
    Ok(kinds)
}

/// The place of the first operation of a process behind a place.
fn next_of(steps: &[Step], process: Process, place: usize) -> Option<usize> {
    for (later, step) in steps.iter().enumerate() {
        if later > place && step.1 == process {
            return Some(later);
        }
    }
    None
}

/// What is wrong with an operation of a client whose process did these before.
fn error_of(before: &[Kind], kind: Kind, place: usize) -> Option<PairError> {
    let is_waiting = before.last() == Some(&Kind::Invoke);
    if before.contains(&Kind::Info) {
        Some(PairError::AfterCrash(place))
    } else if kind == Kind::Invoke && is_waiting {
        Some(PairError::DoubleInvoke(place))
    } else if kind != Kind::Invoke && !is_waiting {
        Some(PairError::NoInvoke(place))
    } else {
        None
    }
}

/// The pairs of operations, of which kind and process are given.
pub fn pairs_slowly(alloc: Global, steps: &[Step]) -> Result<Vec<Pair>, PairError> {
    let mut pairs = Vec::new(alloc);
    for (place, (kind, process)) in steps.iter().enumerate() {
        if *process == Process::Nemesis {
            continue;
        }
        let before = kinds_before(alloc, steps, *process, place)?;
        if let Some(error) = error_of(&before, *kind, place) {
            return Err(error);
        }
        if *kind == Kind::Invoke {
            pairs.push(Pair {
                invoke: place,
                outcome: next_of(steps, *process, place),
            })?;
        }
    }
    Ok(pairs)
}
