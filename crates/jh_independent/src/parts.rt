//! The history of one key, and what its checker finds. `specs/Keys.antt` says what is left of an
//! operation, `specs/Refusals.antt` how an error is reported.

ghost use Rattle.std.specs.Prelude.{◌≡◌, ◌<◌, All, IfOk, IsErrOf, MatchResult, length, map};
ghost use Rattle.std.specs.Prelude.{slice_index_or};
ghost use Rattle.jh_edn.specs.View.{view};
ghost use Rattle.jh_ops.specs.Operation.{operation, operations};
ghost use Rattle.jh_independent.specs.Keys as rule;
ghost use Rattle.jh_independent.specs.Keys.{places_of};
ghost use Rattle.jh_independent.specs.PartsInside.{operation_at, keys_error_of};
ghost use Rattle.jh_independent.specs.Refusals as given;
ghost use Rattle.jh_independent.specs.Refusals.{IsFindingOf, RefusesKey, keys_question};

use crate::error::KeysError;
use crate::split::{KeyPlaces, tuple_of};
use jh_check::CheckError;
use jh_checkers::{Finding, Judging, check_history};
use jh_edn::Value;
use jh_ops::{Op, PairError};
use std::alloc::{AllocError, Global};

/// The value behind the key.
fn value_of(alloc: Global, value: &Value) -> Result<Value, AllocError>
    ensures { IfOk result (λ copy. view copy ≡ rule.value_of (view value.now)) }
{
    match tuple_of(value) {
        Some((_, value)) => value.copy(alloc),
        None => Ok(Value::Nil),
    }
}

/// A copy of an operation without its key.
fn without_key(alloc: Global, op: &Op) -> Result<Op, AllocError>
    ensures { IfOk result (λ copy. operation copy ≡ rule.operation_without_key (operation op.now)) }
{
    let value = value_of(alloc, &op.value)?;
    op.with_value(alloc, value)
}

/// What stands at these places of a history, without the keys.
fn part_of(alloc: Global, history: &[Op], places: &[usize]) -> Result<Vec<Op>, AllocError>
    requires { All (λ place. place < length history.now) places.now }
    ensures { IfOk result (λ part. operations part.items
        ≡ map (λ place. rule.operation_without_key (operation_at (operations history.now) place))
        places.now) }
{
    let mut part = Vec::with_capacity(alloc, places.len())?;
    for place in places {
        part.push(without_key(alloc, &history[*place])?)?;
    }
    Ok(part)
}

/// The history of one key.
pub(crate) fn history_of(
    alloc: Global,
    history: &[Op],
    group: &KeyPlaces,
) -> Result<Vec<Op>, AllocError>
    requires { group.now.places.items ≡ places_of (view group.now.key) (operations history.now) }
    ensures { IfOk result (λ part. operations part.items
        ≡ rule.history_of (view group.now.key) (operations history.now)) }
{
    part_of(alloc, history, &group.places)
}

/// The place in the whole history of a place in that of a key; past the end, 0.
fn place_in(places: &[usize], place: usize) -> usize
    ensures { result ≡ slice_index_or places.now place 0 }
{
    places.get(place).copied().unwrap_or(0)
}

/// An error of the pairs of a key's history, at its place in the whole one.
fn pairing_in(places: &[usize], error: PairError) -> PairError
    ensures { result ≡ given.pairing_in places.now error }
{
    match error {
        PairError::AfterCrash(place) => PairError::AfterCrash(place_in(places, place)),
        PairError::DoubleInvoke(place) => PairError::DoubleInvoke(place_in(places, place)),
        PairError::NoInvoke(place) => PairError::NoInvoke(place_in(places, place)),
        PairError::OutOfMemory => PairError::OutOfMemory,
    }
}

/// An error of a key's history, reported at its place in the whole one.
fn error_in(places: &[usize], error: CheckError) -> KeysError
    ensures { result ≡ keys_error_of places.now error }
{
    match error {
        CheckError::Pair(pairing) => KeysError::Key(CheckError::Pair(pairing_in(places, pairing))),
        CheckError::BadValue(place) => {
            KeysError::Key(CheckError::BadValue(place_in(places, place)))
        }
        CheckError::NegativeAdd(place) => {
            KeysError::Key(CheckError::NegativeAdd(place_in(places, place)))
        }
        CheckError::RepeatedAppend(place) => {
            KeysError::Key(CheckError::RepeatedAppend(place_in(places, place)))
        }
        CheckError::OutOfMemory => KeysError::OutOfMemory,
    }
}

/// Judges the history of one key.
pub(crate) fn check_key(
    alloc: Global,
    history: &[Op],
    judging: Judging<'_>,
    group: &KeyPlaces,
) -> Result<Finding, KeysError>
    requires { group.now.places.items ≡ places_of (view group.now.key) (operations history.now) }
    ensures judged { MatchResult result
        (IsFindingOf (keys_question judging.entry (operations history.now)) (view group.now.key))
        (RefusesKey (keys_question judging.entry (operations history.now)) (view group.now.key)) }
    ensures alone { IsErrOf result KeysError.Thread → ⊥ }
{
    let part = history_of(alloc, history, group)?;
    match check_history(alloc, &part, judging) {
        Ok(found) => Ok(found),
        Err(error) => Err(error_in(&group.places, error)),
    }
}
