//! The set checker. `specs/SetResults.antt` has the rule.

ghost use Rattle.std.specs.Prelude.{◌≡◌, IfOk, MatchResult, map, option_map};
ghost use Rattle.jh_edn.specs.Normal.{normal};
ghost use Rattle.jh_edn.specs.View.{view, views};
ghost use Rattle.jh_ops.specs.Operation.{operation, operations};
ghost use Rattle.jh_check.specs.Distinct.{set_of};
ghost use Rattle.jh_check.specs.SetResults as rule;
ghost use Rattle.jh_check.specs.SetResults.{IsJudgeable, RefusesSet, set_found, set_result};

use crate::asked::{sorted_normal, sorted_values};
use crate::distinct::{each_once, selected};
use crate::error::CheckError;
use crate::verdict::{Verdict, verdict_of};
use jh_edn::{Value, Values};
use jh_ops::{Kind, Op};
use std::alloc::{AllocError, Global};

/// What is found of the elements of a set, each time in normal form, in normal order and each once.
#[derive(Debug, Drop)]
pub struct SetFound {
    /// What the last read shows of what clients tried to add.
    pub ok: Values,
    /// What is known to have been added, and the last read does not show.
    pub lost: Values,
    /// What the last read shows, and no client tried to add.
    pub unexpected: Values,
    /// What is `ok`, and was not known to have been added.
    pub recovered: Values,
}

/// What the set checker says of a history.
#[derive(Debug, Drop)]
pub struct SetResult {
    /// `Unknown` where the set was never read, else `True` where nothing is lost or unexpected.
    pub verdict: Verdict,
    /// What is found, or nothing where the set was never read.
    pub found: Option<SetFound>,
}

/// The last read of a set that happened, with its place: the last operation that completes a client's
/// `:read` as `:ok`. By it `check_set` judges the set.
pub fn final_read(history: &[Op]) -> Option<(usize, &Op)>
    ensures { option_map (λ read. (read.0, operation read.1.now)) result
        ≡ rule.final_read (operations history.now) }
{
    let mut found = None;
    for (place, op) in history.iter().enumerate() {
        if op.is_asked(Kind::Ok, "read") {
            found = Some((place, op));
        }
    }
    found
}

/// The elements that a read shows: those of a set, a vector or a list. None: the value is none of these.
pub fn elements_shown(value: &Value) -> Option<&[Value]>
    ensures { option_map (λ items. views items.now) result ≡ rule.elements_shown (view value.now) }
{
    match value {
        Value::Set(items) => Some(items.as_slice()),
        _ => value.elements(),
    }
}

/// What is found where the last read shows these elements.
fn found_in(alloc: Global, history: &[Op], elements: &[Value]) -> Result<SetFound, AllocError>
    ensures { IfOk result (λ found. found
        ≡ set_found (operations history.now) (set_of (map normal (views elements.now)))) }
{
    let read = each_once(sorted_normal(alloc, elements)?);
    let attempted = sorted_values(alloc, Kind::Invoke, "add", history)?;
    let acknowledged = sorted_values(alloc, Kind::Ok, "add", history)?;
    let ok = selected(alloc, &read, &attempted, true)?;
    let unexpected = selected(alloc, &read, &attempted, false)?;
    let recovered = selected(alloc, &ok, &acknowledged, false)?;
    let lost = selected(alloc, &each_once(acknowledged), &read, false)?;
    Ok(SetFound {
        ok: Values::of(ok),
        lost: Values::of(lost),
        unexpected: Values::of(unexpected),
        recovered: Values::of(recovered),
    })
}

/// Whether nothing is lost or unexpected.
fn is_whole(found: &SetFound) -> bool
    ensures { result ≡ rule.is_whole_set found.now }
{
    found.lost.is_empty() && found.unexpected.is_empty()
}

/// Judges the history of a set, whose clients `:add` an element each and at last `:read` all
/// elements (Jepsen's checker `set`).
///
/// Operations of the nemesis are left out. What clients tried to add are the values of invoked
/// adds, what they know to be added those of adds that are `:ok`. Where no read is `:ok` the
/// verdict is `Unknown`; else the last such read, a list, a vector or a set, decides, where an
/// element that it shows twice counts once. Operations are not paired.
///
/// Errors: `BadValue` with the place of the last such read, where it is none of these three; then
/// `OutOfMemory`, never where there is no such read.
///
/// Takes O(n log n) comparisons for n operations and elements read.
pub fn check_set(alloc: Global, history: &[Op]) -> Result<SetResult, CheckError>
    ensures { MatchResult result
        (λ found. IsJudgeable (operations history.now)
        × (found ≡ set_result (operations history.now)))
        (RefusesSet (operations history.now)) }
{
    let Some((place, read)) = final_read(history) else {
        return Ok(SetResult {
            verdict: Verdict::Unknown,
            found: None,
        });
    };
    let Some(elements) = elements_shown(&read.value) else {
        return Err(CheckError::BadValue(place));
    };
    let found = found_in(alloc, history, elements)?;
    Ok(SetResult {
        verdict: verdict_of(is_whole(&found)),
        found: Some(found),
    })
}
