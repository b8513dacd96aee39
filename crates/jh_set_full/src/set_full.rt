//! The checker of sets over time. `specs/SetFull.antt` has the rule.

ghost use Rattle.std.specs.Prelude.{◌≡◌, ◌∷◌, [], ◌++◌, All, IfOk, MatchResult, OnOk, cond, filter, length};
ghost use Rattle.std.specs.Prelude.{map, reverse};
ghost use Rattle.jh_edn.specs.View.{view, views};
ghost use Rattle.jh_ops.specs.Operation.{operations};
ghost use Rattle.jh_ops.specs.Pairing.{IsPairWithin};
ghost use Rattle.jh_check.specs.Distinct.{set_of};
ghost use Rattle.jh_check.specs.Tallies.{view_tally};
ghost use Rattle.jh_check.specs.SetResults.{attempts};
ghost use Rattle.jh_set_full.specs.Inside as inside;
ghost use Rattle.jh_set_full.specs.Inside.{AreByElement, AreTables, is_spot_in, most_by};
ghost use Rattle.jh_set_full.specs.SetFull as rule;
ghost use Rattle.jh_set_full.specs.SetFull.{AreReadsKnown, RefusesSetFull, all_shown, from_latest};
ghost use Rattle.jh_set_full.specs.SetFull.{set_full_result};
ghost use Rattle.jh_set_full.specs.StaleView.{view_stales};

use crate::shown::{first_bad_read, shown};
use crate::spots::{Spot, State, Tables, most_shown, spot_of, tables_of};
use crate::stale::{Stale, Stales};
use jh_check::{
    CheckError, Counted, Tally, Verdict, each_once, in_normal_order, push_normal, push_repeated,
    sorted_values,
};
use jh_edn::{Value, Values};
use jh_ops::{Kind, Op, Pair, pair};
use std::alloc::{AllocError, Global};

/// What the checker of sets over time says of a history.
#[derive(Debug, Drop)]
pub struct SetFullResult {
    /// `False` where something is lost or duplicated, or where the set has to be linearizable and
    /// something is stale; else `Unknown` where nothing is stable, else `True`.
    pub verdict: Verdict,
    /// How many elements clients tried to add.
    pub attempted: usize,
    /// How many of them are stable.
    pub stable: usize,
    /// Those that are lost, in normal form and in normal order.
    pub lost: Values,
    /// Those that are neither stable nor lost, likewise.
    pub never_read: Values,
    /// Those that are stable and were stale, likewise.
    pub stale: Stales,
    /// What stands more than once in one read, with the greatest number of times, likewise.
    pub duplicated: Tally,
}

/// Puts a copy of the value last, where it is wanted.
fn push_wanted(
    alloc: Global,
    wanted: bool,
    value: &Value,
    found: &mut Vec<Value>,
) -> Result<(), AllocError>
    ensures { OnOk result (views found.new.items
        ≡ views found.old.items ++ cond wanted (view value.now ∷ []) []) }
{
    if wanted {
        found.push(value.copy(alloc)?)?;
    }
    Ok(())
}

/// Those of the elements that are so: stable, lost, never read or stale.
fn elements_in(
    alloc: Global,
    state: State,
    history: &[Op],
    tables: &Tables,
    elements: &[Value],
) -> Result<Vec<Value>, AllocError>
    requires tables { AreTables (operations history.now) tables.now }
    requires within { All (IsPairWithin (length tables.now.newest.items)) tables.now.pairs.items }
    ensures { IfOk result (λ found. views found.items ≡ filter
        (λ x. is_spot_in state (inside.spot_of (operations history.now) tables.now.pairs.items x))
        (views elements.now)) }
{
    let mut found = Vec::new(alloc);
    for element in elements {
        let wanted = spot_of(history, tables, element).is_in(state);
        push_wanted(alloc, wanted, element, &mut found)?;
    }
    Ok(found)
}

/// The time of the record at a place.
fn time_at(history: &[Op], place: Option<usize>) -> Option<i64>
    ensures { result ≡ rule.time_at (operations history.now) place }
{
    match place {
        Some(place) => match history.get(place) {
            Some(op) => op.time,
            None => None,
        },
        None => None,
    }
}

/// Whole milliseconds from one time in nanoseconds to another, 0 where that is earlier.
fn milliseconds_between(begin: Option<i64>, end: Option<i64>) -> Option<u64>
    ensures { result ≡ rule.milliseconds_between begin end }
{
    match (begin, end) {
        (Some(begin), Some(end)) => {
            if end < begin {
                Some(0)
            } else {
                Some(end.abs_diff(begin) / 1_000_000)
            }
        }
        _ => None,
    }
}

/// The milliseconds for which an element was stale.
fn staleness(history: &[Op], spot: Spot) -> Option<u64>
    ensures { result ≡ inside.spot_staleness (operations history.now) spot }
{
    milliseconds_between(time_at(history, spot.known), time_at(history, spot.missed))
}

/// Puts a copy of the element last.
fn push_stale(
    alloc: Global,
    element: &Value,
    milliseconds: Option<u64>,
    found: &mut Vec<Stale>,
) -> Result<(), AllocError>
    ensures { OnOk result (view_stales found.new.items
        ≡ view_stales found.old.items ++ (view element.now, milliseconds) ∷ []) }
{
    let element = element.copy(alloc)?;
    found.push(Stale {
        element,
        milliseconds,
    })?;
    Ok(())
}

/// The elements with the milliseconds for which each was stale.
fn with_staleness(
    alloc: Global,
    history: &[Op],
    tables: &Tables,
    elements: &[Value],
) -> Result<Vec<Stale>, AllocError>
    requires tables { AreTables (operations history.now) tables.now }
    requires within { All (IsPairWithin (length tables.now.newest.items)) tables.now.pairs.items }
    ensures { IfOk result (λ found. view_stales found.items
        ≡ map (inside.stale_by (operations history.now) tables.now.pairs.items) (views elements.now)) }
{
    let mut found = Vec::new(alloc);
    for element in elements {
        let milliseconds = staleness(history, spot_of(history, tables, element));
        push_stale(alloc, element, milliseconds, &mut found)?;
    }
    Ok(found)
}

/// The elements that reads show, each once.
fn elements_shown(alloc: Global, history: &[Op], pairs: &[Pair]) -> Result<Vec<Value>, AllocError>
    ensures { IfOk result (λ values. views values.items
        ≡ set_of (all_shown (operations history.now) pairs.now)) }
{
    let mut values = Vec::new(alloc);
    for pair in pairs {
        push_normal(alloc, shown(history, *pair), &mut values)?;
    }
    let values = in_normal_order(values)?;
    Ok(each_once(values))
}

/// Those of the elements that one read shows more than once.
fn repeated(alloc: Global, tables: &Tables, elements: &[Value]) -> Result<Vec<Counted>, AllocError>
    requires { AreByElement tables.now.shown.items }
    ensures { IfOk result (λ found. view_tally found.items
        ≡ inside.repeated_by (most_by tables.now) (views elements.now)) }
{
    let mut found = Vec::new(alloc);
    for element in elements {
        let times = most_shown(tables, element);
        push_repeated(alloc, element, times, &mut found)?;
    }
    Ok(found)
}

/// The verdict where so many elements are lost, duplicated, stale and stable.
fn verdict_of(
    linearizable: bool,
    lost: usize,
    duplicated: usize,
    stale: usize,
    stable: usize,
) -> Verdict
    ensures { result ≡ rule.set_full_verdict linearizable lost duplicated stale stable }
{
    if lost != 0 || duplicated != 0 || (linearizable && stale != 0) {
        Verdict::False
    } else if stable == 0 {
        Verdict::Unknown
    } else {
        Verdict::True
    }
}

/// The elements that clients tried to add, each once.
fn attempted(alloc: Global, history: &[Op]) -> Result<Vec<Value>, AllocError>
    ensures { IfOk result (λ values. views values.items
        ≡ set_of (attempts (operations history.now))) }
{
    let values = sorted_values(alloc, Kind::Invoke, "add", history)?;
    Ok(each_once(values))
}

/// What is found.
fn found_in(
    alloc: Global,
    linearizable: bool,
    history: &[Op],
    pairs: Vec<Pair>,
) -> Result<SetFullResult, AllocError>
    requires from_latest { pairs.items ≡ from_latest (operations history.now) }
    requires within { All (IsPairWithin (length history.now)) pairs.items }
    ensures { IfOk result
        (λ found. found ≡ set_full_result linearizable (operations history.now)) }
{
    let elements = attempted(alloc, history)?;
    let read = elements_shown(alloc, history, &pairs)?;
    let tables = tables_of(alloc, history, pairs)?;
    let stable = elements_in(alloc, State::Stable, history, &tables, &elements)?;
    let lost = elements_in(alloc, State::Lost, history, &tables, &elements)?;
    let never_read = elements_in(alloc, State::NeverRead, history, &tables, &elements)?;
    let outdated = elements_in(alloc, State::Stale, history, &tables, &elements)?;
    let stale = with_staleness(alloc, history, &tables, &outdated)?;
    let duplicated = repeated(alloc, &tables, &read)?;
    Ok(SetFullResult {
        verdict: verdict_of(
            linearizable,
            lost.len(),
            duplicated.len(),
            stale.len(),
            stable.len(),
        ),
        attempted: elements.len(),
        stable: stable.len(),
        lost: Values::of(lost),
        never_read: Values::of(never_read),
        stale: Stales::of(stale),
        duplicated: Tally::of(duplicated),
    })
}

/// The operations from the last one on.
fn reversed(pairs: Vec<Pair>) -> Vec<Pair>
    ensures { result.items ≡ reverse pairs.items }
{
    let mut pairs = pairs;
    pairs.reverse();
    pairs
}

/// Judges the history of a set over time, whose clients `:add` an element each and `:read` all
/// elements (Jepsen's checker `set-full`).
///
/// Operations of the nemesis are left out. Values are equal as EDN says. An element that is added
/// again begins anew; reads count that completed behind the invocation of its last add, and each is
/// at the place where it was invoked. An element is stable where the last read that has it is behind
/// the last that lacks it; lost where it was known, by its add or a read, before the last read that
/// lacks it, and no read behind that one has it; else never read. One that is stable was stale where
/// a read that lacks it was invoked when it was known.
///
/// Errors: `Pair` where the operations do not pair; then `BadValue` with the least place of an `:ok`
/// read whose value is neither list nor vector nor set; then `OutOfMemory`.
///
/// Takes O(n log n) comparisons for n operations and elements of reads.
pub fn check_set_full(
    alloc: Global,
    history: &[Op],
    linearizable: bool,
) -> Result<SetFullResult, CheckError>
    ensures { MatchResult result
        (λ found. AreReadsKnown (operations history.now)
        × (found ≡ set_full_result linearizable (operations history.now)))
        (RefusesSetFull (operations history.now)) }
{
    let pairs = pair(alloc, history)?;
    let pairs = reversed(pairs);
    if let Some(place) = first_bad_read(history, &pairs) {
        return Err(CheckError::BadValue(place));
    }
    let found = found_in(alloc, linearizable, history, pairs)?;
    Ok(found)
}
