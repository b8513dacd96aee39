//! Which operations add or show an element, and how often. `specs/Inside.antt` has the rule.

ghost use Rattle.std.specs.Prelude.{◌≡◌, ◌∷◌, [], ◌++◌, IfOk, OnOk, filter, map};
ghost use Rattle.std.specs.Ordering.{is_lt};
ghost use Rattle.jh_edn.specs.Normal.{normal};
ghost use Rattle.jh_edn.specs.Order.{in_order, is_below};
ghost use Rattle.jh_edn.specs.View.{view, views};
ghost use Rattle.jh_ops.specs.Operation.{operations};
ghost use Rattle.jh_check.specs.Distinct.{Ascends};
ghost use Rattle.jh_set_full.specs.Inside as inside;
ghost use Rattle.jh_set_full.specs.Inside.{counted_in, seen, seen_below, counted_by, sees, sightings_of};
ghost use Rattle.jh_set_full.specs.Inside.{AreByElement};

use crate::shown::{added, shown};
use jh_check::{is_same, sorted_normal};
use jh_edn::Value;
use jh_ops::{Op, Pair};
use std::alloc::{AllocError, Global};
use std::cmp::Ordering;

/// An element that an operation adds or shows.
#[derive(Drop)]
pub(crate) struct Sighting {
    /// The element in normal form.
    pub(crate) element: Value,
    pub(crate) pair: Pair,
    /// How often the operation shows it.
    pub(crate) times: usize,
}

/// What is looked for in operations.
#[derive(Clone, Copy)]
pub(crate) enum Side {
    /// What they add.
    Adds,
    /// What they show, where they are reads that happened.
    Reads,
}

/// What an operation adds or shows.
fn shown_in(side: Side, history: &[Op], pair: Pair) -> &[Value]
    ensures { map normal (views result.now) ≡ inside.shown_in side (operations history.now) pair }
{
    match side {
        Side::Adds => added(history, pair),
        Side::Reads => shown(history, pair),
    }
}

/// Puts a copy of the element last.
fn push_sighting(
    alloc: Global,
    pair: Pair,
    element: &Value,
    times: usize,
    found: &mut Vec<Sighting>,
) -> Result<(), AllocError>
    ensures { OnOk result (map seen found.new.items
        ≡ map seen found.old.items ++ counted_by pair (view element.now, times) ∷ []) }
{
    let element = element.copy(alloc)?;
    found.push(Sighting {
        element,
        pair,
        times,
    })?;
    Ok(())
}

/// Puts each of the elements of an operation last, once, where they ascend.
fn push_counted(
    alloc: Global,
    pair: Pair,
    elements: &[Value],
    found: &mut Vec<Sighting>,
) -> Result<(), AllocError>
    requires { Ascends (views elements.now) }
    ensures { OnOk result (map seen found.new.items
        ≡ map seen found.old.items ++ map (counted_by pair) (inside.counted_in_order (views elements.now))) }
{
    let Some((first, others)) = elements.split_first() else {
        return Ok(());
    };
    let mut element = first;
    let mut times = 1;
    for next in others {
        if is_same(element, next) {
            times += 1;
        } else {
            push_sighting(alloc, pair, element, times, found)?;
            element = next;
            times = 1;
        }
    }
    push_sighting(alloc, pair, element, times, found)?;
    Ok(())
}

/// Puts each of the elements of an operation last, once.
fn push_sightings(
    alloc: Global,
    pair: Pair,
    items: &[Value],
    found: &mut Vec<Sighting>,
) -> Result<(), AllocError>
    ensures { OnOk result (map seen found.new.items ≡ map seen found.old.items
        ++ map (counted_by pair) (counted_in (map normal (views items.now)))) }
{
    let elements = sorted_normal(alloc, items)?;
    push_counted(alloc, pair, &elements, found)?;
    Ok(())
}

/// How two sightings compare by their elements.
fn compare_elements(a: &Sighting, b: &Sighting) -> Ordering
    ensures { is_lt result ≡ is_below (view a.now.element) (view b.now.element) }
{
    a.element.compare(&b.element)
}

/// The sightings by their elements, in normal order, those of one element as they stood.
fn in_element_order(sightings: Vec<Sighting>) -> Result<Vec<Sighting>, AllocError>
    ensures order { IfOk result
        (λ sorted. map seen sorted.items ≡ in_order seen_below (map seen sightings.items)) }
    ensures ascends { IfOk result (λ sorted. AreByElement sorted.items) }
{
    let mut sightings = sightings;
    sightings.sort_by(compare_elements)?;
    Ok(sightings)
}

/// What the operations add or show, by elements in normal order, and of one element in the order of
/// the operations.
///
/// Takes O(n log n) comparisons for n operations and elements of reads.
pub(crate) fn sightings(
    alloc: Global,
    side: Side,
    history: &[Op],
    pairs: &[Pair],
) -> Result<Vec<Sighting>, AllocError>
    ensures order { IfOk result (λ found. map seen found.items
        ≡ in_order seen_below (sightings_of side (operations history.now) pairs.now)) }
    ensures ascends { IfOk result (λ found. AreByElement found.items) }
{
    let mut found = Vec::new(alloc);
    for pair in pairs {
        push_sightings(alloc, *pair, shown_in(side, history, *pair), &mut found)?;
    }
    in_element_order(found)
}

/// Those of one element.
///
/// Takes O(log n) comparisons for n sightings.
pub(crate) fn sightings_of<'a>(sightings: &'a [Sighting], element: &Value) -> &'a [Sighting]
    requires { AreByElement sightings.now }
    ensures { result.now ≡ filter (λ s. sees (view element.now) (seen s)) sightings.now }
{
    let begin = sightings.partition_point(|other| other.element.compare(element).is_lt());
    let end = sightings.partition_point(|other| other.element.compare(element).is_le());
    if begin <= end {
        &sightings[begin..end]
    } else {
        &[]
    }
}
