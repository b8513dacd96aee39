//! A history cut by key. `specs/Keys.antt` says which keys there are, and which places each has.

ghost use Rattle.std.specs.Prelude.{◌≡◌, ◌++◌, [], ◌∷◌, IfOk, OnOk, MatchOption, MatchResult};
ghost use Rattle.std.specs.Prelude.{option_map, filter_map};
ghost use Rattle.jh_edn.specs.Order.{edn_cmp, in_order};
ghost use Rattle.jh_edn.specs.View.{view};
ghost use Rattle.jh_ops.specs.Operation.{operation, operations};
ghost use Rattle.jh_check.specs.Distinct.{Ascends};
ghost use Rattle.jh_independent.specs.Histories.{RefusesKeySplit};
ghost use Rattle.jh_independent.specs.Keys as rule;
ghost use Rattle.jh_independent.specs.Keys.{AreTuples, IsFirstBad};
ghost use Rattle.jh_independent.specs.SplitInside.{groups_in, groups_of, is_keyed_below, keys_with_places};
ghost use Rattle.jh_independent.specs.SplitInside.{keys_of_keyed, view_group, view_groups, view_keyed};
ghost use Rattle.jh_independent.specs.SplitInside.{key_with_place};

use crate::error::KeysError;
use jh_check::is_same;
use jh_edn::Value;
use jh_ops::Op;
use std::alloc::{AllocError, Global};
use std::cmp::Ordering;
use std::mem::replace;

/// A key in normal form, with the places of its operations in the whole history.
#[derive(Drop)]
pub(crate) struct KeyPlaces {
    pub(crate) key: Value,
    pub(crate) places: Vec<usize>,
}

/// A key in normal form, with the place of one of its operations.
#[derive(Drop)]
struct Keyed {
    key: Value,
    place: usize,
}

/// The key and the value of a tuple.
pub(crate) fn tuple_of(value: &Value) -> Option<(&Value, &Value)>
    ensures { option_map (λ tuple. (view tuple.0.now, view tuple.1.now)) result
        ≡ rule.tuple_of (view value.now) }
{
    match value.elements()? {
        [key, value] => Some((key, value)),
        _ => None,
    }
}

/// Whether it is a client's operation whose value is no tuple.
fn is_bad(op: &Op) -> bool
    ensures { result ≡ rule.is_bad (operation op.now) }
{
    op.process.is_client() && tuple_of(&op.value).is_none()
}

/// The least place of a client's operation whose value is no tuple.
fn first_bad(history: &[Op]) -> Option<usize>
    ensures { MatchOption result (AreTuples (operations history.now))
        (IsFirstBad (operations history.now)) }
{
    for (place, op) in history.iter().enumerate() {
        if is_bad(op) {
            return Some(place);
        }
    }
    None
}

/// Puts the key of an operation last, where a client did it.
fn push_key(alloc: Global, place: usize, op: &Op, keyed: &mut Vec<Keyed>) -> Result<(), AllocError>
    ensures { OnOk result (view_keyed keyed.new.items
        ≡ view_keyed keyed.old.items
        ++ filter_map key_with_place ((place, operation op.now) ∷ [])) }
{
    if !op.process.is_client() {
        return Ok(());
    }
    if let Some((key, _)) = tuple_of(&op.value) {
        let key = key.normal(alloc)?;
        keyed.push(Keyed { key, place })?;
    }
    Ok(())
}

/// How two keys compare in normal order.
fn compare_keys(a: &Keyed, b: &Keyed) -> Ordering
    ensures { result ≡ edn_cmp (view a.now.key) (view b.now.key) }
{
    a.key.compare(&b.key)
}

/// What clients did, by key and then by place.
fn sorted_by_key(alloc: Global, history: &[Op]) -> Result<Vec<Keyed>, AllocError>
    ensures order { IfOk result
        (λ keyed. view_keyed keyed.items
        ≡ in_order is_keyed_below (keys_with_places (operations history.now))) }
    ensures ascends { IfOk result (λ keyed. Ascends (keys_of_keyed (view_keyed keyed.items))) }
{
    let mut keyed = Vec::new(alloc);
    for (place, op) in history.iter().enumerate() {
        push_key(alloc, place, op, &mut keyed)?;
    }
    keyed.sort_by(compare_keys)?;
    Ok(keyed)
}

/// A key with one place.
fn begun(alloc: Global, keyed: Keyed) -> Result<KeyPlaces, AllocError>
    ensures { IfOk result (λ group. view_group group ≡ (view keyed.key, keyed.place ∷ [])) }
{
    let mut places = Vec::new(alloc);
    places.push(keyed.place)?;
    Ok(KeyPlaces {
        key: keyed.key,
        places,
    })
}

/// What stands side by side with the same key, together.
fn grouped(alloc: Global, keyed: Vec<Keyed>) -> Result<Vec<KeyPlaces>, AllocError>
    requires { Ascends (keys_of_keyed (view_keyed keyed.items)) }
    ensures { IfOk result
        (λ groups. view_groups groups.items ≡ groups_in (view_keyed keyed.items)) }
{
    let mut groups = Vec::new(alloc);
    let mut others = keyed.into_iter();
    let Some(first) = others.next() else {
        return Ok(groups);
    };
    let mut group = begun(alloc, first)?;
    for next in others {
        if is_same(&group.key, &next.key) {
            group.places.push(next.place)?;
        } else {
            let done = replace(&mut group, begun(alloc, next)?);
            groups.push(done)?;
        }
    }
    groups.push(group)?;
    Ok(groups)
}

/// The keys of a history in normal order, each with its places.
///
/// Errors: `BadValue` with the least place of a client's operation whose value is no tuple, then
/// `OutOfMemory`.
///
/// Takes O(n log n) comparisons of keys for n operations, and copies each key once.
pub(crate) fn split(alloc: Global, history: &[Op]) -> Result<Vec<KeyPlaces>, KeysError>
    ensures { MatchResult result
        (λ groups. AreTuples (operations history.now)
        × (view_groups groups.items ≡ groups_of (operations history.now)))
        (RefusesKeySplit (operations history.now)) }
{
    if let Some(place) = first_bad(history) {
        return Err(KeysError::BadValue(place));
    }
    let keyed = sorted_by_key(alloc, history)?;
    Ok(grouped(alloc, keyed)?)
}
