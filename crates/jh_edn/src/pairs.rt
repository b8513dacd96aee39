//! A map's elements as pairs, and whether two keys are equal.
//!
//! Keys whose fingerprints differ are not equal. Only where two fingerprints agree are the keys
//! compared.

ghost use Rattle.std.specs.Prelude.{◌≡◌, IfOk, map};
ghost use Rattle.std.specs.Bool.{MatchBool};
ghost use Rattle.std.specs.List.Sorted.{IsStrictlyIncreasing};
ghost use Rattle.jh_edn.specs.Fingerprint.{StandOnce, fingerprint, fingerprints};
ghost use Rattle.jh_edn.specs.Key as rule;
ghost use Rattle.jh_edn.specs.Key.{keys_in};
ghost use Rattle.jh_edn.specs.Reading as reading;
ghost use Rattle.jh_edn.specs.Reading.{pairs_of};
ghost use Rattle.jh_edn.specs.View.{views};

use crate::fingerprint::fingerprint;
use crate::key::{Part, item_keys, push_key};
use crate::value::{Pairs, Value, Values};
use smallvec::SmallVec;
use std::alloc::{AllocError, Global};
use std::collections::BTreeSet;

/// Fingerprints. Those of a map of up to 16 keys take no memory.
type Fingerprints = SmallVec<u64, 16>;

/// The elements two by two, or `None` where one is left over.
pub(crate) fn make_pairs(alloc: Global, items: Vec<Value>) -> Result<Option<Pairs>, AllocError>
    ensures { IfOk result (λ o. o ≡ pairs_of (views items.items)) }
{
    let mut pairs = Vec::with_capacity(alloc, items.len() / 2)?;
    let mut rest = items.into_iter();
    while let Some(key) = rest.next() {
        let Some(value) = rest.next() else {
            return Ok(None);
        };
        pairs.push((key, value))?;
    }
    Ok(Some(Pairs::of(pairs)))
}

/// Whether one of the keys stands twice. Looks each up in a tree of those before it.
fn has_twice(alloc: Global, keys: &[Vec<Part<'_>>]) -> Result<bool, AllocError>
    ensures { IfOk result (λ b. b ≡ rule.has_twice (keys_in keys.now)) }
{
    let mut seen = BTreeSet::new(alloc);
    for key in keys {
        if !seen.insert(key.as_slice())? {
            return Ok(true);
        }
    }
    Ok(false)
}

/// Whether each number is above the one before it.
fn ascend(numbers: &[u64]) -> bool
    ensures { MatchBool result (IsStrictlyIncreasing numbers.now)
        (IsStrictlyIncreasing numbers.now → ⊥) }
{
    let mut at = 1;
    while at < numbers.len() {
        if numbers[at] <= numbers[at - 1] {
            return false;
        }
        at += 1;
    }
    true
}

/// Whether no number stands twice. Sorts the numbers.
fn each_once(numbers: &mut [u64]) -> bool
    ensures { MatchBool result (StandOnce numbers.old) (StandOnce numbers.old → ⊥) }
{
    numbers.sort_unstable();
    ascend(numbers)
}

/// The fingerprint of each key.
fn key_fingerprints(alloc: Global, pairs: &Pairs) -> Result<Fingerprints, AllocError>
    ensures { IfOk result (λ ns. ns.items ≡ map (λ m. fingerprint m.0) pairs.now) }
{
    let mut numbers = SmallVec::with_capacity(alloc, pairs.items.len())?;
    for pair in &pairs.items {
        numbers.push(fingerprint(&pair.0))?;
    }
    Ok(numbers)
}

/// The fingerprint of each element.
fn item_fingerprints(alloc: Global, items: &Values) -> Result<Fingerprints, AllocError>
    ensures { IfOk result (λ ns. ns.items ≡ fingerprints items.now) }
{
    let mut numbers = SmallVec::with_capacity(alloc, items.items.len())?;
    for item in &items.items {
        numbers.push(fingerprint(item))?;
    }
    Ok(numbers)
}

/// The key of each pair's key.
fn map_keys(alloc: Global, pairs: &Pairs) -> Result<Vec<Vec<Part<'_>>>, AllocError>
    ensures { IfOk result (λ keys. keys_in keys.items ≡ map (λ m. rule.key_of m.0) pairs.now) }
{
    let mut keys = Vec::new(alloc);
    for pair in &pairs.items {
        let mut key = Vec::new(alloc);
        push_key(alloc, &pair.0, &mut key)?;
        keys.push(key)?;
    }
    Ok(keys)
}

/// Whether two keys of the map are equal. Takes n log n comparisons in a map of n pairs: of
/// fingerprints, and of the keys of `key.rt` only where two of these agree.
#[tactic(auto, unfolding(crate::specs::Reading::repeats_key))]
pub(crate) fn repeats_key(alloc: Global, pairs: &Pairs) -> Result<bool, AllocError>
    ensures { IfOk result (λ b. b ≡ reading.repeats_key pairs.now) }
{
    let mut numbers = key_fingerprints(alloc, pairs)?;
    if each_once(numbers.as_mut_slice()) {
        return Ok(false);
    }
    has_twice(alloc, &map_keys(alloc, pairs)?)
}

/// Whether two elements of the set are equal. Takes n log n comparisons in a set of n elements: of
/// fingerprints, and of the keys of `key.rt` only where two of these agree.
#[tactic(auto, unfolding(crate::specs::Reading::repeats_element))]
pub(crate) fn repeats_element(alloc: Global, items: &Values) -> Result<bool, AllocError>
    ensures { IfOk result (λ b. b ≡ reading.repeats_element items.now) }
{
    let mut numbers = item_fingerprints(alloc, items)?;
    if each_once(numbers.as_mut_slice()) {
        return Ok(false);
    }
    has_twice(alloc, &item_keys(alloc, items)?)
}
