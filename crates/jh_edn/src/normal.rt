//! The normal form of a value.
//!
//! `normal` of `specs/Normal.antt` is the form.

ghost use Rattle.std.specs.Prelude.{◌≡◌, IfOk};
ghost use Rattle.jh_edn.specs.Edn.{items_of, members_of};
ghost use Rattle.jh_edn.specs.Normal as normal;
ghost use Rattle.jh_edn.specs.Order.{edn_cmp};
ghost use Rattle.jh_edn.specs.View.{view, views, view_pairs};

use crate::value::{Pairs, Tagged, Value, Values};
use std::alloc::{AllocError, Global};
use std::cmp::Ordering;

/// Compares two pairs by their keys.
fn compare_keys(a: &(Value, Value), b: &(Value, Value)) -> Ordering
    ensures { result ≡ edn_cmp (view a.now.0) (view b.now.0) }
{
    a.0.compare(&b.0)
}

impl Value {
    /// The value in normal form: lists as vectors, the pairs of maps in the order of their keys and
    /// the elements of sets in their own, all from the inside out. Pairs with equal keys, which
    /// only a value made by hand can have, keep their order.
    ///
    /// Takes n log n comparisons for a map of n pairs or a set of n elements.
    ///
    /// Errors: where there is no memory for it.
    #[cycle(normal)]
    pub fn normal(&self, alloc: Global) -> Result<Value, AllocError>
        ensures { IfOk result (λ v. view v ≡ normal.normal (view self.now)) }
    {
        match self {
            Value::List(items) => Ok(Value::Vector(Values::of(normal_items(alloc, items)?))),
            Value::Vector(items) => Ok(Value::Vector(Values::of(normal_items(alloc, items)?))),
            Value::Map(pairs) => {
                let mut sorted = normal_pairs(alloc, pairs)?;
                sorted.sort_by(compare_keys)?;
                Ok(Value::Map(Pairs::of(sorted)))
            }
            Value::Set(items) => {
                let mut sorted = normal_items(alloc, items)?;
                sorted.sort_by(Value::compare)?;
                Ok(Value::Set(Values::of(sorted)))
            }
            Value::Tagged(tagged) => {
                let tag = tagged.inside.0.copy(alloc)?;
                let element = tagged.inside.1.normal(alloc)?;
                Ok(Value::Tagged(Tagged::of(alloc, tag, element)?))
            }
            _ => self.copy(alloc),
        }
    }
}

/// Each element in normal form.
#[cycle(normal)]
fn normal_items(alloc: Global, items: &Values) -> Result<Vec<Value>, AllocError>
    ensures { IfOk result (λ v. views v.items ≡ normal.normal_list (items_of items.now)) }
{
    let mut found = Vec::with_capacity(alloc, items.items.len())?;
    for item in &items.items {
        found.push(item.normal(alloc)?)?;
    }
    Ok(found)
}

/// Each key and each value in normal form.
#[cycle(normal)]
fn normal_pairs(alloc: Global, pairs: &Pairs) -> Result<Vec<(Value, Value)>, AllocError>
    ensures { IfOk result (λ v. view_pairs v.items ≡ normal.normal_pairs (members_of pairs.now)) }
{
    let mut found = Vec::with_capacity(alloc, pairs.items.len())?;
    for pair in &pairs.items {
        let key = pair.0.normal(alloc)?;
        let value = pair.1.normal(alloc)?;
        found.push((key, value))?;
    }
    Ok(found)
}
