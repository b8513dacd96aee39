//! The order of values: by kind, and then by content.
//!
//! `edn_cmp` of `specs/Order.antt` is the order.

ghost use Rattle.std.specs.Prelude.{◌≡◌};
ghost use Rattle.jh_edn.specs.Edn.{items_of, members_of};
ghost use Rattle.jh_edn.specs.Order as order;
ghost use Rattle.jh_edn.specs.Order.{edn_cmp, items_cmp, members_cmp};
ghost use Rattle.jh_edn.specs.View.{view};

use crate::value::{Pairs, Value, Values};
use std::cmp::Ordering;

/// Where a value's kind stands among the kinds. A list is of the kind of vectors.
pub(crate) fn kind_of(value: &Value) -> u8
    ensures { result ≡ order.kind_of (view value.now) }
{
    match value {
        Value::Nil => 0,
        Value::Bool(_) => 1,
        Value::Int(_) => 2,
        Value::Char(_) => 3,
        Value::Str(_) => 4,
        Value::Keyword(_) => 5,
        Value::Symbol(_) => 6,
        Value::List(_) => 7,
        Value::Vector(_) => 7,
        Value::Map(_) => 8,
        Value::Set(_) => 9,
        Value::Tagged(_) => 10,
    }
}

impl Value {
    /// Which of two values comes first: nil, booleans, integers, characters, strings, keywords,
    /// symbols, sequences, maps, sets, tagged values; within a kind by what they hold, as they hold
    /// it.
    ///
    /// Takes no memory, and time linear in the smaller of the two. Of two values in normal form it
    /// says `Equal` only where they are one.
    #[cycle(compare)]
    pub fn compare(&self, other: &Value) -> Ordering
        ensures { result ≡ edn_cmp (view self.now) (view other.now) }
    {
        match (self, other) {
            (Value::Bool(a), Value::Bool(b)) => a.cmp(b),
            (Value::Int(a), Value::Int(b)) => a.cmp(b),
            (Value::Char(a), Value::Char(b)) => a.cmp(b),
            (Value::Str(a), Value::Str(b)) => a.as_str().cmp(b.as_str()),
            (Value::Keyword(a), Value::Keyword(b)) => a.as_str().cmp(b.as_str()),
            (Value::Symbol(a), Value::Symbol(b)) => a.as_str().cmp(b.as_str()),
            (Value::List(a), Value::List(b)) => compare_items(a, b),
            (Value::List(a), Value::Vector(b)) => compare_items(a, b),
            (Value::Vector(a), Value::List(b)) => compare_items(a, b),
            (Value::Vector(a), Value::Vector(b)) => compare_items(a, b),
            (Value::Map(a), Value::Map(b)) => compare_pairs(a, b),
            (Value::Set(a), Value::Set(b)) => compare_items(a, b),
            (Value::Tagged(a), Value::Tagged(b)) => {
                let tags = a.tag().cmp(b.tag());
                if tags != Ordering::Equal {
                    return tags;
                }
                a.inside.1.compare(&b.inside.1)
            }
            _ => kind_of(self).cmp(&kind_of(other)),
        }
    }
}

/// Element by element, a prefix first.
#[cycle(compare)]
fn compare_items(a: &Values, b: &Values) -> Ordering
    ensures { result ≡ items_cmp (items_of a.now) (items_of b.now) }
{
    let xs = a.as_slice();
    let ys = b.as_slice();
    let mut at = 0;
    while at < xs.len() && at < ys.len() {
        let order = xs[at].compare(&ys[at]);
        if order != Ordering::Equal {
            return order;
        }
        at += 1;
    }
    xs.len().cmp(&ys.len())
}

/// Pair by pair, a prefix first.
#[cycle(compare)]
fn compare_pairs(a: &Pairs, b: &Pairs) -> Ordering
    ensures { result ≡ members_cmp (members_of a.now) (members_of b.now) }
{
    let ps = a.as_slice();
    let qs = b.as_slice();
    let mut at = 0;
    while at < ps.len() && at < qs.len() {
        let keys = ps[at].0.compare(&qs[at].0);
        if keys != Ordering::Equal {
            return keys;
        }
        let values = ps[at].1.compare(&qs[at].1);
        if values != Ordering::Equal {
            return values;
        }
        at += 1;
    }
    ps.len().cmp(&qs.len())
}
