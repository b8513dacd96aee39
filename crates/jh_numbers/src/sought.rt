//! A value of an owner as it is looked up: where it stands, without a copy. It stands for the keys of the table that are
//! one with it.

ghost use Rattle.std.specs.Cmp.{partial_equiv_from_equiv};
ghost use Rattle.jh_numbers.specs.Numbers.{is_same_owned};
ghost use Rattle.jh_numbers.specs.SameInside.{input_alike, owned_input, same_equiv, sought_equiv};
ghost use Rattle.jh_numbers.specs.View.{view_owned, view_sought};

use crate::owned::OwnedValue;
use indexmap::Equivalent;
use jh_edn::Value;
use std::cmp::Ordering;
use std::hash::{Hash, Hasher};

/// A value that is in normal form, and whose it is.
#[derive(Clone, Copy, Debug)]
pub(crate) struct Sought<'a> {
    pub(crate) owner: usize,
    pub(crate) value: &'a Value,
}

impl PartialEq for Sought<'_> {
    ghost eq = { λ a b. is_same_owned (view_sought a) (view_sought b) };

    ghost laws = { partial_equiv_from_equiv sought_equiv };

    fn eq(&self, other: &Self) -> bool {
        self.owner == other.owner && self.value.compare(other.value) == Ordering::Equal
    }
}

impl Eq for Sought<'_> {
    ghost laws = { sought_equiv };
}

impl Hash for Sought<'_> {
    ghost hash_input = { λ a. owned_input (view_sought a) };

    ghost respects_eq = { λ a b. input_alike (view_sought a) (view_sought b) };

    fn hash<H: Hasher>(&self, state: &mut H) {
        self.owner.hash(state);
        self.value.fingerprint().hash(state);
    }
}

impl Equivalent<OwnedValue> for Sought<'_> {
    ghost equivalent = { λ sought owned. is_same_owned (view_sought sought) (view_owned owned) };

    ghost respects_hash = { λ sought owned. input_alike (view_sought sought) (view_owned owned) };

    ghost respects_eq = { λ sought one other. same_equiv.congr (view_sought sought) (view_owned one) (view_owned other) };

    fn equivalent(&self, key: &OwnedValue) -> bool {
        self.owner == key.owner && self.value.compare(&key.value) == Ordering::Equal
    }
}
