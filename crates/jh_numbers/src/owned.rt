//! An owner with a value, as a key of a hash table. `specs/Numbers.antt` says which of them are one.

ghost use Rattle.std.specs.Cmp.{partial_equiv_from_equiv};
ghost use Rattle.jh_numbers.specs.Numbers.{is_same_owned};
ghost use Rattle.jh_numbers.specs.View.{view_owned};
ghost use Rattle.jh_numbers.specs.SameInside.{input_alike, owned_equiv, owned_input};

use jh_edn::Value;
use std::cmp::Ordering;
use std::hash::{Hash, Hasher};

/// A value in normal form, and who has it.
#[derive(Debug, Drop)]
pub(crate) struct OwnedValue {
    pub(crate) owner: usize,
    pub(crate) value: Value,
}

impl PartialEq for OwnedValue {
    ghost eq = { λ a b. is_same_owned (view_owned a) (view_owned b) };

    ghost laws = { partial_equiv_from_equiv owned_equiv };

    fn eq(&self, other: &OwnedValue) -> bool {
        self.owner == other.owner && self.value.compare(&other.value) == Ordering::Equal
    }
}

impl Eq for OwnedValue {
    ghost laws = { owned_equiv };
}

impl Hash for OwnedValue {
    ghost hash_input = { λ a. owned_input (view_owned a) };

    ghost respects_eq = { λ a b. input_alike (view_owned a) (view_owned b) };

    fn hash<H: Hasher>(&self, state: &mut H) {
        self.owner.hash(state);
        self.value.fingerprint().hash(state);
    }
}
