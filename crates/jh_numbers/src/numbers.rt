//! Numbers for the values of owners, in the order in which they came first.
//!
//! `specs/Numbers.antt` says which number a value has. The table is the kit's set in insertion order, which looks a value
//! up by its fingerprint.
//!
//! Who reads lists that grow asks for the same numbers in the same order again and again. So it is noted which number was
//! given behind which, and that one is tried before the table is asked. It is a guess: the value that has the number decides.

ghost use Rattle.std.specs.Prelude.{◌≡◌, [], length, IfOk, IfErr, IfSome, IsTrue, OnOk, option_map, slice_get};
ghost use Rattle.std.specs.List.{IsDistinct};
ghost use Rattle.jh_edn.specs.Normal.{normal};
ghost use Rattle.jh_edn.specs.View.{view};
ghost use Rattle.jh_numbers.specs.Numbers.{HasNumber, is_same_owned, with_value};
ghost use Rattle.jh_numbers.specs.View.{view_sought};

use crate::owned::OwnedValue;
use crate::sought::Sought;
use indexmap::{Equivalent, IndexSet};
use jh_edn::Value;
use std::alloc::{AllocError, Global};
use std::marker::Model;

/// Values of owners, each with a number from 0. An owner is a number of the caller's: the same value of two owners has
/// two numbers. A contract sees the list of those that have numbers, each an owner with a value in normal form.
#[derive(Drop)]
pub struct Numbers {
    values: IndexSet<OwnedValue>,
    /// For each number, the one that was last given behind it.
    followers: Vec<usize>,
    /// The number that was given last.
    last: usize,
}

impl Model for Numbers {
    ghost use Rattle.std.specs.Prelude.{List, ℕ, map};
    ghost use Rattle.std.specs.Coded.{coded_list, coded_ℕ, coded×};
    ghost use Rattle.jh_edn.specs.Code.{edn_coded};
    ghost use Rattle.jh_edn.specs.Edn.{Edn};
    ghost use Rattle.jh_numbers.specs.View.{view_owned};

    ghost Value = { List (ℕ × Edn) };

    ghost coded = { coded_list (coded× coded_ℕ edn_coded) };

    ghost view = { λ a. map view_owned a.values.keys };
}

/// Whether a value is in normal form because nothing stands in it.
fn is_atom(value: &Value) -> bool
    ensures { IsTrue result → normal (view value.now) ≡ view value.now }
{
    match value {
        Value::Nil | Value::Bool(_) | Value::Int(_) | Value::Char(_) => true,
        Value::Str(_) | Value::Keyword(_) | Value::Symbol(_) => true,
        _ => false,
    }
}

impl Numbers {
    /// No values. Takes no memory.
    pub fn new(alloc: Global) -> Numbers
        ensures { result ≡ [] }
    {
        Numbers {
            values: IndexSet::new(alloc),
            followers: Vec::new(alloc),
            last: 0,
        }
    }

    /// How many have numbers.
    pub fn len(&self) -> usize
        ensures { result ≡ length self.now }
    {
        self.values.len()
    }

    /// That no two of them are one: a law of each table, the clause of a call that does nothing.
    pub fn are_apart(&self)
        ensures { IsDistinct is_same_owned self.now }
    {
        let _count = self.values.len();
    }

    /// The value that has a number, in normal form; none past the last number.
    pub fn value(&self, number: usize) -> Option<&Value>
        ensures { option_map (λ value. view value.now) result
            ≡ option_map (λ one. one.1) (slice_get self.now number) }
    {
        Some(&self.values.get_index(number)?.value)
    }

    /// Whether a value has this number.
    fn has_number(&self, sought: Sought<'_>, number: usize) -> bool
        ensures { IsTrue result → HasNumber self.now (view_sought sought.entry) number }
    {
        match self.values.get_index(number) {
            Some(owned) => sought.equivalent(owned),
            None => false,
        }
    }

    /// The number of a value, if it has one: that behind the last one where the value has it, else the one in the table.
    fn find(&self, sought: Sought<'_>) -> Option<usize>
        ensures { IfSome result (HasNumber self.now (view_sought sought.entry)) }
    {
        match self.followers.get(self.last) {
            Some(follower) if self.has_number(sought, *follower) => Some(*follower),
            _ => {
                let (number, _) = self.values.get_full(sought)?;
                Some(number)
            }
        }
    }

    /// Notes which number was given.
    fn note(&mut self, number: usize)
        ensures { self.new ≡ self.old }
    {
        if let Some(follower) = self.followers.get_mut(self.last) {
            *follower = number;
        }
        self.last = number;
    }

    /// Makes room for what is noted of one more number.
    fn make_room(&mut self) -> Result<(), AllocError>
        ensures { self.new ≡ self.old }
    {
        if self.followers.len() <= self.values.len() {
            self.followers.push(0)?;
        }
        Ok(())
    }

    /// The number of a value whose normal form has to be made first: of the one that is there already, else the next one.
    fn number_made(
        &mut self,
        alloc: Global,
        owner: usize,
        value: &Value,
    ) -> Result<usize, AllocError>
        ensures number { IfOk result
            (λ number. HasNumber self.new (owner, normal (view value.now)) number) }
        ensures values { OnOk result
            (self.new ≡ with_value self.old (owner, normal (view value.now))) }
        ensures distinct { OnOk result (IsDistinct is_same_owned self.new) }
        ensures kept { IfErr result (λ _. self.new ≡ self.old) }
    {
        self.make_room()?;
        let value = value.normal(alloc)?;
        let (number, _) = self.values.insert_full(OwnedValue { owner, value })?;
        Ok(number)
    }

    /// The number of a value of an owner. One that has none takes the next number.
    ///
    /// Takes the time of one comparison where it is asked for behind the same value as the last time, else that of one look
    /// into a hash table, and of a copy in normal form where it has no number yet or other values stand in it.
    ///
    /// Errors: where there is no memory. The numbers stay as they were.
    pub fn number(
        &mut self,
        alloc: Global,
        owner: usize,
        value: &Value,
    ) -> Result<usize, AllocError>
        ensures number { IfOk result
            (λ number. HasNumber self.new (owner, normal (view value.now)) number) }
        ensures values { OnOk result
            (self.new ≡ with_value self.old (owner, normal (view value.now))) }
        ensures distinct { OnOk result (IsDistinct is_same_owned self.new) }
        ensures kept { IfErr result (λ _. self.new ≡ self.old) }
    {
        if is_atom(value)
            && let Some(number) = self.find(Sought { owner, value })
        {
            self.note(number);
            // This call does nothing: the proof cites its clause.
            self.are_apart();
            return Ok(number);
        }
        let number = self.number_made(alloc, owner, value)?;
        self.note(number);
        Ok(number)
    }
}
