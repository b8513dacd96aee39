//! Whether a value is in normal form and can be read back.
//!
//! `is_normal` of `specs/Normal.antt` says which values are.

ghost use Rattle.std.specs.Prelude.{◌≡◌, ◌^◌, nat_lt, option_map};
ghost use Rattle.jh_edn.specs.Edn.{items_of, members_of};
ghost use Rattle.jh_edn.specs.Equality.{keys_of};
ghost use Rattle.jh_edn.specs.Normal as normal;
ghost use Rattle.jh_edn.specs.Reading.{magnitude};
ghost use Rattle.jh_edn.specs.View.{view};
ghost use lib.Utf8.{scalar};

use crate::name::{is_name, is_symbol_name, is_tag};
use crate::reader::DEPTH_LIMIT;
use crate::value::{Pairs, Value, Values};
use std::cmp::Ordering;

impl Value {
    /// Whether the value is in normal form and what `write` prints of it is read back: it has no
    /// list, the keys of its maps and the elements of its sets ascend strictly, its names are
    /// names, and collections and tags are nested at most 64 deep.
    ///
    /// Takes no memory, and time linear in the value.
    pub fn is_normal(&self) -> bool
        ensures { result ≡ normal.is_normal (view self.now) }
    {
        is_normal_within(self, DEPTH_LIMIT)
    }
}

/// The same with collections and tags nested at most that deep.
#[cycle(is_normal)]
fn is_normal_within(value: &Value, depth: usize) -> bool
    ensures { result ≡ normal.is_normal_within depth (view value.now) }
{
    match value {
        Value::Nil | Value::Bool(_) | Value::Str(_) => true,
        Value::Int(n) => is_integer(*n),
        Value::Char(c) => is_character(*c),
        Value::Keyword(name) => is_name(name.as_str().as_bytes()),
        Value::Symbol(name) => is_symbol_name(name.as_str().as_bytes()),
        Value::List(_) => false,
        Value::Vector(items) => depth > 0 && are_normal_within(items, depth - 1),
        Value::Map(pairs) => depth > 0
            && pairs_normal_within(pairs, depth - 1)
            && keys_ascend(pairs),
        Value::Set(items) => depth > 0 && are_normal_within(items, depth - 1) && ascend(items),
        Value::Tagged(tagged) => {
            depth > 0
                && is_tag(tagged.tag().as_bytes())
                && is_normal_within(&tagged.inside.1, depth - 1)
        }
    }
}

/// Whether each element is in normal form, with collections and tags nested at most that deep.
#[cycle(is_normal)]
fn are_normal_within(items: &Values, depth: usize) -> bool
    ensures { result ≡ normal.are_normal_within depth (items_of items.now) }
{
    for item in &items.items {
        if !is_normal_within(item, depth) {
            return false;
        }
    }
    true
}

/// Whether each key and each value is in normal form, with collections and tags nested at most that
/// deep.
#[cycle(is_normal)]
fn pairs_normal_within(pairs: &Pairs, depth: usize) -> bool
    ensures { result ≡ normal.are_normal_pairs_within depth (members_of pairs.now) }
{
    for pair in &pairs.items {
        if !is_normal_within(&pair.0, depth) || !is_normal_within(&pair.1, depth) {
            return false;
        }
    }
    true
}

/// Whether each element is below the next.
fn ascend(items: &Values) -> bool
    ensures { result ≡ normal.ascends (items_of items.now) }
{
    let mut last: Option<&Value> = None;
    for item in &items.items {
        if !is_above(item, last) {
            return false;
        }
        last = Some(item);
    }
    true
}

/// Whether each key is below the next.
fn keys_ascend(pairs: &Pairs) -> bool
    ensures { result ≡ normal.ascends (keys_of (members_of pairs.now)) }
{
    let mut last: Option<&Value> = None;
    for pair in &pairs.items {
        if !is_above(&pair.0, last) {
            return false;
        }
        last = Some(&pair.0);
    }
    true
}

/// Whether the value is above the last one, where there is one.
fn is_above(value: &Value, last: Option<&Value>) -> bool
    ensures { result ≡ normal.is_above (view value.now) (option_map (λ x. view x.now) last.entry) }
{
    match last {
        Some(last) => last.compare(value) == Ordering::Less,
        None => true,
    }
}

/// Whether an integer fits 64 bits. Each `i64` does; the clause says so to the prover.
fn is_integer(_n: i64) -> bool
    ensures { result ≡ nat_lt (magnitude _n) (2 ^ 63) }
{
    true
}

/// Whether a character is a Unicode scalar value. Each `char` is; the clause says so to the prover.
fn is_character(_c: char) -> bool
    ensures { result ≡ scalar _c }
{
    true
}
