//! A key for a value: a list of parts, the same exactly for equal values.
//!
//! `key_of` of `specs/Key.antt` is the list. A part refers to the text of its value, so no text is
//! copied.

ghost use Rattle.std.specs.Prelude.{◌≡◌, [], ◌∷◌, ◌++◌, IfOk, OnOk};
ghost use Rattle.jh_edn.specs.Edn.{vector, items_of, members_of};
ghost use Rattle.jh_edn.specs.Key as rule;
ghost use Rattle.jh_edn.specs.Key.{is_key_below, key_parts, keys_in};
ghost use Rattle.jh_edn.specs.Order.{in_order};
ghost use Rattle.jh_edn.specs.View.{view};

use crate::value::{Pairs, Value, Values};
use std::alloc::{AllocError, Global};

/// What a part of a key begins, or ends.
#[derive(Clone, Copy, Debug, PartialEq, Eq, PartialOrd, Ord)]
pub(crate) enum KeyMark {
    /// The end of the elements of a collection.
    Last,
    /// One more element of a collection.
    More,
    Nil,
    Bool,
    Int,
    Char,
    Str,
    Keyword,
    Symbol,
    /// A list or a vector.
    Sequence,
    Map,
    Set,
    Tagged,
}

/// A part of a key: a mark, with the number or the text of what it begins.
#[derive(Clone, Copy, Debug, PartialEq, Eq, PartialOrd, Ord)]
pub(crate) struct Part<'a> {
    mark: KeyMark,
    number: i64,
    text: &'a str,
}

impl<'a> Part<'a> {
    /// A part that is a mark alone.
    fn bare(mark: KeyMark) -> Part<'a>
        ensures { rule.key_part result ≡ rule.bare_part mark }
    {
        Part {
            mark,
            number: 0,
            text: "",
        }
    }

    /// A part of a mark and a number.
    fn numbered(mark: KeyMark, number: i64) -> Part<'a>
        ensures { rule.key_part result ≡ rule.numbered_part mark number }
    {
        Part {
            mark,
            number,
            text: "",
        }
    }

    /// A part of a mark and a text.
    fn texted(mark: KeyMark, text: &'a str) -> Part<'a>
        ensures { rule.key_part result ≡ rule.text_part mark text.now }
    {
        Part {
            mark,
            number: 0,
            text,
        }
    }
}

/// Appends a part.
fn push<'a>(part: Part<'a>, key: &mut Vec<Part<'a>>) -> Result<(), AllocError>
    ensures { OnOk result
        (key_parts key.new.items ≡ key_parts key.old.items ++ rule.key_part part.entry ∷ []) }
{
    key.push(part)?;
    Ok(())
}

/// Appends the keys, each led by a mark, and an end.
fn push_marked<'a>(keys: &[Vec<Part<'a>>], key: &mut Vec<Part<'a>>) -> Result<(), AllocError>
    ensures { OnOk result (key_parts key.new.items
        ≡ key_parts key.old.items ++ rule.marked_keys (keys_in keys.now)) }
{
    for item_key in keys {
        push(Part::bare(KeyMark::More), key)?;
        key.extend_from_slice(item_key)?;
    }
    push(Part::bare(KeyMark::Last), key)
}

/// Appends the keys in ascending order, each led by a mark, and an end.
fn push_sorted<'a>(mut keys: Vec<Vec<Part<'a>>>, key: &mut Vec<Part<'a>>) -> Result<(), AllocError>
    ensures { OnOk result (key_parts key.new.items
        ≡ key_parts key.old.items
        ++ rule.marked_keys (in_order is_key_below (keys_in keys.entry.items))) }
{
    keys.sort()?;
    push_marked(&keys, key)
}

/// Appends the value's key.
#[cycle(key)]
pub(crate) fn push_key<'a>(
    alloc: Global,
    value: &'a Value,
    key: &mut Vec<Part<'a>>,
) -> Result<(), AllocError>
    ensures { OnOk result
        (key_parts key.new.items ≡ key_parts key.old.items ++ rule.key_of (view value.now)) }
{
    match value {
        Value::Nil => push(Part::bare(KeyMark::Nil), key),
        Value::Bool(b) => push(Part::numbered(KeyMark::Bool, i64::from(*b)), key),
        Value::Int(n) => push(Part::numbered(KeyMark::Int, *n), key),
        Value::Char(c) => push(Part::numbered(KeyMark::Char, i64::from(u32::from(*c))), key),
        Value::Str(text) => push(Part::texted(KeyMark::Str, text.as_str()), key),
        Value::Keyword(name) => push(Part::texted(KeyMark::Keyword, name.as_str()), key),
        Value::Symbol(name) => push(Part::texted(KeyMark::Symbol, name.as_str()), key),
        Value::List(items) => push_items(alloc, items, key),
        Value::Vector(items) => push_items(alloc, items, key),
        Value::Map(pairs) => {
            push(Part::bare(KeyMark::Map), key)?;
            push_sorted(pair_keys(alloc, pairs)?, key)
        }
        Value::Set(items) => {
            push(Part::bare(KeyMark::Set), key)?;
            push_sorted(item_keys(alloc, items)?, key)
        }
        Value::Tagged(tagged) => {
            push(Part::texted(KeyMark::Tagged, tagged.tag()), key)?;
            push_key(alloc, &tagged.inside.1, key)
        }
    }
}

/// Appends the key of a sequence of these elements.
#[cycle(key)]
fn push_items<'a>(
    alloc: Global,
    items: &'a Values,
    key: &mut Vec<Part<'a>>,
) -> Result<(), AllocError>
    ensures { OnOk result (key_parts key.new.items
        ≡ key_parts key.old.items ++ rule.key_of (vector (items_of items.now))) }
{
    push(Part::bare(KeyMark::Sequence), key)?;
    for item in &items.items {
        push(Part::bare(KeyMark::More), key)?;
        push_key(alloc, item, key)?;
    }
    push(Part::bare(KeyMark::Last), key)
}

/// The key of each element.
#[cycle(key)]
pub(crate) fn item_keys(alloc: Global, items: &Values) -> Result<Vec<Vec<Part<'_>>>, AllocError>
    ensures { IfOk result (λ keys. keys_in keys.items ≡ rule.item_keys (items_of items.now)) }
{
    let mut keys = Vec::new(alloc);
    for item in &items.items {
        let mut item_key = Vec::new(alloc);
        push_key(alloc, item, &mut item_key)?;
        keys.push(item_key)?;
    }
    Ok(keys)
}

/// The key of each pair: that of its key, and then that of its value.
#[cycle(key)]
fn pair_keys(alloc: Global, pairs: &Pairs) -> Result<Vec<Vec<Part<'_>>>, AllocError>
    ensures { IfOk result (λ keys. keys_in keys.items ≡ rule.pair_keys (members_of pairs.now)) }
{
    let mut keys = Vec::new(alloc);
    for pair in &pairs.items {
        let (key, value) = pair;
        let mut pair_key = Vec::new(alloc);
        push_key(alloc, key, &mut pair_key)?;
        push_key(alloc, value, &mut pair_key)?;
        keys.push(pair_key)?;
    }
    Ok(keys)
}
