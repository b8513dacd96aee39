//! A number for a value, the same for equal values, so that most values are told apart without
//! their keys.
//!
//! `fingerprint` of `specs/Fingerprint.antt` is the number. Another way to mix numbers may take the
//! place of `mix`, in both files: no proof looks into it.

ghost use Rattle.std.specs.Prelude.{◌≡◌, ◌%◌, ◌^◌};
ghost use Rattle.jh_edn.specs.Edn.{items_of, members_of};
ghost use Rattle.jh_edn.specs.Fingerprint as number;
ghost use Rattle.jh_edn.specs.View.{view};

use crate::order::kind_of;
use crate::value::{Pairs, Value, Values};

/// An odd number, a product with which spreads the bits of the other over all 64.
const SPREAD: u64 = 0x9e37_79b9_7f4a_7c15;

/// Another one.
const SPREAD_AGAIN: u64 = 0xd6e8_feb8_6659_fd93;

/// Where FNV-1a of 64 bits begins.
const FNV_BASIS: u64 = 0xcbf2_9ce4_8422_2325;

/// What FNV-1a of 64 bits multiplies by at each byte.
const FNV_PRIME: u64 = 0x0100_0000_01b3;

/// Two numbers made one.
#[tactic(auto, unfolding(crate::specs::Fingerprint::mix))]
fn mix(seed: u64, added: u64) -> u64
    ensures { result ≡ number.mix seed added }
{
    let spread = seed.wrapping_add(added.wrapping_mul(SPREAD));
    let folded = (spread ^ (spread >> 32)).wrapping_mul(SPREAD_AGAIN);
    folded ^ (folded >> 29)
}

/// The number of a text, by the rule named FNV-1a.
#[tactic(auto, unfolding(crate::specs::Fingerprint::text_number, crate::specs::Fingerprint::byte_more))]
fn text_number(text: &str) -> u64
    ensures { result ≡ number.text_number text.now }
{
    let mut number = FNV_BASIS;
    for byte in text.as_bytes() {
        number = (number ^ u64::from(*byte)).wrapping_mul(FNV_PRIME);
    }
    number
}

impl Value {
    /// A number of 64 bits, the same for equal values by `equality_laws`, for hash tables. Values
    /// that differ may share one.
    ///
    /// Takes no memory, and time in proportion to the value.
    pub fn fingerprint(&self) -> u64
        ensures { result ≡ number.fingerprint (view self.now) }
    {
        fingerprint(self)
    }
}

/// The value's number.
#[cycle(fingerprint)]
pub(crate) fn fingerprint(value: &Value) -> u64
    ensures { result ≡ number.fingerprint (view value.now) }
{
    mix(u64::from(kind_of(value)), content(value))
}

/// The number of what a value holds.
#[cycle(fingerprint)]
fn content(value: &Value) -> u64
    ensures { result ≡ number.content (view value.now) }
{
    match value {
        Value::Nil => 0,
        Value::Bool(b) => u64::from(*b),
        Value::Int(n) => n.cast_unsigned(),
        Value::Char(c) => u64::from(u32::from(*c)),
        Value::Str(text) => text_number(text.as_str()),
        Value::Keyword(name) => text_number(name.as_str()),
        Value::Symbol(name) => text_number(name.as_str()),
        Value::List(items) => in_turn(items),
        Value::Vector(items) => in_turn(items),
        Value::Map(pairs) => sum_of_pairs(pairs),
        Value::Set(items) => sum_of_items(items),
        Value::Tagged(tagged) => mix(text_number(tagged.tag()), fingerprint(&tagged.inside.1)),
    }
}

/// The number of a sequence of these elements, the first one first.
#[cycle(fingerprint)]
fn in_turn(items: &Values) -> u64
    ensures { result ≡ number.items_number 0 (items_of items.now) }
{
    let mut number = 0;
    for item in &items.items {
        number = mix(number, fingerprint(item));
    }
    number
}

/// The number of a set of these elements, whatever their order.
#[cycle(fingerprint)]
fn sum_of_items(items: &Values) -> u64
    ensures { result ≡ number.sum_of_items (items_of items.now) % 2 ^ 64 }
{
    let mut sum: u64 = 0;
    for item in &items.items {
        sum = sum.wrapping_add(fingerprint(item));
    }
    sum
}

/// The number of a map of these pairs, whatever their order.
#[cycle(fingerprint)]
fn sum_of_pairs(pairs: &Pairs) -> u64
    ensures { result ≡ number.sum_of_members (members_of pairs.now) % 2 ^ 64 }
{
    let mut sum: u64 = 0;
    for pair in &pairs.items {
        let (key, value) = pair;
        sum = sum.wrapping_add(mix(fingerprint(key), fingerprint(value)));
    }
    sum
}
