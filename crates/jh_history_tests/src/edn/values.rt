//! The order of values, their normal form, copies, fingerprints, tags and what they hold: the texts of the format, and
//! that the calls succeed.

use crate::edn::reading::print_all;
use crate::edn::rows::{Ask, MALFORMED, ask_all};
use jh_edn::{
    EdnError, Tagged, Text, Value, Values, normal_laws, print_laws, put, read_all, value_under,
    write, write_part,
};
use std::alloc::{AllocError, Global};
use std::cmp::Ordering;
use std::test::Fail;

/// A copy of the normal form.
fn normal_copy(alloc: Global, value: &Value) -> Result<Value, AllocError> {
    value.normal(alloc)?.copy(alloc)
}

/// A copy of the normal form of each value of a text, printed.
pub(crate) fn normal(alloc: Global, text: &str) -> Result<Vec<u8>, EdnError> {
    let mut printed = Vec::new(alloc);
    for value in &read_all(alloc, &mut text.as_bytes(), 2)? {
        write(&normal_copy(alloc, value)?, &mut printed)?;
    }
    Ok(printed)
}

#[test]
fn puts_in_normal_form(rt: HostRuntime) -> Result<(), Fail> {
    let rows = "\
        {:b (1 2), :a #{3 1}}\x1f{:a #{1 3}, :b [1 2]}\
        \x1e#{#t 1 #{} {} [] a :a \"a\" \\a 1 true false nil}\x1f#{nil false true 1 \\a \"a\" :a a [] {} #{} #t 1}\
        \x1e#{[1 2] [1] (0 5) []}\x1f#{[] [0 5] [1] [1 2]}\
        \x1e{\"b\" 1, \"ab\" 3, \"a\" 2}\x1f{\"a\" 2, \"ab\" 3, \"b\" 1}\
        \x1e{{2 0, 1 0} 1, {1 0} 2}\x1f{{1 0} 2, {1 0, 2 0} 1}\
        \x1e#{#b 1 #a 2 #a 1}\x1f#{#a 1 #a 2 #b 1}\
        \x1e#t (1 (-2 ()))\x1f#t [1 [-2 []]]";
    ask_all(rt.alloc(), &Ask::Normal, rows)
}

/// The values of a text, as a part of a line and then in braces.
pub(crate) fn part(alloc: Global, text: &str) -> Result<Vec<u8>, EdnError> {
    let values = read_all(alloc, &mut text.as_bytes(), 2)?;
    let mut line = Vec::new(alloc);
    put(b"{:a 1", &mut line)?;
    write_part("items", &values, &mut line)?;
    put(b"}", &mut line)?;
    Ok(line)
}

/// A copy of the pairs of a map, printed as a map.
pub(crate) fn pairs(alloc: Global, text: &str) -> Result<Vec<u8>, EdnError> {
    let values = read_all(alloc, &mut text.as_bytes(), 2)?;
    let [Value::Map(pairs)] = values.as_slice() else {
        return Err(MALFORMED);
    };
    let mut printed = Vec::new(alloc);
    write(&Value::Map(pairs.copy(alloc)?), &mut printed)?;
    Ok(printed)
}

#[test]
fn writes_parts_of_lines(rt: HostRuntime) -> Result<(), Fail> {
    let rows = "\
        \x1f{:a 1, :items []}\
        \x1e1 \"b\" (c)\x1f{:a 1, :items [1 \"b\" (c)]}";
    ask_all(rt.alloc(), &Ask::Part, rows)
}

#[test]
fn copies_pairs(rt: HostRuntime) -> Result<(), Fail> {
    let rows = "\
        {}\x1f{}\
        \x1e{:b [1] a {2 3}}\x1f{:b [1], a {2 3}}";
    ask_all(rt.alloc(), &Ask::Pairs, rows)
}

/// How the two values of a text compare.
pub(crate) fn order(alloc: Global, text: &str) -> Result<Vec<u8>, EdnError> {
    let values = read_all(alloc, &mut text.as_bytes(), 2)?;
    let [first, second] = values.as_slice() else {
        return Err(MALFORMED);
    };
    let order = match first.compare(second) {
        Ordering::Less => "less",
        Ordering::Equal => "equal",
        Ordering::Greater => "greater",
    };
    Ok(order.as_bytes().to_vec(alloc)?)
}

#[test]
fn compares(rt: HostRuntime) -> Result<(), Fail> {
    let rows = "\
        nil false\x1fless\
        \x1etrue -1\x1fless\
        \x1e9 \\a\x1fless\
        \x1e\\z \"a\"\x1fless\
        \x1e:b a\x1fless\
        \x1eb []\x1fless\
        \x1e#{} {1 2}\x1fgreater\
        \x1e(1 2) [1 2]\x1fequal\
        \x1e[1] [1 0]\x1fless\
        \x1e{1 2} {1 1}\x1fgreater\
        \x1e#a 2 #b 1\x1fless\
        \x1e-3 2\x1fless";
    ask_all(rt.alloc(), &Ask::Order, rows)
}

/// Whether the two values of a text have one fingerprint.
pub(crate) fn fingerprints(alloc: Global, text: &str) -> Result<Vec<u8>, EdnError> {
    let values = read_all(alloc, &mut text.as_bytes(), 2)?;
    let [first, second] = values.as_slice() else {
        return Err(MALFORMED);
    };
    let answer = if first.fingerprint() == second.fingerprint() {
        "one"
    } else {
        "two"
    };
    Ok(answer.as_bytes().to_vec(alloc)?)
}

/// Values that differ and have one fingerprint, which are told apart by their keys in the table of collections. The
/// numbers were found by undoing `mix` from the other value's fingerprint.
#[test]
fn shares_fingerprints(rt: HostRuntime) -> Result<(), Fail> {
    let rows = "\
        nil 2036462921555450246\x1fone\
        \x1etrue 1018231460777725124\x1fone\
        \x1e\\a -1018231460777725026\x1fone";
    ask_all(rt.alloc(), &Ask::Fingerprints, rows)
}

/// Whether the value of a text is in normal form.
pub(crate) fn is_normal(alloc: Global, text: &str) -> Result<Vec<u8>, EdnError> {
    let values = read_all(alloc, &mut text.as_bytes(), 2)?;
    let [value] = values.as_slice() else {
        return Err(MALFORMED);
    };
    let answer = if value.is_normal() {
        "normal"
    } else {
        "not normal"
    };
    Ok(answer.as_bytes().to_vec(alloc)?)
}

#[test]
fn knows_normal_forms(rt: HostRuntime) -> Result<(), Fail> {
    let rows = "\
        {:a #{1 3}, :b [1 2]}\x1fnormal\
        \x1e{:b 1, :a 2}\x1fnot normal\
        \x1e#{2 1}\x1fnot normal\
        \x1e[[()]]\x1fnot normal\
        \x1e#t [1 \\a \"a\" nil a/b]\x1fnormal";
    ask_all(rt.alloc(), &Ask::IsNormal, rows)
}

/// An empty list with a tag.
fn tagged_list(alloc: Global, tag: &str) -> Result<Tagged, AllocError> {
    let list = Value::List(Values::of(Vec::new(alloc)));
    Tagged::of(alloc, Text::of(alloc, tag)?, list)
}

/// What a tagged empty list is when it was taken apart again.
pub(crate) fn tagged(alloc: Global, question: &str) -> Result<Vec<u8>, EdnError> {
    let (tag, element) = tagged_list(alloc, question)?.into_parts();
    let same = tag.as_str() == question;
    let empty = matches!(element.elements(), Some([]));
    let answer = match (same, empty, Value::Keyword(tag).is_normal()) {
        (true, true, true) => "the tag is a name, the list empty",
        (true, true, false) => "the tag is no name, the list empty",
        _ => "it changed",
    };
    Ok(answer.as_bytes().to_vec(alloc)?)
}

#[test]
fn tags_and_names(rt: HostRuntime) -> Result<(), Fail> {
    let rows = "\
        a b\x1fthe tag is no name, the list empty\
        \x1e\x1fthe tag is no name, the list empty\
        \x1eabcdefghijklmno\x1fthe tag is a name, the list empty\
        \x1eabcdefghijklmnop\x1fthe tag is a name, the list empty";
    ask_all(rt.alloc(), &Ask::Tagged, rows)
}

/// The one value of a text.
fn only(alloc: Global, text: &str) -> Result<Value, EdnError> {
    let mut values = read_all(alloc, &mut text.as_bytes(), 2)?;
    values.pop().ok_or(MALFORMED)
}

/// The pairs, each printed as its key, an equals sign and its value, ended by a semicolon.
fn print_pairs(alloc: Global, pairs: &[(Value, Value)]) -> Result<Vec<u8>, EdnError> {
    let mut printed = Vec::new(alloc);
    for (key, value) in pairs {
        write(key, &mut printed)?;
        put(b"=", &mut printed)?;
        write(value, &mut printed)?;
        put(b";", &mut printed)?;
    }
    Ok(printed)
}

/// What a value without a tag holds, taken out of it.
fn contents(alloc: Global, value: Value) -> Result<Vec<u8>, EdnError> {
    match value.into_elements() {
        Ok(elements) => print_all(alloc, &elements),
        Err(other) => match other.into_pairs() {
            Some(pairs) => print_pairs(alloc, &pairs),
            None => Ok(b"nothing".to_vec(alloc)?),
        },
    }
}

/// What the value of a text holds, taken out of it: the element of a tag, the elements of a sequence, the pairs of a map.
pub(crate) fn apart(alloc: Global, text: &str) -> Result<Vec<u8>, EdnError> {
    match only(alloc, text)?.into_tagged() {
        Ok(tagged) => print_all(alloc, &[tagged.into_parts().1]),
        Err(other) => contents(alloc, other),
    }
}

#[test]
fn takes_values_apart(rt: HostRuntime) -> Result<(), Fail> {
    let rows = "\
        #a #b [1]\x1f#b [1]\
        \x1e(1 [2])\x1f1 [2]\
        \x1e[3 :a]\x1f3 :a\
        \x1e[]\x1f\
        \x1e{:b [1], a {2 3}}\x1f:b=[1];a={2 3};\
        \x1e#{1}\x1fnothing\
        \x1e7\x1fnothing";
    ask_all(rt.alloc(), &Ask::Apart, rows)
}

/// The value of a text without the tags around it, printed.
pub(crate) fn untagged(alloc: Global, text: &str) -> Result<Vec<u8>, EdnError> {
    print_all(alloc, &[only(alloc, text)?.untagged()])
}

#[test]
fn takes_tags_off(rt: HostRuntime) -> Result<(), Fail> {
    let rows = "\
        #a #b [#c 1]\x1f[#c 1]\
        \x1e#a 1\x1f1\
        \x1e{:a #b 2}\x1f{:a #b 2}";
    ask_all(rt.alloc(), &Ask::Untagged, rows)
}

#[test]
fn states_laws_of_values() {
    normal_laws();
    print_laws();
}

/// What stands under `:a` in the map of a text, printed.
pub(crate) fn under(alloc: Global, text: &str) -> Result<Vec<u8>, EdnError> {
    let Value::Map(pairs) = &only(alloc, text)? else {
        return Ok(b"no map".to_vec(alloc)?);
    };
    let mut printed = Vec::new(alloc);
    match value_under("a", pairs.as_slice()) {
        Some(value) => write(value, &mut printed)?,
        None => put(b"nothing", &mut printed)?,
    }
    Ok(printed)
}

#[test]
fn finds_what_stands_under_a_key(rt: HostRuntime) -> Result<(), Fail> {
    let rows = "\
        {:b 1 :a [2]}\x1f[2]\
        \x1e{:b 1}\x1fnothing\
        \x1e{a 1 \"a\" 2 [:a] 3}\x1fnothing";
    ask_all(rt.alloc(), &Ask::Under, rows)
}

/// `false` is another value.
#[test]
fn nil_alone_is_nil(rt: HostRuntime) {
    assert!(rt; Value::Nil.is_nil());
    assert!(rt; !Value::Bool(false).is_nil());
}
