//! When two values are equal.

use crate::plain_edn::value::PlainValue;

/// The values of a list or a vector.
fn in_sequence(value: &PlainValue) -> Option<&[PlainValue]> {
    match value {
        PlainValue::List(values) | PlainValue::Vector(values) => Some(values),
        _ => None,
    }
}

/// Whether two values are equal.
#[cycle(equality)]
fn is_equal(one: &PlainValue, other: &PlainValue) -> bool {
    match one {
        PlainValue::Nil => matches!(other, PlainValue::Nil),
        PlainValue::Boolean(one) => matches!(other, PlainValue::Boolean(other) if one == other),
        PlainValue::Integer(one) => matches!(other, PlainValue::Integer(other) if one == other),
        PlainValue::Character(one) => matches!(other, PlainValue::Character(other) if one == other),
        PlainValue::Str(one) =>
            matches!(other, PlainValue::Str(other) if one.as_str() == other.as_str()),
        PlainValue::Keyword(one) =>
            matches!(other, PlainValue::Keyword(other) if one.as_str() == other.as_str()),
        PlainValue::Symbol(one) =>
            matches!(other, PlainValue::Symbol(other) if one.as_str() == other.as_str()),
        PlainValue::List(one) | PlainValue::Vector(one) => match in_sequence(other) {
            Some(other) => are_equal(one, other),
            None => false,
        },
        PlainValue::Set(one) => match other {
            PlainValue::Set(other) => one.len() == other.len() && are_among(one, other),
            _ => false,
        },
        PlainValue::Map(one) => match other {
            PlainValue::Map(other) => one.len() == other.len() && are_pairs_among(one, other),
            _ => false,
        },
        PlainValue::Tagged(tag, one) => match other {
            PlainValue::Tagged(label, other) => tag.as_str() == label.as_str()
                && is_equal(one, other),
            _ => false,
        },
    }
}

/// Whether there are as many, equal one by one.
#[cycle(equality)]
fn are_equal(some: &[PlainValue], others: &[PlainValue]) -> bool {
    for (one, other) in some.iter().zip(others) {
        if !is_equal(one, other) {
            return false;
        }
    }
    some.len() == others.len()
}

/// Whether one of the others is equal to it.
#[cycle(equality)]
fn is_among(one: &PlainValue, others: &[PlainValue]) -> bool {
    for other in others {
        if is_equal(one, other) {
            return true;
        }
    }
    false
}

/// Whether each is among the others. No two of either are equal, so it is as many others.
#[cycle(equality)]
fn are_among(some: &[PlainValue], others: &[PlainValue]) -> bool {
    for one in some {
        if !is_among(one, others) {
            return false;
        }
    }
    true
}

/// The value under a key.
#[cycle(equality)]
fn under<'a>(key: &PlainValue, pairs: &'a [(PlainValue, PlainValue)]) -> Option<&'a PlainValue> {
    for (other, value) in pairs {
        if is_equal(key, other) {
            return Some(value);
        }
    }
    None
}

/// Whether the others have an equal value under each key.
#[cycle(equality)]
fn are_pairs_among(some: &[(PlainValue, PlainValue)], others: &[(PlainValue, PlainValue)]) -> bool {
    for (key, value) in some {
        let Some(other) = under(key, others) else {
            return false;
        };
        if !is_equal(value, other) {
            return false;
        }
    }
    true
}

/// Whether two of them are equal.
pub(crate) fn are_two_equal(values: &[PlainValue]) -> bool {
    for (place, value) in values.iter().enumerate() {
        if is_among(value, values.get(..place).unwrap_or(&[])) {
            return true;
        }
    }
    false
}

/// Whether two keys are equal.
pub(crate) fn are_two_keys_equal(pairs: &[(PlainValue, PlainValue)]) -> bool {
    for (place, (key, _)) in pairs.iter().enumerate() {
        if under(key, pairs.get(..place).unwrap_or(&[])).is_some() {
            return true;
        }
    }
    false
}
