//! The first call that the README of `jh_numbers` shows.

use jh_edn::{Value, read_all};
use jh_numbers::Numbers;
use std::alloc::{AllocError, Global};

/// The numbers of values, in their order.
fn numbers_of(alloc: Global, values: &[Value]) -> Result<Vec<usize>, AllocError> {
    let mut numbers = Numbers::new(alloc);
    let mut found = Vec::new(alloc);
    for value in values {
        found.push(numbers.number(alloc, 0, value)?)?;
    }
    Ok(found)
}

/// The numbers of the values of a text. None: memory was refused.
fn numbers_in(alloc: Global, text: &str) -> Option<Vec<usize>> {
    let values = read_all(alloc, &mut text.as_bytes(), 2).ok()?;
    numbers_of(alloc, &values).ok()
}

#[test]
fn equal_values_have_one_number(rt: HostRuntime) {
    let text = "(1 #{2 3}) [1 #{3 2}] 1 nil [1] 1 \"1\"";
    let found = match numbers_in(rt.alloc(), text) {
        None => numbers_in(rt.alloc(), text),
        found => found,
    };
    assert!(rt; found.is_some_and(|found| found.as_slice() == [0, 0, 1, 2, 3, 1, 4].as_slice()));
}

/// How many values two owners of one value have, and what the second one is. None: memory was refused.
fn owned_twice(alloc: Global) -> Option<(usize, bool)> {
    let mut numbers = Numbers::new(alloc);
    numbers.number(alloc, 0, &Value::Int(7)).ok()?;
    let second = numbers.number(alloc, 1, &Value::Int(7)).ok()?;
    let value = numbers.value(second)?.as_integer();
    Some((
        numbers.len(),
        value == Some(7) && numbers.value(2).is_none(),
    ))
}

#[test]
fn owners_have_numbers_of_their_own(rt: HostRuntime) {
    let found = match owned_twice(rt.alloc()) {
        None => owned_twice(rt.alloc()),
        found => found,
    };
    assert_eq!(rt; found, Some((2, true)));
}
