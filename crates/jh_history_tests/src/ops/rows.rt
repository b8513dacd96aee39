//! Rows of one text, and who is asked.
//!
//! A row is a call's name, a space, a text, `→` and the answer; `§` begins each row but the first. White space around
//! the text and before the answer is no part of them. Of the answer every byte counts, the last line feed too.
//!
//! A call answers None where memory was refused, and is made once more.

use crate::ops::{histories, names, operations, words};
use std::alloc::Global;
use std::fmt::Debug;
use std::test::Fail;

/// What a call answers.
fn answer(alloc: Global, name: &str, text: &str) -> Option<Vec<u8>> {
    match name {
        "op" => operations::op(alloc, text),
        "history" => operations::history(alloc, text),
        "read" => histories::read(alloc, text),
        "inside" => histories::inside(alloc, text),
        "late" => histories::late(alloc, text),
        "broken" => histories::broken(alloc, text),
        "printed" => operations::printed(alloc, text),
        "copied" => operations::copied(alloc, text),
        "pairs" => operations::pairs(alloc, text),
        "record" => words::record(alloc, text),
        "operation" => words::operation(alloc, text),
        "message" => names::message(alloc, text),
        "requests" => names::requests(alloc, text),
        "request" => names::recorded(alloc, text),
        _ => None,
    }
}

fn answer_twice(alloc: Global, name: &str, text: &str) -> Option<Vec<u8>> {
    match answer(alloc, name, text) {
        None => answer(alloc, name, text),
        found => found,
    }
}

fn holds(alloc: Global, call: &str, expected: &str) -> bool {
    let (name, text) = call.split_once(' ').unwrap_or((call, ""));
    match answer_twice(alloc, name, text.trim()) {
        Some(found) => found.as_slice() == expected.as_bytes(),
        None => false,
    }
}

/// Asks each row. One with another answer is the failure.
pub(crate) fn ask_all(alloc: Global, rows: &str) -> Result<(), Fail> {
    for row in rows.split('§') {
        let (call, expected) = row.split_once('→').unwrap_or((row, "no answer"));
        if !holds(alloc, call.trim(), expected.trim_start()) {
            return Err(Fail::new(row));
        }
    }
    Ok(())
}

/// What the derived `Debug` prints, which shows all that a value holds, and a line feed.
pub(crate) fn shown<T: Debug>(alloc: Global, value: &T) -> Option<Vec<u8>> {
    Some(format!(in alloc; "{value:?}\n").ok()?.into_bytes())
}
