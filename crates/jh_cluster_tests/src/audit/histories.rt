//! Histories of texts, with changes.
//!
//! The text of a history has a line for each operation. An operation that says no `:index` is at its place. A change is
//! a line: a place, and the operation that stands there in place of another or behind all, or nothing where that one is
//! left out.
//!
//! None is answered where memory was refused, or a text means nothing.

use jh_edn::read_all;
use jh_ops::{Op, history_of};
use std::alloc::Global;

/// The most places that a change may name.
const MAX_PLACES: usize = 20;

/// What stands at a place, by the changes or else as it was.
fn line_at<'a>(line: &'a str, place: usize, changes: &'a str) -> &'a str {
    for change in changes.lines() {
        let (number, text) = change.split_once(' ').unwrap_or((change, ""));
        if number.parse::<usize>() == Ok(place) {
            return text;
        }
    }
    line
}

/// The text of a history after changes.
fn text_of(alloc: Global, history: &str, changes: &str) -> Option<String> {
    let mut text = String::new(alloc);
    let mut lines = history.lines();
    for place in 0..MAX_PLACES {
        let line = lines.next().unwrap_or("");
        text.push_str(line_at(line, place, changes)).ok()?;
        text.push_str("\n").ok()?;
    }
    Some(text)
}

/// The operations, each that says no place at its own.
fn placed(alloc: Global, operations: Vec<Op>) -> Option<Vec<Op>> {
    let mut history = Vec::new(alloc);
    for op in operations {
        let place = i64::try_from(history.len()).ok()?;
        let index = Some(op.index.unwrap_or(place));
        history.push(Op { index, ..op }).ok()?;
    }
    Some(history)
}

/// The history of a text after changes.
pub(crate) fn changed(alloc: Global, history: &str, changes: &str) -> Option<Vec<Op>> {
    let text = text_of(alloc, history, changes)?;
    let values = read_all(alloc, &mut text.as_bytes(), 3).ok()?;
    placed(alloc, history_of(alloc, values).ok()?)
}
