//! Rows of histories with the marks of each.
//!
//! A row is a line `HISTORY => MARKS`. A history is its operations, `PROCESS TYPE F VALUE` each,
//! with `; ` between two; what is missing behind an operation is left out. Marks are `CALL NOTE`
//! each, with `; ` between two. A table is one text, since the proof of an array takes a second for
//! each row.

use crate::spelled::{mark_of, ops_of};
use jh_checkers::{Judging, check_history};
use jh_timeline::{Mark, calls_of};
use jh_timeline_marks::marks_of;
use std::alloc::Global;
use std::test::Fail;

/// The marks of what is found in a history, at its calls. None: memory was refused, or nothing is
/// found.
fn marks_in(alloc: Global, judging: Judging<'_>, history: &str) -> Option<Vec<Mark>> {
    let ops = ops_of(alloc, history)?;
    let found = check_history(alloc, &ops, judging).ok()?;
    let calls = calls_of(alloc, &ops).ok()?;
    marks_of(alloc, &ops, &found, &calls).ok()
}

/// Whether marks are those that a text spells.
fn are_spelled(marks: &[Mark], text: &str) -> bool {
    let mut left = marks.iter();
    for mark in text.trim().split_terminator(';') {
        if mark_of(mark).as_ref() != left.next() {
            return false;
        }
    }
    left.next().is_none()
}

/// Asks for the marks of each row. One with others is the failure.
pub(crate) fn ask_all(alloc: Global, judging: Judging<'_>, rows: &str) -> Result<(), Fail> {
    for row in rows.trim().lines() {
        let (history, expected) = row.split_once("=>").ok_or("no marks")?;
        let marks = match marks_in(alloc, judging, history) {
            None => marks_in(alloc, judging, history),
            marks => marks,
        };
        if !marks.is_some_and(|marks| are_spelled(&marks, expected)) {
            return Err(Fail::new(row));
        }
    }
    Ok(())
}
