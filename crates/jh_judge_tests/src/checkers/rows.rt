//! Rows of histories with the line of what is found.
//!
//! A row is a line `HISTORY => ANSWER`, where the answer is the line of what is found or the message of the error; where several
//! lines are right, they stand with ` or ` between two. A history is its operations, `PROCESS TYPE F VALUE` each, with `; `
//! between two. A table is one text, since the proof of an array takes a second for each row.

use crate::spelled::ops_of;
use jh_check::CheckError;
use jh_checkers::{Checker, Judging, check_history, write_finding};
use std::alloc::Global;
use std::test::Fail;

/// By a checker, where a register holds nil at first, the budget is large, nothing is explained, and transactions keep real time.
pub(crate) fn by(checker: Checker) -> Judging<'static> {
    Judging::by(checker, 1_000)
}

/// By a checker, where a register holds 0 at first, and its no is explained.
pub(crate) fn explained(checker: Checker) -> Judging<'static> {
    Judging {
        initial: Some(0),
        explain: true,
        ..by(checker)
    }
}

/// The line of a history as one, or the message of the error. None: memory was refused.
fn line_once(alloc: Global, judging: Judging<'_>, history: &str) -> Option<String> {
    let ops = ops_of(alloc, history)?;
    match check_history(alloc, &ops, judging) {
        Ok(found) => {
            let mut line = Vec::new(alloc);
            write_finding(&found, &mut line).ok()?;
            String::from_utf8(line).ok()
        }
        Err(CheckError::OutOfMemory) => None,
        Err(error) => error.to_string(alloc).ok(),
    }
}

/// Judges each row as one history. One with another line is the failure.
pub(crate) fn judge_all(alloc: Global, judging: Judging<'_>, rows: &str) -> Result<(), Fail> {
    for row in rows.trim().lines() {
        let (history, expected) = row.split_once("=> ").ok_or("no answer")?;
        let line = match line_once(alloc, judging, history) {
            None => line_once(alloc, judging, history),
            line => line,
        };
        if !line.is_some_and(|line| expected.split(" or ").any(|one| line.as_str() == one)) {
            return Err(Fail::new(row));
        }
    }
    Ok(())
}
