//! Rows of a table, which is one text: `§` stands between two rows. A row is settings, an arrow, and what their run comes
//! to. White space around both is no part of them.

use crate::outcomes::answer_once;
use std::alloc::Global;
use std::sync::Wait;
use std::test::Fail;
use std::thread::Threads;

/// What settings come to.
#[derive(Clone, Copy)]
pub(crate) enum ComparedPart {
    /// The outcome of their run.
    Outcome,
    /// The value of the last operation of their run.
    LastValue,
}

/// Whether settings come to this. They are run once more where memory was refused.
fn is_right<R: Threads + Wait + Sync>(
    rt: &R,
    alloc: Global,
    part: ComparedPart,
    settings: &str,
    wanted: &str,
) -> bool {
    let answer = match answer_once(rt, alloc, part, settings) {
        None => answer_once(rt, alloc, part, settings),
        answer => answer,
    };
    match answer {
        Some(answer) => answer.as_str() == wanted,
        None => false,
    }
}

/// Asks each row. One that comes to something else is the failure.
pub(crate) fn ask_all<R: Threads + Wait + Sync>(
    rt: &R,
    alloc: Global,
    part: ComparedPart,
    rows: &str,
) -> Result<(), Fail> {
    for row in rows.split('§') {
        let (settings, wanted) = row.split_once('→').unwrap_or((row, ""));
        if !is_right(rt, alloc, part, settings, wanted.trim()) {
            return Err(Fail::new(row));
        }
    }
    Ok(())
}
