//! Rows of histories with what a checker says of them.
//!
//! A row is a history, an arrow, and the line of what is found, or the text of the refusal; rows have `§` between them. White space
//! around a history and a line is no part of them.
//!
//! Each test passes, too, where one allocation is refused: what answers so is asked again.

use jh_check::CheckError;
use jh_histories::history_in;
use jh_ops::Op;
use std::alloc::Global;
use std::io::Write;

/// A checker with the writer of its line.
pub(crate) trait Judge {
    /// What is said of a history. None: memory was refused.
    fn said_of(&self, alloc: Global, history: &[Op]) -> Option<Vec<u8>>;
}

/// A refusal. None: memory was refused.
pub(crate) fn refusal(alloc: Global, error: CheckError) -> Option<Vec<u8>> {
    let mut text = Vec::new(alloc);
    match error {
        CheckError::OutOfMemory => return None,
        error => write!(&mut text, "{error}").ok()?,
    }
    Some(text)
}

/// Whether a row is right. None: memory was refused.
fn is_right_once<J: Judge>(alloc: Global, judge: &J, row: &str) -> Option<bool> {
    let Some((history, line)) = row.split_once('→') else {
        return Some(false);
    };
    let history = history_in(alloc, history).ok()?;
    let said = judge.said_of(alloc, &history)?;
    Some(str::from_utf8(&said).is_ok_and(|said| said == line.trim()))
}

/// The first row that is wrong.
pub(crate) fn first_wrong<'a, J: Judge>(
    alloc: Global,
    judge: &J,
    rows: &'a str,
) -> Option<&'a str> {
    for row in rows.split('§') {
        let is_right = is_right_once(alloc, judge, row).or_else(|| is_right_once(
            alloc, judge, row,
        ));
        if is_right != Some(true) {
            return Some(row);
        }
    }
    None
}
