//! Rows of histories with what is answered.
//!
//! A row is a line `HISTORY => ANSWER`, where the answer is the line of all keys or the message of the error. A history is
//! its operations, `PROCESS TYPE F VALUE` each, with `; ` between two. A table is one text, since the proof of an array
//! takes a second for each row.

use crate::spelled::ops_of;
use jh_checkers::Judging;
use jh_independent::{
    KeyFinding, KeysError, check_keys, check_keys_serial, verdict_of_all, write_findings,
};
use jh_ops::Op;
use std::alloc::Global;
use std::sync::Wait;
use std::test::Fail;
use std::thread::Threads;

/// What is found on so many threads, and where that is 0 by the serial call.
fn found<R: Threads + Wait + Sync>(
    rt: &R,
    alloc: Global,
    judging: Judging<'_>,
    history: &[Op],
    threads: u32,
) -> Result<Vec<KeyFinding>, KeysError> {
    match threads {
        1..=16 => check_keys(rt, alloc, history, judging, threads),
        _ => check_keys_serial(alloc, history, judging),
    }
}

fn line(alloc: Global, found: &[KeyFinding]) -> Option<String> {
    let verdict = verdict_of_all(alloc, found).ok()?;
    let mut line = Vec::new(alloc);
    write_findings(verdict, found, &mut line).ok()?;
    String::from_utf8(line).ok()
}

/// The line of what is found, or the message of the error. None: memory was refused.
pub(crate) fn given(alloc: Global, found: Result<Vec<KeyFinding>, KeysError>) -> Option<String> {
    match found {
        Ok(found) => line(alloc, &found),
        Err(KeysError::OutOfMemory) => None,
        Err(error) => error.to_string(alloc).ok(),
    }
}

pub(crate) fn is_given(answer: &Option<String>, expected: &str) -> bool {
    match answer {
        Some(answer) => answer.as_str() == expected,
        None => false,
    }
}

/// Whether an answer, which is not the expected one, may come of refused memory: no thread is made, either, where that is
/// wanting.
pub(crate) fn may_lack_memory(answer: &Option<String>, expected: &str) -> bool {
    match answer {
        Some(answer) => answer.as_str() == "thread failed" && expected != "thread failed",
        None => true,
    }
}

fn is_answered<R: Threads + Wait + Sync>(
    rt: &R,
    alloc: Global,
    judging: Judging<'_>,
    history: &[Op],
    threads: u32,
    expected: &str,
) -> bool {
    let mut answer = given(alloc, found(rt, alloc, judging, history, threads));
    if may_lack_memory(&answer, expected) {
        answer = given(alloc, found(rt, alloc, judging, history, threads));
    }
    is_given(&answer, expected)
}

/// Whether that is answered, serially and on each number of threads.
pub(crate) fn is_always_answered<R: Threads + Wait + Sync>(
    rt: &R,
    alloc: Global,
    judging: Judging<'_>,
    history: &str,
    expected: &str,
) -> bool {
    let Some(ops) = ops_of(alloc, history).or_else(|| ops_of(alloc, history)) else {
        return false;
    };
    for threads in [0, 1, 2, 3, 16] {
        if !is_answered(rt, alloc, judging, &ops, threads, expected) {
            return false;
        }
    }
    true
}

/// Asks each row. One with another answer is the failure.
pub(crate) fn ask_all<R: Threads + Wait + Sync>(
    rt: &R,
    alloc: Global,
    judging: Judging<'_>,
    rows: &str,
) -> Result<(), Fail> {
    for row in rows.trim().lines() {
        let (history, expected) = row.split_once("=> ").ok_or("no answer")?;
        if !is_always_answered(rt, alloc, judging, history, expected) {
            return Err(Fail::new(row));
        }
    }
    Ok(())
}
