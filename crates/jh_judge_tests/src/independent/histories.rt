//! The history of each key. A row is `HISTORY => ANSWER`, as in `rows`; the answer is each key with the type and the value of
//! each operation of its history, or the message of the error.

use crate::spelled::ops_of;
use jh_edn::write;
use jh_independent::{KeyHistory, KeysError, histories_by_key};
use jh_ops::Op;
use std::alloc::Global;
use std::io::Write;

/// Writes the type and the value of an operation.
fn push_op(op: &Op, text: &mut Vec<u8>) -> Option<()> {
    write!(text, " {:?} ", op.kind).ok()?;
    write(&op.value, text).ok()
}

/// Writes a key and the operations of its history.
fn push_key(part: &KeyHistory, text: &mut Vec<u8>) -> Option<()> {
    write(&part.key, text).ok()?;
    for op in &part.history {
        push_op(op, text)?;
    }
    text.push(b';').ok()
}

/// Each key with its history.
fn keys_text(alloc: Global, parts: &[KeyHistory]) -> Option<Vec<u8>> {
    let mut text = Vec::new(alloc);
    for part in parts {
        push_key(part, &mut text)?;
    }
    Some(text)
}

/// The answer to a history. None: memory was refused.
fn answer_once(alloc: Global, history: &str) -> Option<Vec<u8>> {
    match histories_by_key(alloc, &ops_of(alloc, history)?) {
        Ok(parts) => keys_text(alloc, &parts),
        Err(KeysError::OutOfMemory) => None,
        Err(error) => Some(error.to_string(alloc).ok()?.into_bytes()),
    }
}

fn is_right(alloc: Global, row: &str) -> bool {
    let Some((history, wanted)) = row.split_once("=>") else {
        return false;
    };
    let answer = answer_once(alloc, history).or_else(|| answer_once(alloc, history));
    answer.is_some_and(|text| text.as_slice() == wanted.trim().as_bytes())
}

#[test]
fn each_key_has_its_own_history(rt: HostRuntime) {
    let rows = "
        0 :invoke :write [2 5]; 1 :invoke :write (1 7); :nemesis :info :start [2 1]; 0 :ok :write (2 5); \
        1 :fail :write [1 7] => 1 Invoke 7 Fail 7;2 Invoke 5 Ok 5;
        0 :invoke :add [#{2 1} (3)]; 0 :ok :add [#{1 2} nil] => #{1 2} Invoke (3) Ok nil;
        0 :invoke :add [1 2]; 0 :ok :add 3; 0 :ok :add 4 => operation 1: bad value
        :nemesis :info :start nil =>";
    let wrong = rows
        .trim_start()
        .lines()
        .find(|row| !is_right(rt.alloc(), row.trim_start()));
    assert_eq!(rt; wrong, None);
}
