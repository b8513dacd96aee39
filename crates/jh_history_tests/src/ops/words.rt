//! Operations as words, and words as operations.
//!
//! - `record PLACES TEXT`: what recording the operation of the text answers where it is given so many of six places,
//!   and these six places behind it, each of which held 7.
//! - `operation WORDS`: the operation of these words, printed, or why there is none.

use crate::ops::operations::{op_once, print};
use crate::ops::rows::{ask_all, shown};
use jh_edn::Value;
use jh_ops::{Op, WordsError, are_integers, of_words, to_words};
use std::alloc::Global;
use std::test::Fail;

fn record_in(alloc: Global, op: &Op, places: usize) -> Option<Vec<u8>> {
    let mut words = [7u64; 6];
    let answer = to_words(op, words.get_mut(..places)?);
    shown(alloc, &(answer, words))
}

pub(crate) fn record(alloc: Global, text: &str) -> Option<Vec<u8>> {
    let (places, text) = text.split_once(' ')?;
    let places = places.parse().ok()?;
    record_in(alloc, &op_once(alloc, text)?.ok()?, places)
}

fn numbers(alloc: Global, text: &str) -> Option<Vec<u64>> {
    let mut numbers = Vec::new(alloc);
    for number in text.split(' ') {
        numbers.push(number.parse().ok()?).ok()?;
    }
    Some(numbers)
}

fn printed(alloc: Global, op: &Op) -> Option<Vec<u8>> {
    let mut text = Vec::new(alloc);
    print(alloc, op, &mut text)?;
    Some(text)
}

pub(crate) fn operation(alloc: Global, text: &str) -> Option<Vec<u8>> {
    match of_words(alloc, &numbers(alloc, text)?) {
        Ok(op) => printed(alloc, &op),
        Err(WordsError::OutOfMemory) => None,
        Err(error) => shown(alloc, &error),
    }
}

/// Each operation is recorded as its words, and read back from them.
#[test]
fn operations_are_words(rt: HostRuntime) -> Result<(), Fail> {
    let rows = r#"record 6 {:type :ok, :process 2, :f :cas, :value [0 -1], :event 7} →
(Ok(5), [137, 2, 8, 0, 18446744073709551615, 7])
§ operation 137 2 8 0 18446744073709551615 → {:type :ok, :process 2, :f :cas, :value [0 -1], :event 7}
§ record 6 {:type :invoke, :process 0, :f :read, :value nil} → (Ok(3), [0, 0, 0, 7, 7, 7])
§ operation 0 0 0 → {:type :invoke, :process 0, :f :read, :value nil}
§ record 6 {:type :info, :process :nemesis, :f :step, :value 3} → (Ok(4), [87, 18446744073709551615, 0, 3, 7, 7])
§ operation 87 18446744073709551615 0 3 → {:type :info, :process :nemesis, :f :step, :value 3}
§ record 6 {:type :fail, :process 1, :f :read, :value []} → (Ok(3), [130, 1, 0, 7, 7, 7])
§ operation 130 1 0 → {:type :fail, :process 1, :f :read, :value []}
"#;
    ask_all(rt.alloc(), rows)
}

#[test]
fn refuses_what_has_no_words(rt: HostRuntime) -> Result<(), Fail> {
    let rows =
        r#"record 4 {:type :ok, :process 0, :f :read, :time 1} → (Err(NotRecordable), [7, 7, 7, 7, 7, 7])
§ record 4 {:type :ok, :process 0, :f :read, :index 0} → (Err(NotRecordable), [7, 7, 7, 7, 7, 7])
§ record 4 {:type :ok, :process 0, :f :read, :error 0} → (Err(NotRecordable), [7, 7, 7, 7, 7, 7])
§ record 4 {:type :ok, :process 0, :f :read, :event -1} → (Err(NotRecordable), [7, 7, 7, 7, 7, 7])
§ record 4 {:type :ok, :process 0, :f :read, :value (1)} → (Err(NotRecordable), [7, 7, 7, 7, 7, 7])
§ record 4 {:type :ok, :process 0, :f :write} → (Err(NotRecordable), [7, 7, 7, 7, 7, 7])
§ record 4 {:type :ok, :process 0, :f :cas, :value [1]} → (Err(NotRecordable), [7, 7, 7, 7, 7, 7])
§ record 4 {:type :ok, :process 0, :f :start, :value 1} → (Err(NotRecordable), [7, 7, 7, 7, 7, 7])
§ record 4 {:type :ok, :process 2, :f :cas, :value [0 -1], :event 7} → (Err(TooSmall), [7, 7, 7, 7, 7, 7])
"#;
    ask_all(rt.alloc(), rows)
}

/// Too few words, twice; a spare bit, a fourth shape and a function of no number; a process and an event that are no
/// integers of a text; a read of nil with an integer, and a write of nil.
#[test]
fn refuses_words_of_no_operation(rt: HostRuntime) -> Result<(), Fail> {
    let rows = r#"operation 0 0 → BadWords
§ operation 1000 → BadWords
§ operation 256 0 0 → BadWords
§ operation 192 0 0 → BadWords
§ operation 24 0 0 → BadWords
§ operation 0 9223372036854775808 0 → BadWords
§ operation 0 0 9223372036854775809 → BadWords
§ operation 0 0 0 1 → BadWords
§ operation 4 0 0 → BadWords
"#;
    ask_all(rt.alloc(), rows)
}

#[test]
fn integers_alone_are_integers(rt: HostRuntime) {
    assert!(rt; are_integers(&[Value::Int(0), Value::Int(-1)]));
    assert!(rt; !are_integers(&[Value::Int(0), Value::Nil]));
}
