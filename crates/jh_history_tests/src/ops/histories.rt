//! Histories that are read operation by operation.
//!
//! - `read TEXT`: the operations of the text, each printed, with a line feed behind it; or why it means no history.
//! - `inside TEXT`: the same, by `history_in`.
//! - `late TEXT`: the same, of a reader that may be read once.
//! - `broken TEXT`: the same, where a byte that is no UTF-8 stands behind the text.

use crate::ops::operations::print_all;
use crate::ops::rows::ask_all;
use jh_edn::EdnError;
use jh_histories::{ReadHistoryError, history_in, read_history};
use jh_ops::{HistoryError, Op, OpError};
use std::alloc::Global;
use std::test::Fail;

fn print_found(alloc: Global, found: Result<Vec<Op>, ReadHistoryError>) -> Option<Vec<u8>> {
    match found {
        Ok(ops) => print_all(alloc, &ops),
        Err(ReadHistoryError::Text(EdnError::OutOfMemory)) => None,
        Err(
            ReadHistoryError::History(
                HistoryError::OutOfMemory | HistoryError::Op(_, OpError::OutOfMemory),
            ),
        ) => None,
        Err(error) => Some(format!(in alloc; "{error}\n").ok()?.into_bytes()),
    }
}

pub(crate) fn read(alloc: Global, text: &str) -> Option<Vec<u8>> {
    print_found(alloc, read_history(alloc, &mut text.as_bytes(), 2))
}

pub(crate) fn inside(alloc: Global, text: &str) -> Option<Vec<u8>> {
    print_found(alloc, history_in(alloc, text))
}

pub(crate) fn late(alloc: Global, text: &str) -> Option<Vec<u8>> {
    print_found(alloc, read_history(alloc, &mut text.as_bytes(), 1))
}

pub(crate) fn broken(alloc: Global, text: &str) -> Option<Vec<u8>> {
    let mut bytes = text.as_bytes().to_vec(alloc).ok()?;
    bytes.push(0xff).ok()?;
    print_found(alloc, read_history(alloc, &mut bytes.as_slice(), 2))
}

#[test]
fn reads_operation_by_operation(rt: HostRuntime) -> Result<(), Fail> {
    let rows = r#"read →
§ read ; nothing
#_ {:type :ok} →
§ read {:type :invoke, :process 0, :f :write, :value 5} {:type :ok, :process 0, :f :write, :value 5} ; end →
{:type :invoke, :process 0, :f :write, :value 5}
{:type :ok, :process 0, :f :write, :value 5}
§ read #jepsen.history.Op{:index 0, :type :invoke, :process 7, :f :read} #_ 3 #t #u {:type :info, :process :nemesis, :f :start}
{:type :ok, :process 7, :f :read, :value (1 2), :time 9, :error :none} →
{:index 0, :type :invoke, :process 7, :f :read, :value nil}
{:type :info, :process :nemesis, :f :start, :value nil}
{:time 9, :type :ok, :process 7, :f :read, :value (1 2), :error :none}
"#;
    ask_all(rt.alloc(), rows)
}

/// A single value may be a sequence of operations, of several none is.
#[test]
fn reads_one_sequence(rt: HostRuntime) -> Result<(), Fail> {
    let rows = r#"read [] →
§ read #t [#u {:type :ok :process 1 :f :a} {:type :ok :process 2 :f :b}] →
{:type :ok, :process 1, :f :a, :value nil}
{:type :ok, :process 2, :f :b, :value nil}
§ read ({:type :ok :process 1 :f :a}) →
{:type :ok, :process 1, :f :a, :value nil}
§ read {:type :ok :process 1 :f :a} →
{:type :ok, :process 1, :f :a, :value nil}
§ read [{:type :ok :process 1 :f :a} [1] {}] → operation 1: not a map
§ read [{:type :ok :process 1 :f :a}] [] → operation 0: not a map
§ read ( {:type :ok :process 1 :f :a} #_ 9 ; end
{:type :ok :process 2 :f :b} ) #_ [] →
{:type :ok, :process 1, :f :a, :value nil}
{:type :ok, :process 2, :f :b, :value nil}
§ read 5 → operation 0: not a map
"#;
    ask_all(rt.alloc(), rows)
}

/// An error of the text comes before a value that means no operation, wherever both stand; of such values the first is reported.
#[test]
fn names_the_first_error(rt: HostRuntime) -> Result<(), Fail> {
    let rows = r#"read 1
{:type :ok :process 1 :f :a}
{:type → line 3: unexpected end
§ read 1 2 {:type} → line 1: odd map
§ read {:type :ok :process 1 :f :a} {:type :ok :process 1} 2 {} → operation 1: f missing
§ read {:type :ok :process 1 :f :a} {:type :ok :process 1 :f :a} {:type :done} 7 → operation 2: bad type
§ read {:a 1 :a 2} → line 1: duplicate key
§ read 1 {:a 1
:a 2} → line 2: duplicate key
§ read #_ → line 1: unexpected end
§ read [1 {:type :ok :process 1 :f :a}
1.5] → line 2: float unsupported
§ read [1 2 → line 1: unexpected end
§ read [1] {:a → line 1: unexpected end
"#;
    ask_all(rt.alloc(), rows)
}

/// The reader's errors, then bytes that are no text, come before the text's own.
#[test]
fn reads_what_is_no_text(rt: HostRuntime) -> Result<(), Fail> {
    let rows = r#"late { → input too long
§ broken { → not UTF-8
§ inside { → line 1: unexpected end
§ inside {:type :ok :process 1 :f :a} →
{:type :ok, :process 1, :f :a, :value nil}
"#;
    ask_all(rt.alloc(), rows)
}
