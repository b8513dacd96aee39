//! Texts of operations and histories, whole histories printed, and the pairs in them.
//!
//! - `op TEXT`: why the one value of the text is no operation.
//! - `history TEXT`: the operations of the text, each printed, with a line feed behind it; or why it is no history.
//! - `printed TEXT`: the text of the operation of the one value, as `write_operation` writes it, with a line feed behind it.
//! - `copied TEXT`: a copy of that operation, and one with its function for a value, printed likewise.
//! - `pairs TEXT`: the pairs of the history of the text, or why it has none.

use crate::ops::rows::{ask_all, shown};
use jh_edn::{Value, read_all, write};
use jh_ops::{
    HistoryError, Op, OpError, PairError, Process, history_of, op_of, operations_read_back, pair,
    recorded_once, value_of, write_operation,
};
use std::alloc::Global;
use std::test::Fail;

fn values(alloc: Global, text: &str) -> Option<Vec<Value>> {
    read_all(alloc, &mut text.as_bytes(), 2).ok()
}

/// What reading the one value of a text as an operation answers.
pub(crate) fn op_once(alloc: Global, text: &str) -> Option<Result<Op, OpError>> {
    Some(op_of(alloc, values(alloc, text)?.pop()?))
}

pub(crate) fn op(alloc: Global, text: &str) -> Option<Vec<u8>> {
    match op_once(alloc, text)?.err() {
        None => shown(alloc, &"an operation"),
        Some(OpError::OutOfMemory) => None,
        Some(error) => shown(alloc, &error),
    }
}

/// Prints a value and a line feed.
fn print_value(value: &Value, text: &mut Vec<u8>) -> Option<()> {
    write(value, text).ok()?;
    text.push(b'\n').ok()
}

/// Prints an operation and a line feed.
pub(crate) fn print(alloc: Global, op: &Op, text: &mut Vec<u8>) -> Option<()> {
    if !op.process.is_writable() {
        return None;
    }
    print_value(&value_of(alloc, op).ok()?, text)
}

/// Prints operations, a line feed behind each.
pub(crate) fn print_all(alloc: Global, ops: &[Op]) -> Option<Vec<u8>> {
    let mut printed = Vec::new(alloc);
    for op in ops {
        print(alloc, op, &mut printed)?;
    }
    Some(printed)
}

pub(crate) fn history(alloc: Global, text: &str) -> Option<Vec<u8>> {
    match history_of(alloc, values(alloc, text)?) {
        Ok(ops) => print_all(alloc, &ops),
        Err(HistoryError::OutOfMemory | HistoryError::Op(_, OpError::OutOfMemory)) => None,
        Err(error) => shown(alloc, &error),
    }
}

/// Prints an operation by `write_operation`, and a line feed.
fn print_text(op: &Op, text: &mut Vec<u8>) -> Option<()> {
    match write_operation(op, text) {
        Ok(()) => text.push(b'\n').ok(),
        Err(_) => None,
    }
}

pub(crate) fn printed(alloc: Global, text: &str) -> Option<Vec<u8>> {
    let op = op_once(alloc, text)?.ok()?;
    let mut printed = Vec::new(alloc);
    print_text(&op, &mut printed)?;
    Some(printed)
}

/// Prints a copy of an operation, and a line feed.
fn print_copy(alloc: Global, op: &Op, text: &mut Vec<u8>) -> Option<()> {
    print_text(&op.copy(alloc).ok()?, text)
}

/// Prints an operation with its function for a value, and a line feed.
fn print_with_function(alloc: Global, op: &Op, text: &mut Vec<u8>) -> Option<()> {
    let value = op.f.copy(alloc).ok()?;
    print_text(&op.with_value(alloc, value).ok()?, text)
}

/// Prints both behind one another.
fn copies(alloc: Global, op: &Op) -> Option<Vec<u8>> {
    let mut printed = Vec::new(alloc);
    print_copy(alloc, op, &mut printed)?;
    print_with_function(alloc, op, &mut printed)?;
    Some(printed)
}

pub(crate) fn copied(alloc: Global, text: &str) -> Option<Vec<u8>> {
    copies(alloc, &op_once(alloc, text)?.ok()?)
}

pub(crate) fn pairs(alloc: Global, text: &str) -> Option<Vec<u8>> {
    let ops = history_of(alloc, values(alloc, text)?).ok()?;
    match pair(alloc, &ops) {
        Ok(pairs) => shown(alloc, &pairs),
        Err(PairError::OutOfMemory) => None,
        Err(error) => shown(alloc, &error),
    }
}

#[test]
fn refuses_what_is_no_operation(rt: HostRuntime) -> Result<(), Fail> {
    let rows = r#"op [1] → NotMap
§ op #{:type} → NotMap
§ op {:f :read} → MissingType
§ op {:type :done} → BadType
§ op {:type nil, :f :read} → BadType
§ op {:type "ok"} → BadType
§ op {:type :ok} → MissingF
§ op {:type :ok, :f :read} → MissingProcess
§ op {:type :ok, :f :read, :process -1} → BadProcess
§ op {:type :ok, :f nil, :process :other} → BadProcess
§ op #a #b {:type :ok, :f :read, :process nil} → BadProcess
"#;
    ask_all(rt.alloc(), rows)
}

#[test]
fn writes_the_parts_in_order(rt: HostRuntime) -> Result<(), Fail> {
    let rows = r#"history {:f :read :process 9223372036854775807 :type :invoke} →
{:type :invoke, :process 9223372036854775807, :f :read, :value nil}
§ history #x {:error [:timeout "s"], :value (1 2), :f nil, :time -5, :process :nemesis, :type :info, :index 3} →
{:index 3, :time -5, :type :info, :process :nemesis, :f nil, :value (1 2), :error [:timeout "s"]}
§ history {:time 1N, "time" 2, :index nil, :type :fail, :process 0, :f :add} →
{:time 1, :type :fail, :process 0, :f :add, :value nil, "time" 2, :index nil}
"#;
    ask_all(rt.alloc(), rows)
}

/// The index and the time first where they are there, the type, the process, the function, the value, and what else there is.
#[test]
fn prints_an_operation(rt: HostRuntime) -> Result<(), Fail> {
    let rows =
        r#"printed {:f :read, :type :ok, :process 3, :value 5} → {:type :ok, :process 3, :f :read, :value 5}
§ printed {:process :nemesis, :type :info, :f :start, :time 9, :index -2} →
{:index -2, :time 9, :type :info, :process :nemesis, :f :start, :value nil}
§ printed #jepsen.history.Op{:index 4, :time nil, :type :fail, :process 0, :f "a", :value (1 #{2}), :error [:x {1 2}], "k" nil} →
{:index 4, :type :fail, :process 0, :f "a", :value (1 #{2}), :time nil, :error [:x {1 2}], "k" nil}
§ printed {:type :invoke, :process 9223372036854775807, :f cas, :value [1 2], :time -9223372036854775808} →
{:time -9223372036854775808, :type :invoke, :process 9223372036854775807, :f cas, :value [1 2]}
"#;
    ask_all(rt.alloc(), rows)
}

#[test]
fn copies_an_operation(rt: HostRuntime) -> Result<(), Fail> {
    let rows = r#"copied {:f :read, :type :ok, :process 3, :value (5), :time 1, "k" #{2}} →
{:time 1, :type :ok, :process 3, :f :read, :value (5), "k" #{2}}
{:time 1, :type :ok, :process 3, :f :read, :value :read, "k" #{2}}
"#;
    ask_all(rt.alloc(), rows)
}

/// Prints an operation of a client with this number, and a line feed.
fn print_of_client(number: u64, op: Op, text: &mut Vec<u8>) -> Option<()> {
    let mut op = op;
    op.process = Process::Client(number);
    print_text(&op, text)
}

/// The text of an operation of a client with this number. None: memory was refused.
fn by_client(alloc: Global, number: u64) -> Option<Vec<u8>> {
    let op = op_once(alloc, "{:type :ok, :process 0, :f :read}")?.ok()?;
    let mut text = Vec::new(alloc);
    print_of_client(number, op, &mut text)?;
    Some(text)
}

/// A number that no text gives has its digits, too.
#[test]
fn clients_have_their_numbers(rt: HostRuntime) {
    let text = match by_client(rt.alloc(), u64::MAX) {
        None => by_client(rt.alloc(), u64::MAX),
        text => text,
    };
    let expected = b"{:type :ok, :process 18446744073709551615, :f :read, :value nil}\n";
    assert!(rt; text.is_some_and(|text| text.as_slice() == expected.as_slice()));
}

#[test]
fn reads_a_history_whole(rt: HostRuntime) -> Result<(), Fail> {
    let rows =
        r#"history #jepsen.history.Op{:index 0, :time 3291, :type :invoke, :process 0, :f :write, :value 5}
#jepsen.history.Op{:index 1, :time 4012, :type :info, :process :nemesis, :f :start-partition, :value {"n1" #{"n2"}}}
#jepsen.history.Op{:index 2, :time 5520, :type :info, :process 0, :f :write, :value 5, :error [:timeout "no answer"]}
#jepsen.history.Op{:index 3, :time 6001, :type :info, :process :nemesis, :f :stop-partition, :value "fully connected"}
→
{:index 0, :time 3291, :type :invoke, :process 0, :f :write, :value 5}
{:index 1, :time 4012, :type :info, :process :nemesis, :f :start-partition, :value {"n1" #{"n2"}}}
{:index 2, :time 5520, :type :info, :process 0, :f :write, :value 5, :error [:timeout "no answer"]}
{:index 3, :time 6001, :type :info, :process :nemesis, :f :stop-partition, :value "fully connected"}
"#;
    ask_all(rt.alloc(), rows)
}

#[test]
fn takes_one_sequence_apart(rt: HostRuntime) -> Result<(), Fail> {
    let rows = r#"history →
§ history [] →
§ history #t () →
§ history #t [#u {:type :ok :process 1 :f :a} {:type :ok :process 2 :f :b}] →
{:type :ok, :process 1, :f :a, :value nil}
{:type :ok, :process 2, :f :b, :value nil}
§ history ({:type :ok :process 1 :f :a}) →
{:type :ok, :process 1, :f :a, :value nil}
"#;
    ask_all(rt.alloc(), rows)
}

#[test]
fn names_the_place_that_is_refused(rt: HostRuntime) -> Result<(), Fail> {
    let rows = r#"history #{} → Op(0, NotMap)
§ history [] [] → Op(0, NotMap)
§ history [{:type :ok :process 1 :f :a} [1] {}] → Op(1, NotMap)
§ history {:type :ok :process 1 :f :a} {:type :ok :process 1} → Op(1, MissingF)
"#;
    ask_all(rt.alloc(), rows)
}

/// Operations of two processes are paired, and those of the nemesis are skipped.
#[test]
fn pairs_operations(rt: HostRuntime) -> Result<(), Fail> {
    let rows =
        r#"pairs {:type :invoke :process 0 :f :add :value 1} {:type :ok :process 0 :f :add :value 1}
{:type :invoke :process 1 :f :read} {:type :invoke :process 0 :f :add :value 5}
{:type :ok :process 1 :f :read :value 6} →
[Pair { invoke: 0, outcome: Some(1) }, Pair { invoke: 2, outcome: Some(4) }, Pair { invoke: 3, outcome: None }]
§ pairs {:type :ok :process :nemesis :f :a} {:type :invoke :process 7 :f :read}
{:type :info :process :nemesis :f :a} {:type :invoke :process :nemesis :f :a}
{:type :fail :process 7 :f :read} → [Pair { invoke: 1, outcome: Some(4) }]
"#;
    ask_all(rt.alloc(), rows)
}

#[test]
fn refuses_what_has_no_pairs(rt: HostRuntime) -> Result<(), Fail> {
    let rows =
        r#"pairs {:type :invoke :process 0 :f :a} {:type :info :process 0 :f :a} {:type :invoke :process 0 :f :a}
→ AfterCrash(2)
§ pairs {:type :invoke :process 0 :f :a} {:type :info :process 0 :f :a} {:type :ok :process 0 :f :a} → AfterCrash(2)
§ pairs {:type :ok :process 0 :f :a} → NoInvoke(0)
§ pairs {:type :invoke :process 1 :f :a} {:type :info :process 0 :f :a} → NoInvoke(1)
§ pairs {:type :invoke :process 0 :f :a} {:type :invoke :process 0 :f :a} → DoubleInvoke(1)
"#;
    ask_all(rt.alloc(), rows)
}

#[test]
fn laws_run(_rt: HostRuntime) {
    operations_read_back();
    recorded_once();
}
