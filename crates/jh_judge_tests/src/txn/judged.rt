//! Histories of transactions, read and judged, with the line of what is found.
//!
//! A row is `OPERATIONS | MODEL => LINE`. Operations are separated by `; `, each `TYPE PROCESS VALUE`, with `i` for an
//! invocation. MODEL is `strict`, `serializable`, `strong` or `snapshot`, or `explained`, which is serializable with the
//! operations shown too. LINE is the line or the refusal; where several are right, as a cycle may begin with any of its
//! steps, they have ` or ` between them.

ghost use Rattle.std.specs.Prelude.{length, All};
ghost use Rattle.jh_ops.specs.Pairing.{IsPairWithin};

use jh_histories::history_in;
use jh_ops::{Op, Pair, pair};
use jh_txn::ConsistencyModel;
use jh_txn_check::find_transactions;
use jh_txn_findings::{TxnFinding, write_txn_finding};
use jh_txn_histories::TxnError;
use std::alloc::Global;
use std::io::Write;
use std::test::Fail;

/// The text of a history. None: memory was refused.
fn text_of(alloc: Global, operations: &str) -> Option<Vec<u8>> {
    let mut text = Vec::new(alloc);
    for operation in operations.trim().split_terminator("; ") {
        let (kind, rest) = operation.split_once(' ')?;
        let (process, value) = rest.split_once(' ')?;
        let kind = if kind == "i" { "invoke" } else { kind };
        let line = "{:type :";
        write!(
            &mut text,
            "{line}{kind}, :process {process}, :f :txn, :value {value}"
        )
        .ok()?;
        text.extend_from_slice(b"}\n").ok()?;
    }
    Some(text)
}

/// A refusal. None: memory was refused.
fn write_refusal(alloc: Global, error: TxnError) -> Option<Vec<u8>> {
    let mut text = Vec::new(alloc);
    match error {
        TxnError::OutOfMemory => return None,
        error => write!(&mut text, "{error}").ok()?,
    }
    Some(text)
}

/// The line of a finding. None: memory was refused.
fn write_line(alloc: Global, finding: &TxnFinding) -> Option<Vec<u8>> {
    let mut text = Vec::new(alloc);
    write_txn_finding(finding, &mut text).ok()?;
    Some(text)
}

/// The model of a word.
fn model_of(word: &str) -> ConsistencyModel {
    match word {
        "strict" => ConsistencyModel::StrictSerializable,
        "strong" => ConsistencyModel::StrongSnapshotIsolation,
        "snapshot" => ConsistencyModel::SnapshotIsolation,
        _ => ConsistencyModel::Serializable,
    }
}

/// What is said of a history by its pairs. None: memory was refused.
fn answer_by(alloc: Global, history: &[Op], pairs: &[Pair], ask: &str) -> Option<Vec<u8>>
    requires { All (IsPairWithin (length history.now)) pairs.now }
{
    match find_transactions(alloc, history, pairs, model_of(ask), ask == "explained") {
        Err(error) => write_refusal(alloc, error),
        Ok(finding) => write_line(alloc, &finding),
    }
}

/// What is said of operations. None: memory was refused.
fn answer_to(alloc: Global, operations: &str, ask: &str) -> Option<Vec<u8>> {
    let text = text_of(alloc, operations)?;
    let history = history_in(alloc, str::from_utf8(&text).ok()?).ok()?;
    let pairs = pair(alloc, &history).ok()?;
    answer_by(alloc, &history, &pairs, ask)
}

/// Whether that is said of a row, asked once more where memory was refused.
fn is_answered(alloc: Global, operations: &str, ask: &str, expected: &str) -> bool {
    let found = match answer_to(alloc, operations, ask) {
        None => answer_to(alloc, operations, ask),
        found => found,
    };
    let Some(found) = found else {
        return false;
    };
    expected
        .split(" or ")
        .any(|line| line.as_bytes() == found.as_slice())
}

/// Judges each row. One with another answer is the failure.
fn judge_all(alloc: Global, rows: &str) -> Result<(), Fail> {
    for row in rows.trim().lines() {
        let (given, expected) = row.split_once(" => ").ok_or("no answer")?;
        let (operations, ask) = given.split_once(" | ").ok_or("nothing asked")?;
        if !is_answered(alloc, operations.trim(), ask, expected) {
            return Err(Fail::new(row));
        }
    }
    Ok(())
}

#[test]
fn finds_orders(rt: HostRuntime) -> Result<(), Fail> {
    let rows = "
        i 0 [[:append 1 1]]; ok 0 [[:append 1 1]]; i 0 [[:r 1 nil]]; ok 0 [[:r 1 [1]]] | strict => {:valid? true, :order [0 1]}
        i 0 [[:append 1 1]]; ok 0 [[:append 1 1]]; i 0 [[:r 1 nil]]; ok 0 [[:r 1 nil]] | serializable => {:valid? true, :order [1 0]}
        i 0 [[:append 1 1]]; info 0 nil; i 1 [[:r 1 9]]; ok 1 ([:r 1 (1)]); i 1 [[:r 1 nil]]; ok 1 [[:r 1 []]] | serializable => {:valid? true, :order [2 0 1]}
        i 0 [[:append [1] #{1 2}]]; ok 0 [[:append (1) #{2 1}]]; i 0 [[:r (1) nil]]; ok 0 [[:r [1] [#{2 1}]]] | strict => {:valid? true, :order [0 1]}
        i 0 [] | strict => {:valid? true, :order []}";
    judge_all(rt.alloc(), rows)
}

#[test]
fn finds_cycles(rt: HostRuntime) -> Result<(), Fail> {
    let rows = "
        i 0 [[:append 1 1]]; ok 0 [[:append 1 1]]; i 0 [[:r 1 nil]]; ok 0 [[:r 1 nil]] | strict => {:valid? false, :anomaly :G-single-realtime, :cycle [[1 :rw 1 1] [0 :rt]]} or {:valid? false, :anomaly :G-single-realtime, :cycle [[0 :rt] [1 :rw 1 1]]}
        i 0 [[:r 1 nil] [:append 2 1]]; i 1 [[:r 2 nil] [:append 1 1]]; ok 0 [[:r 1 nil] [:append 2 1]]; ok 1 [[:r 2 nil] [:append 1 1]] | serializable => {:valid? false, :anomaly :G2-item, :cycle [[0 :rw 1 1] [1 :rw 2 1]]} or {:valid? false, :anomaly :G2-item, :cycle [[1 :rw 2 1] [0 :rw 1 1]]}
        i 0 [[:r 1 nil] [:append 1 1]]; i 1 [[:r 1 nil] [:append 1 2]]; ok 0 [[:r 1 nil] [:append 1 1]]; ok 1 [[:r 1 nil] [:append 1 2]] | serializable => {:valid? false, :anomaly :G2-item, :cycle [[0 :rw 1 2] [1 :rw 1 1]]} or {:valid? false, :anomaly :G2-item, :cycle [[1 :rw 1 1] [0 :rw 1 2]]}";
    judge_all(rt.alloc(), rows)
}

/// Two that overlap keep apart only where they append to one key.
#[test]
fn finds_snapshot_orders(rt: HostRuntime) -> Result<(), Fail> {
    let rows = "
        i 0 [[:append 1 1]]; ok 0 [[:append 1 1]]; i 0 [[:append 1 2]]; ok 0 [[:append 1 2]] | strong => {:valid? true, :order [0 0 1 1]}
        i 0 [[:r 1 nil] [:append 2 1]]; i 1 [[:r 2 nil] [:append 1 1]]; ok 0 [[:r 1 nil] [:append 2 1]]; ok 1 [[:r 2 nil] [:append 1 1]] | snapshot => {:valid? true, :order [0 1 0 1]} or {:valid? true, :order [0 1 1 0]} or {:valid? true, :order [1 0 0 1]} or {:valid? true, :order [1 0 1 0]}
        i 0 [[:append 1 1]]; ok 0 [[:append 1 1]]; i 0 [[:r 1 nil]]; ok 0 [[:r 1 nil]] | snapshot => {:valid? true, :order [1 1 0 0]} or {:valid? true, :order [1 0 1 0]} or {:valid? true, :order [1 0 0 1]} or {:valid? true, :order [0 1 0 1]} or {:valid? true, :order [0 1 1 0]}";
    judge_all(rt.alloc(), rows)
}

/// The first committer wins, and of two reads one begins the other.
#[test]
fn finds_snapshot_cycles(rt: HostRuntime) -> Result<(), Fail> {
    let rows = "
        i 0 [[:r 1 nil] [:append 1 1]]; i 1 [[:r 1 nil] [:append 1 2]]; ok 0 [[:r 1 nil] [:append 1 1]]; ok 1 [[:r 1 nil] [:append 1 2]] | snapshot => {:valid? false, :anomaly :lost-update, :cycle [[0 :fcw 1 1] [1 :fcw 1 2]]} or {:valid? false, :anomaly :lost-update, :cycle [[1 :fcw 1 2] [0 :fcw 1 1]]} or {:valid? false, :anomaly :lost-update, :cycle [[0 :fcw 1 1] [1 :rw 1 1]]} or {:valid? false, :anomaly :lost-update, :cycle [[1 :rw 1 1] [0 :fcw 1 1]]} or {:valid? false, :anomaly :lost-update, :cycle [[0 :rw 1 2] [1 :fcw 1 2]]} or {:valid? false, :anomaly :lost-update, :cycle [[1 :fcw 1 2] [0 :rw 1 2]]}
        i 0 [[:append 1 1]]; i 1 [[:append 1 2]]; i 2 [[:r 1 nil]]; i 3 [[:r 1 nil]]; ok 2 [[:r 1 [1]]]; ok 3 [[:r 1 [2]]] | snapshot => {:valid? false, :anomaly :G-nonadjacent, :cycle [[0 :wr 1 1] [2 :rw 1 2] [1 :wr 1 2] [3 :rw 1 1]]} or {:valid? false, :anomaly :G-nonadjacent, :cycle [[2 :rw 1 2] [1 :wr 1 2] [3 :rw 1 1] [0 :wr 1 1]]} or {:valid? false, :anomaly :G-nonadjacent, :cycle [[1 :wr 1 2] [3 :rw 1 1] [0 :wr 1 1] [2 :rw 1 2]]} or {:valid? false, :anomaly :G-nonadjacent, :cycle [[3 :rw 1 1] [0 :wr 1 1] [2 :rw 1 2] [1 :wr 1 2]]}
        i 0 [[:append 1 1]]; fail 0 nil; i 0 [[:r 1 nil]]; ok 0 [[:r 1 [1]]] | strong => {:valid? false, :anomaly :G1a, :place 1, :op 0}";
    judge_all(rt.alloc(), rows)
}

#[test]
fn finds_bad_reads(rt: HostRuntime) -> Result<(), Fail> {
    let rows = "
        i 0 [[:append 1 1]]; fail 0 nil; i 0 [[:r 1 nil]]; ok 0 [[:r 1 [1]]] | serializable => {:valid? false, :anomaly :G1a, :place 1, :op 0}
        i 0 [[:append 1 1]]; fail 0 nil; i 0 [[:r 1 nil]]; ok 0 [[:r 1 [1]]] | explained => {:valid? false, :anomaly :G1a, :place 1, :op 0, :operations [{:type :ok, :process 0, :f :txn, :value [[:r 1 [1]]]}]}
        i 0 [[:append 1 1] [:append 1 2]]; ok 0 [[:append 1 1] [:append 1 2]]; i 0 [[:r 1 nil]]; ok 0 [[:r 1 [1]]] | serializable => {:valid? false, :anomaly :G1b, :place 1, :op 0}
        i 0 [[:append 1 1] [:append 1 2]]; ok 0 [[:append 1 1] [:append 1 2]]; i 0 [[:r 1 nil]]; ok 0 [[:r 1 [2 1]]] | serializable => {:valid? false, :anomaly :out-of-order, :place 1, :op 0}
        i 0 [[:append 1 1] [:r 1 nil]]; ok 0 [[:append 1 1] [:r 1 nil]] | strict => {:valid? false, :anomaly :internal, :place 0, :op 1}
        i 0 [[:r 1 nil]]; ok 0 [[:r 1 [7]]] | serializable => {:valid? false, :anomaly :garbage-read, :place 0, :op 0}";
    judge_all(rt.alloc(), rows)
}

#[test]
fn refuses_histories(rt: HostRuntime) -> Result<(), Fail> {
    let rows = "
        i 0 [[:append 1 1]]; ok 0 [[:append 1 1]]; i 0 [[:append 1 1]] | serializable => operation 2: repeated append
        i 0 [[:append 1 1]]; i 1 [[:append 1 1]]; ok 0 [] | serializable => operation 1: repeated append
        i 0 [[:w 1 1]] | serializable => operation 0: bad value
        i 0 [[:r 1 nil]]; ok 0 [[:r 1 7]] | serializable => operation 1: bad value";
    judge_all(rt.alloc(), rows)
}

/// Of two cycles that of the kind with the earlier name, though the other one is shorter.
#[test]
fn shows_the_first_kind(rt: HostRuntime) -> Result<(), Fail> {
    let rows = "
        i 0 [[:append 1 1] [:append 3 2] [:r 4 nil]]; i 1 [[:append 1 2] [:append 2 1] [:append 4 1]]; i 2 [[:append 2 2] [:append 3 1]]; ok 0 [[:append 1 1] [:append 3 2] [:r 4 [1]]]; ok 1 [[:append 1 2] [:append 2 1] [:append 4 1]]; ok 2 [[:append 2 2] [:append 3 1]]; i 3 [[:r 1 nil] [:r 2 nil] [:r 3 nil]]; ok 3 [[:r 1 [1 2]] [:r 2 [1 2]] [:r 3 [1 2]]] | serializable => {:valid? false, :anomaly :G0, :cycle [[0 :ww 1 1] [1 :ww 2 1] [2 :ww 3 1]]} or {:valid? false, :anomaly :G0, :cycle [[1 :ww 2 1] [2 :ww 3 1] [0 :ww 1 1]]} or {:valid? false, :anomaly :G0, :cycle [[2 :ww 3 1] [0 :ww 1 1] [1 :ww 2 1]]}
        i 0 [[:append 1 1] [:r 3 nil] [:append 4 1]]; i 1 [[:r 1 nil] [:append 2 1] [:r 4 nil]]; i 2 [[:r 2 nil] [:append 3 1]]; ok 0 [[:append 1 1] [:r 3 [1]] [:append 4 1]]; ok 1 [[:r 1 [1]] [:append 2 1] [:r 4 nil]]; ok 2 [[:r 2 [1]] [:append 3 1]]; i 3 [[:r 4 nil]]; ok 3 [[:r 4 [1]]] | serializable => {:valid? false, :anomaly :G1c, :cycle [[0 :wr 1 1] [1 :wr 2 1] [2 :wr 3 1]]} or {:valid? false, :anomaly :G1c, :cycle [[1 :wr 2 1] [2 :wr 3 1] [0 :wr 1 1]]} or {:valid? false, :anomaly :G1c, :cycle [[2 :wr 3 1] [0 :wr 1 1] [1 :wr 2 1]]}
        i 0 [[:r 1 nil] [:r 4 nil]]; i 1 [[:append 1 1] [:append 2 1]]; i 2 [[:r 2 nil] [:r 3 nil] [:append 5 1]]; i 3 [[:r 5 nil] [:append 6 1]]; i 4 [[:append 3 1] [:append 4 1] [:r 6 nil]]; ok 0 [[:r 1 nil] [:r 4 [1]]]; ok 1 [[:append 1 1] [:append 2 1]]; ok 2 [[:r 2 [1]] [:r 3 nil] [:append 5 1]]; ok 3 [[:r 5 [1]] [:append 6 1]]; ok 4 [[:append 3 1] [:append 4 1] [:r 6 [1]]]; i 5 [[:r 1 nil] [:r 3 nil]]; ok 5 [[:r 1 [1]] [:r 3 [1]]] | serializable => {:valid? false, :anomaly :G-single, :cycle [[0 :rw 1 1] [1 :wr 2 1] [2 :wr 5 1] [3 :wr 6 1] [4 :wr 4 1]]} or {:valid? false, :anomaly :G-single, :cycle [[1 :wr 2 1] [2 :wr 5 1] [3 :wr 6 1] [4 :wr 4 1] [0 :rw 1 1]]} or {:valid? false, :anomaly :G-single, :cycle [[2 :wr 5 1] [3 :wr 6 1] [4 :wr 4 1] [0 :rw 1 1] [1 :wr 2 1]]} or {:valid? false, :anomaly :G-single, :cycle [[3 :wr 6 1] [4 :wr 4 1] [0 :rw 1 1] [1 :wr 2 1] [2 :wr 5 1]]} or {:valid? false, :anomaly :G-single, :cycle [[4 :wr 4 1] [0 :rw 1 1] [1 :wr 2 1] [2 :wr 5 1] [3 :wr 6 1]]}
        i 0 [[:r 1 nil] [:r 3 nil] [:append 4 1]]; i 1 [[:append 1 1] [:append 2 1] [:r 4 nil]]; i 2 [[:r 2 nil] [:append 3 1]]; ok 0 [[:r 1 nil] [:r 3 [1]] [:append 4 1]]; ok 1 [[:append 1 1] [:append 2 1] [:r 4 nil]]; ok 2 [[:r 2 [1]] [:append 3 1]]; i 3 [[:r 1 nil] [:r 4 nil]]; ok 3 [[:r 1 [1]] [:r 4 [1]]] | serializable => {:valid? false, :anomaly :G-single, :cycle [[0 :rw 1 1] [1 :wr 2 1] [2 :wr 3 1]]} or {:valid? false, :anomaly :G-single, :cycle [[1 :wr 2 1] [2 :wr 3 1] [0 :rw 1 1]]} or {:valid? false, :anomaly :G-single, :cycle [[2 :wr 3 1] [0 :rw 1 1] [1 :wr 2 1]]}
        i 0 [[:r 1 nil] [:r 4 nil]]; i 1 [[:append 1 1] [:append 2 1] [:r 5 nil]]; i 2 [[:r 2 nil] [:r 3 nil]]; i 3 [[:append 3 1] [:append 4 1] [:append 5 1]]; ok 0 [[:r 1 nil] [:r 4 [1]]]; ok 1 [[:append 1 1] [:append 2 1] [:r 5 nil]]; ok 2 [[:r 2 [1]] [:r 3 nil]]; ok 3 [[:append 3 1] [:append 4 1] [:append 5 1]]; i 4 [[:r 1 nil] [:r 3 nil] [:r 5 nil]]; ok 4 [[:r 1 [1]] [:r 3 [1]] [:r 5 [1]]] | serializable => {:valid? false, :anomaly :G-nonadjacent, :cycle [[0 :rw 1 1] [1 :wr 2 1] [2 :rw 3 1] [3 :wr 4 1]]} or {:valid? false, :anomaly :G-nonadjacent, :cycle [[1 :wr 2 1] [2 :rw 3 1] [3 :wr 4 1] [0 :rw 1 1]]} or {:valid? false, :anomaly :G-nonadjacent, :cycle [[2 :rw 3 1] [3 :wr 4 1] [0 :rw 1 1] [1 :wr 2 1]]} or {:valid? false, :anomaly :G-nonadjacent, :cycle [[3 :wr 4 1] [0 :rw 1 1] [1 :wr 2 1] [2 :rw 3 1]]}";
    judge_all(rt.alloc(), rows)
}

/// The same of snapshot orders, and of cycles with real time and without.
#[test]
fn shows_the_first_kind_of_each_model(rt: HostRuntime) -> Result<(), Fail> {
    let rows = "
        i 0 [[:append 1 1] [:r 2 nil]]; i 1 [[:append 2 1] [:append 3 1]]; i 2 [[:r 3 nil] [:append 4 1]]; ok 0 [[:append 1 1] [:r 2 nil]]; i 3 [[:r 1 nil] [:r 4 nil]]; ok 1 [[:append 2 1] [:append 3 1]]; ok 2 [[:r 3 [1]] [:append 4 1]]; ok 3 [[:r 1 nil] [:r 4 [1]]]; i 4 [[:r 1 nil] [:r 2 nil]]; ok 4 [[:r 1 [1]] [:r 2 [1]]] | strict => {:valid? false, :anomaly :G2-item, :cycle [[0 :rw 2 1] [1 :wr 3 1] [2 :wr 4 1] [3 :rw 1 1]]} or {:valid? false, :anomaly :G2-item, :cycle [[1 :wr 3 1] [2 :wr 4 1] [3 :rw 1 1] [0 :rw 2 1]]} or {:valid? false, :anomaly :G2-item, :cycle [[2 :wr 4 1] [3 :rw 1 1] [0 :rw 2 1] [1 :wr 3 1]]} or {:valid? false, :anomaly :G2-item, :cycle [[3 :rw 1 1] [0 :rw 2 1] [1 :wr 3 1] [2 :wr 4 1]]}
        i 0 [[:r 4 nil] [:append 4 1] [:append 1 1] [:r 3 nil]]; i 1 [[:r 4 nil] [:append 4 2] [:r 1 nil] [:append 2 1]]; i 2 [[:r 2 nil] [:append 3 1]]; ok 0 [[:r 4 nil] [:append 4 1] [:append 1 1] [:r 3 [1]]]; ok 1 [[:r 4 nil] [:append 4 2] [:r 1 [1]] [:append 2 1]]; ok 2 [[:r 2 [1]] [:append 3 1]] | snapshot => {:valid? false, :anomaly :G1c, :cycle [[0 :wr 1 1] [1 :wr 2 1] [2 :wr 3 1]]} or {:valid? false, :anomaly :G1c, :cycle [[1 :wr 2 1] [2 :wr 3 1] [0 :wr 1 1]]} or {:valid? false, :anomaly :G1c, :cycle [[2 :wr 3 1] [0 :wr 1 1] [1 :wr 2 1]]}
        i 0 [[:append 1 1] [:append 4 2]]; i 1 [[:r 1 nil] [:append 2 1]]; ok 0 [[:append 1 1] [:append 4 2]]; i 2 [[:r 2 nil] [:append 4 1]]; ok 1 [[:r 1 [1]] [:append 2 1]]; ok 2 [[:r 2 [1]] [:append 4 1]]; i 3 [[:r 4 nil]]; ok 3 [[:r 4 [1 2]]] | strong => {:valid? false, :anomaly :G1c, :cycle [[0 :wr 1 1] [1 :wr 2 1] [2 :ww 4 1]]} or {:valid? false, :anomaly :G1c, :cycle [[1 :wr 2 1] [2 :ww 4 1] [0 :wr 1 1]]} or {:valid? false, :anomaly :G1c, :cycle [[2 :ww 4 1] [0 :wr 1 1] [1 :wr 2 1]]}";
    judge_all(rt.alloc(), rows)
}

/// Of two cycles of one kind the short one, whichever is met first.
#[test]
fn shows_the_short_cycle(rt: HostRuntime) -> Result<(), Fail> {
    let rows = "
        i 0 [[:append 1 1] [:r 3 nil] [:r 4 nil]]; i 1 [[:r 1 nil] [:append 2 1] [:append 4 1]]; i 2 [[:r 2 nil] [:append 3 1]]; ok 0 [[:append 1 1] [:r 3 [1]] [:r 4 [1]]]; ok 1 [[:r 1 [1]] [:append 2 1] [:append 4 1]]; ok 2 [[:r 2 [1]] [:append 3 1]] | serializable => {:valid? false, :anomaly :G1c, :cycle [[0 :wr 1 1] [1 :wr 4 1]]} or {:valid? false, :anomaly :G1c, :cycle [[1 :wr 4 1] [0 :wr 1 1]]}
        i 0 [[:append 1 1] [:r 4 nil] [:r 3 nil]]; i 1 [[:r 1 nil] [:append 2 1] [:append 4 1]]; i 2 [[:r 2 nil] [:append 3 1]]; ok 0 [[:append 1 1] [:r 4 [1]] [:r 3 [1]]]; ok 1 [[:r 1 [1]] [:append 2 1] [:append 4 1]]; ok 2 [[:r 2 [1]] [:append 3 1]] | serializable => {:valid? false, :anomaly :G1c, :cycle [[0 :wr 1 1] [1 :wr 4 1]]} or {:valid? false, :anomaly :G1c, :cycle [[1 :wr 4 1] [0 :wr 1 1]]}";
    judge_all(rt.alloc(), rows)
}
