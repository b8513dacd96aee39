//! Worked examples of the command `check`: a history of each workload.

use crate::rows::{Texts, first_wrong, is_answer};
use std::alloc::Global;
use std::sync::Wait;
use std::thread::Threads;

#[test]
fn judges_sets(rt: HostRuntime) {
    let rows = r#"→ 2
{:valid? :unknown, :error "Set was never read"}
§ {:type :invoke, :f :add, :value 1, :process 0} {:type :ok, :f :add, :value 1, :process 0}
{:type :invoke, :f :add, :value 2, :process 1} {:type :info, :f :add, :value 2, :process 1}
{:type :invoke, :f :add, :value 3, :process 0} {:type :ok, :f :add, :value 3, :process 0}
{:type :invoke, :f :read, :process 0} {:type :ok, :f :read, :value (2 1), :process 0}
→ 1
{:valid? false, :ok [1 2], :lost [3], :unexpected [], :recovered [2]}
§ {:type :invoke, :f :add, :value 1, :process 0} {:type :ok, :f :add, :value 1, :process 0} → 2
{:valid? :unknown, :error "Set was never read"}
§ #jepsen.history.Op{:index 0, :time 9, :type :info, :process :nemesis, :f :start, :value "cut"}
#jepsen.history.Op{:index 1, :time 17, :type :invoke, :process 4, :f :add, :value [1 :a]}
#jepsen.history.Op{:index 2, :time 23, :type :ok, :process 4, :f :add, :value [1 :a], :error nil}
#jepsen.history.Op{:index 3, :time 25, :type :ok, :process 9, :f :read, :value #{(1 :a)}}
→ 0
{:valid? true, :ok [[1 :a]], :lost [], :unexpected [], :recovered []}
§ {:type :invoke, :f :read, :process 0} {:type :ok, :f :read, :value nil, :process 0} → 3 operation 1: bad value
"#;
    let texts = Texts::Inputs("jeprun check --workload set");
    assert_eq!(rt; first_wrong(&rt, rt.alloc(), texts, rows), None);
}

#[test]
fn judges_counters(rt: HostRuntime) {
    let rows = r#"→ 0
{:valid? true, :reads [], :errors []}
§ {:type :invoke, :f :add, :value 1, :process 0} {:type :ok, :f :add, :value 1, :process 0}
{:type :invoke, :f :read, :process 1} {:type :invoke, :f :add, :value 5, :process 0}
{:type :ok, :f :read, :value 6, :process 1}
→ 0
{:valid? true, :reads [[1 6 6]], :errors []}
§ {:type :invoke, :f :add, :value 1, :process 0} {:type :ok, :f :add, :value 1, :process 0}
{:type :invoke, :f :read, :process 1} {:type :invoke, :f :add, :value 5, :process 0}
{:type :ok, :f :read, :value 7, :process 1}
→ 1
{:valid? false, :reads [[1 7 6]], :errors [[1 7 6]]}
§ {:type :invoke, :f :add, :value 9223372036854775807, :process 0}
{:type :invoke, :f :add, :value 9223372036854775807, :process 1}
{:type :invoke, :f :read, :process 2} {:type :ok, :f :read, :value 5, :process 2}
→ 0
{:valid? true, :reads [[0 5 18446744073709551614]], :errors []}
§ {:type :invoke, :f :add, :value 1, :process 0} {:type :invoke, :f :add, :value 1, :process 0} → 3 operation 1: double invoke
§ {:type :invoke, :f :add, :value 1, :process 0} {:type :info, :f :add, :value 1, :process 0}
{:type :invoke, :f :read, :process 0}
→ 3 operation 2: after crash
§ {:type :ok, :f :read, :value 1, :process 0} → 3 operation 0: no invocation
§ {:type :invoke, :f :add, :value "1", :process 0} → 3 operation 0: bad value
§ {:type :invoke, :f :add, :value -1, :process 0} → 3 operation 0: negative add
"#;
    let texts = Texts::Inputs("jeprun check --workload counter");
    assert_eq!(rt; first_wrong(&rt, rt.alloc(), texts, rows), None);
}

#[test]
fn judges_unique_ids(rt: HostRuntime) {
    let rows = r#"→ 0
{:valid? true, :attempted 0, :acknowledged 0, :duplicated []}
§ {:type :invoke, :f :generate, :process 0} {:type :ok, :f :generate, :value 7, :process 0}
{:type :invoke, :f :generate, :process 0} {:type :ok, :f :generate, :value 7, :process 0}
{:type :invoke, :f :generate, :process 0} {:type :info, :f :generate, :process 0}
→ 1
{:valid? false, :attempted 3, :acknowledged 2, :duplicated [[7 2]]}
§ [{:type :ok, :f :generate, :value (1), :process 0} {:type :ok, :f :generate, :value [1], :process 0}] → 1
{:valid? false, :attempted 0, :acknowledged 2, :duplicated [[[1] 2]]}
§ {:type :ok, :f :generate, :value 1, :process 0} 2 → 3 operation 1: not a map
§ {:f :generate} → 3 operation 0: type missing
§ {:type :done} → 3 operation 0: bad type
§ {:type :ok} → 3 operation 0: f missing
§ {:type :ok, :f :generate} → 3 operation 0: process missing
§ {:type :ok, :f :generate, :process "a"} → 3 operation 0: bad process
§ {:type :ok → 3 line 1: unexpected end
"#;
    let texts = Texts::Inputs("jeprun check --workload unique-ids");
    assert_eq!(rt; first_wrong(&rt, rt.alloc(), texts, rows), None);
}

#[test]
fn judges_registers(rt: HostRuntime) {
    let rows = r#"→ 0
{:valid? true, :order []}
§ {:type :invoke, :f :write, :value 1, :process 0} {:type :info, :f :write, :value 1, :process 0}
{:type :invoke, :f :read, :process 1} {:type :ok, :f :read, :value 1, :process 1}
{:type :invoke, :f :read, :process 1} {:type :ok, :f :read, :value 0, :process 1}
→ 1
{:valid? false}
§ {:type :invoke, :f :write, :value 1, :process 0} {:type :info, :f :write, :value 1, :process 0}
{:type :invoke, :f :read, :process 1} {:type :ok, :f :read, :value 0, :process 1}
{:type :invoke, :f :read, :process 1} {:type :ok, :f :read, :value 1, :process 1}
→ 0
{:valid? true, :order [1 0 2]}
§ {:type :invoke, :f :write, :value 1, :process 0} {:type :invoke, :f :read, :process 1}
{:type :ok, :f :write, :value 1, :process 0} {:type :ok, :f :read, :value 0, :process 1}
→ 0
{:valid? true, :order [1 0]}
§ {:type :invoke, :f :cas, :value [0 1], :process 0} {:type :invoke, :f :cas, :value [0 2], :process 1}
{:type :ok, :f :cas, :value [0 1], :process 0} {:type :ok, :f :cas, :value [0 2], :process 1}
→ 1
{:valid? false}
§ {:type :invoke, :f :cas, :value [0 1], :process 0} {:type :invoke, :f :cas, :value [0 2], :process 1}
{:type :invoke, :f :write, :value 0, :process 2} {:type :fail, :f :write, :value 0, :process 2}
{:type :ok, :f :cas, :value [0 1], :process 0} {:type :ok, :f :cas, :value [0 2], :process 1}
→ 1
{:valid? false}
§ {:type :invoke, :f :write, :value 1, :process 0} {:type :info, :f :write, :value 1, :process 0}
{:type :invoke, :f :read, :process 1} {:type :ok, :f :read, :value 1, :process 1}
{:type :invoke, :f :read, :process 1} {:type :ok, :f :read, :value 0, :process 1}
{:type :invoke, :f :read, :process 1} {:type :ok, :f :read, :value nil, :process 1}
→ 1
{:valid? false}
§ {:type :invoke, :f :add, :value 1, :process 0} → 3 operation 0: bad value
§ {:type :invoke, :f :read, :process 0} {:type :ok, :f :read, :value [1], :process 0} → 3 operation 1: bad value
§ {:type :invoke, :f :read, :process 0} {:type :invoke, :f :read, :process 0} → 3 operation 1: double invoke
"#;
    let texts = Texts::Inputs("jeprun check --workload register --initial 0");
    assert_eq!(rt; first_wrong(&rt, rt.alloc(), texts, rows), None);
}

/// What `run` and `drive` print is judged as the history in it, whatever verdict stands below. A text without a line that
/// begins with `:active` is refused as a whole.
#[test]
fn judges_what_is_printed(rt: HostRuntime) {
    let rows = r#"{:index 0, :type :invoke, :process 0, :f :write, :value 1}
{:index 1, :type :ok, :process 0, :f :write, :value 1}
{:index 2, :type :invoke, :process 1, :f :read, :value nil}
{:index 3, :type :ok, :process 1, :f :read, :value 2}
:active []
{:nodes ["n1"], :cut [], :slow [], :loss [], :down [], :clock []}
{:valid? true, :order [0 1]}
→ 1
{:valid? false}
§ {:index 0, :time 0, :type :invoke, :process 0, :f :write, :value 1, :node "n1"}
:end
{:index 0, :time 0, :type :invoke, :process 0, :f :write, :value 1, :node "n1"}
{:index 1, :time 5, :type :ok, :process 0, :f :write, :value 1}
:active []
{:nodes ["n1"], :cut [], :slow [], :loss [], :down [], :clock []}
{:valid? true, :order [0]}
→ 0
{:valid? true, :order [0]}
§ {:index 0, :type :invoke, :process 0, :f :write, :value [1]}
:active []
→ 3 operation 0: bad value
§ {:index 0, :type :invoke, :process 0, :f :write, :value 1}
 :active []
→ 3 operation 1: not a map
"#;
    let texts = Texts::Inputs("jeprun check --workload register");
    assert_eq!(rt; first_wrong(&rt, rt.alloc(), texts, rows), None);
}

/// Of how many calls a history may be called valid. What fails, what is not known and what other functions do is not
/// counted; another verdict than a yes stays.
#[test]
fn wants_enough_calls(rt: HostRuntime) {
    let rows = r#"→ 2
{:valid? :unknown, :error "0 of at least 2 operations"}
§ {:type :invoke, :f :write, :value 1, :process 0} {:type :ok, :f :write, :value 1, :process 0}
{:type :invoke, :f :read, :process 0} {:type :fail, :f :read, :process 0}
{:type :invoke, :f :write, :value 2, :process 1} {:type :info, :f :write, :value 2, :process 1}
{:type :ok, :f :read, :process :nemesis}
→ 2
{:valid? :unknown, :error "1 of at least 2 operations"}
§ {:type :invoke, :f :write, :value 1, :process 0} {:type :ok, :f :write, :value 1, :process 0}
{:type :invoke, :f :read, :process 0} {:type :ok, :f :read, :value 1, :process 0}
→ 0
{:valid? true, :order [0 1]}
§ {:type :invoke, :f :read, :process 0} {:type :ok, :f :read, :value 1, :process 0}
→ 1
{:valid? false}
"#;
    let texts = Texts::Inputs("jeprun check --workload register --at-least 2");
    assert_eq!(rt; first_wrong(&rt, rt.alloc(), texts, rows), None);
}

/// Calls are counted over all keys, and the line is the same.
#[test]
fn wants_enough_calls_of_all_keys(rt: HostRuntime) {
    let rows =
        r#"{:type :invoke, :f :add, :value [1 5], :process 0} {:type :ok, :f :add, :value [1 5], :process 0}
→ 2
{:valid? :unknown, :error "1 of at least 2 operations"}
§ {:type :invoke, :f :add, :value [1 5], :process 0} {:type :ok, :f :add, :value [1 5], :process 0}
{:type :invoke, :f :read, :value [2 nil], :process 1} {:type :ok, :f :read, :value [2 0], :process 1}
→ 0
{:valid? true, :keys [[1 {:valid? true, :reads [], :errors []}] [2 {:valid? true, :reads [[0 0 0]], :errors []}]]}
"#;
    let texts = Texts::Inputs("jeprun check --workload counter --independent --at-least 2");
    assert_eq!(rt; first_wrong(&rt, rt.alloc(), texts, rows), None);
}

/// What can't be read under other keys is left out, and only where that is asked for.
#[test]
fn unread_keys_are_skipped(rt: HostRuntime) {
    let floats = r#"{:type :invoke, :f :add, :value 1, :process 0, :latency 1.5}
{:type :ok, :f :add, :value 1, :process 0, :time 99999999999999999999}
{:type :invoke, :f :read, :process 0, :node #object[Node 0x1f "n1"]} {:type :ok, :f :read, :value [1], :process 0}
→ 0
{:valid? true, :ok [1], :lost [], :unexpected [], :recovered []}
§ {:type :invoke, :f :add, :value 1.5, :process 0} → 3 line 1: float unsupported
§ {:type :invoke, :f :add, :value 1, :process 0, :a [1.5} → 3 line 1: float unsupported
"#;
    let texts = Texts::Inputs("jeprun check --workload set --skip-unread");
    assert_eq!(rt; first_wrong(&rt, rt.alloc(), texts, floats), None);
    let refused =
        "{:type :invoke, :f :add, :value 1, :process 0, :latency 1.5} → 3 line 1: float unsupported\n";
    let texts = Texts::Inputs("jeprun check --workload set");
    assert_eq!(rt; first_wrong(&rt, rt.alloc(), texts, refused), None);
}

#[test]
fn a_register_starts_with_nil(rt: HostRuntime) {
    let rows =
        r#"{:type :invoke, :f :read, :process 0} {:type :ok, :f :read, :value 0, :process 0} → 1
{:valid? false}
"#;
    let texts = Texts::Inputs("jeprun check --workload register");
    assert_eq!(rt; first_wrong(&rt, rt.alloc(), texts, rows), None);
}

#[test]
fn a_budget_of_none_decides_nothing(rt: HostRuntime) {
    let rows = r#"→ 2
{:valid? :unknown}
§ {:type :invoke, :f :write, :value 1, :process 0} {:type :info, :f :write, :value 1, :process 0}
{:type :invoke, :f :read, :process 1} {:type :ok, :f :read, :value 0, :process 1}
{:type :invoke, :f :read, :process 1} {:type :ok, :f :read, :value 1, :process 1}
→ 2
{:valid? :unknown}
"#;
    let texts = Texts::Inputs("jeprun check --workload register --initial 0 --budget 0");
    assert_eq!(rt; first_wrong(&rt, rt.alloc(), texts, rows), None);
}

/// The history is not looked at.
#[test]
fn an_initial_value_is_for_registers(rt: HostRuntime) {
    let refused = "{ → 3 --initial: only for register\n";
    let texts = Texts::Inputs("jeprun check --workload set --initial 0");
    assert_eq!(rt; first_wrong(&rt, rt.alloc(), texts, refused), None);
    let texts = Texts::Inputs("jeprun check --workload counter --initial 0");
    assert_eq!(rt; first_wrong(&rt, rt.alloc(), texts, refused), None);
    let texts = Texts::Inputs("jeprun check --workload unique-ids --initial 0");
    assert_eq!(rt; first_wrong(&rt, rt.alloc(), texts, refused), None);
}

/// The history is not looked at. Where both are given that goes with one alone, the initial value is told.
#[test]
fn a_model_is_for_transactions(rt: HostRuntime) {
    let rows = "\
        jeprun check --workload register --model serializable → 3 --model: only for list-append\n\
        §jeprun check --workload set --model serializable --initial 1 → 3 --initial: only for register\n\
        §jeprun check --workload list-append --initial 1 → 3 --initial: only for register\n";
    for row in rows.split('§') {
        let (arguments, expected) = row.split_once(" → ").unwrap_or(("", ""));
        let is_right = is_answer(&rt, rt.alloc(), arguments, b"{", expected.as_bytes());
        assert!(rt; is_right, "{arguments}");
    }
}

/// Write skew, and a transaction that reads what both appended: each model's answer.
const SKEW: &str = r#"
{:type :invoke, :process 0, :f :txn, :value [[:r 1 nil] [:append 2 1]]} {:type :invoke, :process 1, :f :txn, :value [[:r 2 nil] [:append 1 1]]}
{:type :ok, :process 0, :f :txn, :value [[:r 1 nil] [:append 2 1]]} {:type :ok, :process 1, :f :txn, :value [[:r 2 nil] [:append 1 1]]}"#;

/// A cycle may begin with either step; behind it stand the operations in the same order.
#[test]
fn judges_transactions(rt: HostRuntime) {
    let rows = "\
        jeprun check --workload list-append → 1\n\
        {:valid? false, :anomaly :G2-item, :cycle [[1 :rw 2 1] [0 :rw 1 1]]}\n\
        ¦1\n\
        {:valid? false, :anomaly :G2-item, :cycle [[0 :rw 1 1] [1 :rw 2 1]]}\n\
        §jeprun check --workload list-append --explain --model serializable → 1\n\
        {:valid? false, :anomaly :G2-item, :cycle [[1 :rw 2 1] [0 :rw 1 1]], :operations \
        [{:type :ok, :process 1, :f :txn, :value [[:r 2 nil] [:append 1 1]]} \
        {:type :ok, :process 0, :f :txn, :value [[:r 1 nil] [:append 2 1]]}]}\n\
        ¦1\n\
        {:valid? false, :anomaly :G2-item, :cycle [[0 :rw 1 1] [1 :rw 2 1]], :operations \
        [{:type :ok, :process 0, :f :txn, :value [[:r 1 nil] [:append 2 1]]} \
        {:type :ok, :process 1, :f :txn, :value [[:r 2 nil] [:append 1 1]]}]}\n";
    for row in rows.split('§') {
        let (arguments, expected) = row.split_once(" → ").unwrap_or(("", ""));
        let is_right = is_one_of(&rt, rt.alloc(), arguments, SKEW, expected);
        assert!(rt; is_right, "{arguments}");
    }
}

/// Whether one of several answers is given.
fn is_one_of<T: Threads + Wait + Sync>(
    rt: &T,
    alloc: Global,
    arguments: &str,
    input: &str,
    answers: &str,
) -> bool {
    for answer in answers.split('¦') {
        if is_answer(rt, alloc, arguments, input.as_bytes(), answer.as_bytes()) {
            return true;
        }
    }
    false
}

/// Two keys, of which the second in the history is the first in normal order.
const TWO_KEYS: &str = r#"
{:type :invoke, :f :write, :value [2 5], :process 0} {:type :ok, :f :write, :value [2 5], :process 0}
{:type :invoke, :f :read, :value [1 nil], :process 1} {:type :ok, :f :read, :value [1 9], :process 1}
{:type :info, :f :start, :value 7, :process :nemesis}"#;

/// The answer of any number of threads; without `--independent` they mean nothing.
#[test]
fn judges_independent_keys(rt: HostRuntime) {
    let rows = "\
        jeprun check --workload register --independent → 1\n\
        {:valid? false, :keys [[1 {:valid? false}] [2 {:valid? true, :order [0]}]]}\n\
        §jeprun check --workload register --independent --threads 2 → 1\n\
        {:valid? false, :keys [[1 {:valid? false}] [2 {:valid? true, :order [0]}]]}\n\
        §jeprun check --workload register --independent --threads 16 → 1\n\
        {:valid? false, :keys [[1 {:valid? false}] [2 {:valid? true, :order [0]}]]}\n\
        §jeprun check --workload register --independent --threads 2 --budget 0 → 2\n\
        {:valid? :unknown, :keys [[1 {:valid? :unknown}] [2 {:valid? :unknown}]]}\n\
        §jeprun check --workload unique-ids --threads 3 → 0\n\
        {:valid? true, :attempted 0, :acknowledged 0, :duplicated []}\n\
        §jeprun check --workload unique-ids --threads 3 --independent → 0\n\
        {:valid? true, :keys [[1 {:valid? true, :attempted 0, :acknowledged 0, :duplicated []}] \
        [2 {:valid? true, :attempted 0, :acknowledged 0, :duplicated []}]]}\n";
    for row in rows.split('§') {
        let (arguments, expected) = row.split_once(" → ").unwrap_or(("", ""));
        let is_right = is_answer(
            &rt,
            rt.alloc(),
            arguments,
            TWO_KEYS.as_bytes(),
            expected.as_bytes(),
        );
        assert!(rt; is_right, "{row}");
    }
}

#[test]
fn refuses_histories_of_keys(rt: HostRuntime) {
    let rows = r#"→ 0
{:valid? true, :keys []}
§ {:type :invoke, :f :add, :value 1, :process 0} → 3 operation 0: bad value
§ {:type :invoke, :f :add, :value ["a" 1], :process 0} {:type :ok, :f :add, :value ["b" 1], :process 0}
→ 3 operation 1: no invocation
§ {:type :invoke, :f :add, :value #t [1 1], :process 0} → 3 operation 0: bad value
§ {:type :invoke, :f :add, :value (2 -1), :process 0} {:type :invoke, :f :add, :value [1 -1], :process 1}
→ 3 operation 1: negative add
"#;
    let texts = Texts::Inputs("jeprun check --workload counter --independent --threads 2");
    assert_eq!(rt; first_wrong(&rt, rt.alloc(), texts, rows), None);
}
