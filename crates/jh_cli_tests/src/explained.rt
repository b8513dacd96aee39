//! The command `check --explain`: where a register is stuck. What is expected follows from the definitions.

use crate::rows::{Texts, first_wrong, is_answer};
use std::alloc::Global;
use std::sync::Wait;
use std::thread::Threads;

/// Each of these has one order up to where it is stuck.
#[test]
fn registers_say_where_they_are_stuck(rt: HostRuntime) {
    let rows = r#"{:index 0, :type :invoke, :process 0, :f :write, :value 5}
{:index 1, :type :invoke, :process 1, :f :read, :value nil}
{:index 2, :type :ok, :process 1, :f :read, :value 5} {:index 3, :type :fail, :process 0, :f :write, :value 5}
→ 1
{:valid? false, :stuck {:index 2, :type :ok, :process 1, :f :read, :value 5}, :order [], :value 0, :pending [1], :because :no-origin, :named [1]}
§ {:type :invoke, :process 0, :f :cas, :value [7 8]} {:type :info, :process 0, :f :cas, :value [7 8], :error :timeout}
{:type :invoke, :process 1, :f :write, :value 1} {:type :ok, :process 1, :f :write, :value 1}
{:type :invoke, :process 1, :f :cas, :value (2 3)} {:type :info, :process :nemesis, :f :start, :value 7}
#op {:index 6, :time 9, :type :ok, :process 1, :f :cas, :value (2 3), :node "n1", :latency [3 :ms]}
→ 1
{:valid? false, :stuck {:index 6, :time 9, :type :ok, :process 1, :f :cas, :value (2 3), :node "n1", :latency [3 :ms]}, :order [1], :value 1, :pending [0 2], :because :no-origin, :named [2]}
§ {:type :invoke, :process 0, :f :read} {:type :ok, :process 0, :f :read, :value 0} → 0
{:valid? true, :order [0]}
§ {:type :invoke, :process 0, :f :add, :value 1} → 3 operation 0: bad value
"#;
    let texts = Texts::Inputs("jeprun check --workload register --initial 0 --explain");
    assert_eq!(rt; first_wrong(&rt, rt.alloc(), texts, rows), None);
}

/// `examples/check/register-stale.edn`: the write of 1 timed out, so it may have happened or not.
const STALE: &str = r#"
{:index 0, :time 4340061, :type :invoke, :process 0, :f :write, :value 3}
{:index 1, :time 6426026, :type :ok, :process 0, :f :write, :value 3}
{:index 2, :time 9549380, :type :invoke, :process 1, :f :cas, :value [3 4]}
{:index 3, :time 13710123, :type :invoke, :process 0, :f :read, :value nil}
{:index 4, :time 18908255, :type :ok, :process 1, :f :cas, :value [3 4]}
{:index 5, :time 25143776, :type :ok, :process 0, :f :read, :value 3}
{:index 6, :time 32416686, :type :info, :process :nemesis, :f :start-partition, :value :majority}
{:index 7, :time 40726985, :type :info, :process :nemesis, :f :start-partition, :value [:isolated {"n1" #{"n2" "n3"}}]}
{:index 8, :time 50074673, :type :invoke, :process 2, :f :write, :value 1}
{:index 9, :time 51459750, :type :info, :process 2, :f :write, :error :timeout, :value 1}
{:index 10, :time 53882216, :type :invoke, :process 1, :f :cas, :value [2 0]}
{:index 11, :time 57342071, :type :fail, :process 1, :f :cas, :error :did-not-match, :value [2 0]}
{:index 12, :time 61839315, :type :invoke, :process 0, :f :read, :value nil}
{:index 13, :time 67373948, :type :info, :process :nemesis, :f :stop-partition, :value nil}
{:index 15, :time 81555381, :type :ok, :process 0, :f :read, :value 3}"#;

/// Its line behind the completion, with the write and without it.
const WITH_OR_WITHOUT: [&str; 2] = [
    ":order [0 2 1], :value 4, :pending [3 5], :because :out-of-order, :named [5 1]}",
    ":order [0 2 1 3], :value 1, :pending [3 5], :because :out-of-order, :named [5 1]}",
];

fn is_stale_line<T: Threads + Wait + Sync>(rt: &T, alloc: Global, behind: &str) -> Option<bool> {
    let line = format!(in alloc;
        "1\n{{:valid? false, :stuck {}, {behind}\n",
        "{:index 15, :time 81555381, :type :ok, :process 0, :f :read, :value 3}"
    );
    let arguments = "jeprun check --workload register --explain";
    let line = line.ok()?;
    Some(is_answer(rt, alloc, arguments, STALE.as_bytes(), line.as_bytes()))
}

#[test]
fn a_stale_read_is_where_a_register_is_stuck(rt: HostRuntime) {
    let mut is_one = false;
    for behind in WITH_OR_WITHOUT {
        let is_line = is_stale_line(&rt, rt.alloc(), behind);
        is_one |= is_line.or_else(|| is_stale_line(&rt, rt.alloc(), behind)) == Some(true);
    }
    assert!(rt; is_one);
}

/// `examples/check/register-keys.edn`.
const TWO_KEYS: &str = r#"
{:index 0, :type :invoke, :process 0, :f :write, :value [2 5]}
{:index 1, :type :ok, :process 0, :f :write, :value [2 5]}
{:index 2, :type :invoke, :process 1, :f :read, :value [1 nil]}
{:index 3, :type :info, :process :nemesis, :f :start, :value nil}
{:index 4, :type :ok, :process 1, :f :read, :value [1 9], :node "n3"}"#;

/// Each key has the line that it would have alone, its completion the index of the whole history.
#[test]
fn keys_say_where_they_are_stuck(rt: HostRuntime) {
    let line = "1\n\
        {:valid? false, :keys [[1 {:valid? false, :stuck {:index 4, :type :ok, :process 1, :f :read, :value 9, :node \"n3\"}, \
        :order [], :value nil, :pending [0], :because :no-origin, :named [0]}] [2 {:valid? true, :order [0]}]]}\n";
    for arguments in [
        "jeprun check --workload register --independent --explain",
        "jeprun check --workload register --independent --explain --threads 2",
    ] {
        let is_line = is_answer(
            &rt,
            rt.alloc(),
            arguments,
            TWO_KEYS.as_bytes(),
            line.as_bytes(),
        );
        assert!(rt; is_line, "{arguments}");
    }
}

/// An id that was given twice, under a key; also what is neither a set nor a counter.
const IDS: &str = r#"
{:index 0, :type :ok, :process 0, :f :generate, :value [1 7]} {:index 1, :type :ok, :process 0, :f :generate, :value [1 7]}"#;

/// They say themselves what is wrong.
#[test]
fn other_workloads_take_the_option(rt: HostRuntime) {
    let rows = "\
        jeprun check --workload unique-ids --explain → 1\n\
        {:valid? false, :attempted 0, :acknowledged 2, :duplicated [[[1 7] 2]]}\n\
        §jeprun check --workload unique-ids --explain --independent → 1\n\
        {:valid? false, :keys [[1 {:valid? false, :attempted 0, :acknowledged 2, :duplicated [[7 2]]}]]}\n\
        §jeprun check --workload set --explain → 2\n\
        {:valid? :unknown, :error \"Set was never read\"}\n\
        §jeprun check --workload counter --explain → 3 operation 0: no invocation\n";
    for row in rows.split('§') {
        let (arguments, expected) = row.split_once(" → ").unwrap_or(("", ""));
        let is_right = is_answer(
            &rt,
            rt.alloc(),
            arguments,
            IDS.as_bytes(),
            expected.as_bytes(),
        );
        assert!(rt; is_right, "{row}");
    }
}
