//! Rows of settings, and what they mean or why they are refused.

use crate::drive_settings::documents::means;

// Each row is lines, and behind an arrow what they mean.
const ROWS: &str =
    r##"seed = 0 → (4, 2, 0, 0) (None, None, None) (Register, Once(Client(Read)), None) TransactionShape { keys: 4, most: 4, appends: 32 } (None, StrictSerializable, 100000)
generator = '[:once [:write 5]]' ; clients = 6 ; ops = 1_000_000 ; time_limit = 86_400_000 ; rate = 1_000_000 ; threads_per_key = 3 ; ops_per_key = 1_000_000 ; recovery = 3_600_000 ; initial = -7 ; seed = 9223372036854775807 ; budget = 10_000_000 ; schedule = ['[1000000 [:withdraw 3]]', '([:ms 86400000] [:undo])'] → (6, 1000000, 3600000, 9223372036854775807) (Some(86400000), Some(1000000), Some(KeyShares { threads: 3, calls: 1000000 })) (Register, Once(Client(Write(5))), None) TransactionShape { keys: 4, most: 4, appends: 32 } TestEntry { at: Calls(1000000), step: Withdraw(3) } TestEntry { at: Milliseconds(86400000), step: Undo } (Some(-7), StrictSerializable, 10000000)
workload = "counter" ; final = '[:once [:add 1]]' → (4, 2, 0, 0) (None, None, None) (Counter, Once(Client(Read)), Some(Once(Client(Add(1))))) TransactionShape { keys: 4, most: 4, appends: 32 } (None, StrictSerializable, 100000)
start = "a → not TOML
zebra = 1 ; #ops ; apple = 1 → apple: unknown
store = "lww" → store: unknown
#start ; #ops → start: missing
#workload ; clients = 0 → workload: missing
threads_per_key = 3 ; budget = -1 → budget: bad value
threads_per_key = 3 → ops_per_key: missing
ops_per_key = 3 ; generator = '[:once [:add 1]]' → threads_per_key: missing
threads_per_key = 3 ; ops_per_key = 1 ; generator = '[:once [:add 1]]' → threads_per_key: bad value
generator = '[:once [:add 1]]' ; final = '[:once [:add 1]]' → generator: bad value
final = '[:once [:add 1]]' → final: bad value
threads_per_key = 2 ; ops_per_key = 1 ; final = '[:once :read]' → final: bad value
workload = "total-queue" → workload: bad value
workload = "queue" → workload: bad value
workload = "bank" → workload: bad value
workload = "set-full" → workload: bad value
workload = "mutex" → workload: bad value
workload = "set" ; initial = 0 → initial: bad value
workload = "list-append" ; threads_per_key = 1 ; ops_per_key = 1 → threads_per_key: bad value
workload = "list-append" ; generator = '[:forever :txn]' ; final = '[:once :txn]' ; keys = 1000 ; max_txn = 100 ; appends_per_key = 10000 ; model = "snapshot-isolation" → (4, 2, 0, 0) (None, None, None) (ListAppend, Forever(Client(Txn)), Some(Once(Client(Txn)))) TransactionShape { keys: 1000, most: 100, appends: 10000 } (None, SnapshotIsolation, 100000)
workload = "list-append" ; keys = 1001 → keys: bad value
workload = "list-append" ; max_txn = 101 → max_txn: bad value
workload = "list-append" ; appends_per_key = 10001 → appends_per_key: bad value
workload = "list-append" ; model = "serial" → model: bad value
workload = "list-append" → generator: bad value
schedule = ['[1000001 [:undo]]'] → schedule: bad value
schedule = ['[[:ms 86400001] [:undo]]'] → schedule: bad value
schedule = ['[[:ms -1] [:undo]]'] → schedule: bad value
schedule = ['[[:s 1] [:undo]]'] → schedule: bad value"##;

#[test]
fn documents_mean_tests(rt: HostRuntime) {
    for row in ROWS.lines() {
        let (lines, expected) = row.split_once(" → ").unwrap_or((row, ""));
        assert!(rt; means(rt.alloc(), lines, expected), "{row}");
    }
}

/// Lines that are bad by themselves, in the order of their keys. Of all that follow one, it is told first.
const BAD: &str =
    r##"start = '{:nodes []}' ; workload = "queue" ; generator = '[:once :red]' ; clients = 17 ; ops = 1000001 ; time_limit = 86400001 ; rate = 1000001 ; threads_per_key = 17 ; ops_per_key = 1000001 ; recovery = 3600001 ; final = '[:once :red]' ; initial = "0" ; keys = 4 ; max_txn = 4 ; appends_per_key = 32 ; model = "serializable" ; seed = -1 ; budget = 10000001 ; schedule = ['[0 [:begin 1 [:pause ["n9"]]]]']"##;

#[test]
fn values_are_judged_in_order(rt: HostRuntime) {
    for line in BAD.split(" ; ") {
        let (key, _) = line.split_once(" = ").unwrap_or((line, ""));
        let (_, rest) = BAD.split_once(line).unwrap_or(("", ""));
        let lines = format!(in rt.alloc(); "{line}{rest}").unwrap_or(String::new(rt.alloc()));
        let bad = format!(in rt.alloc(); "{key}: bad value").unwrap_or(String::new(rt.alloc()));
        assert!(rt;
            lines.is_empty() || bad.is_empty() || means(rt.alloc(), &lines, &bad),
            "{line}"
        );
    }
}
