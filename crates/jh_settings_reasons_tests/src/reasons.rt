//! Rows of settings, each with the line behind its refusal.
//!
//! What runs out of memory is made once more, so that the tests stand one refused allocation.

use jh_drive_settings::drive_settings_of;
use jh_settings::{SettingsError, settings_of};
use jh_settings_reasons::{SettingsKind, settings_reasons};
use std::alloc::{AllocError, Global};

/// What is good of a run, a line for each key that is needed.
const GOOD_RUN: &str = r##"start = '{:nodes ["n1" "n2" "n3"]}'
store = "quorum"
workload = "register"
generator = "[:once :read]"
clients = 4
ops = 2
"##;

/// What is good of a test.
const GOOD_TEST: &str = r##"start = '{:nodes ["n1" "n2"]}'
workload = "register"
generator = "[:once :read]"
clients = 4
ops = 2
"##;

/// Lines with ` ; ` between them, and behind an arrow the line that is expected. The lines stand before the good ones, and in the
/// place of those with the same keys.
const RUN_ROWS: &str =
    r##"ops = = 1 → line 1, column 7: invalid value, expected a string, number, boolean, date-time, array or inline table
zebra = 1 → keys: start, store, workload, generator, clients, ops, mode, volatile, initial, tick_every, rows, seed, budget, schedule
#store → store: "quorum", "lww" or "local"
#generator → generator: a text of EDN, a generator
#start → start: a text of EDN, an environment
store = "raft" → store: "quorum", "lww" or "local"
workload = "list-append" → workload: "register", "counter", "set" or "unique-ids"
clients = 17 → clients: 1 to 16
ops = 10001 → ops: 1 to 10,000; of a set 1 to 1,000
workload = "set" ; ops = 1001 → ops: 1 to 10,000; of a set 1 to 1,000
mode = "both" → mode: "threads" or "serial"
volatile = 1 → volatile: true or false
workload = "counter" ; initial = 0 → initial: an integer of 64 bits, and only of a register
tick_every = 10001 → tick_every: 0 to 10,000; 0 for never
rows = 0 → rows: 1 to 65,536
seed = -1 → seed: 0 to 9,223,372,036,854,775,807
budget = 10000001 → budget: 0 to 10,000,000
start = 1 → no text
start = ' , ' → no element
start = '{:nodes ["n1"]} 1' → more than one element
start = '{:nodes ["n1"}' → line 1: bad token
start = '{:nodes []}' → no nodes
start = '[1]' → not a map
generator = 1 → no text
generator = '[:once' → line 1: unexpected end
generator = ':read' → not a generator: :read
generator = '[:once :red]' → not a generator: [:once :red]
generator = '[:mix [:once :read] [:limit 3 [:onec :read]]]' → [:mix] 2, [:limit] 1: not a generator: [:onec :read]
generator = '[:limit -1 [:onec :read]]' → not a generator: [:limit -1 [:onec :read]]
generator = '[:reserve 1 [:once :read] 1 [:seq [:nil] :read] [:nil]]' → [:reserve] 2, [:seq] 2: not a generator: :read
generator = '[:reserve 1 [:nil] :read]' → [:reserve] 2: not a generator: :read
generator = '[:reserve 1 [:nil] 2 [:onec :read]]' → not a generator: [:reserve 1 [:nil] 2 [:onec :read]]
generator = '[:phases [:nil] [:clients [:each-thread {:an-element "of more than forty characters"}]]]' → [:phases] 2, [:clients] 1, [:each-thread] 1: not a generator: {:an-element "of more than forty charact
generator = '["äääääääääääääääääääääääääääääääääääääääääääääääää"]' → not a generator: ["ääääääääääääääääääääääääääääääääääääää
generator = '[:once [:add 1]]' → does not suit the workload or the number of clients
schedule = 1 → not an array
schedule = [1] → entry 0: no text
schedule = ['[0 [:undo]]', '[0 [:undo]'] → entry 1: line 1: unexpected end
schedule = ['[0 [:undo]]', '[0 [:undo]] 1'] → entry 1: more than one element
schedule = ['[0 [:undo]]', '[0]'] → entry 1: not [AT STEP]
schedule = ['[0 [:undo]]', '[10001 [:undo]]'] → entry 1: AT is no number from 0 to 10000
schedule = ['[[:ms 1] [:undo]]'] → entry 0: AT is no number from 0 to 10000
schedule = ['[0 [:undo]]', '[1 [:redo]]', '[1 [:undo]]', '[1 [:begin 1 [:pause ["n4"]]]]', '1'] → entry 3: unknown node n4
schedule = ['[0 [:begin 1 [:cut [["n1" "n2"] ("n2" "n9")]]]]'] → entry 0: unknown node n9
schedule = ['[0 [:begin 1 [:bump {"n1" 5, "n 7" 1}]]]'] → entry 0: unknown node n 7
schedule = ['[0 [:begin 1 [:split-one "a\nb"]]]'] → entry 0: unknown node a\u{a}b
schedule = ['[1 [:begin 1]]'] → entry 0: bad step
schedule = ['[1 [:withdraw -1]]'] → entry 0: bad id"##;

const TEST_ROWS: &str = r##"start = "a → line 1, column 11: invalid string
store = "lww" → keys: start, workload, generator, clients, ops, time_limit, rate, threads_per_key, ops_per_key, recovery, final, initial, keys, max_txn, appends_per_key, model, seed, budget, schedule
#ops → ops: 1 to 1,000,000
workload = "queue" → workload: "register", "counter", "set", "unique-ids" or "list-append"
time_limit = 0 → time_limit: milliseconds, 1 to 86,400,000
rate = 0 → rate: calls a second, 1 to 1,000,000
threads_per_key = 3 ; ops_per_key = 1 → threads_per_key: 1 to 16, and it divides clients; with ops_per_key, not with list-append
threads_per_key = 2 → ops_per_key: 1 to 1,000,000; with threads_per_key, not with list-append
recovery = -1 → recovery: milliseconds, 0 to 3,600,000
keys = 4 → keys: 1 to 1,000, and only with list-append
max_txn = 4 → max_txn: 1 to 100, and only with list-append
appends_per_key = 4 → appends_per_key: 1 to 10,000, and only with list-append
model = "serial" → model: "strict-serializable", "serializable", "strong-snapshot-isolation" or "snapshot-isolation", and only with list-append
final = '[:seq [:once :read] 1]' → [:seq] 2: not a generator: 1
threads_per_key = 2 ; ops_per_key = 1 ; final = '[:once :read]' → does not suit the workload or the number of clients, or keys are independent
workload = "list-append" → does not suit the workload or the number of clients
schedule = ['[1000001 [:undo]]'] → entry 0: AT is no number from 0 to 1000000, and no [:ms T] with T from 0 to 86400000
schedule = ['[[:ms 1] [:undo]]', '[[:ms 86400001] [:undo]]'] → entry 1: AT is no number from 0 to 1000000, and no [:ms T] with T from 0 to 86400000
schedule = ['[[:ms 1] [:begin 1 [:pause ["n3"]]]]'] → entry 0: unknown node n3"##;

/// Whether one of the lines gives this key a value, or leaves it out, as `#key`.
fn has_key(lines: &str, key: &str) -> bool {
    for line in lines.split(" ; ") {
        let (other, _) = line.split_once(" = ").unwrap_or((line, ""));
        if other == key || other.strip_prefix("#") == Some(key) {
            return true;
        }
    }
    false
}

/// The document of lines, with ` ; ` between them, and of those good ones in whose place none of them stands.
fn document_of(alloc: Global, lines: &str, good: &str) -> Result<String, AllocError> {
    let mut document = String::new(alloc);
    for line in lines.split(" ; ") {
        document.push_str(line)?;
        document.push_str("\n")?;
    }
    for line in good.lines() {
        let (key, _) = line.split_once(" = ").unwrap_or((line, ""));
        if !has_key(lines, key) {
            document.push_str(line)?;
            document.push_str("\n")?;
        }
    }
    Ok(document)
}

/// Why these bytes are refused as settings of this kind. None where they are settings.
fn refusal_of(alloc: Global, kind: SettingsKind, bytes: &[u8]) -> Option<SettingsError> {
    match kind {
        SettingsKind::Run => settings_of(alloc, bytes).err(),
        SettingsKind::Test => drive_settings_of(alloc, bytes).err(),
    }
}

/// Whether this line, and no other, stands behind the refusal of these bytes.
fn is_reason(alloc: Global, kind: SettingsKind, bytes: &[u8], expected: &str) -> bool {
    let Some(refusal) = refusal_of(alloc, kind, bytes) else {
        return false;
    };
    let Ok(lines) = settings_reasons(alloc, kind, bytes, &refusal) else {
        return false;
    };
    match lines.as_slice() {
        [line] => line.as_slice() == expected.as_bytes(),
        _ => false,
    }
}

/// Whether the document of these lines is refused, with this line behind it.
fn row_holds(alloc: Global, kind: SettingsKind, lines: &str, expected: &str) -> bool {
    let good = match kind {
        SettingsKind::Run => GOOD_RUN,
        SettingsKind::Test => GOOD_TEST,
    };
    let Ok(document) = document_of(alloc, lines, good) else {
        return false;
    };
    is_reason(alloc, kind, document.as_bytes(), expected)
}

#[test]
fn lines_stand_behind_refusals_of_runs(rt: HostRuntime) {
    for row in RUN_ROWS.lines() {
        let (lines, expected) = row.split_once(" → ").unwrap_or((row, ""));
        assert!(rt;
            row_holds(rt.alloc(), SettingsKind::Run, lines, expected)
                || row_holds(rt.alloc(), SettingsKind::Run, lines, expected),
            "{row}"
        );
    }
}

#[test]
fn lines_stand_behind_refusals_of_tests(rt: HostRuntime) {
    for row in TEST_ROWS.lines() {
        let (lines, expected) = row.split_once(" → ").unwrap_or((row, ""));
        assert!(rt;
            row_holds(rt.alloc(), SettingsKind::Test, lines, expected)
                || row_holds(rt.alloc(), SettingsKind::Test, lines, expected),
            "{row}"
        );
    }
}

#[test]
fn other_bytes_have_their_lines(rt: HostRuntime) {
    let bytes = b"start = \"\xff\"";
    assert!(rt;
        is_reason(rt.alloc(), SettingsKind::Run, bytes, "not UTF-8")
            || is_reason(rt.alloc(), SettingsKind::Run, bytes, "not UTF-8")
    );
}

#[test]
fn nothing_stands_behind_out_of_memory(rt: HostRuntime) {
    let refusal = SettingsError::OutOfMemory;
    let lines = settings_reasons(rt.alloc(), SettingsKind::Run, b"", &refusal);
    assert!(rt; lines.is_ok_and(|lines| lines.is_empty()));
}
