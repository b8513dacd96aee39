//! Worked examples of the command `search`: settings, with a comment at their head; what a run and a smaller schedule make of
//! what is found; and who is told how far it is. Which candidate is the first that fails, and its schedule, a slow program in
//! another language works out from the definitions.

use crate::rows::{Texts, first_wrong};
use jh_cli::{SearchQuestion, search_run};
use jh_random_faults::Palette;
use jh_search::SearchObserver;
use std::alloc::Global;
use std::sync::Wait;
use std::thread::Threads;

#[test]
fn finds_and_refuses(rt: HostRuntime) {
    let rows =
        r#"# The entries of the settings stay among those of the candidate. The mode means nothing.
start = '{:nodes ["a" "b" "c"]}'
mode = "threads"
store = "lww"
workload = "register"
generator = '[:mix [:forever :read] [:forever [:write 1]] [:forever [:write 2]]]'
clients = 3
ops = 12
seed = 5
schedule = ['[2 [:begin 7 [:kill ["a"]]]]', '[1 [:withdraw 7]]']
→ 1
# candidate 1 of 40: invalid
budget = 100000
clients = 3
generator = "[:mix [:forever :read] [:forever [:write 1]] [:forever [:write 2]]]"
mode = "serial"
ops = 12
rows = 4096
schedule = [
    '[2 [:begin 7 [:kill ["a"]]]]',
    "[1 [:withdraw 7]]",
    '[2 [:begin 11 [:cut [["c" "b"]]]]]',
    '[6 [:begin 8 [:cut [["a" "b"] ["a" "c"] ["b" "a"] ["c" "a"]]]]]',
    '[6 [:begin 9 [:slow 50 [["a" "c"] ["b" "c"] ["c" "a"] ["c" "b"]]]]]',
    '[6 [:begin 10 [:fix 50 [["a" "b"] ["b" "a"] ["b" "c"] ["c" "b"]]]]]',
    "[7 [:withdraw 9]]",
    "[8 [:withdraw 8]]",
    "[9 [:withdraw-all]]",
    "[11 [:withdraw 11]]",
]
seed = 6
start = '{:nodes ["a" "b" "c"], :cut [], :slow [], :loss [], :down [], :clock []}'
store = "lww"
tick_every = 0
volatile = false
workload = "register"
§ # One node has no links, so no faults of links. A kill loses what volatile nodes hold.
start = '{:nodes ["n1"]}'
store = "local"
volatile = true
workload = "set"
clients = 1
ops = 6
generator = '[:seq [:limit 5 [:rising 0]] [:once :read]]'
→ 1
# candidate 7 of 40: invalid
budget = 100000
clients = 1
generator = "[:seq [:limit 5 [:rising 0]] [:once :read]]"
mode = "serial"
ops = 6
rows = 4096
schedule = [
    '[1 [:begin 4 [:kill ["n1"]]]]',
    '[2 [:begin 3 [:bump {"n1" -100}]]]',
    "[2 [:withdraw 4]]",
    '[4 [:begin 1 [:bump {"n1" 100}]]]',
    '[4 [:begin 2 [:pause ["n1"]]]]',
    "[5 [:withdraw 1]]",
    "[5 [:withdraw 2]]",
    "[5 [:withdraw-all]]",
    "[6 [:withdraw 3]]",
]
seed = 7
start = '{:nodes ["n1"], :cut [], :slow [], :loss [], :down [], :clock []}'
store = "local"
tick_every = 0
volatile = true
workload = "set"
§ # A majority keeps a register.
start = '{:nodes ["a" "b" "c"]}'
store = "quorum"
workload = "register"
generator = '[:mix [:forever :read] [:forever [:write 1]] [:forever [:write 2]]]'
clients = 3
ops = 12
seed = 5
→ 0
# none of 40 candidates is invalid, 0 unknown
§ # A judge that may reach nothing knows nothing.
start = '{:nodes ["n1"]}'
store = "local"
workload = "register"
clients = 1
ops = 1
budget = 0
generator = '[:once :read]'
→ 2
# none of 40 candidates is invalid, 40 unknown
§ mode = "sometimes" → 3 settings: start: missing
§ start = "a → 3 settings: not TOML
"#;
    let texts = Texts::Inputs("jeprun search --runs 40 --faults 4 --threads 2");
    assert_eq!(rt; first_wrong(&rt, rt.alloc(), texts, rows), None);
}

#[test]
fn one_is_shown(rt: HostRuntime) {
    let rows = r#"# The first candidate of the settings above that fails.
start = '{:nodes ["a" "b" "c"]}'
store = "lww"
workload = "register"
generator = '[:mix [:forever :read] [:forever [:write 1]] [:forever [:write 2]]]'
clients = 3
ops = 12
seed = 5
schedule = ['[2 [:begin 7 [:kill ["a"]]]]', '[1 [:withdraw 7]]']
→ 0
schedule = [
    '[2 [:begin 7 [:kill ["a"]]]]',
    "[1 [:withdraw 7]]",
    '[2 [:begin 11 [:cut [["c" "b"]]]]]',
    '[6 [:begin 8 [:cut [["a" "b"] ["a" "c"] ["b" "a"] ["c" "a"]]]]]',
    '[6 [:begin 9 [:slow 50 [["a" "c"] ["b" "c"] ["c" "a"] ["c" "b"]]]]]',
    '[6 [:begin 10 [:fix 50 [["a" "b"] ["b" "a"] ["b" "c"] ["c" "b"]]]]]',
    "[7 [:withdraw 9]]",
    "[8 [:withdraw 8]]",
    "[9 [:withdraw-all]]",
    "[11 [:withdraw 11]]",
]
§ start = "a → 3 settings: not TOML
"#;
    let texts = Texts::Inputs("jeprun search --runs 40 --faults 4 --show 1");
    assert_eq!(rt; first_wrong(&rt, rt.alloc(), texts, rows), None);
}

/// Six calls over a second: the second one ends after a third of it.
#[test]
fn one_is_shown_over_time(rt: HostRuntime) {
    let rows = r#"start = '{:nodes ["n1"]}'
store = "local"
volatile = true
workload = "set"
clients = 1
ops = 6
generator = '[:seq [:limit 5 [:rising 0]] [:once :read]]'
→ 0
schedule = [
    '[[:ms 166] [:begin 4 [:kill ["n1"]]]]',
    '[[:ms 333] [:begin 3 [:bump {"n1" -100}]]]',
    "[[:ms 333] [:withdraw 4]]",
    '[[:ms 666] [:begin 1 [:bump {"n1" 100}]]]',
    '[[:ms 666] [:begin 2 [:pause ["n1"]]]]',
    "[[:ms 833] [:withdraw 1]]",
    "[[:ms 833] [:withdraw 2]]",
    "[[:ms 833] [:withdraw-all]]",
    "[[:ms 1000] [:withdraw 3]]",
]
"#;
    let texts = Texts::Inputs("jeprun search --faults 4 --show 7 --ms 1000");
    assert_eq!(rt; first_wrong(&rt, rt.alloc(), texts, rows), None);
}

#[test]
fn kinds_are_named(rt: HostRuntime) {
    let rows =
        "not read → 3 --palette: not kinds of cut, slow, loss, fix, pause, kill, bump, with commas between\n";
    let texts = Texts::Inputs("jeprun search --palette cut,slows");
    assert_eq!(rt; first_wrong(&rt, rt.alloc(), texts, rows), None);
}

/// What it was told last.
#[derive(Drop)]
struct Seen {
    tried: u64,
    unknown: u64,
}

impl SearchObserver for Seen {
    fn see_tried(&mut self, tried: u64, unknown: u64) {
        self.tried = tried;
        self.unknown = unknown;
    }
}

/// Settings of which nothing is known.
const UNKNOWN: &str = r#"
start = '{:nodes ["n1"]}'
store = "local"
workload = "register"
clients = 1
ops = 1
budget = 0
generator = '[:once :read]'
"#;

/// What an observer is told last, and what is written.
fn seen_once<T: Threads + Wait + Sync>(rt: &T, alloc: Global) -> Option<(u64, u64, Vec<u8>)> {
    let mut seen = Seen {
        tried: 0,
        unknown: 0,
    };
    let question = SearchQuestion {
        from: 0,
        runs: 1_030,
        faults: 0,
        palette: Some(Palette::all()),
        threads: None,
        show: None,
    };
    let mut output = Vec::new(alloc);
    let mut input = UNKNOWN.as_bytes();
    search_run(rt, alloc, &mut input, &mut output, question, &mut seen).ok()?;
    Some((seen.tried, seen.unknown, output))
}

/// It is told behind each 1,024 candidates, and behind the last.
#[test]
fn an_observer_is_told_of_candidates(rt: HostRuntime) {
    let Some((tried, unknown, output)) = seen_once(&rt, rt.alloc()).or_else(|| seen_once(
        &rt,
        rt.alloc(),
    )) else {
        panic!(rt; "no answer")
    };
    assert_eq!(rt; (tried, unknown), (1_030, 1_030));
    assert!(rt;
        output.as_slice() == b"# none of 1030 candidates is invalid, 1030 unknown\n".as_slice()
    );
}
