//! Worked examples of the command `shrink`: settings, with a comment at their head; and who is told how far it is.

use crate::nobody::Nobody;
use crate::rows::{Texts, first_wrong};
use jh_cli::shrink_run;
use jh_shrink::ShrinkObserver;
use std::alloc::Global;

/// A node is paused, the two that took the write are killed and lose it, and the read that follows is stale. That the nodes are
/// up again is needed for the read to be answered; that the third one goes on is not.
const STALE_READ: &str = r#"
start = '{:nodes ["n1" "n2" "n3"]}'
mode = "threads"
store = "quorum"
volatile = true
workload = "register"
initial = 0
clients = 1
ops = 2
generator = '[:seq [:once [:write 5]] [:once :read]]'
schedule = [
    '[0 [:begin 1 [:pause ["n3"]]]]',
    '[1 [:begin 2 [:kill ["n1" "n2"]]]]',
    '[1 [:withdraw 2]]',
    '[1 [:withdraw 1]]',
]
"#;

#[test]
fn shrinks_and_refuses(rt: HostRuntime) {
    let rows = r#"# The stale read, of which the last entry can be spared. The mode means nothing.
start = '{:nodes ["n1" "n2" "n3"]}'
mode = "threads"
store = "quorum"
volatile = true
workload = "register"
initial = 0
clients = 1
ops = 2
generator = '[:seq [:once [:write 5]] [:once :read]]'
schedule = [
    '[0 [:begin 1 [:pause ["n3"]]]]',
    '[1 [:begin 2 [:kill ["n1" "n2"]]]]',
    '[1 [:withdraw 2]]',
    '[1 [:withdraw 1]]',
]
→ 1
:minimal
[0 [:begin 1 [:pause ["n3"]]]]
[1 [:begin 2 [:kill ["n1" "n2"]]]]
[1 [:withdraw 2]]
§ # A run that is valid. Named faults are written as their cuts, and a step of each kind.
start = '{:nodes ["n1" "n2" "n3"]}'
store = "quorum"
workload = "register"
clients = 1
ops = 1
generator = '[:once :read]'
schedule = [
    '[9 [:begin 1 [:halves]]]',
    '[9 [:begin 2 [:bump {"n3" -7, "n1" 5}]]]',
    '[9 [:withdraw 2]]',
    '[9 [:withdraw-all]]',
    '[9 [:undo]]',
    '[9 [:redo]]',
]
→ 0
:not-failing
[9 [:begin 1 [:cut [["n1" "n2"] ["n1" "n3"] ["n2" "n1"] ["n3" "n1"]]]]]
[9 [:begin 2 [:bump {"n1" 5, "n3" -7}]]]
[9 [:withdraw 2]]
[9 [:withdraw-all]]
[9 [:undo]]
[9 [:redo]]
§ # Nothing to spare.
start = '{:nodes ["n1"]}'
store = "local"
workload = "register"
clients = 1
ops = 1
generator = '[:once :read]'
→ 0
:not-failing
§ mode = "sometimes" → 3 settings: start: missing
§ start = "a → 3 settings: not TOML
"#;
    let texts = Texts::Inputs("jeprun shrink");
    assert_eq!(rt; first_wrong(&rt, rt.alloc(), texts, rows), None);
}

#[test]
fn few_runs_are_a_budget(rt: HostRuntime) {
    let rows = r#"start = '{:nodes ["n1" "n2" "n3"]}'
store = "quorum"
volatile = true
workload = "register"
initial = 0
clients = 1
ops = 2
generator = '[:seq [:once [:write 5]] [:once :read]]'
schedule = [
    '[0 [:begin 1 [:pause ["n3"]]]]',
    '[1 [:begin 2 [:kill ["n1" "n2"]]]]',
    '[1 [:withdraw 2]]',
    '[1 [:withdraw 1]]',
]
→ 2
:budget
[0 [:begin 1 [:pause ["n3"]]]]
[1 [:begin 2 [:kill ["n1" "n2"]]]]
[1 [:withdraw 2]]
[1 [:withdraw 1]]
"#;
    let texts = Texts::Inputs("jeprun shrink --budget 0");
    assert_eq!(rt; first_wrong(&rt, rt.alloc(), texts, rows), None);
}

/// What it was told last.
#[derive(Drop)]
struct Seen {
    entries: usize,
    asked: u64,
}

impl ShrinkObserver for Seen {
    fn see(&mut self, entries: usize, asked: u64) {
        self.entries = entries;
        self.asked = asked;
    }
}

/// What an observer is told last, and what is written.
fn seen_once(alloc: Global) -> Option<(usize, u64, Vec<u8>)> {
    let mut seen = Seen {
        entries: 0,
        asked: 0,
    };
    let mut output = Vec::new(alloc);
    let mut input = STALE_READ.as_bytes();
    shrink_run(alloc, &mut input, &mut output, 3, &mut seen).ok()?;
    Some((seen.entries, seen.asked, output))
}

/// The last of three runs is that of the first half alone, when all four entries are still left.
#[test]
fn an_observer_is_told(rt: HostRuntime) {
    let Some((entries, asked, output)) = seen_once(rt.alloc()).or_else(|| seen_once(rt.alloc()))
    else {
        panic!(rt; "no answer")
    };
    assert_eq!(rt; (entries, asked), (4, 3));
    assert!(rt; output.as_slice().starts_with(b":budget\n"));
}

fn shrunk_once(alloc: Global) -> Option<Vec<u8>> {
    let mut output = Vec::new(alloc);
    let mut input = STALE_READ.as_bytes();
    shrink_run(alloc, &mut input, &mut output, 10_000, &mut Nobody).ok()?;
    Some(output)
}

#[test]
fn nobody_need_be_told(rt: HostRuntime) {
    let given = shrunk_once(rt.alloc()).or_else(|| shrunk_once(rt.alloc()));
    let wanted =
        ":minimal\n[0 [:begin 1 [:pause [\"n3\"]]]]\n[1 [:begin 2 [:kill [\"n1\" \"n2\"]]]]\n[1 [:withdraw 2]]\n";
    assert!(rt; given.is_some_and(|given| given.as_slice() == wanted.as_bytes()));
}
