//! The settings under `examples/run/`, each with the status that docs/runs.md tells. `tools/examples` writes this file.

use crate::rows::{Texts, first_wrong};

static EXAMPLES: &str =
    r#"# Four clients on threads read and write a register while a node is cut off and messages are lost. Runs may differ, and each is
# valid: who is cut off fails, and a majority knows the last value.
start = '{:nodes ["n1" "n2" "n3"]}'
store = "quorum"
workload = "register"
initial = 0
clients = 4
ops = 40
generator = '[:mix [:forever :read] [:forever [:write 1]] [:forever [:write 2]] [:forever [:cas 1 2]]]'
schedule = [
    '[5 [:begin 1 [:split-one "n3"]]]',
    '[15 [:begin 2 [:loss 5 [["n1" "n2"]]]]]',
    '[25 [:withdraw 1]]',
    '[30 [:undo]]',
    '[40 [:withdraw-all]]',
]
→ 0
§ # Three clients on threads add to a set while a link is cut, and one of them reads it at the end: no element is lost.
start = '{:nodes ["n1" "n2" "n3"]}'
store = "quorum"
workload = "set"
clients = 3
ops = 31
rows = 100
generator = '[:phases [:limit 30 [:rising 0]] [:once :read]]'
schedule = [
    '[5 [:begin 1 [:cut [["n1" "n2"]]]]]',
    '[10 [:begin 2 [:bump {"n2" 500}]]]',
    '[20 [:withdraw-all]]',
]
→ 0
§ # A write reaches a majority, whose nodes are then killed and lose their copies: the read is stale.
start = '{:nodes ["n1" "n2" "n3"]}'
mode = "serial"
store = "quorum"
workload = "register"
volatile = true
initial = 0
clients = 1
ops = 2
generator = '[:seq [:once [:write 5]] [:once :read]]'
schedule = [
    '[0 [:begin 1 [:pause ["n3"]]]]',
    '[1 [:begin 2 [:kill ["n1" "n2"]]]]',
    '[1 [:withdraw 2]]',
    '[1 [:withdraw 1]]',
]
→ 1
§ # A node is cut off while clients add: what it can not do fails, and the sums stay right.
start = '{:nodes ["n1" "n2" "n3"]}'
mode = "serial"
store = "quorum"
workload = "counter"
seed = 7
clients = 3
ops = 24
generator = '[:mix [:forever [:add 1]] [:forever [:add 3]] [:forever :read]]'
schedule = [
    '[6 [:begin 1 [:cut [["n1" "n2"] ["n2" "n1"] ["n1" "n3"] ["n3" "n1"]]]]]',
    '[14 [:withdraw 1]]',
]
→ 0
§ # Some messages between two nodes are lost, and a node is paused: no element that was acknowledged is lost.
start = '{:nodes ["n1" "n2" "n3"]}'
mode = "serial"
store = "quorum"
workload = "set"
seed = 3
clients = 3
ops = 13
generator = '[:seq [:limit 12 [:rising 0]] [:once :read]]'
schedule = [
    '[2 [:begin 1 [:loss 6 [["n1" "n2"] ["n2" "n1"]]]]]',
    '[5 [:begin 2 [:pause ["n3"]]]]',
    '[9 [:withdraw-all]]',
]
→ 0
§ # A node loses its copy, and before it is told anew the other two lose theirs: ids are given twice.
start = '{:nodes ["n1" "n2" "n3"]}'
mode = "serial"
store = "quorum"
workload = "unique-ids"
volatile = true
clients = 3
ops = 12
generator = '[:forever :generate]'
schedule = [
    '[3 [:begin 1 [:kill ["n1"]]]]',
    '[4 [:withdraw 1]]',
    '[4 [:begin 2 [:kill ["n2" "n3"]]]]',
    '[6 [:withdraw 2]]',
]
→ 1
§ # The clock of the first node is ahead by a second: its old write wins over a newer one.
start = '{:nodes ["n1" "n2"], :clock [["n1" 1000]]}'
mode = "serial"
store = "lww"
workload = "register"
initial = 0
clients = 2
ops = 3
generator = '[:seq [:once [:write 1]] [:once [:write 2]] [:once :read]]'
schedule = [
    '[3 [:begin 1 [:pause ["n2"]]]]',
]
→ 1
§ # Nodes that are cut off count by themselves, and the last writer takes the others' sums away.
start = '{:nodes ["n1" "n2" "n3"]}'
mode = "serial"
store = "lww"
workload = "counter"
tick_every = 4
seed = 11
clients = 3
ops = 20
generator = '[:mix [:forever [:add 1]] [:forever :read]]'
schedule = [
    '[4 [:begin 1 [:cut [["n1" "n2"] ["n2" "n1"] ["n1" "n3"] ["n3" "n1"]]]]]',
    '[12 [:withdraw 1]]',
]
→ 1
§ # Sets are written whole, so the last writer takes elements away that others were told of.
start = '{:nodes ["n1" "n2" "n3"]}'
mode = "serial"
store = "lww"
workload = "set"
tick_every = 3
clients = 3
ops = 10
generator = '[:seq [:limit 9 [:rising 0]] [:once :read]]'
schedule = [
    '[2 [:begin 1 [:cut [["n1" "n2"] ["n2" "n1"] ["n1" "n3"] ["n3" "n1"]]]]]',
    '[7 [:withdraw 1]]',
]
→ 1
§ # A node that is cut off makes the ids that others make.
start = '{:nodes ["n1" "n2" "n3"]}'
mode = "serial"
store = "lww"
workload = "unique-ids"
clients = 3
ops = 12
generator = '[:forever :generate]'
schedule = [
    '[3 [:begin 1 [:cut [["n1" "n2"] ["n2" "n1"] ["n1" "n3"] ["n3" "n1"]]]]]',
    '[9 [:withdraw 1]]',
]
→ 1
§ # Each node has a register of its own: a client at another node reads what was there at first.
start = '{:nodes ["n1" "n2" "n3"]}'
mode = "serial"
store = "local"
workload = "register"
initial = 0
clients = 2
ops = 4
generator = '[:seq [:once [:write 1]] [:limit 3 [:forever :read]]]'
schedule = [
    '[1 [:begin 1 [:bump {"n1" 500}]]]',
    '[1 [:undo]]',
]
→ 1
§ # One node alone counts, and is paused for a while: its sums are right.
start = '{:nodes ["n1"]}'
mode = "serial"
store = "local"
workload = "counter"
seed = 5
clients = 2
ops = 16
generator = '[:mix [:forever [:add 2]] [:forever :read]]'
schedule = [
    '[4 [:begin 1 [:pause ["n1"]]]]',
    '[8 [:withdraw 1]]',
]
→ 0
§ # Each node has elements of its own: the final read of one knows nothing of the others'.
start = '{:nodes ["n1" "n2" "n3"]}'
mode = "serial"
store = "local"
workload = "set"
clients = 3
ops = 7
generator = '[:seq [:limit 6 [:rising 0]] [:once :read]]'
schedule = [
    '[3 [:begin 1 [:slow 900 [["n1" "n2"] ["n2" "n1"]]]]]',
    '[5 [:withdraw-all]]',
]
→ 1
§ # Each node numbers from 0 by itself.
start = '{:nodes ["n1" "n2" "n3"]}'
mode = "serial"
store = "local"
workload = "unique-ids"
clients = 3
ops = 6
generator = '[:each-thread [:limit 2 [:forever :generate]]]'
schedule = [
    '[2 [:begin 1 [:kill ["n3"]]]]',
    '[4 [:withdraw 1]]',
]
→ 1
"#;

#[test]
fn examples_have_their_statuses(rt: HostRuntime) {
    assert_eq!(rt;
        first_wrong(&rt, rt.alloc(), Texts::Statuses, EXAMPLES),
        None
    );
}

#[test]
fn their_histories_are_judged_alike(rt: HostRuntime) {
    assert_eq!(rt;
        first_wrong(&rt, rt.alloc(), Texts::Histories, EXAMPLES),
        None
    );
}
