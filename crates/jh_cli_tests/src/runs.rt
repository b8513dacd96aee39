//! Worked examples of the command `run`: settings, with a comment at their head.

use crate::rows::{Texts, first_wrong};

#[test]
fn runs_and_refuses(rt: HostRuntime) {
    let rows =
        r#"# A node is paused, the two that took the write are killed and lose it, and the read that follows is stale.
start = '{:nodes ["n1" "n2" "n3"]}'
mode = "serial"
store = "quorum"
volatile = true
workload = "register"
initial = 0
clients = 1
ops = 2
generator = '[:seq [:once [:write 5]] [:once :read]]'
schedule = [
    '[0 [:begin 1 [:pause ["n3"]]]]',
    '[1 [:begin 2 [:kill ["n1" "n2"]]]]',
    '[1 [:withdraw 2]]',
    '[1 [:withdraw 1]]',
]
→ 1
{:index 0, :type :info, :process :nemesis, :f :step, :value 0}
{:index 1, :type :info, :process :nemesis, :f :step, :value [0 0], :event 0}
{:index 2, :type :invoke, :process 0, :f :write, :value 5}
{:index 3, :type :ok, :process 0, :f :write, :value 5, :event 1}
{:index 4, :type :info, :process :nemesis, :f :step, :value 1}
{:index 5, :type :info, :process :nemesis, :f :step, :value [1 0], :event 2}
{:index 6, :type :info, :process :nemesis, :f :step, :value 2}
{:index 7, :type :info, :process :nemesis, :f :step, :value [2 0], :event 3}
{:index 8, :type :info, :process :nemesis, :f :step, :value 3}
{:index 9, :type :info, :process :nemesis, :f :step, :value [3 0], :event 4}
{:index 10, :type :invoke, :process 0, :f :read, :value nil}
{:index 11, :type :ok, :process 0, :f :read, :value 0, :event 5}
:active []
{:nodes ["n1" "n2" "n3"], :cut [], :slow [], :loss [], :down [], :clock []}
{:valid? false}
§ # Two clients write, one after the other, at two nodes; the clock of the first node is ahead.
start = '{:nodes ["n1" "n2"], :clock [["n1" 1000]]}'
mode = "serial"
store = "lww"
workload = "register"
initial = 0
clients = 2
ops = 3
generator = '[:seq [:once [:write 1]] [:once [:write 2]] [:once :read]]'
→ 1
{:index 0, :type :invoke, :process 0, :f :write, :value 1}
{:index 1, :type :ok, :process 0, :f :write, :value 1, :event 0}
{:index 2, :type :invoke, :process 1, :f :write, :value 2}
{:index 3, :type :ok, :process 1, :f :write, :value 2, :event 1}
{:index 4, :type :invoke, :process 0, :f :read, :value nil}
{:index 5, :type :ok, :process 0, :f :read, :value 1, :event 2}
:active []
{:nodes ["n1" "n2"], :cut [], :slow [], :loss [], :down [], :clock [["n1" 1000]]}
{:valid? false}
§ # The same without the offset.
start = '{:nodes ["n1" "n2"]}'
mode = "serial"
store = "lww"
workload = "register"
initial = 0
clients = 2
ops = 3
generator = '[:seq [:once [:write 1]] [:once [:write 2]] [:once :read]]'
→ 0
{:index 0, :type :invoke, :process 0, :f :write, :value 1}
{:index 1, :type :ok, :process 0, :f :write, :value 1, :event 0}
{:index 2, :type :invoke, :process 1, :f :write, :value 2}
{:index 3, :type :ok, :process 1, :f :write, :value 2, :event 1}
{:index 4, :type :invoke, :process 0, :f :read, :value nil}
{:index 5, :type :ok, :process 0, :f :read, :value 2, :event 2}
:active []
{:nodes ["n1" "n2"], :cut [], :slow [], :loss [], :down [], :clock []}
{:valid? true, :order [0 1 2]}
§ # A register that only can be read and written is asked to add.
start = '{:nodes ["n1"]}'
mode = "serial"
store = "local"
workload = "register"
clients = 1
ops = 1
generator = '[:once [:add 1]]'
→ 3 settings: generator: bad value
§ start = "a → 3 settings: not TOML
§ → 3 settings: start: missing
§ frob = 1 → 3 settings: frob: unknown
"#;
    let texts = Texts::Inputs("jeprun run");
    assert_eq!(rt; first_wrong(&rt, rt.alloc(), texts, rows), None);
}

/// Runs on threads whose bytes no schedule of the threads changes: one client, and no entry of a schedule.
#[test]
fn runs_on_threads(rt: HostRuntime) {
    let rows = r#"# By default a run is made on threads.
start = '{:nodes ["n1" "n2" "n3"]}'
store = "quorum"
workload = "register"
clients = 1
ops = 2
rows = 4
generator = '[:seq [:once [:write 5]] [:once :read]]'
→ 0
{:index 0, :type :invoke, :process 0, :f :write, :value 5}
{:index 1, :type :ok, :process 0, :f :write, :value 5, :event 0}
{:index 2, :type :invoke, :process 0, :f :read, :value nil}
{:index 3, :type :ok, :process 0, :f :read, :value 5, :event 1}
:active []
{:nodes ["n1" "n2" "n3"], :cut [], :slow [], :loss [], :down [], :clock []}
{:valid? true, :order [0 1]}
§ # A row too few.
start = '{:nodes ["n1" "n2" "n3"]}'
store = "quorum"
workload = "register"
clients = 1
ops = 2
rows = 3
generator = '[:seq [:once [:write 5]] [:once :read]]'
→ 4 history full
"#;
    let texts = Texts::Inputs("jeprun run");
    assert_eq!(rt; first_wrong(&rt, rt.alloc(), texts, rows), None);
}

/// Runs on threads of two clients, and what is alike in all of them.
#[test]
fn runs_in_any_order(rt: HostRuntime) {
    let rows = r#"# A fault that changes nothing is active at the end.
start = '{:nodes ["n1" "n2" "n3"]}'
store = "quorum"
workload = "register"
initial = 0
clients = 2
ops = 8
tick_every = 4
generator = '[:mix [:forever :read] [:forever [:write 1]] [:forever [:cas 0 1]]]'
schedule = ['[0 [:begin 1 [:cut []]]]']
→ 0
:active [1]
{:nodes ["n1" "n2" "n3"], :cut [], :slow [], :loss [], :down [], :clock []}
{:valid? true
§ # The same with too few rows.
start = '{:nodes ["n1" "n2" "n3"]}'
store = "quorum"
workload = "register"
initial = 0
clients = 2
ops = 8
tick_every = 4
rows = 5
generator = '[:mix [:forever :read] [:forever [:write 1]] [:forever [:cas 0 1]]]'
schedule = ['[0 [:begin 1 [:cut []]]]']
→ 4 history full
§ # An entry that is due after the last call.
start = '{:nodes ["n1" "n2" "n3"]}'
store = "quorum"
workload = "register"
clients = 2
ops = 4
generator = '[:forever :read]'
schedule = ['[0 [:begin 1 [:cut []]]]', '[10000 [:withdraw 1]]']
→ 0
:active []
{:nodes ["n1" "n2" "n3"], :cut [], :slow [], :loss [], :down [], :clock []}
{:valid? true
§ # A set that is read at the end.
start = '{:nodes ["n1" "n2" "n3"]}'
store = "quorum"
workload = "set"
clients = 2
ops = 10
rows = 22
generator = '[:phases [:limit 9 [:rising 0]] [:once :read]]'
→ 0
:active []
{:nodes ["n1" "n2" "n3"], :cut [], :slow [], :loss [], :down [], :clock []}
{:valid? true, :ok [0 1 2 3 4 5 6 7 8], :lost [], :unexpected [], :recovered []}
§ # The read takes a row more than there is.
start = '{:nodes ["n1" "n2" "n3"]}'
store = "quorum"
workload = "set"
clients = 2
ops = 10
rows = 21
generator = '[:phases [:limit 9 [:rising 0]] [:once :read]]'
→ 4 history full
"#;
    let texts = Texts::Orders("jeprun run");
    assert_eq!(rt; first_wrong(&rt, rt.alloc(), texts, rows), None);
}
