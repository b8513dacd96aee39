//! What is written of the plan that settings mean.
//!
//! A row is settings, `→`, and what is written of their plan. `§` stands between two rows.

ghost use Rattle.std.specs.Prelude.{◌≤◌};
ghost use Rattle.jh_settings.specs.Limits.{max_budget};

use jh_settings::{RunSettings, settings_of};
use jh_settings_texts::{can_be_written, settings_behind, settings_to_text};
use jh_simnode::Plan;
use std::alloc::Global;

/// The greatest budget of a judgement.
const MAX_BUDGET: u64 = 10_000_000;

/// What is written of a plan. None: it can't be written, or memory was refused.
fn written(alloc: Global, plan: &Plan, budget: u64) -> Option<String>
    requires { budget ≤ max_budget }
{
    if can_be_written(plan) {
        settings_to_text(alloc, plan, budget).ok()
    } else {
        None
    }
}

/// What is written of the plan of settings. None: memory was refused.
fn rewritten_once(alloc: Global, settings: &str) -> Option<String> {
    let RunSettings { plan, budget, .. } = settings_of(alloc, settings.as_bytes()).ok()?;
    written(alloc, &plan, budget.min(MAX_BUDGET))
}

/// What is written of the plan of settings behind a comment. None: memory was refused.
fn commented_once(alloc: Global, settings: &str) -> Option<String> {
    let RunSettings { plan, .. } = settings_of(alloc, settings.as_bytes()).ok()?;
    if can_be_written(&plan) {
        settings_behind(alloc, " of one read", &plan, 7).ok()
    } else {
        None
    }
}

const ROWS: &str = r#"
start = '{:nodes ["n1" "n2" "n3"]}'
mode = "serial"
store = "local"
workload = "register"
initial = 0
clients = 2
ops = 4
generator = '[:seq [:once [:write 1]] [:limit 3 [:forever :read]]]'
schedule = [
    '[1 [:begin 1 [:bump {"n1" 500}]]]',
    '[1 [:undo]]',
]
→
budget = 100000
clients = 2
generator = "[:seq [:once [:write 1]] [:limit 3 [:forever :read]]]"
initial = 0
mode = "serial"
ops = 4
rows = 4096
schedule = [
    '[1 [:begin 1 [:bump {"n1" 500}]]]',
    "[1 [:undo]]",
]
seed = 0
start = '{:nodes ["n1" "n2" "n3"], :cut [], :slow [], :loss [], :down [], :clock []}'
store = "local"
tick_every = 0
volatile = false
workload = "register"
§
start = '{:nodes ["n1" "n2" "n3"]}'
mode = "serial"
store = "lww"
workload = "set"
tick_every = 3
clients = 3
ops = 10
generator = '[:seq [:limit 9 [:rising 0]] [:once :read]]'
schedule = [
    '[2 [:begin 1 [:cut [["n1" "n2"] ["n2" "n1"] ["n1" "n3"] ["n3" "n1"]]]]]',
    '[7 [:withdraw 1]]',
]
→
budget = 100000
clients = 3
generator = "[:seq [:limit 9 [:rising 0]] [:once :read]]"
mode = "serial"
ops = 10
rows = 4096
schedule = [
    '[2 [:begin 1 [:cut [["n1" "n2"] ["n1" "n3"] ["n2" "n1"] ["n3" "n1"]]]]]',
    "[7 [:withdraw 1]]",
]
seed = 0
start = '{:nodes ["n1" "n2" "n3"], :cut [], :slow [], :loss [], :down [], :clock []}'
store = "lww"
tick_every = 3
volatile = false
workload = "set"
§
start = '{:nodes ["n1" "n2" "n3"]}'
mode = "serial"
store = "quorum"
workload = "unique-ids"
volatile = true
clients = 3
ops = 12
generator = '[:forever :generate]'
schedule = ['(3 (:begin 1 (:kill ("n2" "n1"))))']
→
budget = 100000
clients = 3
generator = "[:forever :generate]"
mode = "serial"
ops = 12
rows = 4096
schedule = ['[3 [:begin 1 [:kill ["n1" "n2"]]]]']
seed = 0
start = '{:nodes ["n1" "n2" "n3"], :cut [], :slow [], :loss [], :down [], :clock []}'
store = "quorum"
tick_every = 0
volatile = true
workload = "unique-ids"
§
workload = "counter"
store = "lww"
start = '{:down [["b" :paused]] :slow [["a" "b" 20]] :nodes ["a" "b"]}'
tick_every = 4
rows = 100
budget = 7
seed = 9223372036854775807
clients = 1
ops = 20
generator = '(:mix (:forever (:add 1)) (:forever :read))'
→
budget = 7
clients = 1
generator = "[:mix [:forever [:add 1]] [:forever :read]]"
mode = "serial"
ops = 20
rows = 100
schedule = []
seed = 9223372036854775807
start = '{:nodes ["a" "b"], :cut [], :slow [["a" "b" 20]], :loss [], :down [["b" :paused]], :clock []}'
store = "lww"
tick_every = 4
volatile = false
workload = "counter"
"#;

#[test]
fn plans_are_written(rt: HostRuntime) {
    for row in ROWS.split('§') {
        let (settings, wanted) = row.split_once('→').unwrap_or((row, ""));
        let text = rewritten_once(rt.alloc(), settings).or_else(|| rewritten_once(
            rt.alloc(),
            settings,
        ));
        assert!(rt;
            text.is_some_and(|it| it.as_str() == wanted.trim_start()),
            "at {row}"
        );
    }
}

const ONE_READ: &str = r#"
start = '{:nodes ["a"]}'
store = "local"
workload = "register"
clients = 1
ops = 1
generator = '[:once :read]'
"#;

const COMMENTED: &str = r#"# of one read
budget = 7
clients = 1
generator = "[:once :read]"
mode = "serial"
ops = 1
rows = 4096
schedule = []
seed = 0
start = '{:nodes ["a"], :cut [], :slow [], :loss [], :down [], :clock []}'
store = "local"
tick_every = 0
volatile = false
workload = "register"
"#;

#[test]
fn a_comment_stands_before_settings(rt: HostRuntime) {
    let text = commented_once(rt.alloc(), ONE_READ).or_else(|| commented_once(
        rt.alloc(),
        ONE_READ,
    ));
    assert!(rt; text.is_some_and(|it| it.as_str() == COMMENTED));
}
