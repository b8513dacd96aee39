//! Plans of settings, and the texts of their schedules.
//!
//! None is answered where memory was refused.

ghost use Rattle.std.specs.Prelude.{◌≡◌, length};
ghost use Rattle.jh_nemesis.specs.Steps.{FitsNodes};

use jh_edn::write as write_value;
use jh_random_faults::Palette;
use jh_search::Options;
use jh_settings::settings_of;
use jh_simnode::{Entry, Plan};
use jh_step_texts::value_of_step;
use std::alloc::Global;
use std::io::Write;

/// Three nodes, and entries that do not stand in the order of their numbers.
pub(crate) const THREE: &str = r#"
start = '{:nodes ["a" "b" "c"]}'
store = "lww"
workload = "register"
generator = '[:mix [:forever :read] [:forever [:write 1]] [:forever [:write 2]]]'
clients = 3
ops = 12
seed = 5
schedule = ['[2 [:begin 7 [:kill ["a"]]]]', '[1 [:withdraw 7]]']
"#;

/// Five nodes, and the greatest seed.
pub(crate) const FIVE: &str = r#"
start = '{:nodes ["n1" "n2" "n3" "n4" "n5"]}'
store = "quorum"
workload = "set"
generator = '[:mix [:rising 0] [:forever :read]]'
clients = 5
ops = 40
seed = 9223372036854775807
"#;

/// One node, which has no link, and one call.
pub(crate) const ONE: &str = r#"
start = '{:nodes ["n1"]}'
store = "local"
workload = "counter"
generator = '[:mix [:forever [:add 1]] [:forever :read]]'
clients = 2
ops = 1
"#;

/// Faults of its own that name links, nodes and bumps out of order.
pub(crate) const TURNED: &str = r#"
start = '{:nodes ["a" "b" "c"]}'
store = "lww"
workload = "register"
generator = '[:forever :read]'
clients = 3
ops = 12
seed = 5
schedule = [
  '[1 [:begin 1 [:loss 3 [["c" "a"] ["a" "c"] ["a" "b"]]]]]',
  '[2 [:begin 2 [:pause ["b" "a"]]]]',
  '[3 [:begin 3 [:bump {"c" 5, "a" 7}]]]',
]
"#;

/// A majority keeps a register, and no entry stands in the schedule.
pub(crate) const QUORUM: &str = r#"
start = '{:nodes ["a" "b" "c"]}'
store = "quorum"
workload = "register"
generator = '[:mix [:forever :read] [:forever [:write 1]] [:forever [:write 2]]]'
clients = 3
ops = 12
seed = 5
"#;

/// The plan of settings.
pub(crate) fn plan_of(alloc: Global, settings: &str) -> Option<Plan> {
    Some(settings_of(alloc, settings.as_bytes()).ok()?.plan)
}

/// So many faults of all kinds.
pub(crate) fn options_of(faults: u32, from: u64, runs: u64) -> Options
    ensures from { result.from ≡ from }
    ensures runs { result.runs ≡ runs }
{
    Options {
        from,
        runs,
        faults,
        palette: Palette::all(),
        budget: 100_000,
    }
}

fn put_entry(text: &mut Vec<u8>, alloc: Global, plan: &Plan, entry: &Entry) -> Option<()>
    requires { FitsNodes (length plan.now.env.names) entry.now.step }
{
    let at = entry.at;
    write!(text, ", {at} ").ok()?;
    let step = value_of_step(alloc, plan.environment().nodes(), &entry.step).ok()?;
    write_value(&step, text).ok()
}

/// The seed and the entries of a plan.
pub(crate) fn plan_text(alloc: Global, plan: &Plan) -> Option<Vec<u8>> {
    let mut text = Vec::new(alloc);
    let seed = plan.seed();
    write!(text, "{seed}").ok()?;
    for entry in plan.schedule().entries() {
        put_entry(&mut text, alloc, plan, entry)?;
    }
    Some(text)
}
