//! Plans and worlds that a map means. Its keys are `:start` with an environment, `:store` with `:quorum`, `:lww` or
//! `:local`, `:volatile`, `:workload` with `:register`, `:counter`, `:set` or `:ids`, `:initial`, `:clients`, `:ops`,
//! `:generator`, `:schedule` with a vector of pairs, each a number of answers and a step, `:steps-start` with another
//! environment by which the steps are read, `:tick-every`, `:rows` and `:seed`.
//!
//! None is answered where memory was refused, or a text means nothing.

ghost use Rattle.std.specs.Prelude.{[], IfSome};
ghost use Rattle.jh_env.specs.Overlay.{StandsFor};

use jh_edn::{Value, read_all};
use jh_env::{Env, Nodes, env_of_value};
use jh_gen::{Gen, gen_of_value};
use jh_ops::Workload;
use jh_simnode::{Database, Entry, Plan, PlanData, PlanError, Schedule, Store, World};
use jh_step_texts::step_of_value;
use std::alloc::Global;

/// The values of a text.
pub(crate) fn values(alloc: Global, text: &str) -> Option<Vec<Value>> {
    read_all(alloc, &mut text.as_bytes(), 3).ok()
}

/// The last value of a text.
pub(crate) fn value(alloc: Global, text: &str) -> Option<Value> {
    values(alloc, text)?.pop()
}

/// The name of a keyword, and nothing of another value.
pub(crate) fn keyword_name(value: &Value) -> &str {
    match value {
        Value::Keyword(text) => text.as_str(),
        _ => "",
    }
}

/// What stands under a key of a map.
fn under<'a>(map: &'a Value, key: &str) -> Option<&'a Value> {
    let Value::Map(pairs) = map else {
        return None;
    };
    for (name, value) in pairs.as_slice() {
        if keyword_name(name) == key {
            return Some(value);
        }
    }
    None
}

/// The name of the keyword under a key, and nothing where no keyword stands there.
fn name_under<'a>(map: &'a Value, key: &str) -> &'a str {
    match under(map, key) {
        Some(value) => keyword_name(value),
        None => "",
    }
}

/// The integer under a key.
fn integer(map: &Value, key: &str) -> Option<i64> {
    match under(map, key)? {
        Value::Int(number) => Some(*number),
        _ => None,
    }
}

/// The number under a key, or another where none stands there.
fn number(map: &Value, key: &str, otherwise: u32) -> u32 {
    match integer(map, key) {
        Some(number) => u32::try_from(number).unwrap_or(otherwise),
        None => otherwise,
    }
}

/// The store of a map.
fn store_of(map: &Value) -> Store {
    match name_under(map, "store") {
        "quorum" => Store::Quorum,
        "lww" => Store::Lww,
        _ => Store::Local,
    }
}

/// The workload of a map.
fn workload_of(map: &Value) -> Workload {
    match name_under(map, "workload") {
        "counter" => Workload::Counter,
        "set" => Workload::Set,
        "ids" => Workload::Ids,
        _ => Workload::Register,
    }
}

/// The database of a world, as a map has it.
fn database_of(map: &Value) -> Database {
    Database {
        store: store_of(map),
        volatile: matches!(under(map, "volatile"), Some(Value::Bool(true))),
        workload: workload_of(map),
        initial: integer(map, "initial"),
    }
}

/// The environment of the settings.
pub(crate) fn env_of(alloc: Global, map: &Value) -> Option<Env>
    ensures { IfSome result (λ env. StandsFor env []) }
{
    env_of_value(alloc, under(map, "start")?).ok()
}

/// The generator of a map.
fn generator_of(alloc: Global, map: &Value) -> Option<Gen> {
    match under(map, "generator") {
        Some(value) => gen_of_value(alloc, value).ok(),
        None => Some(Gen::Nil),
    }
}

/// The entry of a pair of a number and a step.
fn entry_of(alloc: Global, nodes: &Nodes, pair: &Value) -> Option<Entry> {
    let [Value::Int(at), step] = pair.elements()? else {
        return None;
    };
    let at = u32::try_from(*at).ok()?;
    let step = step_of_value(alloc, nodes, step).ok()?;
    Some(Entry { at, step })
}

/// The entries of pairs.
fn entries_of(alloc: Global, nodes: &Nodes, pairs: &[Value]) -> Option<Vec<Entry>> {
    let mut entries = Vec::new(alloc);
    for pair in pairs {
        entries.push(entry_of(alloc, nodes, pair)?).ok()?;
    }
    Some(entries)
}

/// The schedule of pairs whose steps are read by an environment.
fn schedule_by(alloc: Global, env: &Env, pairs: &[Value]) -> Option<Schedule> {
    Schedule::of(entries_of(alloc, env.nodes(), pairs)?).ok()
}

/// The schedule of a map.
fn schedule_of(alloc: Global, map: &Value) -> Option<Schedule> {
    let pairs = match under(map, "schedule") {
        Some(pairs) => pairs.elements()?,
        None => &[],
    };
    let start = match under(map, "steps-start") {
        Some(start) => start,
        None => under(map, "start")?,
    };
    schedule_by(alloc, &env_of_value(alloc, start).ok()?, pairs)
}

/// What a plan is made of, where an environment, a generator and a schedule are there.
fn data_over(map: &Value, environment: Env, generator: Gen, schedule: Schedule) -> PlanData
    requires { StandsFor environment [] }
    ensures { StandsFor result.environment [] }
{
    PlanData {
        environment,
        database: database_of(map),
        clients: number(map, "clients", 1),
        ops: number(map, "ops", 1),
        generator,
        schedule,
        tick_every: number(map, "tick-every", 0),
        rows: number(map, "rows", 1),
        seed: u64::from(number(map, "seed", 0)),
    }
}

/// What the plan of a map is made of.
fn data_of(alloc: Global, map: &Value) -> Option<PlanData>
    ensures { IfSome result (λ it. StandsFor it.environment []) }
{
    let generator = generator_of(alloc, map)?;
    let schedule = schedule_of(alloc, map)?;
    Some(data_over(map, env_of(alloc, map)?, generator, schedule))
}

/// The plan of settings, or why it is refused: out of memory, too, where the text means nothing.
pub(crate) fn plan_of(alloc: Global, settings: &str) -> Result<Plan, PlanError> {
    let Some(map) = value(alloc, settings) else {
        return Err(PlanError::OutOfMemory);
    };
    match data_of(alloc, &map) {
        Some(data) => Plan::new(alloc, data),
        None => Err(PlanError::OutOfMemory),
    }
}

/// The world of settings, in which nothing has happened.
pub(crate) fn world_of(alloc: Global, map: &Value) -> Option<World> {
    World::new(alloc, env_of(alloc, map)?, database_of(map)).ok()
}
