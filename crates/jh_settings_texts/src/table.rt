//! The table of the settings of a plan, group by group of keys.

ghost use Rattle.std.specs.Prelude.{◌≡◌, ◌<◌, ◌≤◌, ◌^◌, pos, Some, All, IfOk, IfSome, OnOk, length};
ghost use Rattle.toml.specs.Data.{array, string};
ghost use Rattle.toml.specs.View as toml;
ghost use Rattle.toml.specs.View.{table_view};
ghost use Rattle.jh_edn.specs.Printable.{IsPrintable};
ghost use Rattle.jh_edn.specs.Spelling.{depth_limit};
ghost use Rattle.jh_env.specs.Names.{AreNodeNames};
ghost use Rattle.jh_env.specs.TextLaws.{CanStart};
ghost use Rattle.jh_nemesis.specs.Steps.{FitsNodes};
ghost use Rattle.jh_gen.specs.GeneratorText.{parsed_generator};
ghost use Rattle.jh_gen_texts.specs.GeneratorWritten.{edn_of_generator};
ghost use Rattle.jh_simnode.specs.Plans.{IsKeptPlan};
ghost use Rattle.jh_settings.specs.Limits.{max_budget, max_due_at};
ghost use Rattle.jh_laws.specs.StepLines.{IsStepOver};
ghost use Rattle.jh_settings_texts.specs.DocumentWritten.{document_of, schedule_document};
ghost use Rattle.jh_settings_texts.specs.DocumentWritten.{spread_texts, whole_number};
ghost use Rattle.jh_settings_texts.specs.SettingsWritten.{CanBeWritten, LeadsToOthers};
ghost use Rattle.jh_settings_texts.specs.TableInside as inside;
ghost use Rattle.jh_settings_texts.specs.TableInside.{IsWhollyKnown, put_key};

use crate::printing::{entry_text, generator_text, start_text};
use crate::schedule::Spread;
use jh_env::Nodes;
use jh_settings::Key;
use jh_simnode::{Entry, Plan};
use std::alloc::{AllocError, Global};
use toml::{Table, Value};

/// Puts a value under a key.
fn put(alloc: Global, table: &mut Table, key: Key, value: Value) -> Result<(), AllocError>
    ensures { OnOk result
        (table_view table.new ≡ put_key key (toml.view value) (table_view table.old)) }
{
    let name = String::from_str(alloc, key.as_str())?;
    match table.insert(name, value) {
        Ok(_) => Ok(()),
        Err(_) => Err(AllocError),
    }
}

/// Puts a text under a key.
fn put_text(alloc: Global, table: &mut Table, key: Key, text: &str) -> Result<(), AllocError>
    ensures { OnOk result
        (table_view table.new ≡ put_key key (string text.now) (table_view table.old)) }
{
    let text = String::from_str(alloc, text)?;
    put(alloc, table, key, Value::from(text))
}

/// Puts a whole number under a key.
fn put_number(alloc: Global, table: &mut Table, key: Key, number: u64) -> Result<(), AllocError>
    requires { number < 2 ^ 63 }
    ensures { OnOk result
        (table_view table.new ≡ put_key key (whole_number number) (table_view table.old)) }
{
    put(alloc, table, key, Value::from(number as i64))
}

/// Puts what stands under `start`, `generator`, `store` and `workload`.
fn put_cluster(alloc: Global, table: &mut Table, plan: &Plan) -> Result<(), AllocError>
    requires start { CanStart plan.now.env }
    requires generator { IsPrintable depth_limit (edn_of_generator plan.now.generator) }
    ensures table { OnOk result
        (table_view table.new ≡ inside.put_cluster plan.now (table_view table.old)) }
    ensures generator { IfOk result
        (λ _. parsed_generator (edn_of_generator plan.now.generator)
        ≡ Some plan.now.generator) }
{
    let start = start_text(alloc, plan.environment())?;
    put(alloc, table, Key::Start, Value::from(start))?;
    let generator = generator_text(alloc, plan.generator())?;
    put(alloc, table, Key::Generator, Value::from(generator))?;
    put_text(alloc, table, Key::Store, plan.store().name())?;
    put_text(alloc, table, Key::Workload, plan.workload().name())
}

/// Puts what stands under `initial`, if anything.
fn put_initial(alloc: Global, table: &mut Table, initial: Option<i64>) -> Result<(), AllocError>
    ensures { OnOk result
        (table_view table.new ≡ inside.put_initial initial (table_view table.old)) }
{
    match initial {
        Some(number) => put(alloc, table, Key::Initial, Value::from(number)),
        None => Ok(()),
    }
}

/// Puts what stands under `clients`, `ops`, `mode`, `volatile` and `initial`.
fn put_load(alloc: Global, table: &mut Table, plan: &Plan) -> Result<(), AllocError>
    ensures table { OnOk result
        (table_view table.new ≡ inside.put_load plan.now (table_view table.old)) }
    ensures kept { IfOk result (λ _. IsKeptPlan plan.now) }
{
    put_number(alloc, table, Key::Clients, u64::from(plan.clients()))?;
    put_number(alloc, table, Key::Ops, u64::from(plan.ops()))?;
    put_text(alloc, table, Key::Mode, "serial")?;
    put(alloc, table, Key::Volatile, Value::from(plan.volatile()))?;
    put_initial(alloc, table, plan.initial())
}

/// Puts what stands under `tick_every`, `rows`, `seed` and `budget`.
fn put_limits(alloc: Global, table: &mut Table, plan: &Plan, budget: u64) -> Result<(), AllocError>
    requires seed { plan.now.seed < 2 ^ 63 }
    requires few { budget ≤ max_budget }
    ensures { OnOk result
        (table_view table.new ≡ inside.put_limits plan.now budget (table_view table.old)) }
{
    put_number(alloc, table, Key::TickEvery, u64::from(plan.tick_every()))?;
    put_number(alloc, table, Key::Rows, u64::from(plan.rows()))?;
    put_number(alloc, table, Key::Seed, plan.seed())?;
    put_number(alloc, table, Key::Budget, budget)
}

/// What is printed of each entry over these nodes, where calls may be spread over time.
fn entry_texts(
    alloc: Global,
    nodes: &Nodes,
    entries: &[Entry],
    spread: Option<Spread>,
) -> Result<Vec<Value>, AllocError>
    requires some { IfSome spread (λ s. 0 < s.calls) }
    requires named { AreNodeNames nodes.now }
    requires fit { All (λ entry. FitsNodes (length nodes.now) entry.step) entries.now }
    requires due { All (λ entry. entry.at ≤ max_due_at) entries.now }
    requires others { All (λ entry. LeadsToOthers entry.step) entries.now }
    ensures texts { IfOk result
        (λ values. toml.items_view values.items ≡ spread_texts nodes.now spread entries.now) }
    ensures over { IfOk result
        (λ _. All (λ entry. IsStepOver (length nodes.now) entry.step) entries.now) }
{
    let mut values = Vec::new(alloc);
    for entry in entries {
        values.push(Value::from(entry_text(alloc, nodes, entry, spread)?))?;
    }
    Ok(values)
}

/// Puts what stands under `schedule`.
fn put_schedule(
    alloc: Global,
    table: &mut Table,
    plan: &Plan,
    nodes: &Nodes,
) -> Result<(), AllocError>
    requires nodes { nodes.now ≡ plan.now.env.names }
    requires named { AreNodeNames nodes.now }
    requires due { All (λ entry. entry.at ≤ max_due_at) plan.now.schedule }
    requires others { All (λ entry. LeadsToOthers entry.step) plan.now.schedule }
    ensures table { OnOk result
        (table_view table.new ≡ inside.put_schedule plan.now (table_view table.old)) }
    ensures over { IfOk result
        (λ _. All (λ entry. IsStepOver (length plan.now.env.names) entry.step) plan.now.schedule) }
{
    let values = entry_texts(alloc, nodes, plan.schedule().entries(), None)?;
    put(alloc, table, Key::Schedule, Value::Array(values))
}

/// The table of a schedule alone.
pub(crate) fn schedule_table(
    alloc: Global,
    nodes: &Nodes,
    entries: &[Entry],
    spread: Option<Spread>,
) -> Result<Table, AllocError>
    requires some { IfSome spread (λ s. 0 < s.calls) }
    requires named { AreNodeNames nodes.now }
    requires fit { All (λ entry. FitsNodes (length nodes.now) entry.step) entries.now }
    requires due { All (λ entry. entry.at ≤ max_due_at) entries.now }
    requires others { All (λ entry. LeadsToOthers entry.step) entries.now }
    ensures { IfOk result
        (λ table. table_view table ≡ schedule_document nodes.now spread entries.now) }
{
    let values = entry_texts(alloc, nodes, entries, spread)?;
    let mut table = Table::new(alloc);
    put(alloc, &mut table, Key::Schedule, Value::Array(values))?;
    Ok(table)
}

/// The table of the settings of a plan that can be written, and of a budget.
pub(crate) fn table_of(alloc: Global, plan: &Plan, budget: u64) -> Result<Table, AllocError>
    requires can { CanBeWritten plan.now }
    requires few { budget ≤ max_budget }
    ensures table { IfOk result (λ table. table_view table ≡ document_of plan.now budget) }
    ensures known { IfOk result (λ _. IsWhollyKnown plan.now) }
{
    let nodes = plan.environment().nodes();
    let mut table = Table::new(alloc);
    put_cluster(alloc, &mut table, plan)?;
    put_load(alloc, &mut table, plan)?;
    put_limits(alloc, &mut table, plan, budget)?;
    put_schedule(alloc, &mut table, plan, nodes)?;
    Ok(table)
}
