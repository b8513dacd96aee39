//! The settings of a run. `specs/Settings.antt` says which settings a document means, and why
//! others are refused.

ghost use Rattle.std.specs.Prelude.{◌≡◌, Some, [], MatchResult};
ghost use Rattle.toml.specs.View.{table_view};
ghost use Rattle.jh_env.specs.Overlay.{StandsFor};
ghost use Rattle.jh_simnode.specs.Plans.{IsFit, plan_of_data};
ghost use Rattle.jh_settings.specs.Inside as rule;
ghost use Rattle.jh_settings.specs.Inside.{AreParsedNumbers, IsParsedCluster, IsParsedLoad};
ghost use Rattle.jh_settings.specs.Inside.{RefusesDocumentValues, RefusesWith};
ghost use Rattle.jh_settings.specs.Inside.{cluster_keys, load_keys, number_keys, plan_refusal};
ghost use Rattle.jh_settings.specs.Keys as keys;
ghost use Rattle.jh_settings.specs.Keys.{HasKnownKeys};
ghost use Rattle.jh_settings.specs.Parsed.{parsed_workload};
ghost use Rattle.jh_settings.specs.Readers.{RefusesKeyValues};
ghost use Rattle.jh_settings.specs.Refusals.{IsGood};
ghost use Rattle.jh_settings.specs.Settings.{AreSettings, AreSettingsOf, RefusesSettings};

use crate::choices::{Mode, initial_under, is_register, mode_under, store_under, workload_under};
use crate::document::{refuse_unknown_or_missing_keys, table_of};
use crate::elements::{generator_under, start_under};
use crate::error::SettingsError;
use crate::keys::{Key, needed_run_keys, run_keys};
use crate::numbers::{
    budget_under, clients_under, ops_under, rows_under, seed_under, tick_every_under,
};
use crate::parts::{Cluster, Load, Numbers};
use crate::schedule::schedule_under;
use crate::table::truth_or;
use jh_ops::Workload;
use jh_simnode::{Database, Plan, PlanData, PlanError, Schedule};
use std::alloc::Global;
use toml::Table;

/// What is run, and how much the judgement of its history may take.
#[derive(Debug, Drop)]
pub struct RunSettings {
    pub plan: Plan,
    pub mode: Mode,
    /// How many configurations the judge of a register may reach, from 0 to 10,000,000.
    pub budget: u64,
}

/// What the refusal of a plan means, whose parts are good by themselves.
fn plan_error(error: PlanError) -> SettingsError
    ensures { result ≡ plan_refusal error }
{
    match error {
        PlanError::BadClients => SettingsError::BadValue(Key::Clients),
        PlanError::BadOps => SettingsError::BadValue(Key::Ops),
        PlanError::BadRows => SettingsError::BadValue(Key::Rows),
        PlanError::BadGenerator => SettingsError::BadValue(Key::Generator),
        PlanError::BadStep => SettingsError::BadValue(Key::Schedule),
        PlanError::OutOfMemory => SettingsError::OutOfMemory,
    }
}

/// The plan of parts that are good by themselves.
fn made_plan(alloc: Global, parts: PlanData) -> Result<Plan, SettingsError>
    requires { StandsFor parts.environment [] }
    ensures { MatchResult result
        (λ plan. (plan ≡ plan_of_data parts) × IsFit plan)
        (RefusesWith (plan_of_data parts)) }
{
    match Plan::new(alloc, parts) {
        Ok(plan) => Ok(plan),
        Err(error) => Err(plan_error(error)),
    }
}

/// What a table means under `start`, `store`, `workload` and `generator`.
fn cluster_of(alloc: Global, table: &Table) -> Result<Cluster, SettingsError>
    ensures { MatchResult result
        (IsParsedCluster (table_view table.now))
        (RefusesKeyValues (IsGood (table_view table.now)) cluster_keys) }
{
    let environment = start_under(alloc, table)?;
    let store = store_under(table)?;
    let workload = workload_under(table)?;
    let generator = generator_under(alloc, table, Key::Generator)?;
    Ok(Cluster {
        environment,
        store,
        workload,
        generator,
    })
}

/// What a table means under `clients`, `ops`, `mode`, `volatile` and `initial`.
fn load_of(table: &Table, workload: Workload) -> Result<Load, SettingsError>
    requires { parsed_workload (table_view table.now) ≡ Some workload }
    ensures { MatchResult result
        (IsParsedLoad (table_view table.now))
        (RefusesKeyValues (IsGood (table_view table.now)) load_keys) }
{
    let clients = clients_under(table)?;
    let ops = ops_under(table, workload)?;
    let mode = mode_under(table)?;
    let volatile = truth_or(table, Key::Volatile, false)?;
    let initial = initial_under(table, is_register(workload))?;
    Ok(Load {
        clients,
        ops,
        mode,
        volatile,
        initial,
    })
}

/// What a table means under `tick_every`, `rows`, `seed` and `budget`.
fn numbers_of(table: &Table) -> Result<Numbers, SettingsError>
    ensures { MatchResult result
        (AreParsedNumbers (table_view table.now))
        (RefusesKeyValues (IsGood (table_view table.now)) number_keys) }
{
    let tick_every = tick_every_under(table)?;
    let rows = rows_under(table)?;
    let seed = seed_under(table)?;
    let budget = budget_under(table)?;
    Ok(Numbers {
        tick_every,
        rows,
        seed,
        budget,
    })
}

/// The data of a plan of these parts.
fn data_of(cluster: Cluster, load: Load, numbers: Numbers, schedule: Schedule) -> PlanData
    ensures { result ≡ rule.data_of_parts cluster load numbers schedule }
{
    let Cluster {
        environment,
        store,
        workload,
        generator,
    } = cluster;
    PlanData {
        environment,
        database: Database {
            store,
            volatile: load.volatile,
            workload,
            initial: load.initial,
        },
        clients: load.clients,
        ops: load.ops,
        generator,
        schedule,
        tick_every: numbers.tick_every,
        rows: numbers.rows,
        seed: numbers.seed,
    }
}

/// The settings that the values of a table mean, read in the order of `run_keys`.
fn settings_in(alloc: Global, table: &Table) -> Result<RunSettings, SettingsError>
    requires { HasKnownKeys keys.run_keys (table_view table.now) }
    ensures { MatchResult result
        (λ settings. AreSettings (table_view table.now) settings.plan settings.mode settings.budget)
        (RefusesDocumentValues (table_view table.now)) }
{
    let cluster = cluster_of(alloc, table)?;
    let load = load_of(table, cluster.workload)?;
    let numbers = numbers_of(table)?;
    let schedule = schedule_under(alloc, table, cluster.environment.nodes())?;
    let plan = made_plan(alloc, data_of(cluster, load, numbers, schedule))?;
    Ok(RunSettings {
        plan,
        mode: load.mode,
        budget: numbers.budget,
    })
}

/// The settings that bytes mean, a TOML document in UTF-8. A missing mode means `Mode::Threads`.
///
/// Takes time and memory in proportion to the bytes.
///
/// Errors, in this order: `NotToml`; `Unknown` with the first key, in byte order, that is none of
/// `run_keys`; `Missing` with the first needed key that does not stand there; `BadValue` with the
/// first key, in their order, whose value is bad by itself, and then with `Generator` where it does
/// not suit the workload and the number of clients (`Gen::suits`); `OutOfMemory` where memory was
/// refused before another error was found.
pub fn settings_of(alloc: Global, bytes: &[u8]) -> Result<RunSettings, SettingsError>
    ensures { MatchResult result
        (λ settings. AreSettingsOf bytes.now settings.plan settings.mode settings.budget)
        (RefusesSettings bytes.now) }
{
    let table = table_of(alloc, bytes)?;
    refuse_unknown_or_missing_keys(alloc, &table, run_keys(), needed_run_keys())?;
    settings_in(alloc, &table)
}
