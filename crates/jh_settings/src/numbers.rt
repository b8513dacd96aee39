//! Settings whose values are whole numbers, each with its range and its default.
//! `specs/Parsed.antt` says what each means.

ghost use Rattle.std.specs.Prelude.{◌≡◌, Some};
ghost use Rattle.toml.specs.View.{table_view};
ghost use Rattle.jh_settings.specs.Parsed.{parsed_budget, parsed_clients, parsed_ops, parsed_rows};
ghost use Rattle.jh_settings.specs.Parsed.{parsed_seed, parsed_tick_every, parsed_workload};
ghost use Rattle.jh_settings.specs.Readers.{IsValueParsed};

use crate::error::SettingsError;
use crate::keys::Key;
use crate::table::{number_or, number_under};
use jh_gen::MAX_CLIENTS;
use jh_ops::Workload;
use jh_simnode::MAX_ROWS;
use toml::Table;

/// After how many of its calls a client thread ticks at most.
pub const MAX_TICK_EVERY: u32 = 10_000;

/// The rows of the log, where settings do not say how many.
pub(crate) const DEFAULT_ROWS: u64 = 4_096;

/// The greatest seed: the greatest integer of TOML.
pub(crate) const MAX_SEED: u64 = i64::MAX as u64;

/// The greatest budget of a judgement, in configurations.
pub const MAX_BUDGET: u64 = 10_000_000;

/// The budget of a judgement, in configurations, where settings have none.
pub(crate) const DEFAULT_BUDGET: u64 = 100_000;

/// The latest moment of a test, in milliseconds: a day. So is `MAX_SPREAD_MS` of `jh_arguments`,
/// for another reason: it is the longest time over which `search` spreads a schedule.
pub const MAX_TIME_MS: u32 = 86_400_000;

/// How many client threads, under `clients`: from 1 to 16.
///
/// Errors: `BadValue` with `Key::Clients` where no such number stands there.
pub fn clients_under(table: &Table) -> Result<u32, SettingsError>
    ensures { IsValueParsed result Key.Clients (parsed_clients (table_view table.now)) }
{
    let clients = number_under(table, Key::Clients, 1, u64::from(MAX_CLIENTS))?;
    Ok(clients as u32)
}

/// How many calls, under `ops`: from 1 to what the workload allows.
pub(crate) fn ops_under(table: &Table, workload: Workload) -> Result<u32, SettingsError>
    requires { parsed_workload (table_view table.now) ≡ Some workload }
    ensures { IsValueParsed result Key.Ops (parsed_ops (table_view table.now)) }
{
    let ops = number_under(table, Key::Ops, 1, u64::from(workload.max_calls()))?;
    Ok(ops as u32)
}

/// After how many of its calls a client thread ticks, under `tick_every`: from 0, the default, to
/// 10,000.
pub(crate) fn tick_every_under(table: &Table) -> Result<u32, SettingsError>
    ensures { IsValueParsed result Key.TickEvery (parsed_tick_every (table_view table.now)) }
{
    let calls = number_or(table, Key::TickEvery, 0, 0, u64::from(MAX_TICK_EVERY))?;
    Ok(calls as u32)
}

/// The rows of the log, under `rows`: from 1 to 65,536, and 4,096 by default.
pub(crate) fn rows_under(table: &Table) -> Result<u32, SettingsError>
    ensures { IsValueParsed result Key.Rows (parsed_rows (table_view table.now)) }
{
    let rows = number_or(table, Key::Rows, DEFAULT_ROWS, 1, u64::from(MAX_ROWS))?;
    Ok(rows as u32)
}

/// The seed, under `seed`: from 0, the default, to the greatest integer of TOML.
///
/// Errors: `BadValue` with `Key::Seed` where another value stands there.
pub fn seed_under(table: &Table) -> Result<u64, SettingsError>
    ensures { IsValueParsed result Key.Seed (parsed_seed (table_view table.now)) }
{
    number_or(table, Key::Seed, 0, 0, MAX_SEED)
}

/// The budget of the judgement, under `budget`: from 0 to 10,000,000, and 100,000 by default.
///
/// Errors: `BadValue` with `Key::Budget` where another value stands there.
pub fn budget_under(table: &Table) -> Result<u64, SettingsError>
    ensures { IsValueParsed result Key.Budget (parsed_budget (table_view table.now)) }
{
    number_or(table, Key::Budget, DEFAULT_BUDGET, 0, MAX_BUDGET)
}
