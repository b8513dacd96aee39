//! Settings whose values are whole numbers, each with its range and its default. `specs/Parsed.antt`
//! says what each means.

ghost use Rattle.std.specs.Prelude.{◌≡◌, ◌≤◌, ◌<◌, ◌^◌, Some, IfOk};
ghost use Rattle.toml.specs.View.{table_view};
ghost use Rattle.jh_settings.specs.Readers.{IsValueParsed};
ghost use Rattle.jh_drive_settings.specs.Parsed as rule;
ghost use Rattle.jh_drive_settings.specs.Parsed.{parsed_rate, parsed_recovery, parsed_test_ops};
ghost use Rattle.jh_drive_settings.specs.Parsed.{parsed_share, parsed_test_workload};
ghost use Rattle.jh_drive_settings.specs.Parsed.{parsed_time_limit};

use crate::choices::{are_transactions, judge_standing};
use jh_gen::MAX_CALLS;
use jh_settings::{
    Key, MAX_TIME_MS, SettingsError, number_or, number_under, value_under, whole_in,
};
use jh_test_parts::TestWorkload;
use toml::Table;

/// The most calls a second.
pub const MAX_RATE: u32 = 1_000_000;

/// The longest recovery, in milliseconds: an hour.
pub const MAX_RECOVERY_MS: u64 = 3_600_000;

/// How many keys transactions have at once, where settings do not say.
pub(crate) const DEFAULT_KEYS: u32 = 4;

/// How many micro-operations a transaction has at most, where settings do not say.
pub(crate) const DEFAULT_MAX_TXN: u32 = 4;

/// How many appends a key gets, where settings do not say.
pub(crate) const DEFAULT_APPENDS_PER_KEY: u32 = 32;

/// How many calls, under `ops`: from 1 to 1,000,000.
pub(crate) fn test_ops_under(table: &Table) -> Result<u32, SettingsError>
    ensures { IsValueParsed result Key.Ops (parsed_test_ops (table_view table.now)) }
{
    let ops = number_under(table, Key::Ops, 1, u64::from(MAX_CALLS))?;
    Ok(ops as u32)
}

/// The number under a key, from the least to the most, and none where nothing stands there.
fn optional_number(
    table: &Table,
    key: Key,
    least: u32,
    most: u32,
) -> Result<Option<u32>, SettingsError>
    ensures { IsValueParsed result key
        (rule.optional_number least most key (table_view table.now)) }
{
    let Some(value) = value_under(table, key) else {
        return Ok(None);
    };
    match whole_in(value, u64::from(least), u64::from(most)) {
        Some(number) => Ok(Some(number as u32)),
        None => Err(SettingsError::BadValue(key)),
    }
}

/// Milliseconds from which on no call is given, under `time_limit`: from 1 to 86,400,000, or none.
pub(crate) fn time_limit_under(table: &Table) -> Result<Option<u32>, SettingsError>
    ensures { IsValueParsed result Key.TimeLimit (parsed_time_limit (table_view table.now)) }
{
    optional_number(table, Key::TimeLimit, 1, MAX_TIME_MS)
}

/// Calls a second, under `rate`: from 1 to 1,000,000, or none.
pub(crate) fn rate_under(table: &Table) -> Result<Option<u32>, SettingsError>
    ensures { IsValueParsed result Key.Rate (parsed_rate (table_view table.now)) }
{
    optional_number(table, Key::Rate, 1, MAX_RATE)
}

/// How keys are shared, under `threads_per_key` or `ops_per_key`: from 1 to the most, or none. Where
/// transactions are asked of the database, nothing may stand there.
pub(crate) fn share_under(
    table: &Table,
    key: Key,
    workload: TestWorkload,
    most: u32,
) -> Result<Option<u32>, SettingsError>
    requires { parsed_test_workload (table_view table.now) ≡ Some workload }
    ensures { IsValueParsed result key (parsed_share most key (table_view table.now)) }
{
    judge_standing(table, key, !are_transactions(workload))?;
    optional_number(table, key, 1, most)
}

/// Milliseconds between the end of all faults and the final calls, under `recovery`: from 0, the
/// default, to 3,600,000.
pub(crate) fn recovery_under(table: &Table) -> Result<u32, SettingsError>
    ensures { IsValueParsed result Key.Recovery (parsed_recovery (table_view table.now)) }
{
    let recovery = number_or(table, Key::Recovery, 0, 0, MAX_RECOVERY_MS)?;
    Ok(recovery as u32)
}

/// A number by which transactions are made: from 1 to the most, and a default where nothing stands under
/// its key. Where no transactions are asked of the database, nothing may stand there.
pub(crate) fn transaction_number(
    table: &Table,
    key: Key,
    workload: TestWorkload,
    default: u32,
    most: u32,
) -> Result<u32, SettingsError>
    requires default { default ≤ most }
    requires workload { parsed_test_workload (table_view table.now) ≡ Some workload }
    ensures { IsValueParsed result key
        (rule.transaction_number default most key (table_view table.now)) }
{
    judge_standing(table, key, are_transactions(workload))?;
    let number = number_or(table, key, u64::from(default), 1, u64::from(most))?;
    Ok(number as u32)
}
