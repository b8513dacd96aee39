//! The settings of a test of a real database. `specs/Settings.antt` says which settings a document
//! means, and why others are refused.

ghost use Rattle.std.specs.Prelude.{◌≡◌, ◌&&◌, not, Some, [], MatchResult, is_some, option_map};
ghost use Rattle.toml.specs.View.{table_view};
ghost use Rattle.jh_env.specs.Overlay.{StandsFor};
ghost use Rattle.jh_gen.specs.View.{generator_of};
ghost use Rattle.jh_settings.specs.Keys.{HasKnownKeys, drive_keys};
ghost use Rattle.jh_settings.specs.Readers.{RefusesKeyValues};
ghost use Rattle.jh_test_parts.specs.Test.{IsFitTest, test_of_data};
ghost use Rattle.jh_drive_settings.specs.Inside as inside;
ghost use Rattle.jh_drive_settings.specs.Inside.{AreParsedDetails, AreParsedParts, IsParsedAsked};
ghost use Rattle.jh_drive_settings.specs.Inside.{IsParsedPace, RefusesAllowed, RefusesAsTest};
ghost use Rattle.jh_drive_settings.specs.Inside.{RefusesDriveValues, RefusesShares};
ghost use Rattle.jh_drive_settings.specs.Parsed.{parsed_test_workload};
ghost use Rattle.jh_drive_settings.specs.Refusals.{IsGoodForTest};
ghost use Rattle.jh_drive_settings.specs.Settings.{AreDriveSettings, AreDriveSettingsOf};
ghost use Rattle.jh_drive_settings.specs.Settings.{IsFinalAllowed, RefusesDriveDocument};
ghost use Rattle.jh_drive_settings.specs.Settings.{RefusesDriveSettings};

use crate::choices::{final_under, model_under, test_initial_under, test_workload_under};
use crate::numbers::{
    DEFAULT_APPENDS_PER_KEY, DEFAULT_KEYS, DEFAULT_MAX_TXN, rate_under, recovery_under,
    share_under, test_ops_under, time_limit_under, transaction_number,
};
use crate::parts::{Asked, Details, Pace, Parts};
use crate::schedule::TestFormat;
use jh_gen::{Gen, MAX_CALLS, MAX_CLIENTS};
use jh_settings::{
    Key, SettingsError, budget_under, clients_under, drive_keys, entries_under, generator_under,
    needed_drive_keys, refuse_unknown_or_missing_keys, seed_under, start_under, table_of,
};
use jh_test_parts::{
    KeyShares, MAX_KEY_APPENDS, MAX_TRANSACTION_KEYS, MAX_TRANSACTION_OPS, Test, TestData,
    TestError, TestWorkload, TransactionShape,
};
use jh_txn::ConsistencyModel;
use std::alloc::Global;
use toml::Table;

/// A test of a real database, and how its history is judged.
#[derive(Drop)]
pub struct DriveSettings {
    pub test: Test,
    /// What a register holds at first. None: nothing.
    pub initial: Option<i64>,
    /// What transactions are to keep, where the database is asked for some.
    pub model: ConsistencyModel,
    /// How many configurations the judge of a register may reach, from 0 to 10,000,000.
    pub budget: u64,
}

/// What a table means under `start`, `workload` and `generator`.
fn asked_of(alloc: Global, table: &Table) -> Result<Asked, SettingsError>
    ensures { MatchResult result
        (IsParsedAsked (table_view table.now))
        (RefusesKeyValues (IsGoodForTest (table_view table.now)) inside.asked_keys) }
{
    let environment = start_under(alloc, table)?;
    let workload = test_workload_under(table)?;
    let generator = generator_under(alloc, table, Key::Generator)?;
    Ok(Asked {
        environment,
        workload,
        generator,
    })
}

/// What a table means under `clients`, `ops`, `time_limit`, `rate`, `threads_per_key`, `ops_per_key`
/// and `recovery`.
fn pace_of(table: &Table, workload: TestWorkload) -> Result<Pace, SettingsError>
    requires { parsed_test_workload (table_view table.now) ≡ Some workload }
    ensures { MatchResult result
        (IsParsedPace (table_view table.now))
        (RefusesKeyValues (IsGoodForTest (table_view table.now)) inside.pace_keys) }
{
    let clients = clients_under(table)?;
    let ops = test_ops_under(table)?;
    let time_limit = time_limit_under(table)?;
    let rate = rate_under(table)?;
    let threads_per_key = share_under(table, Key::ThreadsPerKey, workload, MAX_CLIENTS)?;
    let ops_per_key = share_under(table, Key::OpsPerKey, workload, MAX_CALLS)?;
    let recovery = recovery_under(table)?;
    Ok(Pace {
        clients,
        ops,
        time_limit,
        rate,
        threads_per_key,
        ops_per_key,
        recovery,
    })
}

/// What a table means under `keys`, `max_txn` and `appends_per_key`.
fn shape_of(table: &Table, workload: TestWorkload) -> Result<TransactionShape, SettingsError>
    requires { parsed_test_workload (table_view table.now) ≡ Some workload }
    ensures { MatchResult result
        (inside.IsParsedShape (table_view table.now))
        (RefusesKeyValues (IsGoodForTest (table_view table.now)) inside.shape_keys) }
{
    let keys = transaction_number(
        table,
        Key::Keys,
        workload,
        DEFAULT_KEYS,
        MAX_TRANSACTION_KEYS,
    )?;
    let most = transaction_number(
        table,
        Key::MaxTxn,
        workload,
        DEFAULT_MAX_TXN,
        MAX_TRANSACTION_OPS,
    )?;
    let appends = transaction_number(
        table,
        Key::AppendsPerKey,
        workload,
        DEFAULT_APPENDS_PER_KEY,
        MAX_KEY_APPENDS,
    )?;
    Ok(TransactionShape {
        keys,
        most,
        appends,
    })
}

/// What a table means under `initial`, `keys`, `max_txn`, `appends_per_key`, `model`, `seed` and
/// `budget`.
fn details_of(table: &Table, workload: TestWorkload) -> Result<Details, SettingsError>
    requires { parsed_test_workload (table_view table.now) ≡ Some workload }
    ensures { MatchResult result
        (AreParsedDetails (table_view table.now))
        (RefusesKeyValues (IsGoodForTest (table_view table.now)) inside.detail_keys) }
{
    let initial = test_initial_under(table, workload)?;
    let transactions = shape_of(table, workload)?;
    let model = model_under(table, workload)?;
    let seed = seed_under(table)?;
    let budget = budget_under(table)?;
    Ok(Details {
        initial,
        transactions,
        model,
        seed,
        budget,
    })
}

/// What a table means under all keys, read in the order of `drive_keys`.
fn parts_of(alloc: Global, table: &Table) -> Result<Parts, SettingsError>
    ensures { MatchResult result
        (AreParsedParts (table_view table.now))
        (RefusesKeyValues (IsGoodForTest (table_view table.now)) drive_keys) }
{
    let asked = asked_of(alloc, table)?;
    let pace = pace_of(table, asked.workload)?;
    let final_calls = final_under(alloc, table)?;
    let details = details_of(table, asked.workload)?;
    let schedule = entries_under::<TestFormat>(alloc, table, asked.environment.nodes())?;
    Ok(Parts {
        asked,
        pace,
        final_calls,
        details,
        schedule,
    })
}

/// How keys are shared, where both numbers stand there or neither does.
fn shares_of(threads: Option<u32>, calls: Option<u32>) -> Result<Option<KeyShares>, SettingsError>
    ensures { MatchResult result
        (λ shares. (threads ≡ option_map (λ s. s.threads) shares)
        × (calls ≡ option_map (λ s. s.calls) shares))
        (RefusesShares threads calls) }
{
    match (threads, calls) {
        (Some(threads), Some(calls)) => Ok(Some(KeyShares { threads, calls })),
        (None, None) => Ok(None),
        (Some(_), None) => Err(SettingsError::Missing(Key::OpsPerKey)),
        (None, Some(_)) => Err(SettingsError::Missing(Key::ThreadsPerKey)),
    }
}

/// The data of a test of these parts, with keys shared so.
fn data_of(parts: Parts, keys: Option<KeyShares>) -> TestData
    ensures test { test_of_data result ≡ inside.test_of_parts parts keys }
    ensures environment { result.environment ≡ parts.asked.environment }
{
    let Parts {
        asked,
        pace,
        final_calls,
        details,
        schedule,
    } = parts;
    TestData {
        environment: asked.environment,
        workload: asked.workload,
        generator: asked.generator,
        final_calls,
        clients: pace.clients,
        ops: pace.ops,
        time_limit: pace.time_limit,
        rate: pace.rate,
        keys,
        transactions: details.transactions,
        recovery: pace.recovery,
        seed: details.seed,
        schedule,
    }
}

/// What the refusal of a test means, whose parts are good by themselves.
fn test_error(error: TestError) -> SettingsError
    ensures { result ≡ inside.test_refusal error }
{
    match error {
        TestError::BadClients => SettingsError::BadValue(Key::Clients),
        TestError::BadOps => SettingsError::BadValue(Key::Ops),
        TestError::BadKeys => SettingsError::BadValue(Key::ThreadsPerKey),
        TestError::BadGenerator => SettingsError::BadValue(Key::Generator),
        TestError::BadFinal => SettingsError::BadValue(Key::Final),
        TestError::BadSchedule => SettingsError::BadValue(Key::Schedule),
        TestError::BadTransactions => SettingsError::BadValue(Key::Keys),
        TestError::OutOfMemory => SettingsError::OutOfMemory,
    }
}

/// The test of parts that are good by themselves.
fn made_test(alloc: Global, parts: TestData) -> Result<Test, SettingsError>
    requires { StandsFor parts.environment [] }
    ensures { MatchResult result
        (λ test. (test ≡ test_of_data parts) × IsFitTest test)
        (RefusesAsTest (test_of_data parts)) }
{
    match Test::new(alloc, parts) {
        Ok(test) => Ok(test),
        Err(error) => Err(test_error(error)),
    }
}

/// Whether there may be such final calls where keys are shared so.
fn is_final_allowed(keys: Option<KeyShares>, final_calls: &Option<Gen>) -> bool
    ensures { result ≡ not (is_some keys && is_some (option_map generator_of final_calls.now)) }
{
    match (keys, final_calls) {
        (Some(_), Some(_)) => false,
        _ => true,
    }
}

/// The test of parts that are good by themselves, with no final calls where keys are independent.
fn allowed_test(alloc: Global, parts: TestData) -> Result<Test, SettingsError>
    requires { StandsFor parts.environment [] }
    ensures { MatchResult result
        (λ test. (test ≡ test_of_data parts) × IsFitTest test × IsFinalAllowed test)
        (RefusesAllowed (test_of_data parts)) }
{
    let is_allowed = is_final_allowed(parts.keys, &parts.final_calls);
    let test = made_test(alloc, parts)?;
    if is_allowed {
        Ok(test)
    } else {
        Err(SettingsError::BadValue(Key::Final))
    }
}

/// The settings that the values of a table mean.
fn settings_in(alloc: Global, table: &Table) -> Result<DriveSettings, SettingsError>
    requires { HasKnownKeys drive_keys (table_view table.now) }
    ensures { MatchResult result
        (λ settings. AreDriveSettings (table_view table.now)
        settings.test settings.initial settings.model settings.budget)
        (RefusesDriveValues (table_view table.now)) }
{
    let parts = parts_of(alloc, table)?;
    let keys = shares_of(parts.pace.threads_per_key, parts.pace.ops_per_key)?;
    let details = parts.details;
    let test = allowed_test(alloc, data_of(parts, keys))?;
    Ok(DriveSettings {
        test,
        initial: details.initial,
        model: details.model,
        budget: details.budget,
    })
}

/// The settings of a test that a table means.
///
/// Takes time and memory in proportion to the table.
///
/// Errors, in this order: `Unknown` with the first key, in byte order, that is none of `drive_keys`;
/// `Missing` with the first needed key that does not stand there; `BadValue` with the first key, in
/// their order, whose value is bad by itself; `Missing` with `ThreadsPerKey` or `OpsPerKey` where only
/// the other one stands there; `BadValue` with `ThreadsPerKey` where it does not divide the clients,
/// with `Generator` and then with `Final` where it does not suit the workload and the number of clients
/// (`Gen::suits`), and with `Final` also where keys are independent; `OutOfMemory` where memory was
/// refused before another error was found.
pub fn drive_settings_in(alloc: Global, table: &Table) -> Result<DriveSettings, SettingsError>
    ensures { MatchResult result
        (λ settings. AreDriveSettings (table_view table.now)
        settings.test settings.initial settings.model settings.budget)
        (RefusesDriveDocument (table_view table.now)) }
{
    refuse_unknown_or_missing_keys(alloc, table, drive_keys(), needed_drive_keys())?;
    settings_in(alloc, table)
}

/// The settings of a test that bytes mean, a TOML document in UTF-8.
///
/// Takes time and memory in proportion to the bytes.
///
/// Errors, in this order: `NotToml`; those of `drive_settings_in`.
pub fn drive_settings_of(alloc: Global, bytes: &[u8]) -> Result<DriveSettings, SettingsError>
    ensures { MatchResult result
        (λ settings. AreDriveSettingsOf bytes.now
        settings.test settings.initial settings.model settings.budget)
        (RefusesDriveSettings bytes.now) }
{
    let table = table_of(alloc, bytes)?;
    drive_settings_in(alloc, &table)
}
