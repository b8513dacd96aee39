//! Settings whose values are choices, and which of them only some workloads may have.
//! `specs/Parsed.antt` says what each means.

ghost use Rattle.std.specs.Prelude.{◌≡◌, ◌||◌, true, false, Option, Some, MatchResult, option_map};
ghost use Rattle.toml.specs.View.{table_view};
ghost use Rattle.jh_gen.specs.Generator.{Generator};
ghost use Rattle.jh_gen.specs.View.{generator_of};
ghost use Rattle.jh_settings.specs.Keys as keys;
ghost use Rattle.jh_settings.specs.Readers.{IsValueParsed, RefusesValue};
ghost use Rattle.jh_settings.specs.declared.error.SettingsError.TheVariants.{BadValue};
ghost use Rattle.jh_drive_settings.specs.Parsed as rule;
ghost use Rattle.jh_drive_settings.specs.Parsed.{IsParsedFinal, parsed_model, parsed_test_initial};
ghost use Rattle.jh_drive_settings.specs.Parsed.{parsed_test_workload};

use jh_checkers::model_named;
use jh_gen::Gen;
use jh_settings::{
    Key, SettingsError, generator_under, initial_under, is_missing, text_under, value_under,
};
use jh_test_parts::TestWorkload;
use jh_txn::ConsistencyModel;
use std::alloc::Global;
use toml::Table;

/// What is asked of the database, under `workload`.
pub(crate) fn test_workload_under(table: &Table) -> Result<TestWorkload, SettingsError>
    ensures { IsValueParsed result Key.Workload (parsed_test_workload (table_view table.now)) }
{
    let Some(choice) = text_under(table, Key::Workload) else {
        return Err(SettingsError::BadValue(Key::Workload));
    };
    match TestWorkload::named(choice) {
        Some(workload) => Ok(workload),
        None => Err(SettingsError::BadValue(Key::Workload)),
    }
}

/// Whether the database is a register.
pub(crate) fn is_register_workload(workload: TestWorkload) -> bool
    ensures { result ≡ rule.is_register_workload workload }
{
    matches!(workload, TestWorkload::Register)
}

/// Whether transactions are asked of the database.
pub(crate) fn are_transactions(workload: TestWorkload) -> bool
    ensures { result ≡ rule.are_transactions workload }
{
    matches!(workload, TestWorkload::ListAppend)
}

/// Refuses a value under a key, unless `may` says that one may stand there.
pub(crate) fn judge_standing(table: &Table, key: Key, may: bool) -> Result<(), SettingsError>
    ensures { MatchResult result
        (λ _. (may || keys.is_missing (table_view table.now) key) ≡ true)
        (λ e. (e ≡ BadValue key) × ((may || keys.is_missing (table_view table.now) key) ≡ false)) }
{
    if may || is_missing(table, key) {
        Ok(())
    } else {
        Err(SettingsError::BadValue(key))
    }
}

/// The generator of the final calls, under `final`, and none where nothing stands there.
pub(crate) fn final_under(alloc: Global, table: &Table) -> Result<Option<Gen>, SettingsError>
    ensures { MatchResult result
        (λ final_calls. IsParsedFinal (table_view table.now) (option_map generator_of final_calls))
        (RefusesValue ((g : Option Generator) × IsParsedFinal (table_view table.now) g) Key.Final) }
{
    if is_missing(table, Key::Final) {
        return Ok(None);
    }
    Ok(Some(generator_under(alloc, table, Key::Final)?))
}

/// What a register holds at first, under `initial`, and nothing where nothing stands there.
pub(crate) fn test_initial_under(
    table: &Table,
    workload: TestWorkload,
) -> Result<Option<i64>, SettingsError>
    requires { parsed_test_workload (table_view table.now) ≡ Some workload }
    ensures { IsValueParsed result Key.Initial (parsed_test_initial (table_view table.now)) }
{
    initial_under(table, is_register_workload(workload))
}

/// The model that is named, and the strict one where nothing stands under `model`.
fn model_or_strict(table: &Table) -> Result<ConsistencyModel, SettingsError>
    ensures { IsValueParsed result Key.Model (rule.model_or_strict (table_view table.now)) }
{
    let Some(value) = value_under(table, Key::Model) else {
        return Ok(ConsistencyModel::StrictSerializable);
    };
    let Some(choice) = value.as_str() else {
        return Err(SettingsError::BadValue(Key::Model));
    };
    match model_named(choice) {
        Some(model) => Ok(model),
        None => Err(SettingsError::BadValue(Key::Model)),
    }
}

/// What transactions are to keep, under `model`.
pub(crate) fn model_under(
    table: &Table,
    workload: TestWorkload,
) -> Result<ConsistencyModel, SettingsError>
    requires { parsed_test_workload (table_view table.now) ≡ Some workload }
    ensures { IsValueParsed result Key.Model (parsed_model (table_view table.now)) }
{
    judge_standing(table, Key::Model, are_transactions(workload))?;
    model_or_strict(table)
}
