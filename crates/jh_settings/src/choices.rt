//! Settings whose values are choices, and what a register holds at first. `specs/Parsed.antt` says what
//! each means.

ghost use Rattle.std.specs.Prelude.{◌≡◌};
ghost use Rattle.toml.specs.View.{table_view};
ghost use Rattle.jh_settings.specs.Keys.{data_under};
ghost use Rattle.jh_settings.specs.Parsed as rule;
ghost use Rattle.jh_settings.specs.Parsed.{initial_of, parsed_mode, parsed_store, parsed_workload};
ghost use Rattle.jh_settings.specs.Readers.{IsValueParsed};

use crate::error::SettingsError;
use crate::keys::Key;
use crate::table::{text_under, value_under};
use jh_ops::Workload;
use jh_simnode::Store;
use toml::Table;

/// How a run goes.
#[derive(Clone, Copy, Debug, PartialEq, Eq)]
pub enum Mode {
    /// On threads: client threads and a schedule thread at once.
    Threads,
    /// Serially: one event after another.
    Serial,
}

/// The store under `store`.
pub(crate) fn store_under(table: &Table) -> Result<Store, SettingsError>
    ensures { IsValueParsed result Key.Store (parsed_store (table_view table.now)) }
{
    let Some(choice) = text_under(table, Key::Store) else {
        return Err(SettingsError::BadValue(Key::Store));
    };
    match Store::named(choice) {
        Some(store) => Ok(store),
        None => Err(SettingsError::BadValue(Key::Store)),
    }
}

/// The workload under `workload`.
pub(crate) fn workload_under(table: &Table) -> Result<Workload, SettingsError>
    ensures { IsValueParsed result Key.Workload (parsed_workload (table_view table.now)) }
{
    let Some(choice) = text_under(table, Key::Workload) else {
        return Err(SettingsError::BadValue(Key::Workload));
    };
    match Workload::named(choice) {
        Some(workload) => Ok(workload),
        None => Err(SettingsError::BadValue(Key::Workload)),
    }
}

/// The mode of this name.
fn mode_of(choice: &str) -> Option<Mode>
    ensures { result ≡ rule.mode_of choice.now }
{
    match choice {
        "threads" => Some(Mode::Threads),
        "serial" => Some(Mode::Serial),
        _ => None,
    }
}

/// The mode under `mode`, and threads where nothing stands there.
pub(crate) fn mode_under(table: &Table) -> Result<Mode, SettingsError>
    ensures { IsValueParsed result Key.Mode (parsed_mode (table_view table.now)) }
{
    let Some(value) = value_under(table, Key::Mode) else {
        return Ok(Mode::Threads);
    };
    let Some(choice) = value.as_str() else {
        return Err(SettingsError::BadValue(Key::Mode));
    };
    match mode_of(choice) {
        Some(mode) => Ok(mode),
        None => Err(SettingsError::BadValue(Key::Mode)),
    }
}

/// Whether a register is asked of the cluster.
pub(crate) fn is_register(workload: Workload) -> bool
    ensures { result ≡ rule.is_register workload }
{
    matches!(workload, Workload::Register)
}

/// What a register holds at first, the value under `initial`: an integer, or nothing where nothing
/// stands there.
///
/// Errors: `BadValue` with `Key::Initial` where another value stands there, or what holds it is no
/// register.
pub fn initial_under(table: &Table, of_register: bool) -> Result<Option<i64>, SettingsError>
    ensures { IsValueParsed result Key.Initial
        (initial_of of_register (data_under Key.Initial (table_view table.now))) }
{
    let Some(value) = value_under(table, Key::Initial) else {
        return Ok(None);
    };
    match (of_register, value.as_integer()) {
        (true, Some(number)) => Ok(Some(number)),
        _ => Err(SettingsError::BadValue(Key::Initial)),
    }
}
