//! The settings of a search, read before anything is told. `specs/DriveSearch.antt` says what they mean.

ghost use Rattle.std.specs.Prelude.{MatchResult};
ghost use Rattle.jh_drive_search.specs.DriveSearch.{AreSearchSettingsOf, RefusesSearchSettings};

use jh_drive::DriveError;
use jh_drive_settings::{DriveSettings, drive_settings_in};
use jh_settings::{Key, SettingsError, table_of};
use jh_test_settings_texts::can_be_written;
use std::alloc::Global;
use toml::Table;

/// The settings of a test that is tried more than once, with the table that they were read from.
#[derive(Drop)]
pub struct SearchSettings {
    /// The document, from which the settings of a candidate are written.
    pub table: Table,
    /// What it means.
    pub settings: DriveSettings,
}

/// The settings that bytes mean, a TOML document in UTF-8, as `drive_settings_of` of `jh_drive_settings`
/// reads them.
///
/// Errors: `Settings`, in the order of `drive_settings_of`, and last `BadValue` with
/// `Key::Schedule` for a schedule that settings can't say again. That no schedule which is read is
/// such a one is not proved. `OutOfMemory`.
pub fn search_settings_of(alloc: Global, bytes: &[u8]) -> Result<SearchSettings, DriveError>
    ensures { MatchResult result
        (AreSearchSettingsOf bytes.now) (RefusesSearchSettings bytes.now) }
{
    let table = match table_of(alloc, bytes) {
        Ok(table) => table,
        Err(error) => return Err(DriveError::from(error)),
    };
    let settings = match drive_settings_in(alloc, &table) {
        Ok(settings) => settings,
        Err(error) => return Err(DriveError::from(error)),
    };
    if !can_be_written(&settings.test) {
        return Err(DriveError::Settings(SettingsError::BadValue(Key::Schedule)));
    }
    Ok(SearchSettings { table, settings })
}
