//! What every command does with settings before it looks at a value. `specs/Keys.antt` says which
//! documents and which keys there are.

ghost use Rattle.std.specs.Prelude.{◌≡◌, None, MatchResult};
ghost use Rattle.toml.specs.View.{table_view};
ghost use Rattle.jh_settings.specs.Keys as rule;
ghost use Rattle.jh_settings.specs.Keys.{HasKnownKeys, IsDocument};
ghost use Rattle.jh_settings.specs.Readers.{RefusesBytes};
ghost use Rattle.jh_settings.specs.Refusals.{RefusesDocumentKeys};

use crate::error::{KeyText, SettingsError};
use crate::keys::{Key, first_missing, first_unknown};
use std::alloc::Global;
use toml::Table;

/// The table that bytes mean, a TOML document in UTF-8.
///
/// Takes time and memory in proportion to the bytes.
///
/// Errors: `NotToml` where the bytes are no UTF-8 or spell no document; `OutOfMemory`.
pub fn table_of(alloc: Global, bytes: &[u8]) -> Result<Table, SettingsError>
    ensures { MatchResult result
        (λ table. IsDocument bytes.now (table_view table))
        (RefusesBytes bytes.now) }
{
    match toml::table_from_slice(alloc, bytes) {
        Ok(table) => Ok(table),
        Err(error) => {
            if error.is_memory() {
                Err(SettingsError::OutOfMemory)
            } else {
                Err(SettingsError::NotToml)
            }
        }
    }
}

/// Refuses a table with a key that is none of a command's keys, and a table without a key that the
/// command needs. It looks at no value.
///
/// Errors, in this order: `Unknown` with the first key of the table, in byte order, that is none of
/// `keys`; `Missing` with the first of the needed ones that does not stand there; `OutOfMemory`.
pub fn refuse_unknown_or_missing_keys(
    alloc: Global,
    table: &Table,
    keys: &[Key],
    needed: &[Key],
) -> Result<(), SettingsError>
    ensures { MatchResult result
        (λ _. HasKnownKeys keys.now (table_view table.now)
        × (rule.first_missing needed.now (table_view table.now) ≡ None))
        (RefusesDocumentKeys keys.now needed.now (table_view table.now)) }
{
    if let Some(name) = first_unknown(table, keys) {
        return Err(SettingsError::Unknown(KeyText::of(alloc, name)?));
    }
    match first_missing(table, needed) {
        Some(key) => Err(SettingsError::Missing(key)),
        None => Ok(()),
    }
}
