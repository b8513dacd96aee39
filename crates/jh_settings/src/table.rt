//! Reading the values of a TOML table. `specs/Kinds.antt` says what each kind of value may be.
//!
//! Each reader answers what the value under its key means, and `BadValue` with that key where it
//! means nothing.

ghost use Rattle.std.specs.Prelude.{◌≡◌, ◌≤◌, option_map, IfSome, IfOk};
ghost use Rattle.toml.specs.Data.{as_bool};
ghost use Rattle.toml.specs.View.{table_view, view};
ghost use Rattle.jh_settings.specs.Keys.{data_under};
ghost use Rattle.jh_settings.specs.Kinds.{needed_value, value_or_default, text_under};
ghost use Rattle.jh_settings.specs.Kinds.{whole_number_in};
ghost use Rattle.jh_settings.specs.Readers.{IsValueParsed};

use crate::error::SettingsError;
use crate::keys::Key;
use toml::{Table, Value};

/// The value under a key. None where nothing stands there.
pub fn value_under<'a>(table: &'a Table, key: Key) -> Option<&'a Value>
    ensures { option_map (λ value. view value.now) result ≡ data_under key (table_view table.now) }
{
    table.get(key.as_str())
}

/// The text under a key. None where nothing stands there, or what stands there is no text.
pub fn text_under<'a>(table: &'a Table, key: Key) -> Option<&'a str>
    ensures { option_map (λ text. text.now) result ≡ text_under key (table_view table.now) }
{
    match value_under(table, key) {
        Some(value) => value.as_str(),
        None => None,
    }
}

/// The number, where it is from the least to the most.
pub fn whole_in(value: &Value, least: u64, most: u64) -> Option<u64>
    ensures number { result ≡ whole_number_in least most (view value.now) }
    ensures within { IfSome result (λ number. number ≤ most) }
{
    let number = u64::try_from(value.as_integer()?).ok()?;
    if least <= number && number <= most {
        Some(number)
    } else {
        None
    }
}

/// The number under a key, from the least to the most.
///
/// Errors: `BadValue` with the key where no such number stands there.
pub fn number_under(table: &Table, key: Key, least: u64, most: u64) -> Result<u64, SettingsError>
    ensures parsed { IsValueParsed result key
        (needed_value (whole_number_in least most) key (table_view table.now)) }
    ensures within { IfOk result (λ number. number ≤ most) }
{
    let Some(value) = value_under(table, key) else {
        return Err(SettingsError::BadValue(key));
    };
    match whole_in(value, least, most) {
        Some(number) => Ok(number),
        None => Err(SettingsError::BadValue(key)),
    }
}

/// The number under a key, from the least to the most, and a default where nothing stands there.
///
/// Errors: `BadValue` with the key where another value stands there.
pub fn number_or(
    table: &Table,
    key: Key,
    default: u64,
    least: u64,
    most: u64,
) -> Result<u64, SettingsError>
    requires { default ≤ most }
    ensures parsed { IsValueParsed result key
        (value_or_default default (whole_number_in least most) key (table_view table.now)) }
    ensures within { IfOk result (λ number. number ≤ most) }
{
    let Some(given) = value_under(table, key) else {
        return Ok(default);
    };
    match whole_in(given, least, most) {
        Some(number) => Ok(number),
        None => Err(SettingsError::BadValue(key)),
    }
}

/// The truth value under a key, and a default where nothing stands there.
pub(crate) fn truth_or(table: &Table, key: Key, default: bool) -> Result<bool, SettingsError>
    ensures { IsValueParsed result key
        (value_or_default default as_bool key (table_view table.now)) }
{
    let Some(value) = value_under(table, key) else {
        return Ok(default);
    };
    match value.as_bool() {
        Some(truth) => Ok(truth),
        None => Err(SettingsError::BadValue(key)),
    }
}
