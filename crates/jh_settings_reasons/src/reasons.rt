//! The lines behind a refusal of settings. `specs/Reasons.antt` says which lines these are.

ghost use Rattle.std.specs.Prelude.{◌≡◌, None, IfOk, MatchOption, map};
ghost use Rattle.std.specs.Str.{IsUtf8};
ghost use Rattle.toml.specs.Parse.{parse_document};
ghost use Rattle.toml.specs.View.{table_view};
ghost use Rattle.jh_settings.specs.Keys.{data_under};
ghost use Rattle.jh_settings_reasons.specs.Reasons as rule;
ghost use Rattle.jh_settings_reasons.specs.Reasons.{AreReasons, IsReasonLine};
ghost use Rattle.jh_settings.specs.declared.error.SettingsError.TheVariants.{OutOfMemory};

use crate::generator::generator_line;
use crate::key_texts::{SettingsKind, key_takes, known_keys_text};
use crate::line::{add_shown, line_of};
use crate::schedule::schedule_line;
use crate::text::{element_in, error_line_of_text};
use crate::toml_text::toml_line;
use jh_edn::Value;
use jh_env::{EnvTextError, env_of_value};
use jh_settings::{Key, SettingsError, table_of, value_under};
use std::alloc::{AllocError, Global};
use toml::Table;

/// The line that says why the element under `start` is no environment, without its line feed.
fn environment_line(
    alloc: Global,
    kind: SettingsKind,
    element: &Value,
) -> Result<Vec<u8>, AllocError> {
    match env_of_value(alloc, element) {
        Ok(_) => line_of(alloc, key_takes(kind, Key::Start)),
        Err(EnvTextError::OutOfMemory) => Err(AllocError),
        Err(error) => {
            let mut line = Vec::new(alloc);
            add_shown(&mut line, &error)?;
            Ok(line)
        }
    }
}

/// The line that says why the value under `start` is refused, without its line feed.
fn start_line(
    alloc: Global,
    kind: SettingsKind,
    value: &toml::Value,
) -> Result<Vec<u8>, AllocError> {
    match element_in(alloc, value)? {
        Ok(element) => environment_line(alloc, kind, &element),
        Err(error) => error_line_of_text(alloc, error),
    }
}

/// The line that says why what stands under a key is refused, without its line feed.
fn value_line(
    alloc: Global,
    kind: SettingsKind,
    table: &Table,
    key: Key,
) -> Result<Vec<u8>, AllocError>
    ensures { IfOk result (λ line. rule.IsReasonUnder kind key
        (data_under key (table_view table.now)) line.items) }
{
    let Some(value) = value_under(table, key) else {
        return line_of(alloc, key_takes(kind, key));
    };
    match key {
        Key::Start => start_line(alloc, kind, value),
        Key::Generator => generator_line(alloc, key, value),
        Key::Final => generator_line(alloc, key, value),
        Key::Schedule => schedule_line(alloc, kind, table, value),
        _ => line_of(alloc, key_takes(kind, key)),
    }
}

/// The line of a bad value, without its line feed.
fn bad_value_line(
    alloc: Global,
    kind: SettingsKind,
    bytes: &[u8],
    key: Key,
) -> Result<Vec<u8>, AllocError>
    ensures { IfOk result (λ line. IsUtf8 bytes.now
        → rule.IsReasonIn kind key (parse_document bytes.now) line.items) }
{
    match table_of(alloc, bytes) {
        Ok(table) => value_line(alloc, kind, &table, key),
        Err(SettingsError::OutOfMemory) => Err(AllocError),
        Err(_) => line_of(alloc, key_takes(kind, key)),
    }
}

/// The line of a refusal, without its line feed. None where memory was refused.
fn reason_of(
    alloc: Global,
    kind: SettingsKind,
    bytes: &[u8],
    refusal: &SettingsError,
) -> Result<Option<Vec<u8>>, AllocError>
    ensures { IfOk result (λ found. MatchOption found
        (refusal.now ≡ OutOfMemory)
        (λ line. IsReasonLine kind bytes.now refusal.now line.items)) }
{
    let line = match refusal {
        SettingsError::NotToml => toml_line(alloc, bytes)?,
        SettingsError::Unknown(_) => line_of(alloc, known_keys_text(kind))?,
        SettingsError::Missing(key) => line_of(alloc, key_takes(kind, *key))?,
        SettingsError::BadValue(key) => bad_value_line(alloc, kind, bytes, *key)?,
        SettingsError::OutOfMemory => return Ok(None),
    };
    Ok(Some(line))
}

/// The lines that say where and why settings were refused, behind the line of the refusal: one, and none
/// where memory was refused. They are without their line feeds. The bytes are those that were
/// refused, and are read again.
///
/// Takes time in proportion to the bytes, and where a generator was refused, times its depth.
///
/// `Err` only where memory was refused.
pub fn settings_reasons(
    alloc: Global,
    kind: SettingsKind,
    bytes: &[u8],
    refusal: &SettingsError,
) -> Result<Vec<Vec<u8>>, AllocError>
    ensures { IfOk result (λ lines.
        AreReasons kind bytes.now refusal.now (map (λ line. line.items) lines.items)) }
{
    let mut lines = Vec::new(alloc);
    if let Some(line) = reason_of(alloc, kind, bytes, refusal)? {
        lines.push(line)?;
    }
    Ok(lines)
}
