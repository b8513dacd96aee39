//! Settings whose values are texts of EDN: the start and the generator.

ghost use Rattle.std.specs.Prelude.{◌≡◌, ◌≢◌, [], ◌∷◌, drop};
ghost use Rattle.std.specs.Prelude.{IfOk, IfSome, MatchBool, MatchOption, MatchResult};
ghost use Rattle.std.specs.Str.{IsCharBoundary};
ghost use Rattle.toml.specs.View as toml;
ghost use Rattle.toml.specs.View.{table_view};
ghost use Rattle.jh_edn.specs.Edn.{Edn};
ghost use Rattle.jh_edn.specs.Spelling.{IsGap, Reads, SpellsAll};
ghost use Rattle.jh_edn.specs.View.{view};
ghost use Rattle.jh_env.specs.Overlay.{EnvValue};
ghost use Rattle.jh_gen.specs.Generator.{Generator};
ghost use Rattle.jh_gen.specs.View.{generator_of};
ghost use Rattle.jh_settings.specs.Inside.{IsNoElement, start_refusal};
ghost use Rattle.jh_settings.specs.Kinds.{HoldsElement};
ghost use Rattle.jh_settings.specs.Parsed.{IsGeneratorUnder, IsParsedStart};
ghost use Rattle.jh_settings.specs.Readers.{IsElementIn, RefusesValue};

use crate::error::SettingsError;
use crate::keys::Key;
use crate::table::value_under;
use jh_edn::{EdnError, Value, read_one};
use jh_env::{Env, EnvTextError, env_of_value};
use jh_gen::{Gen, GenTextError, gen_of_value};
use std::alloc::{AllocError, Global};
use toml::Table;

/// Passes out of memory on, and no other error.
fn unless_memory(error: EdnError) -> Result<(), AllocError>
    ensures { MatchResult result (λ _. error ≢ EdnError.OutOfMemory)
        (λ _. error ≡ EdnError.OutOfMemory) }
{
    match error {
        EdnError::OutOfMemory => Err(AllocError),
        _ => Ok(()),
    }
}

/// The element that a text begins with, behind a gap, and the place behind it.
fn first_element(alloc: Global, text: &str) -> Result<Option<(Value, usize)>, AllocError>
    ensures element { IfOk result (λ found. MatchOption found
        (IsNoElement text.now)
        (λ read. Reads text.now 0 (view read.0) read.1)) }
    ensures place { IfOk result (λ found. IfSome found (λ read. IsCharBoundary text.now read.1)) }
{
    match read_one(alloc, text, 0) {
        Ok(found) => Ok(found),
        Err(error) => {
            unless_memory(error)?;
            Ok(None)
        }
    }
}

/// Whether only a gap stands from there on.
fn ends_at(alloc: Global, text: &str, at: usize) -> Result<bool, AllocError>
    requires { IsCharBoundary text.now at }
    ensures { IfOk result
        (λ ends. MatchBool ends (IsGap (drop at text.now)) (IsGap (drop at text.now) → ⊥)) }
{
    match read_one(alloc, text, at) {
        Ok(found) => Ok(found.is_none()),
        Err(error) => {
            unless_memory(error)?;
            Ok(false)
        }
    }
}

/// The one element that a text spells, with gaps around it.
fn only_element(alloc: Global, text: &str) -> Result<Option<Value>, AllocError>
    ensures { IfOk result (λ found. MatchOption found
        (IsNoElement text.now)
        (λ element. SpellsAll (view element ∷ []) text.now)) }
{
    let Some((element, end)) = first_element(alloc, text)? else {
        return Ok(None);
    };
    if ends_at(alloc, text, end)? {
        Ok(Some(element))
    } else {
        Ok(None)
    }
}

/// The one element that a value, which is a text, spells, with gaps around it. None where the value is
/// no such text.
pub fn element_in(alloc: Global, value: &toml::Value) -> Result<Option<Value>, AllocError>
    ensures { IfOk result (IsElementIn (toml.view value.now)) }
{
    match value.as_str() {
        Some(text) => only_element(alloc, text),
        None => Ok(None),
    }
}

/// The one element under a key.
fn element_under(alloc: Global, table: &Table, key: Key) -> Result<Value, SettingsError>
    ensures { MatchResult result
        (λ element. HoldsElement key (table_view table.now) (view element))
        (RefusesValue ((x : Edn) × HoldsElement key (table_view table.now) x) key) }
{
    let Some(value) = value_under(table, key) else {
        return Err(SettingsError::BadValue(key));
    };
    match element_in(alloc, value)? {
        Some(element) => Ok(element),
        None => Err(SettingsError::BadValue(key)),
    }
}

/// What a refusal of the environment's text means to the settings.
fn start_error(error: EnvTextError) -> SettingsError
    ensures { result ≡ start_refusal error }
{
    match error {
        EnvTextError::OutOfMemory => SettingsError::OutOfMemory,
        _ => SettingsError::BadValue(Key::Start),
    }
}

/// The environment under `start`, on which no fault is laid.
///
/// Errors: `BadValue` with `Key::Start` where no text of an environment stands there; `OutOfMemory`.
pub fn start_under(alloc: Global, table: &Table) -> Result<Env, SettingsError>
    ensures { MatchResult result
        (IsParsedStart (table_view table.now))
        (RefusesValue ((env : EnvValue) × IsParsedStart (table_view table.now) env) Key.Start) }
{
    let element = element_under(alloc, table, Key::Start)?;
    match env_of_value(alloc, &element) {
        Ok(env) => Ok(env),
        Err(error) => Err(start_error(error)),
    }
}

/// The generator under a key.
///
/// Errors: `BadValue` with the key where no text of a generator stands there; `OutOfMemory`.
pub fn generator_under(alloc: Global, table: &Table, key: Key) -> Result<Gen, SettingsError>
    ensures { MatchResult result
        (λ source. IsGeneratorUnder key (table_view table.now) (generator_of source))
        (RefusesValue ((g : Generator) × IsGeneratorUnder key (table_view table.now) g) key) }
{
    let element = element_under(alloc, table, key)?;
    match gen_of_value(alloc, &element) {
        Ok(source) => Ok(source),
        Err(GenTextError::BadGenerator) => Err(SettingsError::BadValue(key)),
        Err(GenTextError::OutOfMemory) => Err(SettingsError::OutOfMemory),
    }
}
