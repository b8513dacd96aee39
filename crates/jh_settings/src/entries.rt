//! The entries of a schedule, which each command writes in its own way. `specs/Parsed.antt` says which
//! entries a document means.

ghost use Rattle.std.specs.Prelude.{◌≡◌, ℕ, List, Option, length, All, IfOk, IfSome, MatchResult};
ghost use Rattle.toml.specs.View as toml;
ghost use Rattle.toml.specs.View.{table_view};
ghost use Rattle.jh_edn.specs.Edn.{Edn};
ghost use Rattle.jh_edn.specs.View.{view};
ghost use Rattle.jh_nemesis.specs.Steps.{FitsNodes};
ghost use Rattle.jh_nemesis.specs.declared.steps.Step.{Step};
ghost use Rattle.jh_settings.specs.Inside.{IsEntryIn};
ghost use Rattle.jh_settings.specs.Parsed.{AreFewEach, IsMeant, IsScheduleUnder};
ghost use Rattle.jh_settings.specs.Readers.{RefusesValue};

use crate::elements::element_in;
use crate::error::SettingsError;
use crate::keys::Key;
use crate::table::value_under;
use jh_edn::Value;
use jh_env::Nodes;
use jh_simnode::MAX_ENTRIES;
use std::alloc::{AllocError, Global};
use toml::Table;

/// How the settings of a command write an entry of a schedule.
pub trait EntryFormat {
    /// An entry, as the command has it.
    type Entry: Drop;

    /// The entry that an element means over nodes with these names, where it means one.
    ghost parsed: { List (List ℕ) → Edn → Option Self.Entry };

    /// The step of an entry.
    ghost step: { Self.Entry → Step };

    /// The entry that an element means. None where it means none.
    fn entry_of(
        alloc: Global,
        nodes: &Nodes,
        element: &Value,
    ) -> Result<Option<Self::Entry>, AllocError>
        ensures parsed { IfOk result
            (λ entry. entry ≡ Self.parsed nodes.now (view element.now)) }
        ensures fits { IfOk result
            (λ found. IfSome found (λ entry. FitsNodes (length nodes.now) (Self.step entry))) };
}

/// The entry that a value, which is a text, means.
fn entry_in<F: EntryFormat>(
    alloc: Global,
    nodes: &Nodes,
    value: &toml::Value,
) -> Result<Option<F::Entry>, AllocError>
    ensures parsed { IfOk result (IsEntryIn (F.parsed nodes.now) (toml.view value.now)) }
    ensures fits { IfOk result
        (λ found. IfSome found (λ entry. FitsNodes (length nodes.now) (F.step entry))) }
{
    match element_in(alloc, value)? {
        Some(element) => F::entry_of(alloc, nodes, &element),
        None => Ok(None),
    }
}

/// The entries that these values mean.
fn entries_in<F: EntryFormat>(
    alloc: Global,
    values: &[toml::Value],
    nodes: &Nodes,
) -> Result<Vec<F::Entry>, SettingsError>
    ensures parsed { MatchResult result
        (λ entries. AreFewEach (IsMeant (F.parsed nodes.now)) (toml.items_view values.now)
        entries.items)
        (RefusesValue ((entries : List F.Entry)
        × AreFewEach (IsMeant (F.parsed nodes.now)) (toml.items_view values.now) entries)
        Key.Schedule) }
    ensures fit { IfOk result
        (λ entries. All (λ entry. FitsNodes (length nodes.now) (F.step entry)) entries.items) }
{
    if values.len() > MAX_ENTRIES {
        return Err(SettingsError::BadValue(Key::Schedule));
    }
    let mut entries = Vec::new(alloc);
    for value in values {
        match entry_in::<F>(alloc, nodes, value)? {
            Some(entry) => entries.push(entry)?,
            None => return Err(SettingsError::BadValue(Key::Schedule)),
        }
    }
    Ok(entries)
}

/// The entries under `schedule`, over these nodes: at most 1,024, and none where nothing stands there.
///
/// Errors: `BadValue` with `Key::Schedule` where no array of so many texts of entries stands there;
/// `OutOfMemory`.
pub fn entries_under<F: EntryFormat>(
    alloc: Global,
    table: &Table,
    nodes: &Nodes,
) -> Result<Vec<F::Entry>, SettingsError>
    ensures parsed { MatchResult result
        (λ entries. IsScheduleUnder (F.parsed nodes.now) (table_view table.now) entries.items)
        (RefusesValue ((entries : List F.Entry)
        × IsScheduleUnder (F.parsed nodes.now) (table_view table.now) entries) Key.Schedule) }
    ensures fit { IfOk result
        (λ entries. All (λ entry. FitsNodes (length nodes.now) (F.step entry)) entries.items) }
{
    match value_under(table, Key::Schedule) {
        Some(toml::Value::Array(values)) => entries_in::<F>(alloc, values.as_slice(), nodes),
        Some(_) => Err(SettingsError::BadValue(Key::Schedule)),
        None => Ok(Vec::new(alloc)),
    }
}
