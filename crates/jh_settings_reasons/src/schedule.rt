//! Why the value under `schedule` is refused. `specs/Entries.antt` says which entry is bad, and why.

ghost use Rattle.std.specs.Prelude.{◌≡◌, IfOk};
ghost use Rattle.toml.specs.View as toml;
ghost use Rattle.jh_edn.specs.View.{view};
ghost use Rattle.jh_settings_reasons.specs.Entries as rule;
ghost use Rattle.jh_settings_reasons.specs.Reasons as reasons;

use crate::key_texts::{SettingsKind, key_takes};
use crate::line::{add, add_shown, line_of};
use crate::moments::is_moment;
use crate::text::{TextError, element_in};
use crate::unknown_nodes::unknown_node;
use jh_edn::Value;
use jh_env::Nodes;
use jh_one_line::shortened;
use jh_settings::{Key, SettingsError, start_under};
use jh_simnode::MAX_ENTRIES;
use jh_step_texts::{StepTextError, step_of_value};
use std::alloc::{AllocError, Global};
use std::fmt::{self, Display, Formatter, Write};
use toml::Table;

/// How many bytes of an unknown node's name are shown at most.
pub(crate) const MAX_SHOWN_NAME: usize = 64;

/// Why a value is no entry.
#[derive(Clone, Copy, Debug, PartialEq, Eq)]
pub(crate) enum EntryError {
    /// It is no text of one element.
    Text(TextError),
    /// The element is not `[AT STEP]`.
    NoPair,
    /// AT is no moment of such settings.
    Moment(SettingsKind),
    /// STEP is no step over the nodes of the start.
    Step(StepTextError),
}

impl Display for EntryError {
    ghost use Rattle.jh_settings_reasons.specs.Entries.{entry_error_text};

    ghost output = { entry_error_text };

    fn fmt<W: Write>(&self, f: &mut Formatter<W>) -> fmt::Result {
        match self {
            EntryError::Text(error) => write!(f, "{error}"),
            EntryError::NoPair => f.write_str("not [AT STEP]"),
            EntryError::Moment(SettingsKind::Run) => {
                f.write_str("AT is no number from 0 to 10000")
            }
            EntryError::Moment(SettingsKind::Test) => f.write_str(
                "AT is no number from 0 to 1000000, and no [:ms T] with T from 0 to 86400000",
            ),
            EntryError::Step(error) => write!(f, "{error}"),
        }
    }
}

/// Why an element is no entry, if it is none.
fn element_error(
    alloc: Global,
    kind: SettingsKind,
    nodes: &Nodes,
    element: &Value,
) -> Result<Option<EntryError>, AllocError>
    ensures { IfOk result (λ error. error ≡ rule.element_error kind nodes.now (view element.now)) }
{
    let Some([at, step]) = element.elements() else {
        return Ok(Some(EntryError::NoPair));
    };
    if !is_moment(kind, at) {
        return Ok(Some(EntryError::Moment(kind)));
    }
    match step_of_value(alloc, nodes, step) {
        Ok(_) => Ok(None),
        Err(StepTextError::OutOfMemory) => Err(AllocError),
        Err(error) => Ok(Some(EntryError::Step(error))),
    }
}

/// Why a value is no entry, if it is none.
fn entry_error(
    alloc: Global,
    kind: SettingsKind,
    nodes: &Nodes,
    value: &toml::Value,
) -> Result<Option<EntryError>, AllocError>
    ensures { IfOk result (rule.IsEntryError kind nodes.now (toml.view value.now)) }
{
    match element_in(alloc, value)? {
        Ok(element) => element_error(alloc, kind, nodes, &element),
        Err(error) => Ok(Some(EntryError::Text(error))),
    }
}

/// The first of these values that is no entry, with its place from 0, and why.
fn first_error(
    alloc: Global,
    kind: SettingsKind,
    nodes: &Nodes,
    values: &[toml::Value],
) -> Result<Option<(usize, EntryError)>, AllocError> {
    for (place, value) in values.iter().enumerate() {
        if let Some(error) = entry_error(alloc, kind, nodes, value)? {
            return Ok(Some((place, error)));
        }
    }
    Ok(None)
}

/// The line that names an entry, by its place from 0, and why it is none, without its line feed.
fn entry_line(alloc: Global, place: usize, error: EntryError) -> Result<Vec<u8>, AllocError>
    ensures { IfOk result (λ line. reasons.NamesEntry place error line.items) }
{
    let mut line = Vec::new(alloc);
    add(&mut line, "entry ")?;
    add_shown(&mut line, &place)?;
    add(&mut line, ": ")?;
    add_shown(&mut line, &error)?;
    Ok(line)
}

/// Adds to the line of an entry the name in it that is no node's, where that is why it is none.
fn add_unknown_node(
    alloc: Global,
    nodes: &Nodes,
    error: EntryError,
    value: Option<&toml::Value>,
    line: &mut Vec<u8>,
) -> Result<(), AllocError> {
    let (EntryError::Step(StepTextError::UnknownNode), Some(value)) = (error, value) else {
        return Ok(());
    };
    let Ok(element) = element_in(alloc, value)? else {
        return Ok(());
    };
    let Some(name) = unknown_node(nodes, &element) else {
        return Ok(());
    };
    add(line, " ")?;
    add(line, &shortened(alloc, name, MAX_SHOWN_NAME)?)
}

/// The line that says why entries over these nodes are refused, without its line feed: the first
/// that is none, or else what the key takes.
fn entries_line(
    alloc: Global,
    kind: SettingsKind,
    nodes: &Nodes,
    values: &[toml::Value],
) -> Result<Vec<u8>, AllocError> {
    match first_error(alloc, kind, nodes, values)? {
        Some((place, error)) => {
            let mut line = entry_line(alloc, place, error)?;
            add_unknown_node(alloc, nodes, error, values.get(place), &mut line)?;
            Ok(line)
        }
        None => line_of(alloc, key_takes(kind, Key::Schedule)),
    }
}

/// The line that says why the value under `schedule` is refused, without its line feed.
pub(crate) fn schedule_line(
    alloc: Global,
    kind: SettingsKind,
    table: &Table,
    value: &toml::Value,
) -> Result<Vec<u8>, AllocError> {
    let toml::Value::Array(values) = value else {
        return line_of(alloc, "not an array");
    };
    if values.len() > MAX_ENTRIES {
        return line_of(alloc, "more than 1,024 entries");
    }
    match start_under(alloc, table) {
        Ok(environment) => entries_line(alloc, kind, environment.nodes(), values.as_slice()),
        Err(SettingsError::OutOfMemory) => Err(AllocError),
        Err(_) => line_of(alloc, key_takes(kind, Key::Schedule)),
    }
}
