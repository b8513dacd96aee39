//! The schedule of a run. `specs/Parsed.antt` says what each of its entries means.

ghost use Rattle.std.specs.Prelude.{◌≡◌, List, length, All, IfOk, IfSome, MatchResult};
ghost use Rattle.toml.specs.View.{table_view};
ghost use Rattle.jh_edn.specs.View.{view};
ghost use Rattle.jh_nemesis.specs.Steps.{FitsNodes};
ghost use Rattle.jh_simnode.specs.declared.schedule.Entry.{Entry};
ghost use Rattle.jh_settings.specs.Parsed as rule;
ghost use Rattle.jh_settings.specs.Parsed.{IsParsedSchedule};
ghost use Rattle.jh_settings.specs.Readers.{RefusesValue};

use crate::entries::{EntryFormat, entries_under};
use crate::error::SettingsError;
use crate::keys::Key;
use jh_edn::Value;
use jh_env::Nodes;
use jh_simnode::{Entry, Schedule};
use jh_step_texts::{StepTextError, step_of_value};
use std::alloc::{AllocError, Global};
use toml::Table;

/// The latest moment at which a step is due, in answered client calls.
pub const MAX_DUE_AT: u32 = 10_000;

/// After how many answered client calls a step is due: from 0 to 10,000, and no other number.
fn due_of(at: i64) -> Option<u32>
    ensures { result ≡ rule.due_of at }
{
    match u32::try_from(at) {
        Ok(at) if at <= MAX_DUE_AT => Some(at),
        _ => None,
    }
}

/// Entries as the settings of a run write them: `[AT STEP]`.
struct RunFormat;

impl EntryFormat for RunFormat {
    ghost use Rattle.jh_settings.specs.Parsed.{parsed_entry};

    type Entry = Entry;

    ghost parsed = { parsed_entry };

    ghost step = { λ entry. entry.step };

    fn entry_of(
        alloc: Global,
        nodes: &Nodes,
        element: &Value,
    ) -> Result<Option<Entry>, AllocError> {
        let Some([Value::Int(at), step]) = element.elements() else {
            return Ok(None);
        };
        let Some(at) = due_of(*at) else {
            return Ok(None);
        };
        match step_of_value(alloc, nodes, step) {
            Ok(step) => Ok(Some(Entry { at, step })),
            Err(StepTextError::OutOfMemory) => Err(AllocError),
            Err(_) => Ok(None),
        }
    }
}

/// The schedule under `schedule`, over the nodes of the start.
pub(crate) fn schedule_under(
    alloc: Global,
    table: &Table,
    nodes: &Nodes,
) -> Result<Schedule, SettingsError>
    ensures parsed { MatchResult result
        (IsParsedSchedule nodes.now (table_view table.now))
        (RefusesValue ((entries : List Entry)
        × IsParsedSchedule nodes.now (table_view table.now) entries) Key.Schedule) }
    ensures fit { IfOk result
        (λ schedule. All (λ entry. FitsNodes (length nodes.now) entry.step) schedule) }
{
    let entries = entries_under::<RunFormat>(alloc, table, nodes)?;
    // `entries_under` gives no more than a schedule may have, so this is never refused.
    match Schedule::of(entries) {
        Ok(schedule) => Ok(schedule),
        Err(_) => Err(SettingsError::BadValue(Key::Schedule)),
    }
}
