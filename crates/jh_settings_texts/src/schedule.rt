//! A schedule by itself, as settings have it: so entries that were drawn for a simulated cluster serve the test of a
//! real database. `specs/DocumentWritten.antt` has the rule.

ghost use Rattle.std.specs.Prelude.{◌≡◌, ◌≤◌, ◌<◌, ◌*◌, ◌/◌, ◌^◌, ◌∷◌, [], pos, codes, All, IfOk};
ghost use Rattle.std.specs.Prelude.{IfSome, length, string_bytes};
ghost use Rattle.toml.specs.View.{table_view};
ghost use Rattle.jh_edn.specs.Edn.{int, items_of, keyword, vector};
ghost use Rattle.jh_edn.specs.View.{view};
ghost use Rattle.jh_env.specs.Names.{AreNodeNames};
ghost use Rattle.jh_nemesis.specs.Steps.{FitsNodes};
ghost use Rattle.jh_settings.specs.Keys.{IsDocument};
ghost use Rattle.jh_settings.specs.Limits.{max_due_at};
ghost use Rattle.jh_settings_texts.specs.DocumentWritten.{due_value, schedule_document};
ghost use Rattle.jh_settings_texts.specs.SettingsWritten.{LeadsToOthers};

use crate::table::schedule_table;
use jh_edn::{Value, Values};
use jh_env::Nodes;
use jh_simnode::Entry;
use std::alloc::{AllocError, Global};
use toml::ser::Error;
use toml::table_to_string_pretty;

/// So many calls, spread evenly over so much time.
#[derive(Clone, Copy, Debug, PartialEq, Eq)]
pub struct Spread {
    /// How many calls, 1 or more.
    pub calls: u32,
    pub milliseconds: u32,
}

/// The time at which so many of all calls are over, in milliseconds.
fn time_of(at: u32, milliseconds: u32, calls: u32) -> u64
    requires some { 0 < calls }
    requires few { at ≤ max_due_at }
    ensures time { result ≡ at * milliseconds / calls }
    ensures within { result < 2 ^ 63 }
{
    u64::from(at) * u64::from(milliseconds) / u64::from(calls)
}

/// `[:ms TIME]`, by which an entry is due at this time.
///
/// Errors: where there is no memory for it.
pub fn time_value(alloc: Global, milliseconds: u64) -> Result<Value, AllocError>
    requires { milliseconds < 2 ^ 63 }
    ensures { IfOk result (λ value. view value
        ≡ vector (items_of (keyword (codes "ms") ∷ int (pos milliseconds) ∷ []))) }
{
    let mut parts = Vec::new(alloc);
    parts.push(Value::keyword(alloc, "ms")?)?;
    parts.push(Value::Int(milliseconds as i64))?;
    Ok(Value::Vector(Values::of(parts)))
}

/// When an entry is due, as a schedule has it: after so many answered calls, or at its time where calls are spread over
/// time.
pub(crate) fn due(alloc: Global, at: u32, spread: Option<Spread>) -> Result<Value, AllocError>
    requires { IfSome spread (λ s. (0 < s.calls) × (at ≤ max_due_at)) }
    ensures { IfOk result (λ value. view value ≡ due_value spread at) }
{
    match spread {
        None => Ok(Value::Int(i64::from(at))),
        Some(spread) => time_value(alloc, time_of(at, spread.milliseconds, spread.calls)),
    }
}

/// `schedule = [..]` with these entries over these nodes: TOML, with a line for each entry where there are two or more.
/// Each entry is a text of EDN, `[AT STEP]`. AT is a number of answered calls, or, where calls are spread over time,
/// `[:ms TIME]`, the time in milliseconds at which so many of them are over, as settings of `jeprun drive` have it. The
/// links, nodes and bumps of faults are written in order.
///
/// Takes time and memory in proportion to the text.
///
/// Errors: out of memory.
pub fn schedule_to_text(
    alloc: Global,
    nodes: &Nodes,
    entries: &[Entry],
    spread: Option<Spread>,
) -> Result<String, AllocError>
    requires some { IfSome spread (λ s. 0 < s.calls) }
    requires named { AreNodeNames nodes.now }
    requires fit { All (λ entry. FitsNodes (length nodes.now) entry.step) entries.now }
    requires due { All (λ entry. entry.at ≤ max_due_at) entries.now }
    requires others { All (λ entry. LeadsToOthers entry.step) entries.now }
    ensures { IfOk result
        (λ text. IsDocument (string_bytes text) (schedule_document nodes.now spread entries.now)) }
{
    let table = schedule_table(alloc, nodes, entries, spread)?;
    match table_to_string_pretty(alloc, &table) {
        Ok(text) => Ok(text),
        Err(Error::OutOfMemory) => Err(AllocError),
        Err(Error::DateInvalid) => unreachable!(),
    }
}
