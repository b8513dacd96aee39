//! Entries put among those of a schedule, and the ids that are taken there: `specs/Candidates.antt`
//! has the rules. And entries with their faults in order.

ghost use Rattle.std.specs.Prelude.{◌≡◌, IfOk, OnOk, map};
ghost use Rattle.jh_settings_texts.specs.SettingsWritten.{entry_in_order};
ghost use Rattle.jh_search.specs.Candidates as rule;

use jh_random_faults::greater_id;
use jh_simnode::{Entry, MAX_ENTRIES};
use jh_step_texts::step_in_order;
use std::alloc::{AllocError, Global};

/// Puts an entry before the first that is due later, where a schedule has room for it.
pub(crate) fn put_entry(entries: &mut Vec<Entry>, entry: Entry) -> Result<(), AllocError>
    ensures { OnOk result (entries.new.items ≡ rule.entries_with entries.old.items entry) }
{
    if entries.len() < MAX_ENTRIES {
        let later = entries.iter().position(|other| other.at > entry.at);
        entries.insert(later.unwrap_or(entries.len()), entry)?;
    }
    Ok(())
}

/// The greatest id that a step of a schedule names.
pub(crate) fn greatest_id(entries: &[Entry]) -> u32
    ensures { result ≡ rule.greatest_id entries.now }
{
    let mut greatest = 0;
    for entry in entries {
        greatest = greater_id(greatest, &entry.step);
    }
    greatest
}

/// The same entry, with the links, nodes or bumps of its fault in order.
fn entry_in_order(alloc: Global, entry: &Entry) -> Result<Entry, AllocError>
    ensures { IfOk result (λ ordered. ordered ≡ entry_in_order entry.now) }
{
    Ok(Entry {
        at: entry.at,
        step: step_in_order(alloc, &entry.step)?,
    })
}

/// The same entries, each with its fault in order.
pub(crate) fn entries_in_order(alloc: Global, entries: &[Entry]) -> Result<Vec<Entry>, AllocError>
    ensures { IfOk result (λ ordered. ordered.items ≡ map entry_in_order entries.now) }
{
    let mut ordered = Vec::new(alloc);
    for entry in entries {
        ordered.push(entry_in_order(alloc, entry)?)?;
    }
    Ok(ordered)
}
