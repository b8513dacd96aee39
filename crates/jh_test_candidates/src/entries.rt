//! Entries put among those of a schedule, and the ids that are taken there: `specs/Candidates.antt`
//! has the rules. And entries copied, as they are or with their faults in order.

ghost use Rattle.std.specs.Prelude.{◌≡◌, IfOk, OnOk, map};
ghost use Rattle.jh_test_candidates.specs.Candidates as rule;
ghost use Rattle.jh_test_settings_texts.specs.WritableEntries.{test_entry_in_order};

use crate::moments::is_due_later;
use jh_random_faults::greater_id;
use jh_step_texts::step_in_order;
use jh_test_parts::{MAX_TEST_ENTRIES, TestEntry};
use std::alloc::{AllocError, Global};

/// Puts an entry before the first that is due later, where a schedule has room for it.
pub(crate) fn put_entry(entries: &mut Vec<TestEntry>, entry: TestEntry) -> Result<(), AllocError>
    ensures { OnOk result (entries.new.items ≡ rule.test_entries_with entries.old.items entry) }
{
    if entries.len() < MAX_TEST_ENTRIES {
        let later = entries
            .iter()
            .position(|other| is_due_later(entry.at, other.at));
        entries.insert(later.unwrap_or(entries.len()), entry)?;
    }
    Ok(())
}

/// The greatest id that a step of a schedule names.
pub(crate) fn greatest_id(entries: &[TestEntry]) -> u32
    ensures { result ≡ rule.greatest_test_id entries.now }
{
    let mut greatest = 0;
    for entry in entries {
        greatest = greater_id(greatest, &entry.step);
    }
    greatest
}

/// The same entries once more.
pub(crate) fn entries_copied(
    alloc: Global,
    entries: &[TestEntry],
) -> Result<Vec<TestEntry>, AllocError>
    ensures { IfOk result (λ copies. copies.items ≡ entries.now) }
{
    let mut copies = Vec::new(alloc);
    for entry in entries {
        copies.push(entry.copy(alloc)?)?;
    }
    Ok(copies)
}

/// The same entry, with the links, nodes or bumps of its fault in order.
fn entry_in_order(alloc: Global, entry: &TestEntry) -> Result<TestEntry, AllocError>
    ensures { IfOk result (λ ordered. ordered ≡ test_entry_in_order entry.now) }
{
    Ok(TestEntry {
        at: entry.at,
        step: step_in_order(alloc, &entry.step)?,
    })
}

/// The same entries, each with its fault in order.
pub(crate) fn entries_in_order(
    alloc: Global,
    entries: &[TestEntry],
) -> Result<Vec<TestEntry>, AllocError>
    ensures { IfOk result (λ ordered. ordered.items ≡ map test_entry_in_order entries.now) }
{
    let mut ordered = Vec::new(alloc);
    for entry in entries {
        ordered.push(entry_in_order(alloc, entry)?)?;
    }
    Ok(ordered)
}
