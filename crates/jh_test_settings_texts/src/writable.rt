//! Whether settings can say the schedule of a test. `specs/WritableEntries.antt` has the rule.

ghost use Rattle.std.specs.Prelude.{◌↔◌, All, IsTrue};
ghost use Rattle.jh_test_settings_texts.specs.WritableEntries.{IsWritableTestEntry, IsWritableWhen};

use jh_gen::MAX_CALLS;
use jh_settings::MAX_TIME_MS;
use jh_settings_texts::leads_to_others;
use jh_test_parts::{Test, TestEntry, When};

/// Whether an entry is due within what settings can say.
fn is_due_in_range(at: When) -> bool
    ensures { IsTrue result ↔ IsWritableWhen at }
{
    match at {
        When::Calls(calls) => calls <= MAX_CALLS,
        When::Milliseconds(milliseconds) => milliseconds <= MAX_TIME_MS,
    }
}

/// Whether settings can say an entry.
fn is_writable(entry: &TestEntry) -> bool
    ensures { IsTrue result ↔ IsWritableTestEntry entry.now }
{
    is_due_in_range(entry.at) && leads_to_others(&entry.step)
}

/// Whether settings can say each entry.
fn are_writable(entries: &[TestEntry]) -> bool
    ensures { IsTrue result ↔ All IsWritableTestEntry entries.now }
{
    for entry in entries {
        if !is_writable(entry) {
            return false;
        }
    }
    true
}

/// Whether settings can say the schedule of the test: each entry is due after at most 1,000,000 calls or within a
/// day, and no link of a fault leads from a node to itself.
///
/// Takes time linear in the schedule and the links of its faults.
pub fn can_be_written(test: &Test) -> bool
    ensures { IsTrue result ↔ All IsWritableTestEntry test.now.schedule }
{
    are_writable(test.schedule())
}
