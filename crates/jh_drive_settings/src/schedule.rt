//! The entries of the schedule of a test. `specs/Parsed.antt` says what each means.

ghost use Rattle.std.specs.Prelude.{◌≡◌};
ghost use Rattle.jh_edn.specs.View.{view};
ghost use Rattle.jh_drive_settings.specs.Parsed as rule;

use jh_edn::Value;
use jh_env::Nodes;
use jh_gen::MAX_CALLS;
use jh_settings::{EntryFormat, MAX_TIME_MS};
use jh_step_texts::{StepTextError, step_of_value};
use jh_test_parts::{TestEntry, When};
use std::alloc::{AllocError, Global};

/// So many answered calls: from 0 to 1,000,000, and no other number.
fn calls_due(at: i64) -> Option<When>
    ensures { result ≡ rule.calls_due at }
{
    match u32::try_from(at) {
        Ok(calls) if calls <= MAX_CALLS => Some(When::Calls(calls)),
        _ => None,
    }
}

/// So many milliseconds: from 0 to 86,400,000, and no other number.
fn milliseconds_of(at: i64) -> Option<When>
    ensures { result ≡ rule.milliseconds_of at }
{
    match u32::try_from(at) {
        Ok(milliseconds) if milliseconds <= MAX_TIME_MS => {
            Some(When::Milliseconds(milliseconds))
        }
        _ => None,
    }
}

/// When an entry is due, as an element says it.
fn when_of(element: &Value) -> Option<When>
    ensures { result ≡ rule.parsed_when (view element.now) }
{
    if let Value::Int(at) = element {
        return calls_due(*at);
    }
    match element.elements() {
        Some([Value::Keyword(name), Value::Int(at)]) if name.as_str() == "ms" => {
            milliseconds_of(*at)
        }
        _ => None,
    }
}

/// Entries as the settings of a test write them: `[AT STEP]`, where AT may be `[:ms T]`.
pub(crate) struct TestFormat;

impl EntryFormat for TestFormat {
    ghost use Rattle.jh_drive_settings.specs.Parsed.{parsed_test_entry};

    type Entry = TestEntry;

    ghost parsed = { parsed_test_entry };

    ghost step = { λ entry. entry.step };

    fn entry_of(
        alloc: Global,
        nodes: &Nodes,
        element: &Value,
    ) -> Result<Option<TestEntry>, AllocError> {
        let Some([at, step]) = element.elements() else {
            return Ok(None);
        };
        let Some(at) = when_of(at) else {
            return Ok(None);
        };
        match step_of_value(alloc, nodes, step) {
            Ok(step) => Ok(Some(TestEntry { at, step })),
            Err(StepTextError::OutOfMemory) => Err(AllocError),
            Err(_) => Ok(None),
        }
    }
}
