//! When an entry of a schedule is due. `specs/Moments.antt` has the rule.

ghost use Rattle.std.specs.Prelude.{◌≡◌};
ghost use Rattle.jh_edn.specs.View.{view};
ghost use Rattle.jh_settings_reasons.specs.Moments as rule;

use crate::key_texts::SettingsKind;
use jh_edn::Value;
use jh_gen::MAX_CALLS;
use jh_settings::{MAX_DUE_AT, MAX_TIME_MS};

/// Whether an integer is from 0 to the most.
fn is_up_to(number: i64, most: u32) -> bool
    ensures { result ≡ rule.is_up_to number most }
{
    match u32::try_from(number) {
        Ok(number) => number <= most,
        Err(_) => false,
    }
}

/// Whether an element is a number of answered calls, or a time, of a test.
fn is_test_moment(element: &Value) -> bool
    ensures { result ≡ rule.is_test_moment (view element.now) }
{
    if let Value::Int(at) = element {
        return is_up_to(*at, MAX_CALLS);
    }
    match element.elements() {
        Some([Value::Keyword(name), Value::Int(at)]) if name.as_str() == "ms" => {
            is_up_to(*at, MAX_TIME_MS)
        }
        _ => false,
    }
}

/// Whether an element says when an entry is due.
pub(crate) fn is_moment(kind: SettingsKind, element: &Value) -> bool
    ensures { result ≡ rule.is_moment kind (view element.now) }
{
    match (kind, element) {
        (SettingsKind::Run, Value::Int(at)) => is_up_to(*at, MAX_DUE_AT),
        (SettingsKind::Run, _) => false,
        (SettingsKind::Test, _) => is_test_moment(element),
    }
}
