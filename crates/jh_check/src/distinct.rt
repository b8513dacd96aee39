//! Sets of values as ascending lists. `specs/Distinct.antt` has the rule.

ghost use Rattle.std.specs.Prelude.{◌≡◌, [], ◌∷◌, ◌++◌, IfOk, OnOk, filter};
ghost use Rattle.jh_edn.specs.View.{view, views};
ghost use Rattle.jh_check.specs.Distinct as rule;
ghost use Rattle.jh_check.specs.Distinct.{distinct_values, Ascends, is_wanted};

use jh_edn::Value;
use std::alloc::{AllocError, Global};
use std::cmp::Ordering;

/// Whether two values in normal form are equal.
pub fn is_same(a: &Value, b: &Value) -> bool
    ensures { result ≡ rule.is_same (view a.now) (view b.now) }
{
    matches!(a.compare(b), Ordering::Equal)
}

/// Whether the value is one of these, which ascend. A value is one of them where it ranks equal to it.
///
/// Takes O(log n) comparisons for n values.
pub fn is_among(values: &[Value], value: &Value) -> bool
    requires { Ascends (views values.now) }
    ensures { result ≡ rule.has_same_value (views values.now) (view value.now) }
{
    values
        .binary_search_by(|other| other.compare(value))
        .is_ok()
}

/// The values, each once, where they ascend. Takes no memory.
///
/// Takes O(n) comparisons for n values.
pub fn each_once(values: Vec<Value>) -> Vec<Value>
    requires { Ascends (views values.items) }
    ensures values { views result.items ≡ distinct_values (views values.items) }
    ensures ascends { Ascends (views result.items) }
{
    let mut values = values;
    values.dedup_by(|value, last| is_same(last, value));
    values
}

/// Puts a copy of the value last, where it is among the others, or is not, as wanted.
fn push_wanted(
    alloc: Global,
    value: &Value,
    others: &[Value],
    wanted: bool,
    kept: &mut Vec<Value>,
) -> Result<(), AllocError>
    requires { Ascends (views others.now) }
    ensures { OnOk result (views kept.new.items ≡ views kept.old.items
        ++ filter (λ x. is_wanted wanted (rule.has_same_value (views others.now) x))
        (view value.now ∷ [])) }
{
    if is_among(others, value) == wanted {
        kept.push(value.copy(alloc)?)?;
    }
    Ok(())
}

/// Copies of those that are among the others, which ascend, or of those that are not.
///
/// Errors: out of memory.
///
/// Takes O(n log m) comparisons for n values and m others.
pub fn selected(
    alloc: Global,
    values: &[Value],
    others: &[Value],
    wanted: bool,
) -> Result<Vec<Value>, AllocError>
    requires { Ascends (views others.now) }
    ensures { IfOk result (λ kept. views kept.items
        ≡ filter (λ x. is_wanted wanted (rule.has_same_value (views others.now) x))
        (views values.now)) }
{
    let mut kept = Vec::new(alloc);
    for value in values {
        push_wanted(alloc, value, others, wanted, &mut kept)?;
    }
    Ok(kept)
}
