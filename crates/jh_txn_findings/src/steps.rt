//! Steps with the values of their numbers. `specs/Found.antt` has the definitions.

ghost use Rattle.std.specs.Prelude.{◌<◌, IfOk, length};
ghost use Rattle.jh_txn_findings.specs.Found.{AreFoundSteps, AreStepsNumbered, IsFoundStep};
ghost use Rattle.jh_txn_findings.specs.Found.{IsFoundWhy, IsValueOf, IsWhyNumbered};

use crate::finding::{FoundStep, FoundWhy};
use jh_edn::Value;
use jh_numbers::Numbers;
use jh_txn::{Step, Why};
use std::alloc::{AllocError, Global};

/// A copy of the value of a number.
fn found_value(alloc: Global, values: &Numbers, number: usize) -> Result<Value, AllocError>
    requires { number < length values.now }
    ensures { IfOk result (IsValueOf values.now number) }
{
    values.value(number).unwrap().copy(alloc)
}

/// A reason with the values of its numbers.
fn found_why(
    alloc: Global,
    keys: &Numbers,
    elements: &Numbers,
    why: Why,
) -> Result<FoundWhy, AllocError>
    requires { IsWhyNumbered (length keys.now) (length elements.now) why }
    ensures { IfOk result (IsFoundWhy keys.now elements.now why) }
{
    Ok(match why {
        Why::WriteRead { key, element } => FoundWhy::WriteRead {
            key: found_value(alloc, keys, key)?,
            element: found_value(alloc, elements, element)?,
        },
        Why::WriteWrite { key, element } => FoundWhy::WriteWrite {
            key: found_value(alloc, keys, key)?,
            element: found_value(alloc, elements, element)?,
        },
        Why::FirstCommitter { key, element } => FoundWhy::FirstCommitter {
            key: found_value(alloc, keys, key)?,
            element: found_value(alloc, elements, element)?,
        },
        Why::ReadWrite { key, element } => FoundWhy::ReadWrite {
            key: found_value(alloc, keys, key)?,
            element: found_value(alloc, elements, element)?,
        },
        Why::RealTime => FoundWhy::RealTime,
    })
}

/// The same steps with the values of their numbers. The keys and elements of all steps have to have
/// numbers, as those of dependencies between transactions do that were numbered by these tables.
///
/// Takes time linear in the steps and in the size of the values.
///
/// Errors: out of memory.
pub fn found_steps(
    alloc: Global,
    keys: &Numbers,
    elements: &Numbers,
    steps: &[Step],
) -> Result<Vec<FoundStep>, AllocError>
    requires { AreStepsNumbered (length keys.now) (length elements.now) steps.now }
    ensures { IfOk result (λ found. AreFoundSteps keys.now elements.now steps.now found.items) }
{
    let mut found = Vec::with_capacity(alloc, steps.len())?;
    for step in steps {
        let why = found_why(alloc, keys, elements, step.why)?;
        found.push(FoundStep {
            place: step.place,
            why,
        })?;
    }
    Ok(found)
}
