//! What is printed of the entries of a schedule, each a text that settings have.
//! `specs/DocumentWritten.antt` has the rule.

ghost use Rattle.std.specs.Prelude.{◌≡◌, IfOk, length, string_bytes};
ghost use Rattle.jh_edn.specs.Print.{print};
ghost use Rattle.jh_edn.specs.View.{view};
ghost use Rattle.jh_env.specs.Names.{AreNodeNames};
ghost use Rattle.jh_nemesis.specs.Steps.{FitsNodes};
ghost use Rattle.jh_laws.specs.StepLines.{IsStepOver};
ghost use Rattle.jh_test_settings_texts.specs.DocumentWritten.{test_entry_value, when_value};
ghost use Rattle.jh_test_settings_texts.specs.WritableEntries.{IsWritableTestEntry};

use jh_edn::{Value, Values};
use jh_env::Nodes;
use jh_settings_texts::{printed, step_has_text, time_value};
use jh_step_texts::value_of_step;
use jh_test_parts::{TestEntry, When};
use std::alloc::{AllocError, Global};

/// When an entry is due, as a schedule has it.
fn value_of_when(alloc: Global, at: When) -> Result<Value, AllocError>
    ensures { IfOk result (λ value. view value ≡ when_value at) }
{
    match at {
        When::Calls(calls) => Ok(Value::Int(i64::from(calls))),
        When::Milliseconds(milliseconds) => time_value(alloc, u64::from(milliseconds)),
    }
}

/// The value of an entry over these nodes, as a schedule has it: AT and STEP.
fn value_of_test_entry(alloc: Global, nodes: &Nodes, entry: &TestEntry) -> Result<Value, AllocError>
    requires { FitsNodes (length nodes.now) entry.now.step }
    ensures { IfOk result (λ value. view value ≡ test_entry_value nodes.now entry.now) }
{
    let mut parts = Vec::new(alloc);
    parts.push(value_of_when(alloc, entry.at)?)?;
    parts.push(value_of_step(alloc, nodes, &entry.step)?)?;
    Ok(Value::Vector(Values::of(parts)))
}

/// What is printed of an entry over these nodes that can be written.
pub(crate) fn entry_text(
    alloc: Global,
    nodes: &Nodes,
    entry: &TestEntry,
) -> Result<String, AllocError>
    requires named { AreNodeNames nodes.now }
    requires fits { FitsNodes (length nodes.now) entry.now.step }
    requires writable { IsWritableTestEntry entry.now }
    ensures text { IfOk result
        (λ text. string_bytes text ≡ print (test_entry_value nodes.now entry.now)) }
    ensures over { IfOk result (λ _. IsStepOver (length nodes.now) entry.now.step) }
{
    step_has_text(nodes, &entry.step);
    let value = value_of_test_entry(alloc, nodes, entry)?;
    printed(alloc, &value)
}
