//! What is printed of the start, of the generator and of the entries of a schedule, each a text
//! that settings have.

ghost use Rattle.std.specs.Prelude.{◌≡◌, ◌≤◌, ◌<◌, Some, IfOk, IfSome, length, string_bytes};
ghost use Rattle.std.specs.Str.{IsUtf8};
ghost use Rattle.jh_edn.specs.Print.{print};
ghost use Rattle.jh_edn.specs.Printable.{IsPrintable};
ghost use Rattle.jh_edn.specs.Spelling.{depth_limit};
ghost use Rattle.jh_edn.specs.View.{view};
ghost use Rattle.jh_env.specs.Names.{AreNodeNames};
ghost use Rattle.jh_env.specs.TextLaws.{CanStart};
ghost use Rattle.jh_env.specs.TextWritten.{edn_of_env};
ghost use Rattle.jh_nemesis.specs.Steps.{FitsNodes};
ghost use Rattle.jh_gen.specs.GeneratorText.{parsed_generator};
ghost use Rattle.jh_gen.specs.View.{generator_of};
ghost use Rattle.jh_gen_texts.specs.GeneratorWritten.{edn_of_generator};
ghost use Rattle.jh_settings.specs.Limits.{max_due_at};
ghost use Rattle.jh_laws.specs.StepLines.{IsStepOver};
ghost use Rattle.jh_settings_texts.specs.DocumentWritten.{entry_value, spread_value};
ghost use Rattle.jh_settings_texts.specs.SettingsWritten.{LeadsToOthers};

use crate::schedule::{Spread, due};
use crate::steps::step_has_text;
use jh_edn::{Value, Values, write};
use jh_env::{Env, Nodes, value_of_env};
use jh_gen::Gen;
use jh_gen_texts::value_of_gen;
use jh_simnode::Entry;
use jh_step_texts::value_of_step;
use std::alloc::{AllocError, Global};

/// What is printed of a value, where that is UTF-8.
///
/// Errors: where there is no memory for it.
pub fn printed(alloc: Global, value: &Value) -> Result<String, AllocError>
    requires { IsUtf8 (print (view value.now)) }
    ensures { IfOk result (λ text. string_bytes text ≡ print (view value.now)) }
{
    let mut bytes = Vec::new(alloc);
    if write(value, &mut bytes).is_err() {
        return Err(AllocError);
    }
    match String::from_utf8(bytes) {
        Ok(text) => Ok(text),
        Err(_) => unreachable!(),
    }
}

/// What is printed of an environment that can start.
pub(crate) fn start_text(alloc: Global, env: &Env) -> Result<String, AllocError>
    requires { CanStart env.now }
    ensures { IfOk result (λ text. string_bytes text ≡ print (edn_of_env env.now)) }
{
    let value = value_of_env(alloc, env)?;
    printed(alloc, &value)
}

/// What is printed of a generator, whose text is read back as this generator.
pub(crate) fn generator_text(alloc: Global, source: &Gen) -> Result<String, AllocError>
    requires { IsPrintable depth_limit (edn_of_generator (generator_of source.now)) }
    ensures text { IfOk result
        (λ text. string_bytes text ≡ print (edn_of_generator (generator_of source.now))) }
    ensures read_back { IfOk result
        (λ _. parsed_generator (edn_of_generator (generator_of source.now))
        ≡ Some (generator_of source.now)) }
{
    let value = value_of_gen(alloc, source)?;
    printed(alloc, &value)
}

/// The value of an entry over these nodes, as a schedule has it: AT and STEP.
///
/// Errors: out of memory.
pub fn value_of_entry(alloc: Global, nodes: &Nodes, entry: &Entry) -> Result<Value, AllocError>
    requires { FitsNodes (length nodes.now) entry.now.step }
    ensures { IfOk result (λ value. view value ≡ entry_value nodes.now entry.now) }
{
    spread_entry(alloc, nodes, entry, None)
}

/// The value of an entry, where calls may be spread over time.
fn spread_entry(
    alloc: Global,
    nodes: &Nodes,
    entry: &Entry,
    spread: Option<Spread>,
) -> Result<Value, AllocError>
    requires fits { FitsNodes (length nodes.now) entry.now.step }
    requires some { IfSome spread (λ s. (0 < s.calls) × (entry.now.at ≤ max_due_at)) }
    ensures { IfOk result (λ value. view value ≡ spread_value nodes.now spread entry.now) }
{
    let mut parts = Vec::new(alloc);
    parts.push(due(alloc, entry.at, spread)?)?;
    parts.push(value_of_step(alloc, nodes, &entry.step)?)?;
    Ok(Value::Vector(Values::of(parts)))
}

/// What is printed of an entry over these nodes, whose step has a text over them.
pub(crate) fn entry_text(
    alloc: Global,
    nodes: &Nodes,
    entry: &Entry,
    spread: Option<Spread>,
) -> Result<String, AllocError>
    requires named { AreNodeNames nodes.now }
    requires fits { FitsNodes (length nodes.now) entry.now.step }
    requires due { entry.now.at ≤ max_due_at }
    requires others { LeadsToOthers entry.now.step }
    requires some { IfSome spread (λ s. 0 < s.calls) }
    ensures text { IfOk result
        (λ text. string_bytes text ≡ print (spread_value nodes.now spread entry.now)) }
    ensures over { IfOk result (λ _. IsStepOver (length nodes.now) entry.now.step) }
{
    step_has_text(nodes, &entry.step);
    let value = spread_entry(alloc, nodes, entry, spread)?;
    printed(alloc, &value)
}
