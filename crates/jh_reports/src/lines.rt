//! Lines that several commands write: what is found, the ids of the active faults, and the
//! environment that they make. `specs/Lines.antt` has the rule of the last two.

ghost use Rattle.std.specs.Prelude.{◌≡◌, ◌++◌, IfOk, OnOk, pos};
ghost use Rattle.jh_edn.specs.Edn.{int};
ghost use Rattle.jh_edn.specs.Print.{print};
ghost use Rattle.jh_edn.specs.View.{view};
ghost use Rattle.jh_checkers.specs.Lines.{finding_line};
ghost use Rattle.jh_independent.specs.Lines as keys;
ghost use Rattle.jh_independent.specs.Lines.{keys_line};
ghost use Rattle.jh_reports.specs.Lines.{active_line, environment_line, ids_of, line};

use jh_check::Verdict;
use jh_checkers::{Finding, write_finding};
use jh_edn::{Value, Values, write};
use jh_env::{Env, value_of_env};
use jh_independent::{KeyFinding, write_findings};
use jh_nemesis::Nemesis;
use std::alloc::{AllocError, Global};

/// The line of what is found in a history as one, without its line feed.
pub fn finding_text(alloc: Global, finding: &Finding) -> Result<Vec<u8>, AllocError>
    ensures { IfOk result (λ text. text.items ≡ finding_line finding.now) }
{
    let mut text = Vec::new(alloc);
    match write_finding(finding, &mut text) {
        Ok(()) => Ok(text),
        Err(_) => Err(AllocError),
    }
}

/// The line of what is found of all keys, with the verdict on them, without its line feed.
pub fn keys_text(
    alloc: Global,
    verdict: Verdict,
    found: &[KeyFinding],
) -> Result<Vec<u8>, AllocError>
    requires { verdict ≡ keys.verdict_of_all found.now }
    ensures { IfOk result (λ text. text.items ≡ keys_line found.now) }
{
    let mut text = Vec::new(alloc);
    match write_findings(verdict, found, &mut text) {
        Ok(()) => Ok(text),
        Err(_) => Err(AllocError),
    }
}

/// Writes a line with the ids of the active faults, in order, with its line feed.
pub fn write_active(
    alloc: Global,
    nemesis: &Nemesis,
    output: &mut Vec<u8>,
) -> Result<(), AllocError>
    ensures { OnOk result
        (output.new.items ≡ output.old.items ++ active_line nemesis.now.state.active) }
{
    let ids = active_ids(alloc, nemesis)?;
    output.extend_from_slice(b":active ")?;
    write_line(&ids, output)
}

/// The id of a fault, as a value.
fn id_value(id: u32) -> Value
    ensures { view result ≡ int (pos id) }
{
    Value::Int(i64::from(id))
}

/// The ids of the active faults, in order, as a vector.
fn active_ids(alloc: Global, nemesis: &Nemesis) -> Result<Value, AllocError>
    ensures { IfOk result (λ ids. view ids ≡ ids_of nemesis.now.state.active) }
{
    let mut ids = Vec::new(alloc);
    for place in 0..nemesis.active_len() {
        if let Some((id, _)) = nemesis.active_at(place) {
            ids.push(id_value(id))?;
        }
    }
    Ok(Value::Vector(Values::of(ids)))
}

/// Writes a line with an environment, with its line feed.
pub fn write_environment(alloc: Global, env: &Env, output: &mut Vec<u8>) -> Result<(), AllocError>
    ensures { OnOk result (output.new.items ≡ output.old.items ++ environment_line env.now) }
{
    write_line(&value_of_env(alloc, env)?, output)
}

/// Writes a line with a value, with its line feed.
pub fn write_line(value: &Value, output: &mut Vec<u8>) -> Result<(), AllocError>
    ensures { OnOk result (output.new.items ≡ output.old.items ++ line (print (view value.now))) }
{
    if write(value, output).is_err() {
        return Err(AllocError);
    }
    output.push(b'\n')?;
    Ok(())
}
