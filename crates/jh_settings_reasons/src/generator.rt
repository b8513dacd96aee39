//! Why the value of a generator is refused. `specs/Generators.antt` has the text of a way.

ghost use Rattle.std.specs.Prelude.{◌≡◌, ◌++◌, ◌≤◌, ℕ, IfOk, OnOk, length, take};
ghost use Rattle.jh_edn.specs.Print.{print};
ghost use Rattle.jh_edn.specs.View.{view};
ghost use Rattle.jh_settings_reasons.specs.Generators as rule;
ghost use Rattle.jh_settings_reasons.specs.Generators.{form_step_text, way_text};

use crate::line::{add, add_shown, line_of};
use crate::text::{element_in, error_line_of_text};
use jh_edn::{Value, write};
use jh_gen::{FormStep, bad_part};
use jh_settings::Key;
use std::alloc::{AllocError, Global};

/// How many characters of a part are shown at most.
pub(crate) const MAX_SHOWN_PART: usize = 40;

/// Adds the text of a step, as `[:mix] 2`.
fn add_step(line: &mut Vec<u8>, step: &FormStep<'_>) -> Result<(), AllocError>
    ensures { OnOk result (line.new.items ≡ line.old.items ++ form_step_text step.now) }
{
    add(line, "[:")?;
    add(line, step.form)?;
    add(line, "] ")?;
    add_shown(line, &step.place)
}

/// What stands behind a step: a comma where there are later ones, or else the colon that ends the
/// way.
fn behind_step(later: &[FormStep<'_>]) -> &'static str
    ensures { result.now ≡ rule.behind_step later.now }
{
    match later {
        [] => ": ",
        _ => ", ",
    }
}

/// Adds the text of a way, as `[:mix] 2, [:limit] 1: `.
fn add_way(line: &mut Vec<u8>, way: &[FormStep<'_>]) -> Result<(), AllocError>
    ensures { OnOk result (line.new.items ≡ line.old.items ++ way_text way.now) }
{
    let mut rest = way;
    while let [step, later @ ..] = rest {
        add_step(line, step)?;
        add(line, behind_step(later))?;
        rest = later;
    }
    Ok(())
}

/// How many bytes the first `MAX_SHOWN_PART` characters of a text have, or all where there are fewer.
fn shown_bytes(text: &[u8]) -> usize
    ensures { result ≤ length text.now }
{
    let mut characters = 0;
    let mut bytes = 0;
    for byte in text {
        if byte & 0xC0 != 0x80 {
            characters += 1;
        }
        if characters > MAX_SHOWN_PART {
            return bytes;
        }
        bytes += 1;
    }
    bytes
}

/// Adds the first characters of what is printed of a part.
fn add_part(alloc: Global, line: &mut Vec<u8>, part: &Value) -> Result<(), AllocError>
    ensures { OnOk result ((shown : ℕ)
        × (line.new.items ≡ line.old.items ++ take shown (print (view part.now)))) }
{
    let mut text = Vec::new(alloc);
    if write(part, &mut text).is_err() {
        return Err(AllocError);
    }
    let shown = shown_bytes(&text);
    line.extend_from_slice(&text[..shown])?;
    Ok(())
}

/// What is said of a generator that does not suit the settings beside it.
fn unsuited_text(key: Key) -> &'static str
    ensures { result.now ≡ rule.unsuited_text key }
{
    match key {
        Key::Final => {
            "does not suit the workload or the number of clients, or keys are independent"
        }
        _ => "does not suit the workload or the number of clients",
    }
}

/// The line that says why an element is no generator, or that it is one, without its line feed.
fn part_line(alloc: Global, key: Key, element: &Value) -> Result<Vec<u8>, AllocError> {
    let Some((way, part)) = bad_part(alloc, element)? else {
        return line_of(alloc, unsuited_text(key));
    };
    let mut line = Vec::new(alloc);
    add_way(&mut line, &way)?;
    add(&mut line, "not a generator: ")?;
    add_part(alloc, &mut line, part)?;
    Ok(line)
}

/// The line that says why the value under the key of a generator is refused, without its line feed.
pub(crate) fn generator_line(
    alloc: Global,
    key: Key,
    value: &toml::Value,
) -> Result<Vec<u8>, AllocError> {
    match element_in(alloc, value)? {
        Ok(element) => part_line(alloc, key, &element),
        Err(error) => error_line_of_text(alloc, error),
    }
}
