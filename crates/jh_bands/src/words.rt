//! Values in words. `specs/Words.antt` has the rules.

ghost use Rattle.std.specs.Prelude.{◌≡◌, ◌++◌, IfOk, OnOk};
ghost use Rattle.jh_edn.specs.Edn.{int, items_of};
ghost use Rattle.jh_edn.specs.Print.{print};
ghost use Rattle.jh_edn.specs.View.{view, views};
ghost use Rattle.jh_bands.specs.Words as rule;
ghost use Rattle.jh_bands.specs.Words.{elements_in_words, in_words, name_of};
ghost use Rattle.jh_bands.specs.WordsInside.{gap_behind};

use jh_edn::{Value, write};
use std::alloc::{AllocError, Global};

/// Writes the text of a value.
fn write_edn(value: &Value, text: &mut Vec<u8>) -> Result<(), AllocError>
    ensures { OnOk result (text.new.items ≡ text.old.items ++ print (view value.now)) }
{
    // A vector refuses bytes only where memory runs out.
    write(value, text).map_err(|_| AllocError)
}

/// Writes an integer.
pub(crate) fn write_integer(n: i64, text: &mut Vec<u8>) -> Result<(), AllocError>
    ensures { OnOk result (text.new.items ≡ text.old.items ++ print (int n)) }
{
    write_edn(&Value::Int(n), text)
}

/// Whether a value is a list or a vector.
fn is_sequence(value: &Value) -> bool
    ensures { result ≡ rule.is_sequence (view value.now) }
{
    matches!(value, Value::List(_) | Value::Vector(_))
}

/// What stands between two elements.
fn gap_between(before: &Value, value: &Value) -> &'static [u8]
    ensures { result.now ≡ rule.gap_between (view before.now) (view value.now) }
{
    if is_sequence(before) && is_sequence(value) {
        b", "
    } else {
        b" "
    }
}

/// Writes what stands between a value and the last of those before it, if there are any.
fn write_gap(before: &[Value], value: &Value, text: &mut Vec<u8>) -> Result<(), AllocError>
    ensures { OnOk result (text.new.items
        ≡ text.old.items ++ gap_behind (views before.now) (view value.now)) }
{
    match before {
        [] => Ok(()),
        [.., last] => text.extend_from_slice(gap_between(last, value)),
    }
}

/// Writes a value in words.
#[cycle(words)]
pub(crate) fn write_words(value: &Value, text: &mut Vec<u8>) -> Result<(), AllocError>
    ensures { OnOk result (text.new.items ≡ text.old.items ++ in_words (view value.now)) }
{
    match value {
        Value::Keyword(name) => text.extend_from_slice(name.as_str().as_bytes()),
        Value::Str(characters) => text.extend_from_slice(characters.as_str().as_bytes()),
        Value::List(elements) | Value::Vector(elements) if !elements.as_slice().is_empty() => {
            write_elements(elements.as_slice(), text)
        }
        _ => write_edn(value, text),
    }
}

/// Writes elements in words.
#[cycle(words)]
fn write_elements(elements: &[Value], text: &mut Vec<u8>) -> Result<(), AllocError>
    ensures { OnOk result (text.new.items
        ≡ text.old.items ++ elements_in_words (items_of (views elements.now))) }
{
    for (place, element) in elements.iter().enumerate() {
        write_gap(&elements[..place], element, text)?;
        write_words(element, text)?;
    }
    Ok(())
}

/// Writes the name of a function.
fn write_name(f: &Value, text: &mut Vec<u8>) -> Result<(), AllocError>
    ensures { OnOk result (text.new.items ≡ text.old.items ++ name_of (view f.now)) }
{
    match f {
        Value::Keyword(name) => text.extend_from_slice(name.as_str().as_bytes()),
        _ => write_edn(f, text),
    }
}

/// Writes a function with a value.
fn write_with_value(f: &Value, value: &Value, text: &mut Vec<u8>) -> Result<(), AllocError>
    ensures { OnOk result (text.new.items
        ≡ text.old.items ++ rule.answered_text (view f.now) (view value.now)) }
{
    write_name(f, text)?;
    text.extend_from_slice(b" ")?;
    write_edn(value, text)
}

/// Writes a function with what it is asked with.
pub(crate) fn write_asked(f: &Value, value: &Value, text: &mut Vec<u8>) -> Result<(), AllocError>
    ensures { OnOk result (text.new.items
        ≡ text.old.items ++ rule.asked_text (view f.now) (view value.now)) }
{
    match value {
        Value::Nil => write_name(f, text),
        _ => write_with_value(f, value, text),
    }
}

/// A function with what it is asked with, as labels have it: `cas [0 1]`, and `read` for nil.
///
/// Error: memory was refused.
pub fn asked_text(alloc: Global, f: &Value, value: &Value) -> Result<Vec<u8>, AllocError>
    ensures { IfOk result (λ text. text.items ≡ rule.asked_text (view f.now) (view value.now)) }
{
    let mut text = Vec::new(alloc);
    write_asked(f, value, &mut text)?;
    Ok(text)
}

/// A function with a value that it answered, as labels have it: `read 3`, `read nil`.
///
/// Error: memory was refused.
pub fn answered_text(alloc: Global, f: &Value, value: &Value) -> Result<Vec<u8>, AllocError>
    ensures { IfOk result (λ text. text.items ≡ rule.answered_text (view f.now) (view value.now)) }
{
    let mut text = Vec::new(alloc);
    write_with_value(f, value, &mut text)?;
    Ok(text)
}
