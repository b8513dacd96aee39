//! The one element that a value of settings spells, or why it spells none. `specs/TextErrors.antt` has the
//! rule.

ghost use Rattle.std.specs.Prelude.{◌≡◌, IfOk, IfSome};
ghost use Rattle.toml.specs.View as toml;
ghost use Rattle.jh_edn.specs.View.{views};
ghost use Rattle.jh_settings_reasons.specs.TextErrors.{IsElementOrError, IsOnlyOrError};
ghost use Rattle.jh_settings_reasons.specs.TextErrors.{text_error_text};

use crate::line::add_shown;
use jh_edn::{EdnError, Value, values_in_line};
use std::alloc::{AllocError, Global};
use std::fmt::{self, Display, Formatter, Write};

/// Why a value is no text of one element.
#[derive(Clone, Copy, Debug, PartialEq, Eq)]
pub(crate) enum TextError {
    /// It is no text.
    NoText,
    /// The text can't be read.
    Unreadable(EdnError),
    /// The text has gaps alone.
    NoElement,
    /// It has a second element.
    ManyElements,
}

impl Display for TextError {
    ghost output = { text_error_text };

    fn fmt<W: Write>(&self, f: &mut Formatter<W>) -> fmt::Result {
        match self {
            TextError::NoText => f.write_str("no text"),
            TextError::Unreadable(error) => write!(f, "{error}"),
            TextError::NoElement => f.write_str("no element"),
            TextError::ManyElements => f.write_str("more than one element"),
        }
    }
}

/// The only one of these elements.
fn only_element(elements: Vec<Value>) -> Result<Value, TextError>
    ensures { IsOnlyOrError (views elements.items) result }
{
    if elements.len() > 1 {
        return Err(TextError::ManyElements);
    }
    let mut elements = elements;
    elements.pop().ok_or(TextError::NoElement)
}

/// The one element that a value, which is a text, spells, or why it spells none.
pub(crate) fn element_in(
    alloc: Global,
    value: &toml::Value,
) -> Result<Result<Value, TextError>, AllocError>
    ensures { IfOk result (IsElementOrError (toml.view value.now)) }
{
    let Some(text) = value.as_str() else {
        return Ok(Err(TextError::NoText));
    };
    match values_in_line(alloc, text) {
        Ok(elements) => Ok(only_element(elements)),
        Err(EdnError::OutOfMemory) => Err(AllocError),
        Err(error) => Ok(Err(TextError::Unreadable(error))),
    }
}

/// The line of an error, without its line feed.
pub(crate) fn error_line_of_text(alloc: Global, error: TextError) -> Result<Vec<u8>, AllocError>
    ensures { IfOk result
        (λ line. IfSome (text_error_text error) (λ text. line.items ≡ text)) }
{
    let mut line = Vec::new(alloc);
    add_shown(&mut line, &error)?;
    Ok(line)
}
