//! A text on one line, whole or cut. `specs/OneLine.antt` has the rule.

ghost use Rattle.std.specs.Prelude.{◌≡◌, IfOk};
ghost use Rattle.std.specs.String.{string_bytes};
ghost use Rattle.jh_one_line.specs.OneLine as rule;
ghost use Rattle.jh_one_line.specs.OneLine.{IsShortened};

use std::alloc::{AllocError, Global};
use std::fmt::{self, Display, Formatter, Write};

/// A character, as it is shown.
#[derive(Clone, Copy)]
struct Shown(char);

impl Display for Shown {
    ghost use Rattle.std.specs.Prelude.{Some};
    ghost use Rattle.jh_one_line.specs.OneLine.{shown_character};

    ghost output = { λ shown. Some (shown_character shown.0) };

    fn fmt<W: Write>(&self, f: &mut Formatter<W>) -> fmt::Result {
        let Shown(character) = *self;
        if character.is_control() {
            let number = character as u32;
            write!(f, "\\u{{{number:x}}}")
        } else {
            write!(f, "{character}")
        }
    }
}

/// A text on one line: its control characters are written as `\u{..}`, with their number in hexadecimal
/// digits, and all others as they are.
#[derive(Clone, Copy)]
pub struct OnOneLine<'a>(pub &'a str);

impl OnOneLine<'_> {
    /// The text itself.
    fn text(&self) -> &str
        ensures { result.now ≡ self.now.0.now }
    {
        self.0
    }
}

impl Display for OnOneLine<'_> {
    ghost use Rattle.std.specs.Prelude.{Some};
    ghost use Rattle.jh_one_line.specs.OneLine.{one_line_text};

    ghost output = { λ line. Some (one_line_text line.0.now) };

    fn fmt<W: Write>(&self, f: &mut Formatter<W>) -> fmt::Result {
        for character in self.text().chars() {
            write!(f, "{}", Shown(character))?;
        }
        Ok(())
    }
}

/// What stands for what is cut away from so many bytes at a place.
fn dots_behind(place: usize, all: usize) -> &'static str
    ensures { result.now ≡ rule.dots_behind place all }
{
    if place < all { ".." } else { "" }
}

/// A text on one line, cut to at most so many of its bytes between two characters; `..` stands where
/// something was cut away.
pub fn shortened(alloc: Global, text: &str, most: usize) -> Result<String, AllocError>
    ensures { IfOk result (λ shown. IsShortened most text.now (string_bytes shown)) }
{
    let place = text.floor_char_boundary(most);
    let front = OnOneLine(&text[..place]);
    let dots = dots_behind(place, text.len());
    Ok(format!(in alloc; "{front}{dots}")?)
}
