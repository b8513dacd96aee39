//! Which brackets are open at the end of a text.
//!
//! `open_brackets` of `specs/Opened.antt` says it.

ghost use Rattle.std.specs.Prelude.{◌≡◌, ◌+◌, IfOk, OnOk};
ghost use Rattle.jh_lexemes.specs.Opened as opened;

use crate::lexeme::{Lexeme, lexeme_at};
use std::alloc::{AllocError, Global};

/// Follows one lexeme that begins at a place.
fn follow(places: &mut Vec<usize>, lexeme: Lexeme, at: usize) -> Result<(), AllocError>
    ensures { OnOk result (places.new.items ≡ opened.after_lexeme places.old.items lexeme at) }
{
    match lexeme {
        Lexeme::Open(_) | Lexeme::OpenSet | Lexeme::OpenText => places.push(at)?,
        Lexeme::Close(_) => {
            places.pop();
        }
        _ => {}
    }
    Ok(())
}

/// Where the brackets begin, in bytes, that are open at the end of a text, the outermost first. A
/// string without its end counts as one, from its quote. A closing bracket closes the one that was
/// opened last, whatever its form.
///
/// Takes time in proportion to the text.
pub fn open_brackets(alloc: Global, text: &str) -> Result<Vec<usize>, AllocError>
    ensures { IfOk result (λ places. places.items ≡ opened.open_brackets text.now) }
{
    let mut places = Vec::new(alloc);
    let mut at = 0;
    for _turn in 0..text.len() {
        let Some((lexeme, end)) = lexeme_at(text, at) else {
            return Ok(places);
        };
        follow(&mut places, lexeme, at)?;
        at = end;
    }
    Ok(places)
}
