//! Where an element of a text stands. `specs/Places.antt` has the rule.

ghost use Rattle.std.specs.Prelude.{◌≡◌, ◌<◌, ◌+◌, ℕ, IfNone, IfOk, IfSome};
ghost use Rattle.std.specs.Str.{IsCharBoundary};
ghost use Rattle.jh_edn.specs.Edn.{Edn};
ghost use Rattle.jh_edn.specs.Spelling.{Reads};
ghost use Rattle.jh_text_reasons.specs.Places.{HasNoBlank, IsBehindBlank, IsBlankAt, IsPlaceOf};

use jh_edn::{EdnError, read_one};
use jh_lexemes::{Lexeme, lexeme_at};
use std::alloc::{AllocError, Global};

/// The start of a text. Its clause says that this is a place between characters.
pub(crate) fn start_of(text: &str) -> usize
    ensures start { result ≡ 0 }
    ensures boundary { IsCharBoundary text.now result }
{
    let _ = text;
    0
}

/// The place behind white space or a comment that stands at a place, where one does.
fn blank_end(text: &str, at: usize) -> Option<usize>
    requires { IsCharBoundary text.now at }
    ensures blank { IfSome result
        (λ end. (len : ℕ) × IsBlankAt text.now at len × (end ≡ at + len)) }
    ensures none { IfNone result (HasNoBlank text.now at) }
    ensures further { IfSome result (λ end. at < end) }
    ensures boundary { IfSome result (IsCharBoundary text.now) }
{
    match lexeme_at(text, at) {
        Some((Lexeme::White | Lexeme::Comment, end)) => Some(end),
        _ => None,
    }
}

/// The place behind all white space and comments that stand at a place.
fn behind_blank(text: &str, at: usize) -> usize
    requires { IsCharBoundary text.now at }
    ensures blank { IsBehindBlank text.now at result }
    ensures begins { HasNoBlank text.now result }
{
    let mut place = at;
    // Each takes a byte, so the turn after the last finds none.
    let most = text.len() + 1;
    for _turn in 0..most {
        match blank_end(text, place) {
            Some(end) => place = end,
            None => return place,
        }
    }
    place
}

/// The place behind an element that begins behind a gap at a place. None where none is read there.
pub(crate) fn behind_element(
    alloc: Global,
    text: &str,
    at: usize,
) -> Result<Option<usize>, AllocError>
    requires { IsCharBoundary text.now at }
    ensures read { IfOk result (λ end. IfSome end (λ end.
        (element : Edn) × Reads text.now at element end)) }
    ensures boundary { IfOk result (λ end. IfSome end (IsCharBoundary text.now)) }
{
    match read_one(alloc, text, at) {
        Ok(Some((_element, end))) => Ok(Some(end)),
        Err(EdnError::OutOfMemory) => Err(AllocError),
        Ok(None) | Err(_) => Ok(None),
    }
}

/// Whether only a gap is left behind a place.
fn is_gap(alloc: Global, text: &str, at: usize) -> Result<bool, AllocError>
    requires { IsCharBoundary text.now at }
{
    match read_one(alloc, text, at) {
        Ok(found) => Ok(found.is_none()),
        Err(EdnError::OutOfMemory) => Err(AllocError),
        Err(_) => Ok(false),
    }
}

/// Whether a text is one value, with gaps around it.
pub(crate) fn is_one_value(alloc: Global, text: &str) -> Result<bool, AllocError> {
    match behind_element(alloc, text, start_of(text))? {
        Some(end) => is_gap(alloc, text, end),
        None => Ok(false),
    }
}

/// The place of the element that stands behind so many others from a place on. None where there are not so
/// many that can be read.
pub(crate) fn place_of(
    alloc: Global,
    text: &str,
    from: usize,
    number: usize,
) -> Result<Option<usize>, AllocError>
    requires { IsCharBoundary text.now from }
    ensures { IfOk result (λ place. IfSome place (IsPlaceOf text.now from number)) }
{
    let mut at = from;
    for _element in 0..number {
        match behind_element(alloc, text, at)? {
            Some(end) => at = end,
            None => return Ok(None),
        }
    }
    Ok(Some(behind_blank(text, at)))
}
