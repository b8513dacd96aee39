//! Why a text of EDN was refused: what stands at its first error, and the brackets that are open there.
//! The lines themselves stand in `lines.rt`.

ghost use Rattle.std.specs.Prelude.{◌≡◌, IfOk};
ghost use Rattle.std.specs.Str.{IsCharBoundary};
ghost use Rattle.std.specs.String.{string_bytes};
ghost use Rattle.jh_text_reasons.specs.Lines.{IsShownAt};

use crate::lines::{MAX_TOKEN, at_line, open_line};
use jh_edn::{EdnError, first_error};
use jh_histories::recorded_part;
use jh_lexemes::{lexeme_at, open_brackets, position_of};
use jh_one_line::shortened;
use std::alloc::{AllocError, Global};

/// What an input is read as.
#[derive(Clone, Copy, Debug, PartialEq, Eq)]
pub enum InputKind {
    /// All of it, as values.
    Values,
    /// As a history, which may be a part of what `run` or `drive` printed.
    History,
}

/// What is said of a text that begins with a byte order mark.
const MARKED: &str = "the input begins with a byte order mark, which EDN does not have";

/// What is said of a text that has a colon just behind a string.
const JSON: &str =
    "this looks like JSON; jeprun reads EDN, as in {:type :ok, :process 0, :f :read, :value 1}";

/// The part of an input that is read, and where it begins.
pub(crate) fn part_of(text: &str, kind: InputKind) -> (usize, &str) {
    match kind {
        InputKind::Values => (0, text),
        InputKind::History => match recorded_part(text) {
            Some(part) => (part.start, &text[..part.end][part.start..]),
            None => (0, text),
        },
    }
}

/// What stands at a place, as it is shown.
fn shown_at(alloc: Global, text: &str, place: usize) -> Result<String, AllocError>
    requires { IsCharBoundary text.now place }
    ensures { IfOk result (λ shown. IsShownAt text.now place (string_bytes shown)) }
{
    match lexeme_at(text, place) {
        Some((_, end)) => shortened(alloc, &text[place..end], MAX_TOKEN),
        None => String::from_str(alloc, "the end"),
    }
}

/// The bracket, or the quote, that stands at a place.
fn bracket_at(text: &str, place: usize) -> &'static str {
    match text.as_bytes().get(place) {
        Some(b'(') => "(",
        Some(b'[') => "[",
        Some(b'{') => "{",
        Some(b'#') => "#{",
        _ => "\"",
    }
}

/// The line of a bracket that is open, at a place of an input, without its line feed.
fn line_of_open(
    alloc: Global,
    which: &str,
    text: &str,
    place: usize,
) -> Result<Vec<u8>, AllocError> {
    let position = position_of(text, place);
    open_line(alloc, which, bracket_at(text, place), position)
}

/// Puts lines for the brackets that are open where a part of an input ends: the innermost, and the
/// outermost where that is another one.
fn push_open(
    alloc: Global,
    lines: &mut Vec<Vec<u8>>,
    text: &str,
    start: usize,
    part: &str,
) -> Result<(), AllocError> {
    let places = open_brackets(alloc, part)?;
    if let Some(last) = places.last() {
        let place = start.saturating_add(*last);
        lines.push(line_of_open(alloc, "innermost open", text, place)?)?;
    }
    if let [first, _, ..] = places.as_slice() {
        let place = start.saturating_add(*first);
        lines.push(line_of_open(alloc, "outermost open", text, place)?)?;
    }
    Ok(())
}

/// What may help whoever gave a text that has a bad token at a place.
fn hint_at(text: &str, place: usize) -> Option<&'static str> {
    if text.starts_with('\u{feff}') {
        return Some(MARKED);
    }
    match text.as_bytes().get(..place.saturating_add(1)) {
        Some([.., b'"', b':']) => Some(JSON),
        _ => None,
    }
}

/// Puts what is said behind the line that shows the place of an error.
fn push_behind(
    alloc: Global,
    lines: &mut Vec<Vec<u8>>,
    text: &str,
    start: usize,
    part: &str,
    error: EdnError,
) -> Result<(), AllocError> {
    match error {
        EdnError::UnexpectedEnd(_) | EdnError::OddMap(_) | EdnError::DuplicateKey(_) => {
            push_open(alloc, lines, text, start, part)
        }
        _ => Ok(()),
    }
}

/// The lines for the first error of a part of an input.
fn lines_in(
    alloc: Global,
    text: &str,
    start: usize,
    part: &str,
) -> Result<Vec<Vec<u8>>, AllocError> {
    let mut lines = Vec::new(alloc);
    let Some(found) = first_error(alloc, part)? else {
        return Ok(lines);
    };
    if !part.is_char_boundary(found.place) {
        return Ok(lines);
    }
    let place = start.saturating_add(found.place);
    let shown = shown_at(alloc, part, found.place)?;
    lines.push(at_line(alloc, position_of(text, place), &shown)?)?;
    push_behind(
        alloc,
        &mut lines,
        text,
        start,
        &part[..found.place],
        found.error,
    )?;
    if let Some(hint) = hint_at(text, place) {
        lines.push(Vec::from_slice(alloc, hint.as_bytes())?)?;
    }
    Ok(lines)
}

/// The lines that say where a text was refused, for its first error: what stands there, in its line and
/// column of the whole input; where it ends too early, or a map or a set is at fault, the innermost and the
/// outermost bracket that are open there; and what may help, of a text that begins with a byte order mark
/// or looks like JSON. None where the input is no UTF-8, or each value of it can be read.
///
/// Takes time as reading does. `Err` only where memory was refused.
pub fn text_reasons(
    alloc: Global,
    input: &[u8],
    kind: InputKind,
) -> Result<Vec<Vec<u8>>, AllocError> {
    let Ok(text) = str::from_utf8(input) else {
        return Ok(Vec::new(alloc));
    };
    let (start, part) = part_of(text, kind);
    lines_in(alloc, text, start, part)
}
