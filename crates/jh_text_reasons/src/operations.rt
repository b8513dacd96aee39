//! Where the element or the operation of a number begins, and which functions its checker judges.

ghost use Rattle.std.specs.Prelude.{IfOk, IfSome};
ghost use Rattle.std.specs.Str.{IsCharBoundary};
ghost use Rattle.jh_text_reasons.specs.Places.{IsInside, IsPlaceOfOperation};

use crate::lines::element_line;
use crate::places::{is_one_value, place_of, start_of};
use crate::texts::{InputKind, part_of};
use jh_histories::history_in;
use jh_lexemes::{Bracket, Lexeme, lexeme_at, position_of};
use jh_ops::Op;
use std::alloc::{AllocError, Global};

/// The place just behind the bracket of a list or a vector, with tags before it, that a text begins with.
fn inside_first(text: &str) -> Option<usize>
    ensures inside { IfSome result (IsInside text.now) }
    ensures boundary { IfSome result (IsCharBoundary text.now) }
{
    let mut at = start_of(text);
    for _lexeme in 0..text.len() {
        match lexeme_at(text, at)? {
            (Lexeme::White | Lexeme::Comment | Lexeme::Tag, end) => at = end,
            (Lexeme::Open(Bracket::Round | Bracket::Square), end) => return Some(end),
            _ => return None,
        }
    }
    None
}

/// The place of an operation of a history. Its operations are the values of a text or, where the text is one
/// list or vector, the elements of that.
fn place_of_operation(alloc: Global, part: &str, number: usize) -> Result<Option<usize>, AllocError>
    ensures { IfOk result (λ place. IfSome place (IsPlaceOfOperation part.now number)) }
{
    match inside_first(part) {
        Some(from) if is_one_value(alloc, part)? => place_of(alloc, part, from, number),
        _ => place_of(alloc, part, start_of(part), number),
    }
}

/// The line with the functions of a workload, without its line feed.
fn functions_line(alloc: Global, functions: &[&str]) -> Result<Vec<u8>, AllocError> {
    let mut line = Vec::from_slice(alloc, b"the functions of the workload:")?;
    for name in functions {
        line.push(b' ')?;
        line.extend_from_slice(name.as_bytes())?;
    }
    Ok(line)
}

/// Whether an operation is a client's, of none of these functions.
fn is_foreign(op: &Op, functions: &[&str]) -> bool {
    op.process.is_client() && !functions.iter().any(|name| op.is_asked(op.kind, name))
}

/// Whether the operation of this number in a history is a client's, of none of these functions.
fn has_foreign_at(alloc: Global, part: &str, number: usize, functions: &[&str]) -> bool {
    match history_in(alloc, part) {
        Ok(history) => match history.get(number) {
            Some(op) => is_foreign(op, functions),
            None => false,
        },
        Err(_) => false,
    }
}

/// The part of an input in which operations are counted, and where it begins.
fn counted_part(alloc: Global, text: &str) -> (usize, &str) {
    match history_in(alloc, text) {
        Ok(_) => (0, text),
        Err(_) => part_of(text, InputKind::History),
    }
}

/// The lines for the operation of this number, from 0, in a history: where it begins in the input and, where
/// it is a client's and of none of the functions of the workload that judged it, these functions.
///
/// Takes time as reading does. `Err` only where memory was refused.
pub fn operation_reasons(
    alloc: Global,
    input: &[u8],
    number: usize,
    functions: &[&str],
) -> Result<Vec<Vec<u8>>, AllocError> {
    let mut lines = Vec::new(alloc);
    let Ok(text) = str::from_utf8(input) else {
        return Ok(lines);
    };
    let (start, part) = counted_part(alloc, text);
    let Some(place) = place_of_operation(alloc, part, number)? else {
        return Ok(lines);
    };
    let position = position_of(text, start.saturating_add(place));
    lines.push(element_line(alloc, "operation", number as u64, position)?)?;
    if !functions.is_empty() && has_foreign_at(alloc, part, number, functions) {
        lines.push(functions_line(alloc, functions)?)?;
    }
    Ok(lines)
}

/// The line for the element of this number, from 1, of an input that is read as values: where it begins.
///
/// Takes time as reading does. `Err` only where memory was refused.
pub fn element_reasons(
    alloc: Global,
    input: &[u8],
    number: u64,
) -> Result<Vec<Vec<u8>>, AllocError> {
    let mut lines = Vec::new(alloc);
    let (Ok(text), Some(before)) = (str::from_utf8(input), number.checked_sub(1)) else {
        return Ok(lines);
    };
    if let Some(place) = place_of(alloc, text, start_of(text), before as usize)? {
        lines.push(element_line(alloc, "element", number, position_of(text, place))?)?;
    }
    Ok(lines)
}
