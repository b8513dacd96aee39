//! The lines themselves. `specs/Lines.antt` has each.

ghost use Rattle.std.specs.Prelude.{◌≡◌, IfOk};
ghost use Rattle.jh_text_reasons.specs.Lines as rule;

use jh_lexemes::Position;
use std::alloc::{AllocError, Global};

/// How many bytes of a token are shown at most.
pub(crate) const MAX_TOKEN: usize = 40;

/// How many bytes of a reply are shown at most.
pub(crate) const MAX_REPLY: usize = 200;

/// The line that says what stands at a position, without its line feed.
pub(crate) fn at_line(alloc: Global, position: Position, shown: &str) -> Result<Vec<u8>, AllocError>
    ensures { IfOk result (λ line. line.items ≡ rule.at_line position shown.now) }
{
    let Position { line, column } = position;
    let text = format!(in alloc; "at line {line}, column {column}: {shown}")?;
    Ok(text.into_bytes())
}

/// The line of a bracket that is not closed, without its line feed.
pub(crate) fn open_line(
    alloc: Global,
    which: &str,
    bracket: &str,
    position: Position,
) -> Result<Vec<u8>, AllocError>
    ensures { IfOk result (λ line. line.items ≡ rule.open_line which.now bracket.now position) }
{
    let Position { line, column } = position;
    let text = format!(in alloc; "{which}: {bracket} at line {line}, column {column}")?;
    Ok(text.into_bytes())
}

/// The line that says where an element or an operation of a number begins, without its line feed.
pub(crate) fn element_line(
    alloc: Global,
    what: &str,
    number: u64,
    position: Position,
) -> Result<Vec<u8>, AllocError>
    ensures { IfOk result (λ line. line.items ≡ rule.element_line what.now number position) }
{
    let Position { line, column } = position;
    let text = format!(in alloc; "{what} {number} begins at line {line}, column {column}")?;
    Ok(text.into_bytes())
}

/// The line of a reply, as it came, without its line feed.
pub(crate) fn reply_line(alloc: Global, number: u64, shown: &str) -> Result<Vec<u8>, AllocError>
    ensures { IfOk result (λ line. line.items ≡ rule.reply_line number shown.now) }
{
    let text = format!(in alloc; "reply {number} was: {shown}")?;
    Ok(text.into_bytes())
}
