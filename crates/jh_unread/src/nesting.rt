//! What is open, and where elements end.
//!
//! `follow` of `specs/Nesting.antt` says it, of what is open with the innermost first; here it is the
//! last.

ghost use Rattle.std.specs.Prelude.{◌≡◌, reverse, length, option_map, IfOk};
ghost use Rattle.jh_unread.specs.Nesting as nesting;

use crate::parts::{Opened, Part};
use jh_edn::DEPTH_LIMIT;
use jh_lexemes::Bracket;
use std::alloc::AllocError;

/// Whether the bracket closes this.
fn closes(opened: Opened, bracket: Bracket) -> bool
    ensures { result ≡ nesting.closes opened bracket }
{
    matches!(
        (opened, bracket),
        (Opened::Round, Bracket::Round)
            | (Opened::Square, Bracket::Square)
            | (Opened::Curly | Opened::Set, Bracket::Curly)
    )
}

/// Ends an element, and with it a discard that waits for one. Says whether the element is one of what
/// it stands in, and not discarded.
fn end_element(nest: &mut Vec<Opened>) -> bool
    ensures { (reverse nest.new.items, result) ≡ nesting.ended (reverse nest.old.items) }
{
    if let Some(Opened::Discard) = nest.last() {
        nest.pop();
        return false;
    }
    true
}

/// Closes what is innermost. Says whether an element ends, as `end_element` does; `None` where the
/// bracket does not close it.
fn close(nest: &mut Vec<Opened>, bracket: Bracket) -> Option<bool>
    ensures { option_map (λ is_element. (reverse nest.new.items, is_element)) result
        ≡ nesting.closed (reverse nest.old.items) bracket }
{
    let innermost = nest.pop()?;
    if closes(innermost, bracket) {
        Some(end_element(nest))
    } else {
        None
    }
}

/// Opens one more. `None` where as many are open as may be.
fn open(nest: &mut Vec<Opened>, opened: Opened) -> Result<Option<bool>, AllocError>
    ensures { IfOk result (λ found. option_map (λ is_element. (reverse nest.new.items, is_element)) found
        ≡ nesting.opened (reverse nest.old.items) opened) }
{
    if nest.len() >= DEPTH_LIMIT {
        return Ok(None);
    }
    nest.push(opened)?;
    Ok(Some(false))
}

/// Follows one lexeme. Says whether an element ends with it that is not discarded; `None` where from
/// there on no elements can be told apart.
pub(crate) fn follow(nest: &mut Vec<Opened>, part: Part) -> Result<Option<bool>, AllocError>
    ensures { IfOk result (λ found. option_map (λ is_element. (reverse nest.new.items, is_element)) found
        ≡ nesting.follow (reverse nest.old.items) part) }
{
    match part {
        Part::Gap | Part::Prefix(_) => Ok(Some(false)),
        Part::Whole(_) => Ok(Some(end_element(nest))),
        Part::Opens(opened) => open(nest, opened),
        Part::Closes(bracket) => Ok(close(nest, bracket)),
        Part::Broken => Ok(None),
    }
}

/// Whether an operation may begin where this is open.
pub(crate) fn is_top(nest: &[Opened]) -> bool
    ensures { result ≡ nesting.is_top (reverse nest.now) }
{
    matches!(nest, [] | [Opened::Round | Opened::Square])
}
