//! The text of a history without its unread pairs.
//!
//! `without_unread` of `specs/Unread.antt` says what it is.

ghost use Rattle.std.specs.Prelude.{◌≡◌, ◌≤◌, ◌+◌, Some, None, cond, length, reverse, IfOk, IsTrue, ◌⊎◌};
ghost use Rattle.jh_unread.specs.Blanks.{AreOwnOrBlank};
ghost use Rattle.jh_unread.specs.Unread as unread;
ghost use Rattle.jh_unread.specs.Unread.{HasNoRefused, operation_and_text, walk_behind};
ghost use Rattle.jh_unread.specs.Walking.{walk_of};

use crate::blanking::blank_behind;
use crate::nesting::{follow, is_top};
use crate::pairs::{Followed, OpenMap, operation_behind, operation_from, unread_by};
use crate::parts::{Opened, Part, part_of};
use jh_lexemes::lexeme_at;
use std::alloc::{AllocError, Global};

/// How far a text was followed: what is open, innermost last; the operation whose map is open; and the
/// text up to there, with blanks.
#[derive(Drop)]
pub(crate) struct Walk {
    nest: Vec<Opened>,
    operation: Option<OpenMap>,
    out: Vec<u8>,
}

/// Takes a step, where the text so far ends with its lexeme. Answers the operation behind it.
fn take_step(operation: Option<OpenMap>, out: &mut Vec<u8>, step: Followed) -> Option<OpenMap>
    ensures both { (result, out.new.items) ≡ operation_and_text operation out.old.items step }
    ensures length { length out.new.items ≡ length out.old.items }
{
    let Some(operation) = operation else {
        return operation_from(step);
    };
    let behind = operation_behind(out, operation, step);
    if let Some(start) = unread_by(operation, step) {
        blank_behind(out, start);
    }
    behind
}

impl Walk {
    /// Follows one lexeme, by its part and its bytes. Says whether elements can be told apart behind it.
    fn follow(&mut self, part: Part, spelled: &[u8]) -> Result<bool, AllocError>
        ensures goes_on { IfOk result (λ goes_on.
            cond goes_on (Some (walk_of self.new)) None ≡ walk_behind (walk_of self.old) part spelled.now) }
        ensures length { IfOk result (λ goes_on.
            length self.new.out.items ≤ length self.old.out.items + length spelled.now) }
        ensures stays { IfOk result (λ goes_on. IsTrue goes_on
            ⊎ ((self.new.operation ≡ self.old.operation) × (self.new.out.items ≡ self.old.out.items))) }
    {
        let at = self.out.len();
        let before = self.nest.len();
        let is_top = is_top(&self.nest);
        let Some(is_element) = follow(&mut self.nest, part)? else {
            return Ok(false);
        };
        self.out.extend_from_slice(spelled)?;
        let step = Followed {
            part,
            at,
            before,
            after: self.nest.len(),
            is_element,
            is_top,
        };
        self.operation = take_step(self.operation, &mut self.out, step);
        Ok(true)
    }

    /// The text so far, up to an operation whose map is open, and then the rest of the text as it is.
    fn finish(self, text: &str) -> Result<Vec<u8>, AllocError>
        requires { length self.out.items ≤ length text.now }
        ensures { IfOk result (λ out.
            out.items ≡ unread.finished text.now self.operation self.out.items) }
    {
        let mut out = self.out;
        if let Some(operation) = self.operation {
            out.truncate(operation.start);
        }
        let len = out.len();
        out.extend_from_slice(&text.as_bytes()[len..])?;
        Ok(out)
    }
}

/// The text of a history without its unread pairs.
fn walk_through(alloc: Global, text: &str) -> Result<Vec<u8>, AllocError>
    ensures { IfOk result (λ out. out.items ≡ unread.without_unread text.now) }
{
    let mut walk = Walk {
        nest: Vec::new(alloc),
        operation: None,
        out: Vec::with_capacity(alloc, text.len())?,
    };
    let mut at = 0;
    for _turn in 0..text.len() {
        let Some((lexeme, end)) = lexeme_at(text, at) else {
            return walk.finish(text);
        };
        let spelled = &text[at..end];
        let part = part_of(alloc, lexeme, spelled, &text[end..])?;
        if !walk.follow(part, spelled.as_bytes())? {
            return walk.finish(text);
        }
        at = end;
    }
    walk.finish(text)
}

/// The text of a history, in which each unread pair of an operation is made blank: each byte of it but
/// for line feeds is a space. So it can be read where nothing else is wrong, and all lines and columns
/// are the same.
///
/// An operation is a map at the top level of the text, or directly inside a list or a vector there. A
/// pair of it is unread where its key is not `:type`, `:f`, `:process` or `:value`, and the reader
/// refuses a token in it, as a float, an integer outside 64 bits or a bad token, and finds no fault in its
/// characters. Where a string or a bracket is at fault, or more than 64 brackets and discards are open, the
/// operation there and all behind it is left as it is, so the reader finds that fault.
///
/// Takes time in proportion to the text, and memory for another such text.
pub fn without_unread(alloc: Global, text: &str) -> Result<Vec<u8>, AllocError>
    ensures out { IfOk result (λ out. out.items ≡ unread.without_unread text.now) }
    ensures blanks { IfOk result (λ out. AreOwnOrBlank text.now out.items) }
    ensures length { IfOk result (λ out. length out.items ≡ length text.now) }
    ensures unchanged { IfOk result (λ out. HasNoRefused text.now → out.items ≡ text.now) }
{
    walk_through(alloc, text)
}
