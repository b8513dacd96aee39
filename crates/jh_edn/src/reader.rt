//! Reading the next element of a text.
//!
//! `Reads` of `specs/Spelling.antt` says what an element is, `IsFirstErrorAt` of
//! `specs/Reading.antt` which error a refused text has.

ghost use Rattle.std.specs.Prelude.{◌≡◌, ◌⊎◌, ◌<◌, drop, IfOk, IfErr, IfSome, IfNone};
ghost use Rattle.std.specs.Str.{IsCharBoundary};
ghost use Rattle.jh_edn.specs.Reading as reading;
ghost use Rattle.jh_edn.specs.Reading.{line_at, IsFirstErrorAt};
ghost use Rattle.jh_edn.specs.Spelling.{IsGap, Reads, NothingReads};
ghost use Rattle.jh_edn.specs.View.{view};

use crate::element::{after_gap, element};
use crate::error::{EdnError, error_at_line};
use crate::syntax_error::ReadError;
use crate::value::Value;
use std::alloc::Global;

/// How many brackets, tags and discards may be open at once: `depth_limit` of `specs/Spelling.antt`.
pub const DEPTH_LIMIT: usize = 64;

/// The line, from 1, of the place with so many bytes left.
fn line_of(text: &str, left: usize) -> u64
    ensures { result ≡ line_at text.now left }
{
    let place = text.len().saturating_sub(left);
    let mut line = 1;
    for b in &text.as_bytes()[..place] {
        if *b == b'\n' {
            line += 1;
        }
    }
    line
}

/// The error of a whole text.
pub(crate) fn error_in(text: &str, error: ReadError) -> EdnError
    ensures { result ≡ reading.error_in text.now error }
{
    match error {
        ReadError::Memory => EdnError::OutOfMemory,
        ReadError::Syntax(found) => error_at_line(found.kind, line_of(text, found.left)),
    }
}

/// The element that begins behind the gap at `at`, and the place after it, both in bytes. `None`
/// where only a gap is left.
///
/// Takes time in proportion to the text read, but for keys of maps and elements of sets: n of them
/// take n log n comparisons.
///
/// Errors: the error whose deciding character comes first, with its line in the whole text;
/// `OutOfMemory` where memory for a value or its keys was refused before that.
pub fn read_one(alloc: Global, text: &str, at: usize) -> Result<Option<(Value, usize)>, EdnError>
    requires { IsCharBoundary text.now at }
    ensures some { IfOk result (λ o. IfSome o (λ p. Reads text.now at (view p.0) p.1)) }
    ensures place { IfOk result (λ o. IfSome o (λ p. (at < p.1) × IsCharBoundary text.now p.1)) }
    ensures none { IfOk result (λ o. IfNone o (IsGap (drop at text.now))) }
    ensures refused { IfErr result (λ e. (e ≡ EdnError.OutOfMemory) ⊎ NothingReads text.now at) }
    ensures first_error { IfErr result
        (λ e. (e ≡ EdnError.OutOfMemory) ⊎ IsFirstErrorAt text.now at e) }
{
    let here = match after_gap(alloc, &text[at..], DEPTH_LIMIT) {
        Ok(here) => here,
        Err(error) => return Err(error_in(text, error)),
    };
    if here.is_empty() {
        return Ok(None);
    }
    match element(alloc, here, DEPTH_LIMIT) {
        Ok((value, after)) => Ok(Some((value, text.len() - after.len()))),
        Err(error) => Err(error_in(text, error)),
    }
}
