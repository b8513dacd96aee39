//! Where the first error of a text stands, in bytes, for those who show what stands there.
//!
//! `IsFirstErrorAndPlace` of `specs/Lines.antt` says what is found.

ghost use Rattle.std.specs.Prelude.{IfOk, MatchOption};
ghost use Rattle.jh_edn.specs.Lines.{HasNoError, IsFirstErrorAndPlace};

use crate::error::EdnError;
use crate::line::line_values;
use crate::reader::error_in;
use crate::syntax_error::ReadError;
use std::alloc::{AllocError, Global};

/// What is wrong with a text first, and where.
#[derive(Clone, Copy, Debug, PartialEq, Eq)]
pub struct FirstError {
    /// The error, with its line.
    pub error: EdnError,
    /// The place of the character that decides, in bytes from the start; of an unexpected end, the
    /// length of the text.
    pub place: usize,
}

/// The first error of a text, as `values_in_line` answers it, with its place. `None` where each value of
/// the text can be read.
///
/// Takes time as `values_in_line` does. `Err` only where memory was refused before the error was found.
pub fn first_error(alloc: Global, text: &str) -> Result<Option<FirstError>, AllocError>
    ensures { IfOk result
        (λ found. MatchOption found (HasNoError text.now) (IsFirstErrorAndPlace text.now)) }
{
    match line_values(alloc, text) {
        Ok(_values) => Ok(None),
        Err(ReadError::Memory) => Err(AllocError),
        Err(ReadError::Syntax(found)) => Ok(Some(FirstError {
            error: error_in(text, ReadError::Syntax(found)),
            place: text.len().saturating_sub(found.left),
        })),
    }
}
