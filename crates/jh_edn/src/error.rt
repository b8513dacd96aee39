//! Why a text was refused, or a reader or writer failed.
//!
//! The texts are those that users see. `specs/Reading.antt` says which error a text has and at
//! which line, and `specs/Refused.antt` which error `read_all` answers. A kind of error is added
//! here, in `src/syntax_error.rt` and there.

ghost use Rattle.std.specs.Prelude.{◌≡◌};
ghost use Rattle.jh_edn.specs.declared.error.EdnError.TheVariants.{OutOfMemory};
ghost use Rattle.jh_edn.specs.Reading.{error_at};

use crate::syntax_error::SyntaxErrorKind;
use std::alloc::{AllocError, AllocFailed};
use thiserror::Error;

/// Why a text was refused, with the line (from 1) of the character that decided against it, or what
/// else failed.
#[derive(Clone, Copy, Debug, PartialEq, Eq, Error)]
pub enum EdnError {
    /// The text ends inside a string, a collection, a tag or a discard, or behind a last backslash.
    #[error("line {0}: unexpected end")]
    UnexpectedEnd(u64),
    /// A token that is no element, a character or a tag that there is not, or a delimiter that
    /// opens nothing and closes nothing here.
    #[error("line {0}: bad token")]
    BadToken(u64),
    /// A number with a fraction, an exponent or an `M`.
    #[error("line {0}: float unsupported")]
    FloatUnsupported(u64),
    /// An integer outside 64 bits.
    #[error("line {0}: integer out of range")]
    IntegerRange(u64),
    /// A backslash in a string before a character that it does not go with.
    #[error("line {0}: bad escape")]
    BadEscape(u64),
    /// A map with a key that has no value.
    #[error("line {0}: odd map")]
    OddMap(u64),
    /// A map with two equal keys, or a set with two equal elements.
    #[error("line {0}: duplicate key")]
    DuplicateKey(u64),
    /// A bracket, a tag or a discard inside 64 others.
    #[error("line {0}: too deep")]
    TooDeep(u64),
    #[error("not UTF-8")]
    Utf8,
    /// The reader's end was not seen within the reads allowed.
    #[error("input too long")]
    TooLong,
    #[error("read failed")]
    Read,
    #[error("write failed")]
    Write,
    #[error("out of memory")]
    OutOfMemory,
}

impl From<AllocError> for EdnError {
    ghost from_gives = { λ _ e. e ≡ OutOfMemory };

    fn from(_: AllocError) -> EdnError {
        EdnError::OutOfMemory
    }
}

impl<T: Drop> From<AllocFailed<T>> for EdnError {
    ghost from_gives = { λ _ e. e ≡ OutOfMemory };

    fn from(_: AllocFailed<T>) -> EdnError {
        EdnError::OutOfMemory
    }
}

/// The error at that line.
pub(crate) fn error_at_line(kind: SyntaxErrorKind, line: u64) -> EdnError
    ensures { result ≡ error_at kind line }
{
    match kind {
        SyntaxErrorKind::UnexpectedEnd => EdnError::UnexpectedEnd(line),
        SyntaxErrorKind::BadToken => EdnError::BadToken(line),
        SyntaxErrorKind::FloatUnsupported => EdnError::FloatUnsupported(line),
        SyntaxErrorKind::IntegerRange => EdnError::IntegerRange(line),
        SyntaxErrorKind::BadEscape => EdnError::BadEscape(line),
        SyntaxErrorKind::OddMap => EdnError::OddMap(line),
        SyntaxErrorKind::DuplicateKey => EdnError::DuplicateKey(line),
        SyntaxErrorKind::TooDeep => EdnError::TooDeep(line),
    }
}
