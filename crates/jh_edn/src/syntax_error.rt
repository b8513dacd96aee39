//! What can be wrong with a text, while it is read.
//!
//! An error says how many bytes were left, and not its line, so that lines are counted once, at the
//! end, and only for a text that is refused. `specs/Reading.antt` says which error a text has.

ghost use Rattle.std.specs.Prelude.{◌≡◌, length};
ghost use Rattle.jh_edn.specs.declared.syntax_error.ReadError.TheVariants.{Memory};

use std::alloc::{AllocError, AllocFailed};

/// What is wrong.
#[derive(Clone, Copy, Debug, PartialEq, Eq)]
pub(crate) enum SyntaxErrorKind {
    UnexpectedEnd,
    BadToken,
    FloatUnsupported,
    IntegerRange,
    BadEscape,
    OddMap,
    DuplicateKey,
    TooDeep,
}

/// What is wrong, and how many bytes of the text are left there.
#[derive(Clone, Copy, Debug, PartialEq, Eq)]
pub(crate) struct SyntaxError {
    pub(crate) kind: SyntaxErrorKind,
    pub(crate) left: usize,
}

/// Why reading stopped.
#[derive(Debug, Drop)]
pub(crate) enum ReadError {
    Memory,
    Syntax(SyntaxError),
}

impl From<AllocError> for ReadError {
    ghost from_gives = { λ _ e. e ≡ Memory };

    fn from(_: AllocError) -> ReadError {
        ReadError::Memory
    }
}

impl<T: Drop> From<AllocFailed<T>> for ReadError {
    ghost from_gives = { λ _ e. e ≡ Memory };

    fn from(_: AllocFailed<T>) -> ReadError {
        ReadError::Memory
    }
}

/// The error at the front of the text.
pub(crate) fn syntax_error_at(kind: SyntaxErrorKind, rest: &str) -> ReadError
    ensures { result ≡ ReadError.Syntax (record { kind = kind; left = length rest.now }) }
{
    ReadError::Syntax(SyntaxError {
        kind,
        left: rest.len(),
    })
}
