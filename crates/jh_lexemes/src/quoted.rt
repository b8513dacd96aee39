//! How far a string goes.
//!
//! `quoted` of `specs/Lexemes.antt` says it.

ghost use Rattle.std.specs.Prelude.{◌≡◌, ◌≤◌, ◌<◌, length, slice_index, ◌&&◌};
ghost use Rattle.std.specs.Str.{IsCharBoundary};
ghost use Rattle.jh_edn.specs.Bytes.{quote};
ghost use Rattle.jh_lexemes.specs.Lexemes.{string_front};

use crate::lexeme::Lexeme;
use crate::marks::is_escape;

/// What a string is that has its closing quote.
fn closed(is_good: bool) -> Lexeme
    ensures { result ≡ Rattle.jh_lexemes.specs.Lexemes.closed_string is_good }
{
    if is_good {
        Lexeme::Text
    } else {
        Lexeme::BadText
    }
}

/// Whether the escapes are good, with one more.
fn with_escape(is_good: bool, b: u8) -> bool
    ensures { result ≡ (is_good && Rattle.jh_lexemes.specs.Lexemes.is_escape b) }
{
    is_good && is_escape(b)
}

/// The string that the text begins with, and how many bytes it takes.
pub(crate) fn string_front(rest: &str) -> (Lexeme, usize)
    requires { slice_index rest.now 0 ≡ quote }
    ensures front { result ≡ string_front rest.now }
    ensures some { 0 < result.1 }
    ensures boundary { IsCharBoundary rest.now result.1 }
{
    let mut is_good = true;
    let mut is_escaped = false;
    let mut len = 1;
    for b in &rest.as_bytes()[1..] {
        len += 1;
        if is_escaped {
            is_good = with_escape(is_good, *b);
            is_escaped = false;
        } else if *b == b'"' {
            return (closed(is_good), len);
        } else {
            is_escaped = *b == b'\\';
        }
    }
    (Lexeme::OpenText, len)
}
