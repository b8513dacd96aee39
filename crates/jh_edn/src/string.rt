//! Reading a string.
//!
//! `body` of `specs/Reading.antt` says what stands between the quotes, and where it is refused.

ghost use Rattle.std.specs.Prelude.{◌≡◌, IfOk};
ghost use Rattle.std.specs.Str.{IsUtf8};
ghost use Rattle.std.specs.List.{prefix_len};
ghost use Rattle.jh_edn.specs.Bytes.{is_plain};
ghost use Rattle.jh_edn.specs.Gives.{Gives, rest_at_stop, IsShorter};
ghost use Rattle.jh_edn.specs.Reading.{body};

use crate::scan::{plain_len, unescape};
use crate::syntax_error::{ReadError, SyntaxErrorKind, syntax_error_at};
use crate::text::Text;
use std::alloc::Global;

/// What stands where the bytes end that stand for themselves.
#[derive(Drop)]
enum Stop<'a> {
    End,
    Close(&'a str),
    Escape(char, &'a str),
    BadEscape,
}

/// The stop that the text begins with.
#[tactic(auto, using(crate::proofs::StringBodyLemmas::escape_ascii), unfolding(crate::specs::Reading::body))]
fn stop_at(rest: &str) -> Stop<'_>
    requires { prefix_len is_plain rest.now ≡ 0 }
    ensures gives { body rest.now ≡ rest_at_stop result rest.now }
    ensures shorter { IsShorter result rest.now }
{
    let bytes = rest.as_bytes();
    if bytes.is_empty() {
        return Stop::End;
    }
    if bytes[0] == b'"' {
        return Stop::Close(&rest[1..]);
    }
    if bytes.len() == 1 {
        return Stop::End;
    }
    match unescape(bytes[1]) {
        Some(c) => Stop::Escape(c, &rest[2..]),
        None => Stop::BadEscape,
    }
}

/// What follows a string's opening quote, up to its end. Most strings have no escape, and are taken
/// as they stand.
pub(crate) fn string(alloc: Global, rest: &str) -> Result<(Text, &str), ReadError>
    ensures gives { Gives (λ x. (x.0, x.1.now)) result (body rest.now) }
    ensures text { IfOk result (λ x. IsUtf8 x.1.now) }
{
    let len = plain_len(rest);
    match stop_at(&rest[len..]) {
        Stop::Close(after) => Ok((Text::of(alloc, &rest[..len])?, after)),
        _ => string_in_pieces(alloc, rest),
    }
}

/// The same, with escapes.
fn string_in_pieces(alloc: Global, rest: &str) -> Result<(Text, &str), ReadError>
    ensures gives { Gives (λ x. (x.0, x.1.now)) result (body rest.now) }
    ensures text { IfOk result (λ x. IsUtf8 x.1.now) }
{
    let mut text = String::new(alloc);
    let mut left = rest;
    'pieces: loop {
        let len = plain_len(left);
        text.push_str(&left[..len])?;
        left = &left[len..];
        match stop_at(left) {
            Stop::End => return Err(syntax_error_at(SyntaxErrorKind::UnexpectedEnd, "")),
            Stop::Close(after) => return Ok((Text::of_string(alloc, text)?, after)),
            Stop::BadEscape => return Err(syntax_error_at(SyntaxErrorKind::BadEscape, left)),
            Stop::Escape(c, after) => {
                text.push(c)?;
                left = after;
            }
        }
    }
}
