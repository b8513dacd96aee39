//! Reading a character.
//!
//! `character` of `specs/Reading.antt` says what stands behind a backslash, and `char_named` and
//! `char_numbered` of `specs/Spelling.antt` which names and numbers there are.

ghost use Rattle.std.specs.Prelude.{◌≡◌, Some, None, IfOk, slice_index, if◌then◌else◌};
ghost use Rattle.std.specs.Char.{digit_value};
ghost use Rattle.std.specs.Str.{IsUtf8};
ghost use Rattle.jh_edn.specs.Bytes as bytes;
ghost use Rattle.jh_edn.specs.Bytes.{backslash, is_hex};
ghost use Rattle.jh_edn.specs.Gives.{Gives};
ghost use Rattle.jh_edn.specs.Reading as reading;
ghost use Rattle.jh_edn.specs.Spelling as spelling;
ghost use Rattle.jh_edn.specs.View.{view};

use crate::scan::token_len;
use crate::syntax_error::{ReadError, SyntaxErrorKind, syntax_error_at};
use crate::value::Value;

/// White space, but for the comma: what may not stand behind a backslash. What `blank_len` of
/// `scan.rt` passes over is more: commas and comments too.
#[tactic(auto, unfolding(crate::specs::Bytes::is_blank))]
fn is_blank(c: char) -> bool
    ensures { result ≡ bytes.is_blank c }
{
    matches!(c, ' ' | '\t'..='\r')
}

/// The character that has this name, if one has.
#[tactic(auto, unfolding(crate::specs::Spelling::char_named))]
fn named(name: &str) -> Option<char>
    ensures { result ≡ spelling.char_named name.now }
{
    match name {
        "newline" => Some('\n'),
        "return" => Some('\r'),
        "space" => Some(' '),
        "tab" => Some('\t'),
        "formfeed" => Some('\x0c'),
        "backspace" => Some('\x08'),
        _ => None,
    }
}

/// The value of a hexadecimal digit, where the byte is one.
#[tactic(auto, unfolding(crate::specs::Bytes::is_hex))]
fn hex_value(digit: u8) -> Option<u32>
    ensures { result ≡ (if is_hex digit then Some (digit_value digit) else None) }
{
    char::from(digit).to_digit(16)
}

/// The character of `u` and four hexadecimal digits.
#[tactic(auto, unfolding(crate::specs::Spelling::char_numbered, crate::specs::Bytes::is_hex))]
fn numbered(name: &[u8]) -> Option<char>
    ensures { result ≡ spelling.char_numbered name.now }
{
    let [b'u', first, second, third, fourth] = name else {
        return None;
    };
    let mut code = hex_value(*first)?;
    code = 16 * code + hex_value(*second)?;
    code = 16 * code + hex_value(*third)?;
    code = 16 * code + hex_value(*fourth)?;
    char::from_u32(code)
}

/// A character by itself.
#[tactic(auto, unfolding(crate::specs::Reading::lone_char))]
fn alone(c: char) -> Option<char>
    ensures { result ≡ reading.lone_char c }
{
    if is_blank(c) { None } else { Some(c) }
}

/// A character by its name or its number.
#[tactic(auto, unfolding(crate::specs::Reading::char_spelled))]
fn called(name: &str) -> Option<char>
    ensures { result ≡ reading.char_spelled name.now }
{
    match named(name) {
        Some(c) => Some(c),
        None => numbered(name.as_bytes()),
    }
}

/// A character and what follows it, from its backslash on.
#[tactic(auto, unfolding(crate::specs::Reading::character))]
pub(crate) fn character(rest: &str) -> Result<(Value, &str), ReadError>
    requires { slice_index rest.now 0 ≡ backslash }
    ensures gives { Gives (λ x. (view x.0, x.1.now)) result (reading.character rest.now) }
    ensures text { IfOk result (λ x. IsUtf8 x.1.now) }
{
    let behind = &rest[1..];
    let mut chars = behind.chars();
    let Some(first) = chars.next() else {
        return Err(syntax_error_at(SyntaxErrorKind::UnexpectedEnd, ""));
    };
    let after = chars.as_str();
    let len = token_len(after);
    let found = if len == 0 {
        alone(first)
    } else {
        called(&behind[..first.len_utf8() + len])
    };
    match found {
        Some(c) => Ok((Value::Char(c), &after[len..])),
        None => Err(syntax_error_at(SyntaxErrorKind::BadToken, rest)),
    }
}
