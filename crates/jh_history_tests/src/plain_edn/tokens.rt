//! What a token spells, and what may stand behind the backslash of a character.

use crate::plain_edn::value::{PlainError, PlainKind, PlainValue};
use std::alloc::Global;

/// White space that may not stand behind a backslash.
fn is_blank(c: char) -> bool {
    " \t\n\x0b\x0c\r".contains(c)
}

/// White space.
pub(crate) fn is_white(c: char) -> bool {
    c == ',' || is_blank(c)
}

/// What a token is made of.
pub(crate) fn is_of_token(c: char) -> bool {
    !is_white(c) && !"()[]{}\";\\".contains(c)
}

/// A decimal digit.
fn is_digit(c: char) -> bool {
    c.is_ascii_digit()
}

/// What a name is made of.
fn is_of_name(c: char) -> bool {
    c.is_ascii_alphanumeric() || ".*+!-_?$%&=<>:#'/".contains(c)
}

/// Whether it may stand behind the colon of a keyword.
fn is_name(name: &str) -> bool {
    let Some(first) = name.chars().next() else {
        return false;
    };
    let parts = name.split('/').count();
    !":#'/".contains(first) && name.chars().all(is_of_name) && parts <= 2 && !name.ends_with('/')
}

/// What is a value by itself.
fn constant(token: &str) -> Option<PlainValue> {
    match token {
        "nil" => Some(PlainValue::Nil),
        "true" => Some(PlainValue::Boolean(true)),
        "false" => Some(PlainValue::Boolean(false)),
        _ => None,
    }
}

/// Whether it begins as a number does, or as one with nothing before its point.
fn is_like_number(name: &str) -> bool {
    let mut chars = name.chars();
    match (chars.next(), chars.next()) {
        (Some('0'..='9'), _) => true,
        (Some('+' | '-' | '.'), Some(second)) => is_digit(second),
        _ => false,
    }
}

/// Whether a symbol may have this name.
fn is_symbol(name: &str) -> bool {
    name == "/" || is_name(name) && !is_like_number(name) && constant(name).is_none()
}

/// Whether it may stand behind the `#` of a tag.
pub(crate) fn is_tag(name: &str) -> bool {
    match name.chars().next() {
        Some(first) => first.is_ascii_alphabetic() && is_symbol(name),
        None => false,
    }
}

/// What stands behind the sign, where there is one.
fn unsigned(token: &str) -> &str {
    token
        .strip_prefix('+')
        .or(token.strip_prefix('-'))
        .unwrap_or(token)
}

/// The number of a token that begins with a digit, or with a sign and a digit.
fn number(token: &str) -> Result<i64, PlainKind> {
    let unsigned = unsigned(token);
    let rest = unsigned.trim_start_matches(is_digit);
    let digits = unsigned.strip_suffix(rest).unwrap_or(unsigned);
    if matches!(rest.chars().next(), Some('.' | 'e' | 'E' | 'M')) {
        return Err(PlainKind::FloatUnsupported);
    }
    if rest != "" && rest != "N" {
        return Err(PlainKind::BadToken);
    }
    if digits.len() > 1 && digits.starts_with('0') {
        return Err(PlainKind::BadToken);
    }
    let number = token.strip_suffix(rest).unwrap_or(token);
    number.parse::<i64>().ok().ok_or(PlainKind::IntegerRange)
}

/// The value of a token that stands at a place.
pub(crate) fn value_of(alloc: Global, token: &str, place: usize) -> Result<PlainValue, PlainError> {
    if let Some(value) = constant(token) {
        return Ok(value);
    }
    if unsigned(token).starts_with(is_digit) {
        return match number(token) {
            Ok(number) => Ok(PlainValue::Integer(number)),
            Err(kind) => Err(PlainError::Refused(kind, place)),
        };
    }
    if let Some(name) = token.strip_prefix(':') {
        if is_name(name) {
            return Ok(PlainValue::Keyword(String::from_str(alloc, name)?));
        }
    }
    if is_symbol(token) {
        return Ok(PlainValue::Symbol(String::from_str(alloc, token)?));
    }
    Err(PlainError::Refused(PlainKind::BadToken, place))
}

/// The character of a `u` and four hexadecimal digits.
fn numbered(name: &str) -> Option<char> {
    let digits = name.strip_prefix('u')?;
    // A plus would be parsed as a sign.
    if digits.len() != 4 || digits.starts_with('+') {
        return None;
    }
    char::from_u32(u32::from_str_radix(digits, 16).ok()?)
}

/// The character that is written so behind a backslash.
pub(crate) fn character(name: &str) -> Option<char> {
    let mut chars = name.chars();
    let first = chars.next()?;
    if chars.next().is_none() {
        return (!is_blank(first)).then_some(first);
    }
    match name {
        "newline" => Some('\n'),
        "return" => Some('\r'),
        "space" => Some(' '),
        "tab" => Some('\t'),
        "formfeed" => Some('\x0c'),
        "backspace" => Some('\x08'),
        _ => numbered(name),
    }
}
