//! Reading a token: a number, a keyword, a symbol, `nil`, `true` or `false`.
//!
//! `atom` of `specs/Reading.antt` says what a token is, and in which order its errors are looked
//! for.

ghost use Rattle.std.specs.Prelude.{◌≡◌, ◌≤◌, length, IfOk, true, option_map};
ghost use Rattle.std.specs.Str.{IsUtf8};
ghost use Rattle.std.specs.Str.Parse.{IsNumeral, without_leading_sign};
ghost use Rattle.jh_edn.specs.Gives.{Gives};
ghost use Rattle.jh_edn.specs.Reading as reading;
ghost use Rattle.jh_edn.specs.View.{view};

use crate::name::{is_name, is_symbol_name};
use crate::scan::{digits_len, is_digit, token_len};
use crate::syntax_error::{ReadError, SyntaxErrorKind, syntax_error_at};
use crate::text::Text;
use crate::value::Value;
use std::alloc::Global;

/// How many bytes the sign takes: 1 or none.
#[tactic(auto, unfolding(crate::specs::Reading::sign_len))]
fn sign_len(token: &[u8]) -> usize
    ensures len { result ≡ reading.sign_len token.now }
    ensures within { result ≤ length token.now }
{
    match token {
        [b'+' | b'-', ..] => 1,
        _ => 0,
    }
}

/// Whether a token begins as a number does: with a digit, or with a sign and a digit.
#[tactic(auto, unfolding(crate::specs::Reading::sign_len, crate::specs::Bytes::is_digit))]
fn begins_number(token: &[u8]) -> bool
    ensures { result ≡ reading.begins_number token.now }
{
    match token {
        [] => false,
        [b'+' | b'-'] => false,
        [b'+' | b'-', second, ..] => is_digit(*second),
        [first, ..] => is_digit(*first),
    }
}

/// A fraction, an exponent or the mark of an exact decimal.
#[tactic(auto, unfolding(crate::specs::Reading::begins_fraction))]
fn begins_fraction(rest: &[u8]) -> bool
    ensures { result ≡ reading.begins_fraction rest.now }
{
    matches!(rest, [b'.' | b'e' | b'E' | b'M', ..])
}

/// Whether this may follow the digits of an integer: an `N`, or nothing.
fn is_suffix(rest: &[u8]) -> bool
    ensures { result ≡ reading.is_suffix rest.now }
{
    matches!(rest, [] | [b'N'])
}

/// The integer of a sign and digits.
#[tactic(auto, using(crate::proofs::NumberLemmas::too_large, crate::proofs::NumberLemmas::unsigned_is), unfolding(crate::specs::Reading::integer_spelled))]
fn integer_of(core: &[u8]) -> Result<i64, SyntaxErrorKind>
    requires { IsNumeral 10 (without_leading_sign core.now) }
    ensures { result ≡ reading.integer_spelled core.now }
{
    let digits = &core[sign_len(core)..];
    if digits.len() > 1 && digits[0] == b'0' {
        return Err(SyntaxErrorKind::BadToken);
    }
    match fast_float::parse_i64(core) {
        Ok(n) => Ok(n),
        Err(_) => Err(SyntaxErrorKind::IntegerRange),
    }
}

/// The integer of a token that begins as a number does, or what is wrong with it.
#[tactic(auto, using(crate::proofs::NumberLemmas::numeral_cut), unfolding(crate::specs::Reading::number_of))]
fn number_of(token: &[u8]) -> Result<i64, SyntaxErrorKind>
    requires { reading.begins_number token.now ≡ true }
    ensures { result ≡ reading.number_of token.now }
{
    let sign = sign_len(token);
    let end = sign + digits_len(&token[sign..]);
    let rest = &token[end..];
    if begins_fraction(rest) {
        return Err(SyntaxErrorKind::FloatUnsupported);
    }
    if !is_suffix(rest) {
        return Err(SyntaxErrorKind::BadToken);
    }
    integer_of(&token[..end])
}

/// `nil`, `true` or `false`.
#[tactic(auto, unfolding(crate::specs::Reading::constant_of))]
fn constant(token: &str) -> Option<Value>
    ensures { option_map view result ≡ reading.constant_of token.now }
{
    if token == "nil" {
        Some(Value::Nil)
    } else if token == "true" {
        Some(Value::Bool(true))
    } else if token == "false" {
        Some(Value::Bool(false))
    } else {
        None
    }
}

/// A number, a keyword, a symbol, `nil`, `true` or `false`, and what follows it.
#[tactic(auto, unfolding(crate::specs::Reading::atom, crate::specs::Reading::atom_of))]
pub(crate) fn atom(alloc: Global, rest: &str) -> Result<(Value, &str), ReadError>
    ensures gives { Gives (λ x. (view x.0, x.1.now)) result (reading.atom rest.now) }
    ensures text { IfOk result (λ x. IsUtf8 x.1.now) }
{
    let len = token_len(rest);
    let token = &rest[..len];
    if begins_number(token.as_bytes()) {
        return match number_of(token.as_bytes()) {
            Ok(n) => Ok((Value::Int(n), &rest[len..])),
            Err(kind) => Err(syntax_error_at(kind, rest)),
        };
    }
    if token.starts_with(':') && is_name(&token.as_bytes()[1..]) {
        let name = Text::of(alloc, &token[1..])?;
        return Ok((Value::Keyword(name), &rest[len..]));
    }
    if let Some(value) = constant(token) {
        return Ok((value, &rest[len..]));
    }
    if is_symbol_name(token.as_bytes()) {
        let name = Text::of(alloc, token)?;
        return Ok((Value::Symbol(name), &rest[len..]));
    }
    Err(syntax_error_at(SyntaxErrorKind::BadToken, rest))
}
