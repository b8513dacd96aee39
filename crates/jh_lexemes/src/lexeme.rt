//! What stands at a place of a text: the lexeme that begins there, and where it ends.
//!
//! `lexeme_of` of `specs/Lexemes.antt` says it. A new kind of lexeme is a new variant of `Lexeme`, a new
//! arm of `front` and a new case there.

ghost use Rattle.std.specs.Prelude.{◌≡◌, ◌≤◌, ◌<◌, ◌+◌, length, drop, slice_index, option_map, IfSome};
ghost use Rattle.std.specs.Prelude.{None};
ghost use Rattle.std.specs.Str.{IsCharBoundary};
ghost use Rattle.jh_edn.specs.Bytes as bytes;
ghost use Rattle.jh_lexemes.specs.Lexemes as lexemes;

use crate::marks::{is_space, line_len, space_len, token_len};
use crate::quoted::string_front;
use crate::tag::is_tag;

/// A bracket, by its form.
#[derive(Clone, Copy, Debug, PartialEq, Eq)]
pub enum Bracket {
    /// `(` and `)`
    Round,
    /// `[` and `]`
    Square,
    /// `{` and `}`
    Curly,
}

/// What a text is made of.
#[derive(Clone, Copy, Debug, PartialEq, Eq)]
pub enum Lexeme {
    /// White space and commas, as far as they go.
    White,
    /// From a semicolon up to the line feed, without it.
    Comment,
    /// A string, with its quotes, whose escapes stand for something.
    Text,
    /// A string, with its quotes, in which an escape stands for nothing.
    BadText,
    /// A string without its closing quote, up to the end of the text.
    OpenText,
    /// A backslash, the character behind it and the token behind that. Whether there is such a
    /// character is not asked.
    Character,
    /// `#_`
    Discard,
    /// `#` and the name of a tag.
    Tag,
    /// A bracket that opens.
    Open(Bracket),
    /// `#{`, which `}` closes.
    OpenSet,
    /// A bracket that closes.
    Close(Bracket),
    /// Other bytes, as far as they go: a number, a keyword, a symbol, or what is none of them; also a `#`
    /// that begins nothing else, with such bytes behind it.
    Token,
}

/// What a `#` begins, and how many bytes it takes.
#[tactic(auto, using(crate::proofs::FrontLemmas::behind_run, crate::proofs::FrontLemmas::behind_two), unfolding(crate::specs::Lexemes::hash_front))]
fn hash_front(rest: &str) -> (Lexeme, usize)
    requires { slice_index rest.now 0 ≡ bytes.hash }
    ensures front { result ≡ lexemes.hash_front rest.now }
    ensures some { 0 < result.1 }
    ensures boundary { IsCharBoundary rest.now result.1 }
{
    match rest.as_bytes() {
        [_, b'_', ..] => return (Lexeme::Discard, 2),
        [_, b'{', ..] => return (Lexeme::OpenSet, 2),
        _ => {}
    }
    let behind = &rest.as_bytes()[1..];
    let len = token_len(behind);
    if is_tag(&behind[..len]) {
        (Lexeme::Tag, 1 + len)
    } else {
        (Lexeme::Token, 1 + len)
    }
}

/// How many bytes a character takes, with its backslash.
#[tactic(auto, using(crate::proofs::FrontLemmas::behind_run), unfolding(crate::specs::Lexemes::character_len))]
fn character_len(rest: &str) -> usize
    requires { slice_index rest.now 0 ≡ bytes.backslash }
    ensures len { result ≡ lexemes.character_len rest.now }
    ensures some { 0 < result }
    ensures boundary { IsCharBoundary rest.now result }
{
    match rest.as_bytes() {
        [_, _, token @ ..] => 2 + token_len(token),
        _ => 1,
    }
}

/// The bracket that a byte is.
#[tactic(auto, unfolding(crate::specs::Lexemes::bracket_of))]
fn bracket_of(b: u8) -> Option<Lexeme>
    ensures { result ≡ lexemes.bracket_of b }
{
    match b {
        b'(' => Some(Lexeme::Open(Bracket::Round)),
        b'[' => Some(Lexeme::Open(Bracket::Square)),
        b'{' => Some(Lexeme::Open(Bracket::Curly)),
        b')' => Some(Lexeme::Close(Bracket::Round)),
        b']' => Some(Lexeme::Close(Bracket::Square)),
        b'}' => Some(Lexeme::Close(Bracket::Curly)),
        _ => None,
    }
}

/// What the text begins with, where that is no bracket, and how many bytes it takes.
#[tactic(auto, using(crate::proofs::FrontLemmas::behind_line, crate::proofs::FrontLemmas::behind_spaces, crate::proofs::FrontLemmas::behind_token, crate::proofs::FrontLemmas::some_line, crate::proofs::FrontLemmas::some_space, crate::proofs::FrontLemmas::some_token), unfolding(crate::specs::Lexemes::other_front))]
fn other_front(rest: &str) -> (Lexeme, usize)
    requires some { 0 < length rest.now }
    requires other { lexemes.bracket_of (slice_index rest.now 0) ≡ None }
    ensures front { result ≡ lexemes.other_front (slice_index rest.now 0) rest.now }
    ensures some { 0 < result.1 }
    ensures boundary { IsCharBoundary rest.now result.1 }
{
    let bytes = rest.as_bytes();
    match bytes[0] {
        b'"' => string_front(rest),
        b';' => (Lexeme::Comment, line_len(bytes)),
        b'\\' => (Lexeme::Character, character_len(rest)),
        b'#' => hash_front(rest),
        first if is_space(first) => (Lexeme::White, space_len(bytes)),
        _ => (Lexeme::Token, token_len(bytes)),
    }
}

/// The lexeme that the text begins with, and how many bytes it takes.
fn front(rest: &str) -> Option<(Lexeme, usize)>
    ensures front { result ≡ lexemes.lexeme_of rest.now }
    ensures place { IfSome result (λ p. (0 < p.1) × IsCharBoundary rest.now p.1) }
{
    let [first, ..] = rest.as_bytes() else {
        return None;
    };
    match bracket_of(*first) {
        Some(bracket) => Some((bracket, 1)),
        None => Some(other_front(rest)),
    }
}

/// The lexeme that begins at a place, in bytes, and the place behind it. `None` at the end of the
/// text alone.
///
/// Takes time in proportion to the lexeme.
pub fn lexeme_at(text: &str, at: usize) -> Option<(Lexeme, usize)>
    requires { IsCharBoundary text.now at }
    ensures lexeme { result ≡ option_map (λ l. (l.0, at + l.1)) (lexemes.lexeme_of (drop at text.now)) }
    ensures place { IfSome result (λ p. (at < p.1) × IsCharBoundary text.now p.1) }
{
    let (lexeme, len) = front(&text[at..])?;
    Some((lexeme, at + len))
}
