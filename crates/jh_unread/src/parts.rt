//! What part a lexeme has in the nesting of elements, and whether it can be read.
//!
//! `part_of` of `specs/Parts.antt` says it. A new kind of lexeme is a new arm of `part_of`.

ghost use Rattle.std.specs.Prelude.{◌≡◌, IfOk};
ghost use Rattle.jh_unread.specs.Parts as parts;

use jh_edn::first_error;
use jh_lexemes::{Bracket, Lexeme};
use std::alloc::{AllocError, Global};

/// What was found in a pair.
#[derive(Clone, Copy, Debug, PartialEq, Eq)]
pub(crate) enum Found {
    Nothing,
    /// A token that can't be read.
    Refused,
    /// A character that can't be read: its pair stays, and the reader refuses it.
    Faulty,
}

/// What waits for its end.
#[derive(Clone, Copy, Debug, PartialEq, Eq)]
pub(crate) enum Opened {
    Round,
    Square,
    Curly,
    Set,
    /// The mark of a discard, up to the end of the element behind it.
    Discard,
}

/// The part of a lexeme.
#[derive(Clone, Copy, Debug, PartialEq, Eq)]
pub(crate) enum Part {
    Gap,
    /// It goes with the element behind it.
    Prefix(Found),
    Opens(Opened),
    Closes(Bracket),
    /// An element by itself.
    Whole(Found),
    /// From here on no elements can be told apart.
    Broken,
}

/// Whether the reader refuses a text by itself.
#[tactic(auto, unfolding(crate::specs::Parts::is_refused))]
fn is_refused(alloc: Global, text: &str) -> Result<bool, AllocError>
    ensures { IfOk result (λ is. is ≡ parts.is_refused text.now) }
{
    match first_error(alloc, text)? {
        None => Ok(false),
        Some(_error) => Ok(true),
    }
}

/// Whether what stands here is joined to a token before it.
#[tactic(auto, unfolding(crate::specs::Parts::begins_joined))]
fn begins_joined(behind: &[u8]) -> bool
    ensures { result ≡ parts.begins_joined behind.now }
{
    matches!(behind, [b'(' | b'[' | b'{' | b'"' | b'\\', ..])
}

/// The part of a token.
fn token_part(is_refused: bool, is_joined: bool) -> Part
    ensures { result ≡ parts.token_part is_refused is_joined }
{
    match (is_refused, is_joined) {
        (true, true) => Part::Prefix(Found::Refused),
        (true, false) => Part::Whole(Found::Refused),
        (false, _) => Part::Whole(Found::Nothing),
    }
}

/// The part of a character.
fn character_part(is_refused: bool) -> Part
    ensures { result ≡ parts.character_part is_refused }
{
    if is_refused {
        Part::Whole(Found::Faulty)
    } else {
        Part::Whole(Found::Nothing)
    }
}

/// What opens with a bracket.
fn opened_by(bracket: Bracket) -> Opened
    ensures { result ≡ parts.opened_by bracket }
{
    match bracket {
        Bracket::Round => Opened::Round,
        Bracket::Square => Opened::Square,
        Bracket::Curly => Opened::Curly,
    }
}

/// The part of a lexeme, of what it is spelled as and of what stands behind it.
pub(crate) fn part_of(
    alloc: Global,
    lexeme: Lexeme,
    spelled: &str,
    behind: &str,
) -> Result<Part, AllocError>
    ensures { IfOk result (λ part. part ≡ parts.part_of lexeme spelled.now behind.now) }
{
    Ok(match lexeme {
        Lexeme::White | Lexeme::Comment => Part::Gap,
        Lexeme::Text => Part::Whole(Found::Nothing),
        Lexeme::BadText | Lexeme::OpenText => Part::Broken,
        Lexeme::Character => character_part(is_refused(alloc, spelled)?),
        Lexeme::Discard => Part::Opens(Opened::Discard),
        Lexeme::Tag => Part::Prefix(Found::Nothing),
        Lexeme::Open(bracket) => Part::Opens(opened_by(bracket)),
        Lexeme::OpenSet => Part::Opens(Opened::Set),
        Lexeme::Close(bracket) => Part::Closes(bracket),
        Lexeme::Token => token_part(
            is_refused(alloc, spelled)?,
            begins_joined(behind.as_bytes()),
        ),
    })
}
