//! The items of a text: what stands at a place, and the place behind it.
//!
//! An error stands at the first character of its item, but for those of a string.

use crate::plain_edn::tokens::{character, is_of_token, is_tag, is_white, value_of};
use crate::plain_edn::value::{PlainError, PlainKind, PlainValue};
use std::alloc::{AllocError, Global};

/// What brackets hold.
#[derive(Clone, Copy)]
pub(crate) enum Bracket {
    List,
    Vector,
    Map,
    Set,
}

/// What stands at a place of a text.
#[derive(Drop)]
pub(crate) enum Item {
    /// White space or a comment.
    Gap,
    Open(Bracket),
    Close(char),
    Tag(String),
    Discard,
    Value(PlainValue),
}

/// The token from a place on, and the place behind it.
fn token_at(alloc: Global, text: &[char], place: usize) -> Result<(String, usize), AllocError> {
    let mut token = String::new(alloc);
    for (at, c) in text.iter().enumerate().skip(place) {
        if !is_of_token(*c) {
            return Ok((token, at));
        }
        token.push(*c)?;
    }
    Ok((token, text.len()))
}

/// The end of the line that a place is on.
fn end_of_line(text: &[char], place: usize) -> usize {
    for (at, c) in text.iter().enumerate().skip(place) {
        if *c == '\n' {
            return at;
        }
    }
    text.len()
}

/// What stands for itself or for another character behind a backslash in a string.
fn escaped(c: char) -> Option<char> {
    match c {
        't' => Some('\t'),
        'r' => Some('\r'),
        'n' => Some('\n'),
        'b' => Some('\x08'),
        'f' => Some('\x0c'),
        '\\' | '"' => Some(c),
        _ => None,
    }
}

/// A string, whose first quote stands at a place.
fn string(alloc: Global, text: &[char], place: usize) -> Result<(Item, usize), PlainError> {
    let mut content = String::new(alloc);
    let mut backslash = None;
    for (at, c) in text.iter().enumerate().skip(place.saturating_add(1)) {
        match (backslash, *c) {
            (Some(before), c) => {
                let c = escaped(c).ok_or(PlainError::Refused(PlainKind::BadEscape, before))?;
                content.push(c)?;
                backslash = None;
            }
            (None, '\\') => backslash = Some(at),
            (None, '"') => {
                let value = PlainValue::Str(content);
                return Ok((Item::Value(value), at.saturating_add(1)));
            }
            (None, c) => content.push(c)?,
        }
    }
    Err(PlainError::Refused(PlainKind::UnexpectedEnd, text.len()))
}

/// A character, whose backslash stands at a place.
fn character_at(alloc: Global, text: &[char], place: usize) -> Result<(Item, usize), PlainError> {
    let next = place.saturating_add(1);
    let Some(first) = text.get(next) else {
        return Err(PlainError::Refused(PlainKind::UnexpectedEnd, text.len()));
    };
    let (rest, end) = token_at(alloc, text, next.saturating_add(1))?;
    let name = format!(in alloc; "{first}{rest}")?;
    let c = character(&name).ok_or(PlainError::Refused(PlainKind::BadToken, place))?;
    Ok((Item::Value(PlainValue::Character(c)), end))
}

/// What begins with a `#`.
fn hashed(alloc: Global, text: &[char], place: usize) -> Result<(Item, usize), PlainError> {
    let next = place.saturating_add(1);
    match text.get(next) {
        Some('{') => return Ok((Item::Open(Bracket::Set), next.saturating_add(1))),
        Some('_') => return Ok((Item::Discard, next.saturating_add(1))),
        _ => {}
    }
    let (tag, end) = token_at(alloc, text, next)?;
    if is_tag(&tag) {
        Ok((Item::Tag(tag), end))
    } else {
        Err(PlainError::Refused(PlainKind::BadToken, place))
    }
}

/// The value of a token, which begins at a place.
fn value_at(alloc: Global, text: &[char], place: usize) -> Result<(Item, usize), PlainError> {
    let (token, end) = token_at(alloc, text, place)?;
    let value = value_of(alloc, &token, place)?;
    Ok((Item::Value(value), end))
}

/// The item at a place, whose first character is this one.
pub(crate) fn item_at(
    alloc: Global,
    text: &[char],
    place: usize,
    first: char,
) -> Result<(Item, usize), PlainError> {
    let next = place.saturating_add(1);
    match first {
        ';' => Ok((Item::Gap, end_of_line(text, place))),
        '(' => Ok((Item::Open(Bracket::List), next)),
        '[' => Ok((Item::Open(Bracket::Vector), next)),
        '{' => Ok((Item::Open(Bracket::Map), next)),
        ')' | ']' | '}' => Ok((Item::Close(first), next)),
        '"' => string(alloc, text, place),
        '\\' => character_at(alloc, text, place),
        '#' => hashed(alloc, text, place),
        _ if is_white(first) => Ok((Item::Gap, next)),
        _ => value_at(alloc, text, place),
    }
}
