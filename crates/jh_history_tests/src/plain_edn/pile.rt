//! What is open at a place of a text: brackets, tags and discards, the innermost last.

use crate::plain_edn::equality::{are_two_equal, are_two_keys_equal};
use crate::plain_edn::items::{Bracket, Item};
use crate::plain_edn::value::{PlainError, PlainKind, PlainValue};
use std::alloc::{AllocError, Global};
use std::boxed::Box;

/// How many may be open at one place.
const MAX_OPEN: usize = 64;

/// What is open: a bracket, a tag or a discard.
#[derive(Drop)]
enum Open {
    /// A bracket, with what stands behind it.
    Bracket(Bracket, Vec<PlainValue>),
    Tag(String),
    Discard,
}

/// What is open, and the values of the text so far.
#[derive(Drop)]
pub(crate) struct Pile {
    open: Vec<Open>,
    values: Vec<PlainValue>,
}

/// Whether this character closes the bracket.
fn is_closed_by(bracket: Bracket, closing: char) -> bool {
    match bracket {
        Bracket::List => closing == ')',
        Bracket::Vector => closing == ']',
        Bracket::Map | Bracket::Set => closing == '}',
    }
}

/// Keys with their values, or a key without one.
fn pairs_of(
    alloc: Global,
    values: Vec<PlainValue>,
) -> Result<Option<Vec<(PlainValue, PlainValue)>>, AllocError> {
    let mut pairs = Vec::new(alloc);
    let mut key = None;
    for value in values {
        match key.take() {
            None => key = Some(value),
            Some(key) => pairs.push((key, value))?,
        }
    }
    Ok(key.is_none().then_some(pairs))
}

/// The map of these keys and values, or what is wrong with it.
fn map_of(alloc: Global, values: Vec<PlainValue>, place: usize) -> Result<PlainValue, PlainError> {
    let Some(pairs) = pairs_of(alloc, values)? else {
        return Err(PlainError::Refused(PlainKind::OddMap, place));
    };
    if are_two_keys_equal(&pairs) {
        return Err(PlainError::Refused(PlainKind::DuplicateKey, place));
    }
    Ok(PlainValue::Map(pairs))
}

/// The set of these values, or what is wrong with it.
fn set_of(values: Vec<PlainValue>, place: usize) -> Result<PlainValue, PlainError> {
    if are_two_equal(&values) {
        return Err(PlainError::Refused(PlainKind::DuplicateKey, place));
    }
    Ok(PlainValue::Set(values))
}

impl Pile {
    /// An empty pile.
    pub(crate) fn new(alloc: Global) -> Pile {
        Pile {
            open: Vec::new(alloc),
            values: Vec::new(alloc),
        }
    }

    /// Opens a bracket, a tag or a discard, unless too many are open.
    fn open(&mut self, open: Open, place: usize) -> Result<(), PlainError> {
        if self.open.len() >= MAX_OPEN {
            return Err(PlainError::Refused(PlainKind::TooDeep, place));
        }
        Ok(self.open.push(open)?)
    }

    /// Gives a value to the innermost that is open; a tag makes another value of it.
    fn give(&mut self, alloc: Global, value: PlainValue) -> Result<(), AllocError> {
        let mut value = value;
        for _ in 0..=MAX_OPEN {
            match self.open.pop() {
                None => return Ok(self.values.push(value)?),
                Some(Open::Discard) => return Ok(()),
                Some(Open::Bracket(bracket, mut values)) => {
                    values.push(value)?;
                    return Ok(self.open.push(Open::Bracket(bracket, values))?);
                }
                Some(Open::Tag(tag)) => value = PlainValue::Tagged(tag, Box::new(alloc, value)?),
            }
        }
        Ok(())
    }

    /// Closes the innermost bracket, and gives its value on.
    fn close(&mut self, alloc: Global, closing: char, place: usize) -> Result<(), PlainError> {
        let (bracket, values) = match self.open.pop() {
            Some(Open::Bracket(bracket, values)) if is_closed_by(bracket, closing) => {
                (bracket, values)
            }
            _ => return Err(PlainError::Refused(PlainKind::BadToken, place)),
        };
        let value = match bracket {
            Bracket::List => PlainValue::List(values),
            Bracket::Vector => PlainValue::Vector(values),
            Bracket::Map => map_of(alloc, values, place)?,
            Bracket::Set => set_of(values, place)?,
        };
        Ok(self.give(alloc, value)?)
    }

    /// Takes the next item of the text, which stands at a place.
    pub(crate) fn take(
        &mut self,
        alloc: Global,
        item: Item,
        place: usize,
    ) -> Result<(), PlainError> {
        match item {
            Item::Gap => Ok(()),
            Item::Open(bracket) => self.open(Open::Bracket(bracket, Vec::new(alloc)), place),
            Item::Tag(tag) => self.open(Open::Tag(tag), place),
            Item::Discard => self.open(Open::Discard, place),
            Item::Close(closing) => self.close(alloc, closing, place),
            Item::Value(value) => Ok(self.give(alloc, value)?),
        }
    }

    /// The values of the text, which ends at a place.
    pub(crate) fn end(self, place: usize) -> Result<Vec<PlainValue>, PlainError> {
        if self.open.is_empty() {
            Ok(self.values)
        } else {
            Err(PlainError::Refused(PlainKind::UnexpectedEnd, place))
        }
    }
}
