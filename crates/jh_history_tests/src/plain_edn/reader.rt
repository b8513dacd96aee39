//! Reading a text, item by item from left to right, up to the first error.

use crate::plain_edn::items::item_at;
use crate::plain_edn::pile::Pile;
use crate::plain_edn::value::{PlainError, PlainValue};
use std::alloc::Global;

/// The values of a text, or its first error.
pub fn read_slowly(alloc: Global, text: &str) -> Result<Vec<PlainValue>, PlainError> {
    let text: Vec<char> = text.chars().collect(alloc)?;
    let mut pile = Pile::new(alloc);
    let mut behind = 0;
    for (place, first) in text.iter().enumerate() {
        if place >= behind {
            let (item, next) = item_at(alloc, &text, place, *first)?;
            pile.take(alloc, item, place)?;
            behind = next;
        }
    }
    pile.end(text.len())
}

/// The line of what stands behind so many characters: one more than the line feeds among them.
pub fn line_behind(text: &str, place: usize) -> u64 {
    let mut line = 1u64;
    for c in text.chars().take(place) {
        if c == '\n' {
            line = line.saturating_add(1);
        }
    }
    line
}
