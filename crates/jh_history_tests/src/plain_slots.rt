//! A log of rows as a plain list of those that are not free any more: `ops` compares `jh_slots`
//! with it.
//!
//! On one thread each seat sees all that was published, so a seat has nothing of its own but its
//! claims.

use jh_slots::{ROW_WORDS, Read, Receipt};
use std::alloc::{AllocError, Global};

/// A row that is not free any more.
#[derive(Drop)]
enum Row {
    /// It shows nothing.
    Claimed,
    Void,
    Record(Vec<u64>),
}

/// A log.
#[derive(Drop)]
pub struct PlainSlots {
    size: usize,
    rows: Vec<Row>,
}

/// Rows that were claimed: the place of the first, and the words of all.
#[derive(Drop)]
pub struct PlainClaim {
    first: usize,
    words: Vec<u64>,
}

impl PlainClaim {
    /// Writes a word.
    pub fn write(&mut self, place: usize, value: u64) {
        if let Some(word) = self.words.get_mut(place) {
            *word = value;
        }
    }
}

impl PlainSlots {
    /// A log of so many rows, all free.
    pub fn new(alloc: Global, size: usize) -> PlainSlots {
        PlainSlots {
            size,
            rows: Vec::new(alloc),
        }
    }

    /// Claims the next rows; nothing where fewer are free.
    pub fn claim(&mut self, alloc: Global, count: u32) -> Result<Option<PlainClaim>, AllocError> {
        let count = count as usize;
        let first = self.rows.len();
        if first.saturating_add(count) > self.size {
            return Ok(None);
        }
        for _ in 0..count {
            self.rows.push(Row::Claimed)?;
        }
        let words = vec![in alloc; 0; ROW_WORDS * count]?;
        Ok(Some(PlainClaim { first, words }))
    }

    /// The first row of a claim becomes what it shows from now on.
    fn end(&mut self, first: usize, shown: Row) {
        if let Some(row) = self.rows.get_mut(first) {
            *row = shown;
        }
    }

    /// Ends a claim with a record of its first words.
    pub fn publish(&mut self, claim: PlainClaim, len: usize) -> Receipt {
        let PlainClaim { first, mut words } = claim;
        words.truncate(len);
        self.end(first, Row::Record(words));
        Receipt {
            row: u32::try_from(first).unwrap_or(u32::MAX),
            len,
        }
    }

    /// Ends a claim with nothing.
    pub fn void(&mut self, claim: PlainClaim) {
        self.end(claim.first, Row::Void);
    }

    /// Reads a row into a buffer.
    pub fn read(&self, row: u32, buffer: &mut [u64]) -> Read {
        let words = match self.rows.get(row as usize) {
            None | Some(Row::Claimed) => return Read::Absent,
            Some(Row::Void) => return Read::Void,
            Some(Row::Record(words)) => words,
        };
        if words.len() > buffer.len() {
            return Read::TooSmall(words.len());
        }
        for (place, word) in buffer.iter_mut().zip(words) {
            *place = *word;
        }
        Read::Words(words.len())
    }
}
