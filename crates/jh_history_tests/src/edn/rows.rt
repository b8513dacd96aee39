//! Rows of one text, and who asks them.
//!
//! A row is what is asked, `\x1f` and the answer; `\x1e` begins each row but the first. A table is one text, since the
//! proof of an array takes a second for each row, and answers are compared as texts, since a proof takes each
//! comparison that is written out by itself.

use crate::edn::{plain, reading, sequences, values};
use jh_edn::EdnError;
use std::alloc::{AllocError, Global};
use std::test::Fail;

/// What the rows of a text ask.
pub(crate) enum Ask {
    Values,
    Element,
    Elements,
    Nested,
    Reads,
    Count,
    Line,
    Normal,
    Part,
    Pairs,
    Order,
    Fingerprints,
    IsNormal,
    Tagged,
    Apart,
    Untagged,
    Under,
}

/// The error of a row that cannot be asked. It is no row's answer, as `holds` takes it for memory that was refused.
pub(crate) const MALFORMED: EdnError = EdnError::Write;

/// The values of a text, where the plain reader answers the same.
fn both(alloc: Global, text: &str) -> Result<Vec<u8>, EdnError> {
    if plain::agree(alloc, text)? {
        reading::all(alloc, text)
    } else {
        Ok(b"not what the plain reader answers".to_vec(alloc)?)
    }
}

/// What the calls of `jh_edn` answer to a question.
fn answer(alloc: Global, ask: &Ask, question: &str) -> Result<Vec<u8>, EdnError> {
    match ask {
        Ask::Values => both(alloc, question),
        Ask::Element => reading::element(alloc, question),
        Ask::Elements => sequences::elements(alloc, question),
        Ask::Nested => reading::nested(alloc, question),
        Ask::Reads => reading::in_reads(alloc, question),
        Ask::Count => reading::count(alloc, question),
        Ask::Line => reading::line(alloc, question),
        Ask::Normal => values::normal(alloc, question),
        Ask::Part => values::part(alloc, question),
        Ask::Pairs => values::pairs(alloc, question),
        Ask::Order => values::order(alloc, question),
        Ask::Fingerprints => values::fingerprints(alloc, question),
        Ask::IsNormal => values::is_normal(alloc, question),
        Ask::Tagged => values::tagged(alloc, question),
        Ask::Apart => values::apart(alloc, question),
        Ask::Untagged => values::untagged(alloc, question),
        Ask::Under => values::under(alloc, question),
    }
}

/// Whether that is the answer. An error's answer is its message, but for the two that say that memory was refused.
fn holds(alloc: Global, ask: &Ask, question: &str, expected: &str) -> Result<bool, AllocError> {
    match answer(alloc, ask, question) {
        Ok(found) => Ok(found.as_slice() == expected.as_bytes()),
        Err(EdnError::OutOfMemory | EdnError::Write) => Err(AllocError),
        Err(error) => Ok(format!(in alloc; "{error}")?.as_str() == expected),
    }
}

/// Asks each row, once more where memory was refused. A row that has another answer is the failure.
pub(crate) fn ask_all(alloc: Global, ask: &Ask, rows: &str) -> Result<(), Fail> {
    for row in rows.split('\x1e') {
        let (question, expected) = row.split_once('\x1f').ok_or(row)?;
        let right = match holds(alloc, ask, question, expected) {
            Err(_) => holds(alloc, ask, question, expected)?,
            Ok(right) => right,
        };
        if !right {
            return Err(Fail::new(row));
        }
    }
    Ok(())
}
