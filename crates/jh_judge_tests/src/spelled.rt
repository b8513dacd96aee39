//! Histories and marks that the rows of several modules spell.
//!
//! A history is its operations, `PROCESS TYPE F VALUE` each as Jepsen writes them, with `; ` between two; one may stand behind the last.

use jh_edn::read_all;
use jh_ops::{Op, history_of};
use jh_timeline::{Mark, Note, Place, StepKind};
use std::alloc::Global;

/// The text of a history, as Jepsen writes it.
fn spelled(alloc: Global, history: &str) -> Option<String> {
    let mut text = String::new(alloc);
    for op in history.trim().split_terminator(';') {
        text.push_str("{").ok()?;
        let mut keys = ":process :type :f :value".split(' ');
        for piece in op.trim().splitn(4, ' ') {
            text.push_str(keys.next()?).ok()?;
            text.push_str(" ").ok()?;
            text.push_str(piece).ok()?;
            text.push_str(" ").ok()?;
        }
        text.push_str("}\n").ok()?;
    }
    Some(text)
}

/// The operations of a history. What is missing behind an operation is left out. None: memory was refused.
pub(crate) fn ops_of(alloc: Global, history: &str) -> Option<Vec<Op>> {
    let text = spelled(alloc, history)?;
    let values = read_all(alloc, &mut text.as_bytes(), 10_000).ok()?;
    history_of(alloc, values).ok()
}

/// A number, if there is one.
fn number(piece: Option<&str>) -> Option<i128> {
    piece.and_then(|piece| piece.parse().ok())
}

/// An index, if there is one.
fn index(number: Option<i128>) -> Option<usize> {
    usize::try_from(number?).ok()
}

/// A place in an order, with what a register holds behind it, if that is known.
fn place_of(number: Option<i128>, holds: Option<i128>) -> Option<Place> {
    Some(Place {
        number: index(number)?,
        holds: holds.and_then(|holds| i64::try_from(holds).ok()),
    })
}

/// What a mark says. None: no mark is called so.
fn note_of(name: &str, first: Option<i128>, second: Option<i128>) -> Option<Note> {
    match name {
        "placed" => Some(Note::Placed(place_of(first, second)?)),
        "stuck" => Some(Note::Stuck),
        "pending" => Some(Note::Pending(place_of(first, second))),
        "lost" => Some(Note::Lost),
        "recovered" => Some(Note::Recovered),
        "unexpected" => Some(Note::Unexpected),
        "repeated" => Some(Note::Repeated),
        "outside" => Some(Note::Outside {
            lower: first?,
            upper: second?,
        }),
        "bad-read" => Some(Note::BadRead),
        "stale" => Some(Note::Stale),
        "wrong-balances" => Some(Note::WrongBalances),
        "named" => Some(Note::Named),
        name => Some(Note::Step {
            place: index(first)?,
            kind: kind_of(name)?,
        }),
    }
}

/// The kind of a step. None: it is none.
fn kind_of(name: &str) -> Option<StepKind> {
    match name {
        "wr" => Some(StepKind::WriteRead),
        "ww" => Some(StepKind::WriteWrite),
        "fcw" => Some(StepKind::FirstCommitter),
        "rw" => Some(StepKind::ReadWrite),
        "rt" => Some(StepKind::RealTime),
        _ => None,
    }
}

/// The mark that a text spells: a call and what is said of it.
pub(crate) fn mark_of(text: &str) -> Option<Mark> {
    let mut pieces = text.split_whitespace();
    let call = pieces.next()?.parse().ok()?;
    let name = pieces.next()?;
    let first = number(pieces.next());
    let second = number(pieces.next());
    Some(Mark {
        call,
        note: note_of(name, first, second)?,
    })
}
