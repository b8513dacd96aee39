//! Rows of transactions with an order, and what is said of it.
//!
//! A row is a line `TXNS | ORDER => ANSWER`. Transactions are separated by `; `, each is
//! `TYPE INVOKED COMPLETED OPS`, where COMPLETED is `-` for one that never was. A micro-operation is
//! `aK:E`, which appends the element E to the key K, or `rK:E,..`, which reads these elements. A
//! serial order is its places, a snapshot order its points, `sP` where P starts and `cP` where it
//! commits. The answer is `timely` where it is an order that keeps real time, `free` where it is one
//! that does not, and `none` where it is none.

use jh_txn::{
    Elements, MicroOp, MicroOps, Outcome, Point, Txn, are_keys_below, check_order,
    check_snapshot_order,
};
use std::alloc::Global;
use std::test::Fail;

/// Each key of a row is below this number.
const KEYS: usize = 4;

/// Numbers with commas between them.
fn numbers(alloc: Global, text: &str) -> Option<Vec<usize>> {
    let mut found = Vec::new(alloc);
    for number in text.split_terminator(',') {
        found.push(number.parse::<usize>().ok()?).ok()?;
    }
    Some(found)
}

/// A micro-operation.
fn micro_op(alloc: Global, text: &str) -> Option<MicroOp> {
    let (head, rest) = text.split_once(':')?;
    if let Some(key) = head.strip_prefix("a") {
        return Some(MicroOp::Append {
            key: key.parse::<usize>().ok()?,
            element: rest.parse::<usize>().ok()?,
        });
    }
    let key = head.strip_prefix("r")?.parse::<usize>().ok()?;
    let seen = Elements::of(numbers(alloc, rest)?);
    Some(MicroOp::Read { key, seen })
}

/// What the order of a row is.
#[derive(Clone, Copy)]
pub(crate) enum Ask {
    /// A serial order.
    Serial,
    /// A snapshot order.
    Snapshot,
}

/// How a transaction ended.
fn outcome(text: &str) -> Outcome {
    match text {
        "ok" => Outcome::Done,
        "fail" => Outcome::Failed,
        _ => Outcome::Unsure,
    }
}

/// A transaction.
fn txn(alloc: Global, text: &str) -> Option<Txn> {
    let mut words = text.split_whitespace();
    let outcome = outcome(words.next()?);
    let invoked = words.next()?.parse::<usize>().ok()?;
    let completed = words.next()?.parse::<usize>().ok();
    let mut ops = Vec::new(alloc);
    for word in words {
        ops.push(micro_op(alloc, word)?).ok()?;
    }
    let ops = MicroOps::of(ops);
    Some(Txn {
        invoked,
        completed,
        outcome,
        ops,
    })
}

/// Transactions. None: memory was refused.
pub(crate) fn txns_of(alloc: Global, text: &str) -> Option<Vec<Txn>> {
    let mut found = Vec::new(alloc);
    for part in text.trim().split_terminator(';') {
        found.push(txn(alloc, part)?).ok()?;
    }
    Some(found)
}

/// The places of a serial order. None: memory was refused.
fn places_of(alloc: Global, text: &str) -> Option<Vec<usize>> {
    let mut places = Vec::new(alloc);
    for place in text.split_whitespace() {
        places.push(place.parse::<usize>().ok()?).ok()?;
    }
    Some(places)
}

/// A point.
fn point(text: &str) -> Option<Point> {
    match text.strip_prefix("s") {
        Some(place) => Some(Point::Start(place.parse::<usize>().ok()?)),
        None => Some(Point::Commit(text.strip_prefix("c")?.parse::<usize>().ok()?)),
    }
}

/// The points of a snapshot order. None: memory was refused.
fn points_of(alloc: Global, text: &str) -> Option<Vec<Point>> {
    let mut points = Vec::new(alloc);
    for word in text.split_whitespace() {
        points.push(point(word)?).ok()?;
    }
    Some(points)
}

/// Whether that is an order, which keeps real time where that is asked for. None: memory was
/// refused.
fn is_order(alloc: Global, ask: Ask, txns: &[Txn], real_time: bool, order: &str) -> Option<bool> {
    if !are_keys_below(txns, KEYS) {
        return None;
    }
    match ask {
        Ask::Serial => {
            let places = places_of(alloc, order)?;
            check_order(alloc, txns, KEYS, real_time, &places).ok()
        }
        Ask::Snapshot => {
            let points = points_of(alloc, order)?;
            check_snapshot_order(alloc, txns, KEYS, real_time, &points).ok()
        }
    }
}

/// What is said of a row. None: memory was refused.
fn answer_to(alloc: Global, ask: Ask, txns: &str, order: &str) -> Option<&'static str> {
    let txns = txns_of(alloc, txns)?;
    if !is_order(alloc, ask, &txns, false, order)? {
        return Some("none");
    }
    if is_order(alloc, ask, &txns, true, order)? {
        Some("timely")
    } else {
        Some("free")
    }
}

/// Whether that is said of a row, asked once more where memory was refused.
fn is_answered(alloc: Global, ask: Ask, txns: &str, order: &str, expected: &str) -> bool {
    let found = match answer_to(alloc, ask, txns, order) {
        None => answer_to(alloc, ask, txns, order),
        found => found,
    };
    found == Some(expected)
}

/// Asks each row. One with another answer is the failure.
pub(crate) fn ask_all(alloc: Global, ask: Ask, rows: &str) -> Result<(), Fail> {
    for row in rows.trim().lines() {
        let (given, expected) = row.split_once(" => ").ok_or("no answer")?;
        let (txns, order) = given.split_once("|").ok_or("no order")?;
        if !is_answered(alloc, ask, txns, order, expected) {
            return Err(Fail::new(row));
        }
    }
    Ok(())
}
