//! Operations parsed slowly: each key of a record is looked for among all its pairs, from the first
//! on.

use crate::plain_ops::records::{Held, Record, Records, Words};
use jh_ops::{HistoryError, Kind, OpError, Process};
use std::alloc::Global;

/// An operation, its values as texts.
#[derive(Drop)]
pub struct PlainOp {
    pub kind: Kind,
    pub f: &'static str,
    pub value: &'static str,
    pub process: Process,
    pub time: Option<i64>,
    pub index: Option<i64>,
    pub rest: Vec<Words>,
}

/// The value of the first pair with this key.
fn value_under(pairs: &[Words], key: &str) -> Option<&'static str> {
    for pair in pairs {
        if pair.0 == key {
            return Some(pair.1);
        }
    }
    None
}

/// The integer of the first pair with this key that has one.
fn integer_under(pairs: &[Words], key: &str) -> Option<i64> {
    for pair in pairs {
        match pair.1.parse::<i64>() {
            Ok(integer) if pair.0 == key => return Some(integer),
            _ => {}
        }
    }
    None
}

/// The kind that a text means, if it means one.
fn kind_named(text: &'static str) -> Option<Kind> {
    match text {
        ":invoke" => Some(Kind::Invoke),
        ":ok" => Some(Kind::Ok),
        ":fail" => Some(Kind::Fail),
        ":info" => Some(Kind::Info),
        _ => None,
    }
}

/// The process that a text means, if it means one.
fn process_named(text: &'static str) -> Option<Process> {
    match text.parse::<i64>() {
        Ok(number) => u64::try_from(number).ok().map(Process::Client),
        Err(_) if text == ":nemesis" => Some(Process::Nemesis),
        Err(_) => None,
    }
}

/// What is wrong with the pairs of a map, the first that applies.
fn refusal(pairs: &[Words]) -> Option<OpError> {
    let kind = value_under(pairs, ":type");
    let process = value_under(pairs, ":process");
    if kind.is_none() {
        Some(OpError::MissingType)
    } else if kind.and_then(kind_named).is_none() {
        Some(OpError::BadType)
    } else if value_under(pairs, ":f").is_none() {
        Some(OpError::MissingF)
    } else if process.is_none() {
        Some(OpError::MissingProcess)
    } else if process.and_then(process_named).is_none() {
        Some(OpError::BadProcess)
    } else {
        None
    }
}

/// Whether a pair is a part of its own, and is not kept as it stands.
fn is_part(key: &str, value: &str) -> bool {
    match key {
        ":type" | ":process" | ":f" | ":value" => true,
        ":time" | ":index" => value.parse::<i64>().is_ok(),
        _ => false,
    }
}

/// The operation of pairs with which nothing is wrong. None: memory was refused.
fn given_by(alloc: Global, pairs: &[Words]) -> Option<PlainOp> {
    let mut rest = Vec::new(alloc);
    for pair in pairs {
        if !is_part(pair.0, pair.1) {
            rest.push(*pair).ok()?;
        }
    }
    Some(PlainOp {
        kind: kind_named(value_under(pairs, ":type")?)?,
        f: value_under(pairs, ":f")?,
        value: value_under(pairs, ":value").unwrap_or("nil"),
        process: process_named(value_under(pairs, ":process")?)?,
        time: integer_under(pairs, ":time"),
        index: integer_under(pairs, ":index"),
        rest,
    })
}

/// The operation that a record means.
pub fn op_slowly(alloc: Global, record: &Record) -> Result<PlainOp, OpError> {
    let Record::Map(pairs) = record else {
        return Err(OpError::NotMap);
    };
    match refusal(pairs) {
        Some(error) => Err(error),
        None => given_by(alloc, pairs).ok_or(OpError::OutOfMemory),
    }
}

/// Whether there is one value, which is a sequence of nothing.
fn is_nothing(records: &Records) -> bool {
    let is_apart = records.held == Held::Apart;
    is_apart && matches!(records.records.as_slice(), [Record::Other("[]" | "()")])
}

/// The history that records mean.
pub fn history_slowly(alloc: Global, records: &Records) -> Result<Vec<PlainOp>, HistoryError> {
    let mut history = Vec::new(alloc);
    if is_nothing(records) {
        return Ok(history);
    }
    if records.held == Held::InSet {
        return Err(HistoryError::Op(0, OpError::NotMap));
    }
    for (place, record) in records.records.iter().enumerate() {
        match op_slowly(alloc, record) {
            Ok(op) => history.push(op)?,
            Err(OpError::OutOfMemory) => return Err(HistoryError::OutOfMemory),
            Err(error) => return Err(HistoryError::Op(place, error)),
        }
    }
    Ok(history)
}
