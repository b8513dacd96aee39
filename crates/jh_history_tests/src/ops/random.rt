//! Random records and steps, on which `op_of`, `history_of` and `pair` are compared with the plain slow programs.
//!
//! None is answered where memory was refused.

use crate::plain_ops::{
    Held, PlainOp, Record, Records, Step, Words, history_slowly, op_slowly, pairs_slowly,
    random_records, random_steps,
};
use jh_edn::{Pairs, Tagged, Text, Value, Values, read_one, write};
use jh_ops::{HistoryError, Op, OpError, PairError, history_of, op_of, pair};
use jh_test_kit::Dice;
use std::alloc::Global;
use std::ops::Range;

/// How often a history or its pairs were answered in each way, by the number of the way.
type Counts = [u32; 11];

/// The first value of a text.
fn read(alloc: Global, text: &str) -> Option<Value> {
    match read_one(alloc, text, 0) {
        Ok(Some((value, _))) => Some(value),
        _ => None,
    }
}

/// A value with a tag around it.
fn tagged_once(alloc: Global, value: Value) -> Option<Value> {
    let tag = Text::of(alloc, "t").ok()?;
    Some(Value::Tagged(Tagged::of(alloc, tag, value).ok()?))
}

/// A value with so many tags around it.
fn tagged(alloc: Global, value: Value, tags: u64) -> Option<Value> {
    let mut value = value;
    for _ in 0..tags {
        value = tagged_once(alloc, value)?;
    }
    Some(value)
}

/// The values of two texts.
fn pair_of(alloc: Global, words: &Words) -> Option<(Value, Value)> {
    let key = read(alloc, words.0)?;
    Some((key, read(alloc, words.1)?))
}

/// The pairs of values of pairs of texts.
fn pairs_of(alloc: Global, words: &[Words]) -> Option<Vec<(Value, Value)>> {
    let mut pairs = Vec::new(alloc);
    for words in words {
        pairs.push(pair_of(alloc, words)?).ok()?;
    }
    Some(pairs)
}

/// The value of a record, with no tag around it.
fn bare_value_of(alloc: Global, record: &Record) -> Option<Value> {
    match record {
        Record::Map(words) => Some(Value::Map(Pairs::of(pairs_of(alloc, words)?))),
        Record::Other(text) => read(alloc, text),
    }
}

/// The value of a record, with so many tags around it.
fn value_of(alloc: Global, record: &Record, tags: u64) -> Option<Value> {
    tagged(alloc, bare_value_of(alloc, record)?, tags)
}

/// Adds the value of a record, with so many tags around it.
fn add_value(alloc: Global, record: &Record, tags: u64, items: &mut Vec<Value>) -> Option<()> {
    items.push(value_of(alloc, record, tags)?).ok()
}

/// The values of records.
fn items_of(alloc: Global, records: &Records) -> Option<Vec<Value>> {
    let mut items = Vec::new(alloc);
    for record in &records.records {
        add_value(alloc, record, records.tags, &mut items)?;
    }
    Some(items)
}

/// A value by itself.
fn alone(alloc: Global, value: Value) -> Option<Vec<Value>> {
    vec![in alloc; value].ok()
}

/// The values that mean records: one for each, or one that holds all.
fn values_of(alloc: Global, records: &Records) -> Option<Vec<Value>> {
    let items = items_of(alloc, records)?;
    let whole = match records.held {
        Held::Apart => return Some(items),
        Held::InList => Value::List(Values::of(items)),
        Held::InVector => Value::Vector(Values::of(items)),
        Held::InSet => Value::Set(Values::of(items)),
    };
    alone(alloc, tagged(alloc, whole, records.tags)?)
}

/// Whether this is written of a value.
fn is_text(alloc: Global, value: &Value, text: &str) -> Option<bool> {
    let mut printed = Vec::new(alloc);
    write(value, &mut printed).ok()?;
    Some(printed.as_slice() == text.as_bytes())
}

/// Whether these are written of pairs.
fn are_texts(alloc: Global, pairs: &[(Value, Value)], texts: &[Words]) -> Option<bool> {
    for (pair, text) in pairs.iter().zip(texts) {
        if !is_text(alloc, &pair.0, text.0)? || !is_text(alloc, &pair.1, text.1)? {
            return Some(false);
        }
    }
    Some(pairs.len() == texts.len())
}

/// Whether an operation is the one that was parsed slowly.
fn is_same_op(alloc: Global, op: &Op, given: &PlainOp) -> Option<bool> {
    let is_same = op.kind == given.kind && op.process == given.process;
    let has_same_numbers = op.time == given.time && op.index == given.index;
    let has_same_f = is_text(alloc, &op.f, given.f)?;
    let has_same_value = is_text(alloc, &op.value, given.value)?;
    let has_same_rest = are_texts(alloc, op.rest.as_slice(), &given.rest)?;
    Some(is_same && has_same_numbers && has_same_f && has_same_value && has_same_rest)
}

/// Whether an operation is the one that was parsed slowly, or both refuse it alike. None: memory was refused.
fn is_same_answer(
    alloc: Global,
    answer: &Result<Op, OpError>,
    given: &Result<PlainOp, OpError>,
) -> Option<bool> {
    match (answer, given) {
        (Err(OpError::OutOfMemory), _) | (_, Err(OpError::OutOfMemory)) => None,
        (Ok(op), Ok(given)) => is_same_op(alloc, op, given),
        (Err(error), Err(expected)) => Some(error == expected),
        _ => Some(false),
    }
}

/// Whether both parse a record as the same operation, or refuse it alike.
fn is_same_record(alloc: Global, record: &Record, tags: u64) -> Option<bool> {
    let answer = op_of(alloc, value_of(alloc, record, tags)?);
    is_same_answer(alloc, &answer, &op_slowly(alloc, record))
}

/// Whether operations are those that were parsed slowly.
fn are_same_ops(alloc: Global, ops: &[Op], given: &[PlainOp]) -> Option<bool> {
    for (op, given) in ops.iter().zip(given) {
        if !is_same_op(alloc, op, given)? {
            return Some(false);
        }
    }
    Some(ops.len() == given.len())
}

/// Whether both parse each record as the same operation, or refuse it alike.
fn are_same_records(alloc: Global, records: &Records) -> Option<bool> {
    for record in &records.records {
        if !is_same_record(alloc, record, records.tags)? {
            return Some(false);
        }
    }
    Some(true)
}

/// The number of the way in which a record is refused.
fn way_of(error: OpError) -> Option<usize> {
    match error {
        OpError::NotMap => Some(1),
        OpError::MissingType => Some(2),
        OpError::BadType => Some(3),
        OpError::MissingF => Some(4),
        OpError::MissingProcess => Some(5),
        OpError::BadProcess => Some(6),
        OpError::OutOfMemory => None,
    }
}

/// In which way both answer to records. None, too: they differ.
fn history_way(alloc: Global, records: &Records) -> Option<usize> {
    let history = history_of(alloc, values_of(alloc, records)?);
    match (history, history_slowly(alloc, records)) {
        (Ok(ops), Ok(given)) => are_same_ops(alloc, &ops, &given)?.then_some(0),
        (Err(HistoryError::Op(place, error)), Err(expected)) => {
            (HistoryError::Op(place, error) == expected).then_some(way_of(error)?)
        }
        _ => None,
    }
}

/// The operation of a step.
fn step_op(alloc: Global, step: &Step) -> Op {
    Op {
        kind: step.0,
        f: Value::Nil,
        value: Value::Nil,
        process: step.1,
        time: None,
        index: None,
        rest: Pairs::of(Vec::new(alloc)),
    }
}

/// The operations of steps.
fn ops_of(alloc: Global, steps: &[Step]) -> Option<Vec<Op>> {
    let mut ops = Vec::new(alloc);
    for step in steps {
        ops.push(step_op(alloc, step)).ok()?;
    }
    Some(ops)
}

/// The number of the way in which pairs are refused.
fn way_of_pairs(error: PairError) -> Option<usize> {
    match error {
        PairError::AfterCrash(_) => Some(8),
        PairError::DoubleInvoke(_) => Some(9),
        PairError::NoInvoke(_) => Some(10),
        PairError::OutOfMemory => None,
    }
}

/// In which way both pair steps. None, too: they differ.
fn pairs_way(alloc: Global, steps: &[Step]) -> Option<usize> {
    let found = pair(alloc, &ops_of(alloc, steps)?);
    if found != pairs_slowly(alloc, steps) {
        return None;
    }
    match found {
        Ok(_) => Some(7),
        Err(error) => way_of_pairs(error),
    }
}

/// What is compared.
#[derive(Clone, Copy)]
enum Ask {
    Histories,
    Pairs,
}

/// In which way both answer by a seed.
fn way(alloc: Global, ask: Ask, seed: u64) -> Option<usize> {
    let mut dice = Dice::new(seed);
    match ask {
        Ask::Histories => {
            let records = random_records(alloc, &mut dice).ok()?;
            are_same_records(alloc, &records)?.then_some(history_way(alloc, &records)?)
        }
        Ask::Pairs => pairs_way(alloc, &random_steps(alloc, &mut dice, 40).ok()?),
    }
}

/// How often both answered in each way, or the first seed at which they differ.
fn counts(alloc: Global, ask: Ask) -> Result<Counts, u64> {
    let mut counts = [0u32; 11];
    for seed in 0..1_000 {
        let found = match way(alloc, ask, seed) {
            None => way(alloc, ask, seed),
            found => found,
        };
        let place = found.ok_or(seed)?;
        if let Some(count) = counts.get_mut(place) {
            *count = count.saturating_add(1);
        }
    }
    Ok(counts)
}

/// Whether both answered often in each of these ways, so that the comparison says something.
fn are_met(counts: Result<Counts, u64>, ways: Range<usize>) -> bool {
    for way in ways {
        match counts {
            Ok(counts) if counts.get(way).copied() > Some(20) => {}
            _ => return false,
        }
    }
    true
}

#[test]
fn histories_agree(rt: HostRuntime) {
    let counts = counts(rt.alloc(), Ask::Histories);
    assert!(rt; are_met(counts, 0..7), "{counts:?}");
}

#[test]
fn pairs_agree(rt: HostRuntime) {
    let counts = counts(rt.alloc(), Ask::Pairs);
    assert!(rt; are_met(counts, 7..11), "{counts:?}");
}
