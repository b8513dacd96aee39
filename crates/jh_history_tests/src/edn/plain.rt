//! The reader of `jh_edn` beside the one of `plain_edn`: the same values, or the same error on the same
//! line.

use crate::plain_edn::{PlainError, PlainKind, PlainValue, line_behind, random_text, read_slowly};
use jh_edn::{EdnError, Value, read_all};
use std::alloc::{AllocError, Global};
use std::test::Fail;

#[cycle(same)]
fn is_same(plain: &PlainValue, value: &Value) -> bool {
    match plain {
        PlainValue::Nil => matches!(value, Value::Nil),
        PlainValue::Boolean(plain) => matches!(value, Value::Bool(truth) if plain == truth),
        PlainValue::Integer(plain) => matches!(value, Value::Int(integer) if plain == integer),
        PlainValue::Character(plain) =>
            matches!(value, Value::Char(character) if plain == character),
        PlainValue::Str(plain) =>
            matches!(value, Value::Str(text) if plain.as_str() == text.as_str()),
        PlainValue::Keyword(plain) =>
            matches!(value, Value::Keyword(name) if plain.as_str() == name.as_str()),
        PlainValue::Symbol(plain) =>
            matches!(value, Value::Symbol(name) if plain.as_str() == name.as_str()),
        PlainValue::List(plain) => match value {
            Value::List(values) => are_same(plain, values.as_slice()),
            _ => false,
        },
        PlainValue::Vector(plain) => match value {
            Value::Vector(values) => are_same(plain, values.as_slice()),
            _ => false,
        },
        PlainValue::Set(plain) => match value {
            Value::Set(values) => are_same(plain, values.as_slice()),
            _ => false,
        },
        PlainValue::Map(plain) => match value {
            Value::Map(pairs) => are_pairs_same(plain, pairs.as_slice()),
            _ => false,
        },
        PlainValue::Tagged(tag, plain) => match value {
            Value::Tagged(tagged) => tag.as_str() == tagged.tag()
                && is_same(plain, tagged.element()),
            _ => false,
        },
    }
}

/// Whether there are as many, the same one by one.
#[cycle(same)]
fn are_same(plain: &[PlainValue], values: &[Value]) -> bool {
    for (plain, value) in plain.iter().zip(values) {
        if !is_same(plain, value) {
            return false;
        }
    }
    plain.len() == values.len()
}

#[cycle(same)]
fn are_pairs_same(plain: &[(PlainValue, PlainValue)], pairs: &[(Value, Value)]) -> bool {
    for ((plain_key, plain_value), (key, value)) in plain.iter().zip(pairs) {
        if !is_same(plain_key, key) || !is_same(plain_value, value) {
            return false;
        }
    }
    plain.len() == pairs.len()
}

/// Whether it is the error of this kind on this line.
fn is_error(error: EdnError, kind: PlainKind, line: u64) -> bool {
    let plain = match kind {
        PlainKind::UnexpectedEnd => EdnError::UnexpectedEnd(line),
        PlainKind::BadToken => EdnError::BadToken(line),
        PlainKind::FloatUnsupported => EdnError::FloatUnsupported(line),
        PlainKind::IntegerRange => EdnError::IntegerRange(line),
        PlainKind::BadEscape => EdnError::BadEscape(line),
        PlainKind::OddMap => EdnError::OddMap(line),
        PlainKind::DuplicateKey => EdnError::DuplicateKey(line),
        PlainKind::TooDeep => EdnError::TooDeep(line),
    };
    error == plain
}

/// What both readers answer to a text.
#[derive(Clone, Copy)]
enum Answer {
    Values,
    Error(PlainKind),
    Different,
}

/// What both answer to a text that the plain reader reads.
fn compare_values(alloc: Global, text: &str, plain: &[PlainValue]) -> Result<Answer, AllocError> {
    match read_all(alloc, &mut text.as_bytes(), 2) {
        Ok(values) if are_same(plain, &values) => Ok(Answer::Values),
        Err(EdnError::OutOfMemory) => Err(AllocError),
        _ => Ok(Answer::Different),
    }
}

/// What both answer to a text that the plain reader refuses.
fn compare_errors(
    alloc: Global,
    text: &str,
    kind: PlainKind,
    line: u64,
) -> Result<Answer, AllocError> {
    match read_all(alloc, &mut text.as_bytes(), 2) {
        Err(error) if is_error(error, kind, line) => Ok(Answer::Error(kind)),
        Err(EdnError::OutOfMemory) => Err(AllocError),
        _ => Ok(Answer::Different),
    }
}

fn compare(alloc: Global, text: &str) -> Result<Answer, AllocError> {
    match read_slowly(alloc, text) {
        Ok(plain) => compare_values(alloc, text, &plain),
        Err(PlainError::Refused(kind, place)) => {
            compare_errors(alloc, text, kind, line_behind(text, place))
        }
        Err(PlainError::OutOfMemory) => Err(AllocError),
    }
}

/// Whether both answer the same to a text, and to each text that it begins with.
pub(crate) fn agree(alloc: Global, text: &str) -> Result<bool, AllocError> {
    for (place, _) in text.char_indices() {
        let front = text.get(..place).unwrap_or("");
        if matches!(compare(alloc, front)?, Answer::Different) {
            return Ok(false);
        }
    }
    Ok(!matches!(compare(alloc, text)?, Answer::Different))
}

/// What both answer to the random text of a seed.
fn compare_random(alloc: Global, seed: u64) -> Result<Answer, AllocError> {
    compare(alloc, &random_text(alloc, seed)?)
}

/// How many of so many random texts are refused for each kind of error, and how many are read; or the seed of one to
/// which both answer differently.
fn counts(alloc: Global, texts: u64) -> Result<[u64; 9], u64> {
    let mut counts = [0u64; 9];
    for seed in 0..texts {
        let answer = match compare_random(alloc, seed) {
            Err(_) => compare_random(alloc, seed).ok().ok_or(seed)?,
            Ok(answer) => answer,
        };
        let place = match answer {
            Answer::Error(kind) => kind as usize,
            Answer::Values => 8,
            Answer::Different => return Err(seed),
        };
        counts[place] = counts[place].saturating_add(1);
    }
    Ok(counts)
}

/// There are many of each sort, so that the comparison says something.
#[test]
fn random_texts_are_read_alike(rt: HostRuntime) -> Result<(), Fail> {
    let counts = counts(rt.alloc(), 5_000)?;
    for count in counts {
        assert!(rt; count >= 20, "{counts:?}");
    }
    Ok(())
}
