//! What a line means by itself, and what is kept of it. `specs/LineMeanings.antt` has the rule.

ghost use Rattle.std.specs.Prelude.{◌≡◌, ◌↔◌, IfOk, IsTrue, filter};
ghost use Rattle.std.specs.List.{list_any};
ghost use Rattle.jh_edn.specs.Edn.{is_keyword};
ghost use Rattle.jh_edn.specs.declared.error.EdnError.TheVariants.{OutOfMemory};
ghost use Rattle.jh_edn.specs.View.{view, view_pair, views};
ghost use Rattle.jh_ops.specs.Operation.{operation};
ghost use Rattle.jh_test_parts.specs.LineMeanings as rule;
ghost use Rattle.jh_test_parts.specs.LineMeanings.{line_meaning_by};

use crate::complaints::Complaint;
use jh_edn::{EdnError, Pairs, Value, values_in_line};
use jh_ops::{Op, OpError, op_of};
use std::alloc::{AllocError, Global};
use std::str;

/// What a line means by itself.
#[derive(Drop)]
pub enum LineMeaning {
    /// It has no element.
    Nothing,
    /// So many nanoseconds have passed since the test began.
    Clock(u64),
    /// Whoever looks after the test wants its calls to end.
    Stop,
    /// An operation, with its time, where it has one.
    Op(Op, Option<u64>),
    /// It is no reply, for this reason.
    Bad(Complaint),
}

/// Whether a pair has this keyword.
fn has_key(name: &str, pairs: &[(Value, Value)]) -> bool
    ensures { result ≡ list_any (λ pair. is_keyword name.now (view pair.0)) pairs.now }
{
    pairs.iter().any(|pair| pair.0.is_keyword(name))
}

/// Whether a `:time` stands among the other pairs of an operation: then it is no integer.
fn has_odd_time(op: &Op) -> bool
    ensures { result ≡ rule.has_odd_time (operation op.now) }
{
    has_key("time", op.rest.as_slice())
}

/// What an operation means with its time.
fn meaning_at_time(op: Op) -> LineMeaning
    ensures { line_meaning_by result ≡ rule.meaning_at_time (operation op) op.time }
{
    match op.time {
        None => {
            if has_odd_time(&op) {
                LineMeaning::Bad(Complaint::BadTime)
            } else {
                LineMeaning::Op(op, None)
            }
        }
        Some(time) => {
            if time < 0 {
                LineMeaning::Bad(Complaint::BadTime)
            } else {
                LineMeaning::Op(op, Some(time as u64))
            }
        }
    }
}

/// What a value means that may be an operation.
fn meaning_of_operation(alloc: Global, value: Value) -> Result<LineMeaning, AllocError>
    ensures { IfOk result (λ meaning. line_meaning_by meaning ≡ rule.meaning_of_operation (view value)) }
{
    match op_of(alloc, value) {
        Ok(op) => Ok(meaning_at_time(op)),
        Err(OpError::OutOfMemory) => Err(AllocError),
        Err(error) => Ok(LineMeaning::Bad(Complaint::Op(error))),
    }
}

/// What an integer means.
fn meaning_of_number(number: i64) -> LineMeaning
    ensures { line_meaning_by result ≡ rule.meaning_of_number number }
{
    if number < 0 {
        LineMeaning::Bad(Complaint::BadTime)
    } else {
        LineMeaning::Clock(number as u64)
    }
}

/// What a value means.
fn meaning_of_value(alloc: Global, value: Value) -> Result<LineMeaning, AllocError>
    ensures { IfOk result (λ meaning. line_meaning_by meaning ≡ rule.meaning_of_value (view value)) }
{
    if let Some(number) = value.as_integer() {
        return Ok(meaning_of_number(number));
    }
    if value.is_keyword("stop") {
        return Ok(LineMeaning::Stop);
    }
    meaning_of_operation(alloc, value)
}

/// What the values of a line mean.
fn meaning_of_values(alloc: Global, values: Vec<Value>) -> Result<LineMeaning, AllocError>
    ensures { IfOk result (λ meaning. line_meaning_by meaning ≡ rule.meaning_of_values (views values.items)) }
{
    let mut values = values;
    if values.len() > 1 {
        return Ok(LineMeaning::Bad(Complaint::MoreThanOne));
    }
    match values.pop() {
        None => Ok(LineMeaning::Nothing),
        Some(value) => meaning_of_value(alloc, value),
    }
}

/// Whether memory was refused.
fn is_memory(error: EdnError) -> bool
    ensures { IsTrue result ↔ (error ≡ OutOfMemory) }
{
    matches!(error, EdnError::OutOfMemory)
}

/// What a line means, whose bytes stand here without its line feed.
pub fn line_meaning(alloc: Global, line: &[u8]) -> Result<LineMeaning, AllocError>
    ensures { IfOk result (λ meaning. line_meaning_by meaning ≡ rule.line_meaning line.now) }
{
    let Ok(text) = str::from_utf8(line) else {
        return Ok(LineMeaning::Bad(Complaint::Edn(EdnError::Utf8)));
    };
    match values_in_line(alloc, text) {
        Ok(values) => meaning_of_values(alloc, values),
        Err(error) => {
            if is_memory(error) {
                return Err(AllocError);
            }
            Ok(LineMeaning::Bad(Complaint::Edn(error)))
        }
    }
}

/// Whether a conversation gives the value of this key by itself.
fn is_own_key(key: &Value) -> bool
    ensures { result ≡ rule.is_own_key (view key.now) }
{
    key.is_keyword("time") || key.is_keyword("index") || key.is_keyword("node")
}

/// Whether the pair of an operation is kept as it stands.
fn is_kept(pair: &(Value, Value)) -> bool
    ensures { result ≡ rule.is_kept (view_pair pair.now) }
{
    !is_own_key(&pair.0)
}

/// Those of these pairs that are kept.
fn kept(alloc: Global, pairs: Vec<(Value, Value)>) -> Result<Vec<(Value, Value)>, AllocError>
    ensures { IfOk result (λ kept. kept.items
        ≡ filter (λ pair. rule.is_kept (view_pair pair)) pairs.items) }
{
    pairs
        .into_iter()
        .filter(|pair| is_kept(pair))
        .collect(alloc)
}

/// The pairs of an operation that are kept as they stand.
pub fn kept_pairs(alloc: Global, rest: Pairs) -> Result<Pairs, AllocError>
    ensures { IfOk result (λ kept. kept ≡ rule.pairs_kept rest) }
{
    Ok(Pairs::of(kept(alloc, rest.into_vec())?))
}
