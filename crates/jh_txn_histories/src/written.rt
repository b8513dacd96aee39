//! Micro-operations as a history writes them. `specs/Written.antt` says which value spells which one.

ghost use Rattle.std.specs.Prelude.{◌≡◌, IfOk, option_map};
ghost use Rattle.jh_edn.specs.View.{view, views};
ghost use Rattle.jh_txn_histories.specs.ReadingInside.{written, written_ops};
ghost use Rattle.jh_txn_histories.specs.Written as rule;

use jh_edn::Value;
use std::alloc::{AllocError, Global};
use std::cmp::Ordering;

/// Where a micro-operation stands.
#[derive(Clone, Copy, Debug)]
pub(crate) enum Stage {
    /// In the value of an invocation.
    Asked,
    /// In the value of an `:ok` completion.
    Answered,
}

/// A micro-operation, by the values that a history holds.
#[derive(Clone, Copy, Debug)]
pub(crate) enum WrittenOp<'a> {
    Append { key: &'a Value, element: &'a Value },
    Read { key: &'a Value, seen: &'a [Value] },
}

/// What a read saw, which has to be a vector, a list or nil.
fn seen_of(value: &Value) -> Option<&[Value]>
    ensures { option_map (λ seen. views seen.now) result ≡ rule.seen_of (view value.now) }
{
    match value {
        Value::Nil => Some(&[]),
        _ => value.elements(),
    }
}

/// A read of a key, with this in its third place.
fn written_read<'a>(stage: Stage, key: &'a Value, third: &'a Value) -> Option<WrittenOp<'a>>
    ensures { option_map written result ≡ rule.written_read stage (view key.now) (view third.now) }
{
    let seen = match stage {
        Stage::Asked => &[],
        Stage::Answered => seen_of(third)?,
    };
    Some(WrittenOp::Read { key, seen })
}

/// The micro-operation of three parts.
fn micro_op_of_parts(stage: Stage, parts: &[Value]) -> Option<WrittenOp<'_>>
    ensures { option_map written result ≡ rule.micro_op_of_parts stage (views parts.now) }
{
    let [function, key, third] = parts else {
        return None;
    };
    if function.is_keyword("append") {
        Some(WrittenOp::Append {
            key,
            element: third,
        })
    } else if function.is_keyword("r") {
        written_read(stage, key, third)
    } else {
        None
    }
}

/// The micro-operation that a value spells.
fn micro_op_of(stage: Stage, value: &Value) -> Option<WrittenOp<'_>>
    ensures { option_map written result ≡ rule.micro_op_of stage (view value.now) }
{
    micro_op_of_parts(stage, value.elements()?)
}

/// The micro-operations that a value spells, where it spells some.
pub(crate) fn micro_ops_of(
    alloc: Global,
    stage: Stage,
    value: &Value,
) -> Result<Option<Vec<WrittenOp<'_>>>, AllocError>
    ensures { IfOk result (λ found. option_map (λ ops. written_ops ops.items) found
        ≡ rule.micro_ops_of stage (view value.now)) }
{
    let Some(values) = value.elements() else {
        return Ok(None);
    };
    let mut ops = Vec::with_capacity(alloc, values.len())?;
    for value in values {
        let Some(op) = micro_op_of(stage, value) else {
            return Ok(None);
        };
        ops.push(op)?;
    }
    Ok(Some(ops))
}

/// Whether two values are equal, as EDN says.
///
/// Error: memory was refused.
pub fn is_equal(alloc: Global, one: &Value, other: &Value) -> Result<bool, AllocError>
    ensures { IfOk result (λ yes. yes ≡ rule.is_equal (view one.now) (view other.now)) }
{
    Ok(one.normal(alloc)?.compare(&other.normal(alloc)?) == Ordering::Equal)
}

/// Whether the second micro-operation answers the first one.
fn is_answer(alloc: Global, asked: &WrittenOp, answer: &WrittenOp) -> Result<bool, AllocError>
    ensures { IfOk result (λ yes. yes ≡ rule.is_answer (written asked.now) (written answer.now)) }
{
    match (asked, answer) {
        (
            WrittenOp::Append { key, element },
            WrittenOp::Append {
                key: other,
                element: more,
            },
        ) => Ok(is_equal(alloc, key, other)? && is_equal(alloc, element, more)?),
        (WrittenOp::Read { key, .. }, WrittenOp::Read { key: other, .. }) => {
            is_equal(alloc, key, other)
        }
        _ => Ok(false),
    }
}

/// Whether there are as many answers as were asked for, and each answers its own.
fn are_answers(
    alloc: Global,
    asked: &[WrittenOp],
    answers: &[WrittenOp],
) -> Result<bool, AllocError>
    ensures { IfOk result
        (λ yes. yes ≡ rule.are_answers (written_ops asked.now) (written_ops answers.now)) }
{
    if asked.len() != answers.len() {
        return Ok(false);
    }
    for (one, other) in asked.iter().zip(answers) {
        if !is_answer(alloc, one, other)? {
            return Ok(false);
        }
    }
    Ok(true)
}

/// Whether the value of a completion answers what was asked for.
pub(crate) fn answers(alloc: Global, asked: &[WrittenOp], value: &Value) -> Result<bool, AllocError>
    ensures { IfOk result (λ yes. yes ≡ rule.answers (written_ops asked.now) (view value.now)) }
{
    match micro_ops_of(alloc, Stage::Answered, value)? {
        Some(ops) => are_answers(alloc, asked, &ops),
        None => Ok(false),
    }
}

/// Whether a value spells micro-operations as they are asked for, and another one what answers them:
/// the same ones, but for what reads saw.
///
/// Takes time linear in both values.
///
/// Error: memory was refused.
pub fn is_answered(alloc: Global, asked: &Value, answer: &Value) -> Result<bool, AllocError>
    ensures { IfOk result (λ yes. yes ≡ rule.is_answered (view asked.now) (view answer.now)) }
{
    match micro_ops_of(alloc, Stage::Asked, asked)? {
        Some(ops) => answers(alloc, &ops, answer),
        None => Ok(false),
    }
}
