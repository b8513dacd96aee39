//! Histories as EDN values. `specs/HistoryText.antt` has the rule.

ghost use Rattle.std.specs.Prelude.{◌≡◌, All, IfOk, MatchResult};
ghost use Rattle.jh_edn.specs.View.{views};
ghost use Rattle.jh_ops.specs.HistoryText as rule;
ghost use Rattle.jh_ops.specs.HistoryText.{AreParsed, RefusesValues, history_error_at};
ghost use Rattle.jh_ops.specs.Operation.{operations};
ghost use Rattle.jh_ops.specs.OperationWritten.{IsWritable};

use crate::op_text::{OpError, op_of};
use crate::operation::Op;
use jh_edn::Value;
use std::alloc::{AllocFailed, Global};
use thiserror::Error;

/// Why values are refused as a history.
#[derive(Clone, Copy, Debug, PartialEq, Eq, Error)]
pub enum HistoryError {
    /// The value at this place, from 0, is refused as an operation.
    #[error("operation {0}: {1}")]
    Op(usize, OpError),
    #[error("out of memory")]
    OutOfMemory,
}

impl<T: Drop> From<AllocFailed<T>> for HistoryError {
    ghost use Rattle.jh_ops.specs.declared.history.HistoryError.TheVariants.{OutOfMemory};

    ghost from_gives = { λ _ e. e ≡ OutOfMemory };

    fn from(_error: AllocFailed<T>) -> HistoryError {
        HistoryError::OutOfMemory
    }
}

/// The error of a history with this refusal at a place; out of memory names no place.
fn refusal(place: usize, refusal: OpError) -> HistoryError
    ensures { result ≡ history_error_at place refusal }
{
    match refusal {
        OpError::OutOfMemory => HistoryError::OutOfMemory,
        _ => HistoryError::Op(place, refusal),
    }
}

/// The values that mean operations.
fn elements_in(values: Vec<Value>) -> Vec<Value>
    ensures { views result.items ≡ rule.elements_in (views values.items) }
{
    let mut values = values;
    if values.len() != 1 {
        return values;
    }
    let Some(value) = values.pop() else {
        return values;
    };
    match value.untagged().into_elements() {
        Ok(items) => items,
        Err(single) => {
            values.push_reserved(single);
            values
        }
    }
}

/// The history that values mean: one operation each, or a single list or vector, with or without
/// tags around it, of one operation for each element. No values mean the empty history.
///
/// Errors: `Op`, with the first place from 0 at which `op_of` refuses the value, and why;
/// `OutOfMemory` at a place up to which no value is refused.
pub fn history_of(alloc: Global, values: Vec<Value>) -> Result<Vec<Op>, HistoryError>
    ensures parsed { MatchResult result
        (λ ops. AreParsed (views values.items) (operations ops.items))
        (RefusesValues (views values.items)) }
    ensures writable { IfOk result (λ ops. All (λ op. IsWritable op.process) ops.items) }
{
    let mut rest = elements_in(values).into_iter();
    let mut ops = Vec::new(alloc);
    while let Some(value) = rest.next() {
        match op_of(alloc, value) {
            Ok(op) => ops.push(op)?,
            Err(error) => return Err(refusal(ops.len(), error)),
        }
    }
    Ok(ops)
}
