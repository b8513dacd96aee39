//! The checker of transactions: what `jh_txn_check` finds in those of a history. `specs/Findings.antt`
//! has the rule.

ghost use Rattle.std.specs.Prelude.{◌≡◌, MatchResult};
ghost use Rattle.jh_ops.specs.Operation.{operations};
ghost use Rattle.jh_checkers.specs.Findings.{IsFindingBy, RefusesListAppend, judged_model};
ghost use Rattle.jh_checkers.specs.TransactionsInside as inside;
ghost use Rattle.jh_checkers.specs.declared.checker.Checker.TheVariants as Checker;

use crate::finding::{Finding, Judging};
use jh_check::CheckError;
use jh_ops::{Op, pair};
use jh_txn::ConsistencyModel;
use jh_txn_check::find_transactions;
use jh_txn_histories::TxnError;
use std::alloc::Global;

/// The error of a checker for one of `jh_txn_histories`.
fn error_of(error: TxnError) -> CheckError
    ensures { result ≡ inside.error_of_reading error }
{
    match error {
        TxnError::BadValue(place) => CheckError::BadValue(place),
        TxnError::RepeatedAppend(place) => CheckError::RepeatedAppend(place),
        TxnError::OutOfMemory => CheckError::OutOfMemory,
    }
}

/// The model that transactions are judged by.
fn model_of(judging: Judging<'_>) -> ConsistencyModel
    ensures { result ≡ judged_model judging.entry.model }
{
    match judging.model {
        Some(model) => model,
        None => ConsistencyModel::StrictSerializable,
    }
}

/// What is found in the transactions of a history, by the model that is asked for.
///
/// Errors: `Pair`, then `BadValue` or `RepeatedAppend` at the least place of all, and of one place
/// `BadValue` first; `OutOfMemory` may come before any of them.
pub(crate) fn check_transactions(
    alloc: Global,
    history: &[Op],
    judging: Judging<'_>,
) -> Result<Finding, CheckError>
    ensures { MatchResult result
        (IsFindingBy Checker.ListAppend judging.entry (operations history.now))
        (RefusesListAppend (operations history.now)) }
{
    let pairs = pair(alloc, history)?;
    let model = model_of(judging);
    match find_transactions(alloc, history, &pairs, model, judging.explain) {
        Ok(found) => Ok(Finding::ListAppend(found)),
        Err(error) => Err(error_of(error)),
    }
}
