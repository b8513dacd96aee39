//! What is found in the transactions of a history. `specs/Found.antt` says what a finding is.

ghost use Rattle.std.specs.Prelude.{◌≡◌, length, IfOk, IfErr};
ghost use Rattle.std.specs.List.{All};
ghost use Rattle.jh_ops.specs.Operation.{operations};
ghost use Rattle.jh_ops.specs.Pairing.{IsPairWithin};
ghost use Rattle.jh_txn.specs.RealTime.{CompleteAfterInvocation};
ghost use Rattle.jh_txn_check.specs.Found.{IsTxnFinding, SaysOf};
ghost use Rattle.jh_txn_histories.specs.Histories.{RefusesTransactions};
ghost use Rattle.jh_txn_judge.specs.Judged.{serial_model};
ghost use Rattle.jh_txn_snapshot_judge.specs.Judged.{snapshot_model};
ghost use Rattle.jh_txn_writers.specs.Numbers.{AreNumbersOf};

use crate::shown::{bad_read_found, cycle_found, places_of_points};
use jh_ops::{Op, Pair};
use jh_txn::ConsistencyModel;
use jh_txn_findings::TxnFinding;
use jh_txn_histories::{Transactions, TxnError, transactions};
use jh_txn_judge::{SerialVerdict, judge_serial};
use jh_txn_snapshot_judge::{SnapshotVerdict, judge_snapshots};
use std::alloc::{AllocError, Global};

/// What is found in the transactions of a history, which are judged by a consistency model. The pairs are those that
/// `jh_ops::pair` gives for the history. Where a no is to be explained, the finding has the operations of the transactions
/// that it names.
///
/// Errors: `BadValue` and `RepeatedAppend` as `transactions` has them; `OutOfMemory` with any history.
///
/// Takes as long as reading the transactions and judging them, n log n at most.
pub fn find_transactions(
    alloc: Global,
    history: &[Op],
    pairs: &[Pair],
    model: ConsistencyModel,
    explain: bool,
) -> Result<TxnFinding, TxnError>
    requires within { All (IsPairWithin (length history.now)) pairs.now }
    ensures found { IfOk result (IsTxnFinding (operations history.now) pairs.now model explain) }
    ensures refused { IfErr result (RefusesTransactions (operations history.now) pairs.now) }
{
    let read = transactions(alloc, history, pairs)?;
    let finding = finding_by(alloc, history, pairs, model, explain, &read)?;
    Ok(finding)
}

/// What is found in transactions by a model.
fn finding_by(
    alloc: Global,
    history: &[Op],
    pairs: &[Pair],
    model: ConsistencyModel,
    explain: bool,
    read: &Transactions,
) -> Result<TxnFinding, AllocError>
    requires within { All (IsPairWithin (length history.now)) pairs.now }
    requires count { length read.now.txns.items ≡ length pairs.now }
    requires numbered { AreNumbersOf read.now.txns.items (length read.now.keys) (length read.now.elements) }
    requires ends { CompleteAfterInvocation read.now.txns.items }
    ensures { IfOk result (SaysOf (operations history.now) pairs.now model explain read.now) }
{
    match model {
        ConsistencyModel::Serializable => {
            serial_finding(alloc, history, pairs, explain, read, false)
        }
        ConsistencyModel::StrictSerializable => {
            serial_finding(alloc, history, pairs, explain, read, true)
        }
        ConsistencyModel::SnapshotIsolation => {
            snapshot_finding(alloc, history, pairs, explain, read, false)
        }
        ConsistencyModel::StrongSnapshotIsolation => {
            snapshot_finding(alloc, history, pairs, explain, read, true)
        }
    }
}

/// What is found in transactions that are judged for a serial order.
fn serial_finding(
    alloc: Global,
    history: &[Op],
    pairs: &[Pair],
    explain: bool,
    read: &Transactions,
    real_time: bool,
) -> Result<TxnFinding, AllocError>
    requires within { All (IsPairWithin (length history.now)) pairs.now }
    requires count { length read.now.txns.items ≡ length pairs.now }
    requires numbered { AreNumbersOf read.now.txns.items (length read.now.keys) (length read.now.elements) }
    requires ends { CompleteAfterInvocation read.now.txns.items }
    ensures { IfOk result
        (SaysOf (operations history.now) pairs.now (serial_model real_time) explain read.now) }
{
    let keys = read.keys.len();
    match judge_serial(alloc, &read.txns, keys, read.elements.len(), real_time)? {
        SerialVerdict::Valid(order) => Ok(TxnFinding::Valid { order }),
        SerialVerdict::BadRead(at) => bad_read_found(alloc, history, pairs, explain, at),
        SerialVerdict::Cycle(steps) => cycle_found(alloc, history, pairs, explain, read, &steps),
    }
}

/// What is found in transactions that are judged for a snapshot order.
fn snapshot_finding(
    alloc: Global,
    history: &[Op],
    pairs: &[Pair],
    explain: bool,
    read: &Transactions,
    real_time: bool,
) -> Result<TxnFinding, AllocError>
    requires within { All (IsPairWithin (length history.now)) pairs.now }
    requires count { length read.now.txns.items ≡ length pairs.now }
    requires numbered { AreNumbersOf read.now.txns.items (length read.now.keys) (length read.now.elements) }
    requires ends { CompleteAfterInvocation read.now.txns.items }
    ensures { IfOk result
        (SaysOf (operations history.now) pairs.now (snapshot_model real_time) explain read.now) }
{
    let keys = read.keys.len();
    match judge_snapshots(alloc, &read.txns, keys, read.elements.len(), real_time)? {
        SnapshotVerdict::Valid(points) => {
            let order = places_of_points(alloc, &points)?;
            Ok(TxnFinding::Valid { order })
        }
        SnapshotVerdict::BadRead(at) => bad_read_found(alloc, history, pairs, explain, at),
        SnapshotVerdict::Cycle(steps) => cycle_found(alloc, history, pairs, explain, read, &steps),
        SnapshotVerdict::Unknown => Ok(TxnFinding::Unknown),
    }
}
