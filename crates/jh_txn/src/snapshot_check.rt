//! A given snapshot order, checked in linear time.
//!
//! `specs/SnapshotOrders.antt` says what a snapshot order is, part by part. How a part is looked at
//! may be changed; each part has a function with its exact clause.

ghost use Rattle.std.specs.Prelude.{◌≡◌, ◌↔◌, true, IsTrue, IfOk};
ghost use Rattle.jh_txn.specs.SnapshotCheckInside.{IsCommitLate, IsNoCommitTooLate, latest_behind};
ghost use Rattle.jh_txn.specs.SnapshotOrders.{IsSnapshotOrderFor};
ghost use Rattle.jh_txn.specs.Transactions.{AreKeysBelow};

use crate::order_check::{invoked_at, is_done_before};
use crate::phases::are_placed;
use crate::starts::explains_starts;
use crate::txn::{Point, Txn};
use crate::writers::are_writers_apart;
use std::alloc::{AllocError, Global};

/// Whether these points are a snapshot order of the transactions, which keeps real time where that
/// is asked for. All keys are below `keys` (`are_keys_below`).
///
/// Errors: where there is no memory for the lists.
///
/// Takes time linear in the number of keys, the points, the micro-operations, and the elements that
/// reads saw, and memory for a list for each key.
pub fn check_snapshot_order(
    alloc: Global,
    txns: &[Txn],
    keys: usize,
    real_time: bool,
    points: &[Point],
) -> Result<bool, AllocError>
    requires keys { AreKeysBelow keys txns.now }
    ensures { IfOk result (λ yes. IsTrue yes ↔ IsSnapshotOrderFor txns.now real_time points.now) }
{
    if !are_placed(alloc, txns, points)? {
        return Ok(false);
    }
    if !keeps_time_at(txns, real_time, points) {
        return Ok(false);
    }
    if !are_writers_apart(alloc, txns, keys, points)? {
        return Ok(false);
    }
    explains_starts(alloc, txns, keys, points)
}

/// Whether none commits that was done before one that started earlier was invoked, where that is
/// asked for.
fn keeps_time_at(txns: &[Txn], real_time: bool, points: &[Point]) -> bool
    ensures { IsTrue result ↔ (real_time ≡ true → IsNoCommitTooLate txns.now points.now) }
{
    !real_time || no_commit_late(txns, points)
}

/// Whether none commits that was done before one that started earlier was invoked. It is enough to
/// know the latest invocation so far.
fn no_commit_late(txns: &[Txn], points: &[Point]) -> bool
    ensures { IsTrue result ↔ IsNoCommitTooLate txns.now points.now }
{
    let mut latest: usize = 0;
    for point in points {
        if is_commit_late(txns, latest, *point) {
            return false;
        }
        latest = later(txns, latest, *point);
    }
    true
}

/// Whether a transaction commits here that was done before this index.
fn is_commit_late(txns: &[Txn], latest: usize, point: Point) -> bool
    ensures { IsTrue result ↔ IsCommitLate txns.now latest point }
{
    match point {
        Point::Start(_) => false,
        Point::Commit(place) => is_done_before(txns, place, latest),
    }
}

/// The latest invocation of those that started, behind a point.
fn later(txns: &[Txn], latest: usize, point: Point) -> usize
    ensures { result ≡ latest_behind txns.now latest point }
{
    match point {
        Point::Start(place) => latest.max(invoked_at(txns, place)),
        Point::Commit(_) => latest,
    }
}
