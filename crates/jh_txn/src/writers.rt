//! Whether transactions that append to one key overlap.

ghost use Rattle.std.specs.Prelude.{◌≡◌, ◌<◌, ◌↔◌, None, false, true, length, IsTrue, IfOk};
ghost use Rattle.std.specs.Prelude.{slice_index_or, replicate};
ghost use Rattle.std.specs.List.{All};
ghost use Rattle.jh_txn.specs.SnapshotCheckInside.{ArePlaced, AreWritersAfter, AreWritersBehind};
ghost use Rattle.jh_txn.specs.SnapshotCheckInside.{IsFreeOf, MayDo, MayDoAll, MayPass};
ghost use Rattle.jh_txn.specs.SnapshotCheckInside.{over_behind, place_of_point, writers_behind};
ghost use Rattle.jh_txn.specs.SnapshotOrders.{AreWritersApart};
ghost use Rattle.jh_txn.specs.Transactions.{AreKeysBelow, IsKeyBelow};

use crate::txn::{MicroOp, Point, Txn};
use std::alloc::{AllocError, Global};

/// Whether no two transactions that append to one key overlap: one commits before the other starts.
/// It is enough to know the last writer of each key.
pub(crate) fn are_writers_apart(
    alloc: Global,
    txns: &[Txn],
    keys: usize,
    points: &[Point],
) -> Result<bool, AllocError>
    requires keys { AreKeysBelow keys txns.now }
    requires placed { ArePlaced txns.now points.now }
    ensures { IfOk result (λ yes. IsTrue yes ↔ AreWritersApart txns.now points.now) }
{
    let mut over = vec![in alloc; false; txns.len()]?;
    let mut last = vec![in alloc; None; keys]?;
    Ok(pass_all(&mut over, &mut last, txns, points))
}

/// Passes points as long as each transaction that starts finds the last writers of its keys over;
/// whether all do.
fn pass_all(over: &mut [bool], last: &mut [Option<usize>], txns: &[Txn], points: &[Point]) -> bool
    requires keys { AreKeysBelow (length last.old) txns.now }
    requires placed { ArePlaced txns.now points.now }
    requires over { over.old ≡ replicate (length txns.now) false }
    requires last { last.old ≡ replicate (length last.old) None }
    ensures { IsTrue result ↔ AreWritersApart txns.now points.now }
{
    for point in points {
        if !pass(over, last, txns, *point) {
            return false;
        }
    }
    true
}

/// Passes a point: who starts is the last writer of its keys from now on, if those before it are
/// over; whether they are. Who commits is over.
fn pass(over: &mut [bool], last: &mut [Option<usize>], txns: &[Txn], point: Point) -> bool
    requires count { length over.old ≡ length txns.now }
    requires keys { AreKeysBelow (length last.old) txns.now }
    requires there { place_of_point point < length txns.now }
    ensures may { IsTrue result ↔ MayPass txns.now last.old over.old point }
    ensures over { over.new ≡ over_behind over.old point }
    ensures last { IsTrue result → AreWritersBehind txns.now point last.old last.new }
{
    match point {
        Point::Start(place) => write_all(last, over, place, txns[place].ops.as_slice()),
        Point::Commit(place) => {
            over[place] = true;
            true
        }
    }
}

/// Makes a transaction the last writer of all that it appends to, as long as the writers before it
/// are over; whether all are.
fn write_all(last: &mut [Option<usize>], over: &[bool], place: usize, ops: &[MicroOp]) -> bool
    requires keys { All (IsKeyBelow (length last.old)) ops.now }
    ensures may { IsTrue result ↔ MayDoAll last.old over.now place ops.now }
    ensures after { IsTrue result → AreWritersAfter place ops.now last.old last.new }
{
    for op in ops {
        if !write(last, over, place, op) {
            return false;
        }
    }
    true
}

/// Makes a transaction the last writer of what a micro-operation appends to, if the one before it
/// is over, or is the same; whether it is.
fn write(last: &mut [Option<usize>], over: &[bool], place: usize, op: &MicroOp) -> bool
    requires key { IsKeyBelow (length last.old) op.now }
    ensures may { IsTrue result ↔ MayDo last.old over.now place op.now }
    ensures after { IsTrue result → last.new ≡ writers_behind last.old place op.now }
{
    match op {
        MicroOp::Append { key, .. } => {
            if !is_free_of(over, place, last[*key]) {
                return false;
            }
            last[*key] = Some(place);
            true
        }
        MicroOp::Read { .. } => true,
    }
}

/// Whether a transaction may append to a key with this last writer.
fn is_free_of(over: &[bool], place: usize, writer: Option<usize>) -> bool
    ensures { IsTrue result ↔ IsFreeOf over.now place writer }
{
    match writer {
        None => true,
        Some(writer) => writer == place || is_over(over, writer),
    }
}

/// Whether a transaction is over.
fn is_over(over: &[bool], place: usize) -> bool
    ensures { result ≡ slice_index_or over.now place false }
{
    match over.get(place) {
        Some(is_over) => *is_over,
        None => false,
    }
}
