//! Whether reads saw what was committed before their transactions started.

ghost use Rattle.std.specs.Prelude.{◌≡◌, ◌<◌, ◌↔◌, ◌∷◌, ◌++◌, [], ℕ, List, length};
ghost use Rattle.std.specs.Prelude.{IfOk, IsTrue, Vec};
ghost use Rattle.std.specs.List.{All};
ghost use Rattle.std.specs.declared.alloc.Global.{Global};
ghost use Rattle.jh_txn.specs.OrderCheckInside.{AreAfter, AreAllEmpty, SawListAt, list_at};
ghost use Rattle.jh_txn.specs.SnapshotCheckInside.{ExplainsStarts, SawListsAt};
ghost use Rattle.jh_txn.specs.SnapshotCheckInside.{ops_of_point, place_of_point};
ghost use Rattle.jh_txn.specs.Transactions.{AreKeysBelow, IsKeyBelow, appended};
ghost use Rattle.jh_txn.specs.declared.txn.Outcome.TheVariants.{Done};

use crate::reads::{empty_lists, run, run_ops};
use crate::txn::{MicroOp, Point, Txn};
use std::alloc::{AllocError, Global};

/// Whether each read of what is done saw what was committed to its key before its transaction's
/// start, and then what that one appended before.
pub(crate) fn explains_starts(
    alloc: Global,
    txns: &[Txn],
    keys: usize,
    points: &[Point],
) -> Result<bool, AllocError>
    requires keys { AreKeysBelow keys txns.now }
    requires there { All (λ point. place_of_point point < length txns.now) points.now }
    ensures { IfOk result (λ yes. IsTrue yes ↔ ExplainsStarts txns.now points.now) }
{
    let mut lists = empty_lists(alloc, keys)?;
    run_points(&mut lists, txns, points)
}

/// Runs points on empty lists, one after another, as long as the reads at each start saw them;
/// whether all did.
fn run_points(lists: &mut [Vec<usize>], txns: &[Txn], points: &[Point]) -> Result<bool, AllocError>
    requires keys { AreKeysBelow (length lists.old) txns.now }
    requires there { All (λ point. place_of_point point < length txns.now) points.now }
    requires empty { AreAllEmpty lists.old }
    ensures { IfOk result (λ yes. IsTrue yes ↔ ExplainsStarts txns.now points.now) }
{
    for point in points {
        if !run_point(lists, txns, *point)? {
            return Ok(false);
        }
    }
    Ok(true)
}

/// Runs a point on the lists: at a commit they change; whether the reads at a start saw them.
fn run_point(lists: &mut [Vec<usize>], txns: &[Txn], point: Point) -> Result<bool, AllocError>
    requires keys { AreKeysBelow (length lists.old) txns.now }
    requires there { place_of_point point < length txns.now }
    ensures saw { IfOk result (λ yes. IsTrue yes ↔ SawListsAt txns.now lists.old point) }
    ensures after { IfOk result (λ yes. IsTrue yes
        → AreAfter (ops_of_point txns.now point) lists.old lists.new) }
{
    match point {
        Point::Start(place) => look(lists, &txns[place]),
        Point::Commit(place) => run_ops(lists, false, txns[place].ops.as_slice()),
    }
}

/// Whether the reads of a transaction saw the lists, where it is done. Its own appends are put
/// there for that, and taken away again.
fn look(lists: &mut [Vec<usize>], txn: &Txn) -> Result<bool, AllocError>
    requires keys { All (IsKeyBelow (length lists.old)) txn.now.ops }
    ensures reads { IfOk result (λ yes. IsTrue yes ↔ (txn.now.outcome ≡ Done
        → (index : ℕ) → SawListAt lists.old txn.now.ops index)) }
    ensures after { IfOk result (λ yes. IsTrue yes → AreAfter [] lists.old lists.new) }
{
    if !run(lists, txn)? {
        return Ok(false);
    }
    undo(lists, txn.ops.as_slice());
    Ok(true)
}

/// Takes away what micro-operations appended.
fn undo(lists: &mut [Vec<usize>], ops: &[MicroOp])
    requires keys { All (IsKeyBelow (length lists.old)) ops.now }
    ensures { (before : List (Vec ℕ Global)) → AreAfter ops.now before lists.old
        → AreAfter [] before lists.new }
{
    for undone in 0..ops.len() {
        undo_op(lists, &ops[ops.len() - 1 - undone]);
    }
}

/// Takes away what a micro-operation appended at the end of its key's list.
fn undo_op(lists: &mut [Vec<usize>], op: &MicroOp)
    requires key { IsKeyBelow (length lists.old) op.now }
    ensures count { length lists.new ≡ length lists.old }
    ensures undone { (key : ℕ) (xs : List ℕ)
        → list_at lists.old key ≡ xs ++ appended key (op.now ∷ []) → list_at lists.new key ≡ xs }
{
    match op {
        MicroOp::Append { key, .. } => {
            lists[*key].pop();
        }
        MicroOp::Read { .. } => {}
    }
}
