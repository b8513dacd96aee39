//! Whether the reads of transactions, one after another, are explained.

ghost use Rattle.std.specs.Prelude.{◌≡◌, ◌<◌, ◌↔◌, ◌∷◌, [], ℕ, true, length, IsTrue, IfOk};
ghost use Rattle.std.specs.List.{All};
ghost use Rattle.jh_txn.specs.OrderCheckInside.{AreAfter, AreAllEmpty, SawList, SawListAt};
ghost use Rattle.jh_txn.specs.SerialOrders.{ExplainsReads};
ghost use Rattle.jh_txn.specs.Transactions.{AreKeysBelow, IsKeyBelow};
ghost use Rattle.jh_txn.specs.declared.txn.Outcome.TheVariants.{Done};

use crate::txn::{MicroOp, Outcome, Txn};
use std::alloc::{AllocError, Global};

/// Whether each read of what is done saw what was appended to its key before it, where these
/// transactions come one after another.
pub(crate) fn explains_reads(
    alloc: Global,
    txns: &[Txn],
    keys: usize,
    order: &[usize],
) -> Result<bool, AllocError>
    requires keys { AreKeysBelow keys txns.now }
    requires there { All (λ place. place < length txns.now) order.now }
    ensures { IfOk result (λ yes. IsTrue yes ↔ ExplainsReads txns.now order.now) }
{
    let mut lists = empty_lists(alloc, keys)?;
    run_all(&mut lists, txns, order)
}

/// Runs transactions on empty lists, one after another, as long as each read of what is done saw
/// them; whether all did.
fn run_all(lists: &mut [Vec<usize>], txns: &[Txn], order: &[usize]) -> Result<bool, AllocError>
    requires keys { AreKeysBelow (length lists.old) txns.now }
    requires there { All (λ place. place < length txns.now) order.now }
    requires empty { AreAllEmpty lists.old }
    ensures { IfOk result (λ yes. IsTrue yes ↔ ExplainsReads txns.now order.now) }
{
    for place in order {
        if !run(lists, &txns[*place])? {
            return Ok(false);
        }
    }
    Ok(true)
}

/// So many empty lists.
pub(crate) fn empty_lists(alloc: Global, keys: usize) -> Result<Vec<Vec<usize>>, AllocError>
    ensures { IfOk result (λ lists. (length lists.items ≡ keys) × AreAllEmpty lists.items) }
{
    let mut lists = Vec::new(alloc);
    for _key in 0..keys {
        lists.push(Vec::new(alloc))?;
    }
    Ok(lists)
}

/// Runs a transaction on the lists, as long as its reads saw them, where it is done; whether all
/// did.
pub(crate) fn run(lists: &mut [Vec<usize>], txn: &Txn) -> Result<bool, AllocError>
    requires keys { All (IsKeyBelow (length lists.old)) txn.now.ops }
    ensures reads { IfOk result (λ yes. IsTrue yes ↔ (txn.now.outcome ≡ Done
        → (index : ℕ) → SawListAt lists.old txn.now.ops index)) }
    ensures after { IfOk result (λ yes. IsTrue yes → AreAfter txn.now.ops lists.old lists.new) }
{
    run_ops(lists, is_done(txn.outcome), txn.ops.as_slice())
}

/// Runs micro-operations on the lists, as long as each read saw the list of its key; whether all
/// did. Reads count only where `looks` says so: where their transaction is done.
pub(crate) fn run_ops(
    lists: &mut [Vec<usize>],
    looks: bool,
    ops: &[MicroOp],
) -> Result<bool, AllocError>
    requires keys { All (IsKeyBelow (length lists.old)) ops.now }
    ensures reads { IfOk result (λ yes. IsTrue yes
        ↔ (looks ≡ true → (index : ℕ) → SawListAt lists.old ops.now index)) }
    ensures after { IfOk result (λ yes. IsTrue yes → AreAfter ops.now lists.old lists.new) }
{
    for op in ops {
        if !run_op(lists, looks, op)? {
            return Ok(false);
        }
    }
    Ok(true)
}

/// Whether a transaction that ended so is done.
fn is_done(outcome: Outcome) -> bool
    ensures { IsTrue result ↔ (outcome ≡ Done) }
{
    match outcome {
        Outcome::Done => true,
        _ => false,
    }
}

/// Runs a micro-operation on the lists; whether it saw the list of its key, if it is a read that
/// counts (`looks`).
fn run_op(lists: &mut [Vec<usize>], looks: bool, op: &MicroOp) -> Result<bool, AllocError>
    requires key { IsKeyBelow (length lists.old) op.now }
    ensures sees { IfOk result (λ yes. IsTrue yes ↔ (looks ≡ true → SawList lists.old op.now)) }
    ensures after { IfOk result (λ _. AreAfter (op.now ∷ []) lists.old lists.new) }
{
    match op {
        MicroOp::Append { key, element } => {
            lists[*key].push(*element)?;
            Ok(true)
        }
        MicroOp::Read { key, seen } => Ok(!looks || lists[*key].as_slice() == seen.as_slice()),
    }
}
