//! Transactions by their places.

ghost use Rattle.std.specs.Prelude.{◌≡◌, ◌↔◌, IsTrue};
ghost use Rattle.jh_txn.specs.Transactions.{IsDoneAt, ops_at};

use jh_txn::{MicroOp, Txn};
use jh_txn_seen::is_done;

/// What the transaction at a place does; past the last one nothing.
pub(crate) fn ops_of(txns: &[Txn], place: usize) -> &[MicroOp]
    ensures { result.now ≡ ops_at txns.now place }
{
    match txns.get(place) {
        Some(txn) => txn.ops.as_slice(),
        None => &[],
    }
}

/// Whether it is done; past the last one none is.
pub(crate) fn is_done_at(txns: &[Txn], place: usize) -> bool
    ensures { IsTrue result ↔ IsDoneAt txns.now place }
{
    match txns.get(place) {
        Some(txn) => is_done(txn.outcome),
        None => false,
    }
}
