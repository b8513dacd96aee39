//! The reads of what is done, in one list. `specs/Reads.antt` says what it holds.

ghost use Rattle.std.specs.Prelude.{◌≡◌, ◌↔◌, IfOk, IsTrue, OnOk, length};
ghost use Rattle.jh_txn.specs.declared.txn.Outcome.TheVariants.{Done};
ghost use Rattle.jh_txn_seen.specs.Inside.{AddsRead, AddsReads};
ghost use Rattle.jh_txn_seen.specs.Reads.{AreDoneReads};

use jh_txn::{MicroOp, Outcome, Txn};
use std::alloc::{AllocError, Global};

/// A read of a transaction that is done: the transaction's place, the key, and the elements that the
/// read saw, in order.
#[derive(Clone, Copy, Debug)]
pub struct DoneRead<'a> {
    pub place: usize,
    pub key: usize,
    pub seen: &'a [usize],
}

/// All reads of transactions that are done, in the order of the transactions.
///
/// Errors: where there is no memory for the list.
///
/// Takes time linear in the micro-operations.
pub fn reads_of<'a>(alloc: Global, txns: &'a [Txn]) -> Result<Vec<DoneRead<'a>>, AllocError>
    ensures { IfOk result (λ reads. AreDoneReads txns.now reads.items) }
{
    let mut reads = Vec::new(alloc);
    for (place, txn) in txns.iter().enumerate() {
        if is_done(txn.outcome) {
            add_reads(&mut reads, place, txn.ops.as_slice())?;
        }
    }
    Ok(reads)
}

/// Whether a transaction that ended so is done. Takes constant time.
pub fn is_done(outcome: Outcome) -> bool
    ensures { IsTrue result ↔ (outcome ≡ Done) }
{
    match outcome {
        Outcome::Done => true,
        _ => false,
    }
}

/// Adds the reads of the transaction at a place.
fn add_reads<'a>(
    reads: &mut Vec<DoneRead<'a>>,
    place: usize,
    ops: &'a [MicroOp],
) -> Result<(), AllocError>
    ensures { OnOk result
        (AddsReads place ops.now (length ops.now) reads.old.items reads.new.items) }
{
    for op in ops {
        add_read(reads, place, op)?;
    }
    Ok(())
}

/// Adds a read of the transaction at a place, if the micro-operation is one.
fn add_read<'a>(
    reads: &mut Vec<DoneRead<'a>>,
    place: usize,
    op: &'a MicroOp,
) -> Result<(), AllocError>
    ensures { OnOk result (AddsRead place op.now reads.old.items reads.new.items) }
{
    match op {
        MicroOp::Append { .. } => Ok(()),
        MicroOp::Read { key, seen } => {
            let seen = seen.as_slice();
            reads.push(DoneRead {
                place,
                key: *key,
                seen,
            })?;
            Ok(())
        }
    }
}
