//! A bad read of a history, if there is one. The definitions are those of `jh_txn`,
//! `specs/BadReads.antt`.

ghost use Rattle.std.specs.Prelude.{◌≡◌, ◌<◌, ◌+◌, ℕ, None, [], length, MatchOption, IfOk};
ghost use Rattle.jh_txn.specs.BadReads.{HasNoBadRead, IsBadRead};
ghost use Rattle.jh_txn.specs.Transactions.{IsDoneAt};
ghost use Rattle.jh_txn_reads.specs.Inside.{AreElementMarks, AreEmptyFrom, IsSoundTxn};
ghost use Rattle.jh_txn_writers.specs.Numbers.{AreNumbersOf};
ghost use Rattle.jh_txn_writers.specs.Writers.{AreWriters};

use crate::ops::judge_op;
use crate::views::{View, empty_views};
use jh_txn::{BadRead, Outcome, Txn};
use jh_txn_writers::Writer;
use std::alloc::{AllocError, Global};

/// A read that no order explains, whatever the rest of the history is.
#[derive(Clone, Copy, Debug, PartialEq, Eq)]
pub struct BadReadAt {
    /// The place of its transaction.
    pub place: usize,
    /// The index of its micro-operation there.
    pub index: usize,
    /// Why no order explains it.
    pub kind: BadRead,
}

/// A read that no order explains, or none where no read is bad. The transactions are numbered, with
/// keys below `keys` and elements below `elements`, and `writers` has the append of each element.
///
/// Errors: where there is no memory for the tables.
///
/// Takes time linear in the number of keys, the number of elements, the micro-operations, and the
/// elements that reads saw, and memory linear in the number of keys and the number of elements.
pub fn find_bad_read(
    alloc: Global,
    txns: &[Txn],
    keys: usize,
    elements: usize,
    writers: &[Option<Writer>],
) -> Result<Option<BadReadAt>, AllocError>
    requires numbered { AreNumbersOf txns.now keys elements }
    requires writers { AreWriters txns.now elements writers.now }
    ensures { IfOk result (λ found. MatchOption found (HasNoBadRead txns.now)
        (λ at. IsBadRead txns.now at.place at.index at.kind)) }
{
    let mut views = empty_views(alloc, keys)?;
    let mut marks = vec![in alloc; false; elements]?;
    judge_all(&mut views, &mut marks, txns, writers)
}

/// A bad read of the transactions, if there is one.
fn judge_all(
    views: &mut [View],
    marks: &mut [bool],
    txns: &[Txn],
    writers: &[Option<Writer>],
) -> Result<Option<BadReadAt>, AllocError>
    requires numbered { AreNumbersOf txns.now (length views.old) (length marks.old) }
    requires writers { AreWriters txns.now (length marks.old) writers.now }
    requires empty { AreEmptyFrom 0 views.old }
    requires clear { AreElementMarks [] marks.old }
    ensures { IfOk result (λ found. MatchOption found (HasNoBadRead txns.now)
        (λ at. IsBadRead txns.now at.place at.index at.kind)) }
{
    for place in 0..txns.len() {
        if let Some(bad) = judge_txn(views, marks, txns, writers, place)? {
            return Ok(Some(bad));
        }
    }
    Ok(None)
}

/// A bad read of the transaction at a place, if there is one; else the views are empty for all
/// later ones.
fn judge_txn(
    views: &mut [View],
    marks: &mut [bool],
    txns: &[Txn],
    writers: &[Option<Writer>],
    place: usize,
) -> Result<Option<BadReadAt>, AllocError>
    requires numbered { AreNumbersOf txns.now (length views.old) (length marks.old) }
    requires writers { AreWriters txns.now (length marks.old) writers.now }
    requires there { place < length txns.now }
    requires empty { AreEmptyFrom place views.old }
    requires clear { AreElementMarks [] marks.old }
    ensures judged { IfOk result (λ found. MatchOption found (IsSoundTxn txns.now place)
        (λ at. IsBadRead txns.now at.place at.index at.kind)) }
    ensures empty { IfOk result (λ found. found ≡ None → AreEmptyFrom (place + 1) views.new) }
    ensures clear { IfOk result (λ found. found ≡ None → AreElementMarks [] marks.new) }
{
    match txns[place].outcome {
        Outcome::Done => judge_ops(views, marks, txns, writers, place),
        _ => Ok(None),
    }
}

/// A bad read of a transaction that is done, if there is one; else the views are empty for all
/// later ones.
fn judge_ops(
    views: &mut [View],
    marks: &mut [bool],
    txns: &[Txn],
    writers: &[Option<Writer>],
    place: usize,
) -> Result<Option<BadReadAt>, AllocError>
    requires numbered { AreNumbersOf txns.now (length views.old) (length marks.old) }
    requires writers { AreWriters txns.now (length marks.old) writers.now }
    requires there { place < length txns.now }
    requires done { IsDoneAt txns.now place }
    requires empty { AreEmptyFrom place views.old }
    requires clear { AreElementMarks [] marks.old }
    ensures judged { IfOk result (λ found. MatchOption found (IsSoundTxn txns.now place)
        (λ at. IsBadRead txns.now at.place at.index at.kind)) }
    ensures empty { IfOk result (λ found. found ≡ None → AreEmptyFrom (place + 1) views.new) }
    ensures clear { IfOk result (λ found. found ≡ None → AreElementMarks [] marks.new) }
{
    for (index, op) in txns[place].ops.as_slice().iter().enumerate() {
        if let Some(kind) = judge_op(views, marks, txns, writers, place, op)? {
            return Ok(Some(BadReadAt { place, index, kind }));
        }
    }
    Ok(None)
}
