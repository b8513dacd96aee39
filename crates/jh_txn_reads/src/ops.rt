//! What is wrong with a read of a transaction, micro-operation by micro-operation.

ghost use Rattle.std.specs.Prelude.{◌≡◌, ◌<◌, ◌+◌, ℕ, None, Some, [], length, MatchOption, IfOk};
ghost use Rattle.std.specs.Prelude.{slice_get, true};
ghost use Rattle.std.specs.List.{All};
ghost use Rattle.jh_txn.specs.BadReads.{IsBadRead};
ghost use Rattle.jh_txn.specs.Transactions.{AppendOnce, IsDoneAt, IsKeyBelow, ops_at};
ghost use Rattle.jh_txn_reads.specs.Inside.{AreElementMarks, AreEmptyFrom, AreViewsAt, IsSoundRead};
ghost use Rattle.jh_txn_reads.specs.Inside.{IsViewWith, IsWrongRead, is_known_for, list_for};
ghost use Rattle.jh_txn_writers.specs.Numbers.{AreElementsOfBelow};
ghost use Rattle.jh_txn_writers.specs.Writers.{AreWriters};

use crate::bases::judge_base;
use crate::views::View;
use jh_txn::{BadRead, MicroOp, Txn};
use jh_txn_writers::Writer;
use std::alloc::AllocError;

/// What is wrong with a read, if something is, where its transaction has this view of the key; else
/// the view has what the read saw.
fn judge_read(
    view: &mut View,
    marks: &mut [bool],
    txns: &[Txn],
    writers: &[Option<Writer>],
    place: usize,
    key: usize,
    seen: &[usize],
) -> Result<Option<BadRead>, AllocError>
    requires once { AppendOnce txns.now }
    requires writers { AreWriters txns.now (length marks.old) writers.now }
    requires clear { AreElementMarks [] marks.old }
    requires below { All (λ element. element < length marks.old) seen.now }
    ensures judged { IfOk result (λ found. MatchOption found
        (IsSoundRead txns.now place key (is_known_for view.old place) (list_for view.old place)
        seen.now)
        (λ kind. IsWrongRead txns.now place key (is_known_for view.old place)
        (list_for view.old place) seen.now kind)) }
    ensures view { IfOk result (λ found. found ≡ None
        → IsViewWith view.new place true seen.now) }
    ensures clear { IfOk result (λ found. found ≡ None → AreElementMarks [] marks.new) }
{
    view.turn_to(place);
    if view.is_known {
        return Ok((view.list.as_slice() != seen).then_some(BadRead::Internal));
    }
    let Some(base) = seen.strip_suffix(view.list.as_slice()) else {
        return Ok(Some(BadRead::Internal));
    };
    if let Some(kind) = judge_base(marks, txns, writers, place, key, base) {
        return Ok(Some(kind));
    }
    view.learn(place, seen)?;
    Ok(None)
}

/// What is wrong with a micro-operation, if it is a read and something is; else the views are those
/// behind it.
pub(crate) fn judge_op(
    views: &mut [View],
    marks: &mut [bool],
    txns: &[Txn],
    writers: &[Option<Writer>],
    place: usize,
    op: &MicroOp,
) -> Result<Option<BadRead>, AllocError>
    requires once { AppendOnce txns.now }
    requires writers { AreWriters txns.now (length marks.old) writers.now }
    requires done { IsDoneAt txns.now place }
    requires clear { AreElementMarks [] marks.old }
    requires key { IsKeyBelow (length views.old) op.now }
    requires below { AreElementsOfBelow (length marks.old) op.now }
    ensures judged { (index : ℕ) → slice_get (ops_at txns.now place) index ≡ Some op.now
        → AreViewsAt txns.now place index views.old
        → IfOk result (λ found. MatchOption found (AreViewsAt txns.now place (index + 1) views.new)
        (λ kind. IsBadRead txns.now place index kind)) }
    ensures empty { AreEmptyFrom (place + 1) views.old
        → IfOk result (λ found. found ≡ None → AreEmptyFrom (place + 1) views.new) }
    ensures clear { IfOk result (λ found. found ≡ None → AreElementMarks [] marks.new) }
{
    match op {
        MicroOp::Append { key, element } => {
            views[*key].append(place, *element)?;
            Ok(None)
        }
        MicroOp::Read { key, seen } => {
            judge_read(
                &mut views[*key],
                marks,
                txns,
                writers,
                place,
                *key,
                seen.as_slice(),
            )
        }
    }
}
