//! What is wrong with a base, by itself. `specs/Inside.antt` says what a base is.

ghost use Rattle.std.specs.Prelude.{◌≡◌, ◌<◌, ℕ, None, [], length, MatchOption};
ghost use Rattle.std.specs.List.{All};
ghost use Rattle.jh_txn.specs.Transactions.{AppendOnce};
ghost use Rattle.jh_txn_reads.specs.Inside.{AreElementMarks, IsSoundBase, IsWrongBase};
ghost use Rattle.jh_txn_writers.specs.Writers.{AreWriters};

use crate::elements::judge_elements;
use crate::marks::{mark, unmark};
use jh_txn::{BadRead, Txn};
use jh_txn_writers::Writer;

/// What is wrong with a base that the transaction at a place read of a key, if something is. No
/// element is marked before, and none afterwards where nothing is wrong.
pub(crate) fn judge_base(
    marks: &mut [bool],
    txns: &[Txn],
    writers: &[Option<Writer>],
    place: usize,
    key: usize,
    base: &[usize],
) -> Option<BadRead>
    requires once { AppendOnce txns.now }
    requires writers { AreWriters txns.now (length marks.old) writers.now }
    requires clear { AreElementMarks [] marks.old }
    requires below { All (λ element. element < length marks.old) base.now }
    ensures judged { MatchOption result (IsSoundBase txns.now place key base.now)
        (λ kind. IsWrongBase txns.now place key base.now kind) }
    ensures clear { result ≡ None → AreElementMarks [] marks.new }
{
    if !mark(marks, base) {
        return Some(BadRead::DuplicateElements);
    }
    if let Some(kind) = judge_elements(marks, txns, writers, place, key, base) {
        return Some(kind);
    }
    if !unmark(marks, writers, base) {
        return Some(BadRead::OutOfOrder);
    }
    None
}
