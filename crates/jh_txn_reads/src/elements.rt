//! What is wrong with the elements of a base, each by itself.

ghost use Rattle.std.specs.Prelude.{◌≡◌, ◌↔◌, ◌⊎◌, ℕ, true, false, length, IsTrue, IsSomeAnd};
ghost use Rattle.std.specs.Prelude.{MatchOption, List, slice_index_or};
ghost use Rattle.jh_txn.specs.Transactions.{AppendOnce, IsFailedAt, includes};
ghost use Rattle.jh_txn.specs.declared.txn.Outcome.TheVariants.{Failed};
ghost use Rattle.jh_txn_reads.specs.Inside.{AreElementMarks, IsSoundElement, IsWrongBase};
ghost use Rattle.jh_txn_reads.specs.Inside as inside;
ghost use Rattle.jh_txn_writers.specs.Writers.{AreWriters};
ghost use Rattle.jh_txn_writers.specs.Writers as table;

use crate::marks::is_any_lacking;
use jh_txn::{BadRead, Outcome, Txn};
use jh_txn_writers::Writer;

/// What is wrong with one of the elements of a base, if something is. The elements of the base are
/// marked.
pub(crate) fn judge_elements(
    marks: &[bool],
    txns: &[Txn],
    writers: &[Option<Writer>],
    place: usize,
    key: usize,
    base: &[usize],
) -> Option<BadRead>
    requires once { AppendOnce txns.now }
    requires writers { AreWriters txns.now (length marks.now) writers.now }
    requires marked { AreElementMarks base.now marks.now }
    ensures { MatchOption result
        ((element : ℕ) → includes base.now element ≡ true
        → IsSoundElement txns.now place key base.now element)
        (λ kind. IsWrongBase txns.now place key base.now kind) }
{
    for element in base {
        if let Some(kind) = judge_element(marks, txns, writers, place, key, *element) {
            return Some(kind);
        }
    }
    None
}

/// What is wrong with a marked element that the transaction at a place read of a key, if something
/// is.
fn judge_element(
    marks: &[bool],
    txns: &[Txn],
    writers: &[Option<Writer>],
    place: usize,
    key: usize,
    element: usize,
) -> Option<BadRead>
    requires once { AppendOnce txns.now }
    requires writers { AreWriters txns.now (length marks.now) writers.now }
    ensures { (base : List ℕ) → AreElementMarks base marks.now → includes base element ≡ true
        → MatchOption result (IsSoundElement txns.now place key base element)
        (λ kind. IsWrongBase txns.now place key base kind) }
{
    let Some(writer) = writer_at(writers, element) else {
        return Some(BadRead::GarbageRead);
    };
    if writer.key != key {
        return Some(BadRead::GarbageRead);
    }
    if writer.place == place {
        return Some(BadRead::Internal);
    }
    if is_failed(txns, writer.place) {
        return Some(BadRead::AbortedRead);
    }
    if lacks_neighbour(marks, writer) {
        return Some(BadRead::IntermediateRead);
    }
    None
}

/// Whether a neighbour of an element, in what its writer appended to the key, is not marked.
fn lacks_neighbour(marks: &[bool], writer: Writer) -> bool
    ensures { IsTrue result
        ↔ (IsSomeAnd writer.previous (λ x. slice_index_or marks.now x false ≡ false)
        ⊎ IsSomeAnd writer.next (λ x. slice_index_or marks.now x false ≡ false)) }
{
    is_any_lacking(marks, writer.previous) || is_any_lacking(marks, writer.next)
}

/// The append of an element, if there is one.
fn writer_at(writers: &[Option<Writer>], element: usize) -> Option<Writer>
    ensures { result ≡ table.writer_at writers.now element }
{
    match writers.get(element) {
        Some(writer) => *writer,
        None => None,
    }
}

/// What the writer of an element appended to the key just before it, if there is such a thing.
pub(crate) fn previous_of(writers: &[Option<Writer>], element: usize) -> Option<usize>
    ensures { result ≡ inside.previous_of writers.now element }
{
    match writer_at(writers, element) {
        Some(writer) => writer.previous,
        None => None,
    }
}

/// Whether the transaction at a place failed; past the end there is one that did.
fn is_failed(txns: &[Txn], place: usize) -> bool
    ensures { IsTrue result ↔ IsFailedAt txns.now place }
{
    match txns.get(place) {
        Some(txn) => has_failed(txn.outcome),
        None => true,
    }
}

/// Whether a transaction that ended so failed.
fn has_failed(outcome: Outcome) -> bool
    ensures { IsTrue result ↔ (outcome ≡ Failed) }
{
    match outcome {
        Outcome::Failed => true,
        _ => false,
    }
}
