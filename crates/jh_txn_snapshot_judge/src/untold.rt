//! Which elements are of untold writers: those of which no read tells when they wrote their key.
//! `jh_txn_snapshots` says which these are.

ghost use Rattle.std.specs.Prelude.{◌≡◌, ◌≢◌, ◌↔◌, ◌∷◌, [], ℕ, Some, None, length};
ghost use Rattle.std.specs.Prelude.{slice_index_or, if◌then◌else◌, IfOk, IsTrue};
ghost use Rattle.std.specs.List.{All};
ghost use Rattle.jh_txn.specs.Transactions.{AreKeysBelow, IsKeyBelow};
ghost use Rattle.jh_txn_seen.specs.Marks.{AddsMarks, IsMarked};
ghost use Rattle.jh_txn_snapshot_judge.specs.UntoldInside.{AppendsBlind, IsAnyUntoldAt, IsUntoldAt};
ghost use Rattle.jh_txn_snapshot_judge.specs.UntoldInside.{NotesNoOther, NotesReadsOf, has_read_of};
ghost use Rattle.jh_txn_writers.specs.Numbers.{AreElementsBelow, AreElementsOfBelow};

use crate::places::{is_done_at, ops_of};
use jh_txn::{MicroOp, Txn};
use jh_txn_seen::is_marked;
use std::alloc::{AllocError, Global};

/// Marks of the elements below `elements` that no read has, whose writer must be there and does not
/// read their key.
pub(crate) fn marks_of_untold(
    alloc: Global,
    txns: &[Txn],
    there: &[bool],
    marks: &[bool],
    keys: usize,
    elements: usize,
) -> Result<Vec<bool>, AllocError>
    requires keys { AreKeysBelow keys txns.now }
    requires elements { AreElementsBelow elements txns.now }
    ensures { IfOk result (λ untold. (element : ℕ)
        → IsMarked untold.items element ↔ IsAnyUntoldAt txns.now there.now marks.now element) }
{
    let mut untold = vec![in alloc; false; elements]?;
    let mut readers: Vec<Option<usize>> = vec![in alloc; None; keys]?;
    mark_all_untold(&mut untold, &mut readers, txns, there, marks);
    Ok(untold)
}

/// Marks those elements of all transactions. The table is for the last reader of each key.
fn mark_all_untold(
    untold: &mut [bool],
    readers: &mut [Option<usize>],
    txns: &[Txn],
    there: &[bool],
    marks: &[bool],
)
    requires keys { AreKeysBelow (length readers.old) txns.now }
    requires elements { AreElementsBelow (length untold.old) txns.now }
    requires none { (key : ℕ) → slice_index_or readers.old key None ≡ None }
    ensures { AddsMarks (IsAnyUntoldAt txns.now there.now marks.now) untold.old untold.new }
{
    for place in 0..txns.len() {
        mark_untold_at(untold, readers, txns, there, marks, place);
    }
}

/// Marks those of the transaction at a place, which no key has as its last reader yet.
fn mark_untold_at(
    untold: &mut [bool],
    readers: &mut [Option<usize>],
    txns: &[Txn],
    there: &[bool],
    marks: &[bool],
    place: usize,
)
    requires keys { AreKeysBelow (length readers.old) txns.now }
    requires elements { AreElementsBelow (length untold.old) txns.now }
    requires fresh { (key : ℕ) → slice_index_or readers.old key None ≢ Some place }
    ensures marks { AddsMarks (IsUntoldAt txns.now there.now marks.now place) untold.old untold.new }
    ensures readers { NotesNoOther place readers.old readers.new }
{
    if is_marked(there, place) {
        note_reads_of(readers, txns, place);
        mark_blind(untold, readers, marks, place, ops_of(txns, place));
    }
}

/// Notes the transaction at a place as the last reader of the keys that it reads, if it is done.
fn note_reads_of(readers: &mut [Option<usize>], txns: &[Txn], place: usize)
    requires keys { AreKeysBelow (length readers.old) txns.now }
    requires fresh { (key : ℕ) → slice_index_or readers.old key None ≢ Some place }
    ensures noted { NotesReadsOf txns.now place readers.new }
    ensures others { NotesNoOther place readers.old readers.new }
{
    if is_done_at(txns, place) {
        note_reads(readers, place, ops_of(txns, place));
    }
}

/// Notes a place as that of the last reader of the keys that some micro-operations read.
fn note_reads(readers: &mut [Option<usize>], place: usize, ops: &[MicroOp])
    requires { All (IsKeyBelow (length readers.old)) ops.now }
    ensures count { length readers.new ≡ length readers.old }
    ensures noted { (key : ℕ) → slice_index_or readers.new key None
        ≡ (if has_read_of key ops.now then Some place else slice_index_or readers.old key None) }
{
    for op in ops {
        note_read(readers, place, op);
    }
}

/// Notes it for the key of a micro-operation, if that is a read.
fn note_read(readers: &mut [Option<usize>], place: usize, op: &MicroOp)
    requires { IsKeyBelow (length readers.old) op.now }
    ensures count { length readers.new ≡ length readers.old }
    ensures noted { (key : ℕ) → slice_index_or readers.new key None
        ≡ (if has_read_of key (op.now ∷ []) then Some place else slice_index_or readers.old key None) }
{
    if let MicroOp::Read { key, .. } = op {
        readers[*key] = Some(place);
    }
}

/// Marks what some micro-operations of the transaction at a place append to keys that it does not read,
/// unless a read has it.
fn mark_blind(
    untold: &mut [bool],
    readers: &[Option<usize>],
    marks: &[bool],
    place: usize,
    ops: &[MicroOp],
)
    requires keys { All (IsKeyBelow (length readers.now)) ops.now }
    requires elements { All (AreElementsOfBelow (length untold.old)) ops.now }
    ensures { AddsMarks (AppendsBlind readers.now marks.now place ops.now) untold.old untold.new }
{
    for op in ops {
        mark_blind_op(untold, readers, marks, place, op);
    }
}

/// Marks what one of them appends.
fn mark_blind_op(
    untold: &mut [bool],
    readers: &[Option<usize>],
    marks: &[bool],
    place: usize,
    op: &MicroOp,
)
    requires key { IsKeyBelow (length readers.now) op.now }
    requires element { AreElementsOfBelow (length untold.old) op.now }
    ensures { AddsMarks (AppendsBlind readers.now marks.now place (op.now ∷ [])) untold.old untold.new }
{
    if let MicroOp::Append { key, element } = op {
        if !is_marked(marks, *element) && !is_place(readers[*key], place) {
            untold[*element] = true;
        }
    }
}

/// Whether a place is this one.
fn is_place(noted: Option<usize>, place: usize) -> bool
    ensures { IsTrue result ↔ (noted ≡ Some place) }
{
    match noted {
        Some(other) => other == place,
        None => false,
    }
}
