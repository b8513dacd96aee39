//! Marks by number: which transactions must be there, and which elements reads have.

ghost use Rattle.std.specs.Prelude.{◌≡◌, ◌<◌, ◌↔◌, ℕ, true, false, length, slice_index_or, IfOk};
ghost use Rattle.jh_txn.specs.Transactions.{IsDoneAt, includes};
ghost use Rattle.jh_txn_seen.specs.Marks.{AddsMarks, AreThereMarks, IsMarked, IsReadElement, IsShown};
ghost use Rattle.jh_txn_seen.specs.Marks.{IsShownBy};
ghost use Rattle.jh_txn_seen.specs.Places.{AreWritersBelow};
ghost use Rattle.jh_txn_seen.specs.Reads.{longest_of};

use crate::done_reads::{DoneRead, is_done};
use crate::longest::longest_at;
use crate::places::writer_of;
use jh_txn::Txn;
use jh_txn_writers::Writer;
use std::alloc::{AllocError, Global};

/// Marks of the transactions that must be there, one for each: they are done, or a read has one of
/// their elements. The writers of the table are transactions.
///
/// Errors: where there is no memory for the marks.
///
/// Takes time linear in the transactions and the elements that reads saw.
pub fn marks_of(
    alloc: Global,
    txns: &[Txn],
    writers: &[Option<Writer>],
    reads: &[DoneRead<'_>],
) -> Result<Vec<bool>, AllocError>
    requires { AreWritersBelow (length txns.now) writers.now }
    ensures { IfOk result (λ there. AreThereMarks txns.now writers.now reads.now there.items) }
{
    let mut there = marks_of_done(alloc, txns)?;
    mark_shown(&mut there, writers, reads);
    Ok(there)
}

/// Marks of those that are done.
fn marks_of_done(alloc: Global, txns: &[Txn]) -> Result<Vec<bool>, AllocError>
    ensures count { IfOk result (λ there. length there.items ≡ length txns.now) }
    ensures done { IfOk result (λ there. (place : ℕ)
        → IsMarked there.items place ↔ IsDoneAt txns.now place) }
{
    let mut there = Vec::new(alloc);
    for txn in txns {
        there.push(is_done(txn.outcome))?;
    }
    Ok(there)
}

/// Marks the writers of what some reads saw.
fn mark_shown(there: &mut [bool], writers: &[Option<Writer>], reads: &[DoneRead<'_>])
    requires { AreWritersBelow (length there.old) writers.now }
    ensures { AddsMarks (IsShown writers.now reads.now) there.old there.new }
{
    for read in reads {
        mark_shown_by(there, writers, read);
    }
}

/// Marks the writers of what a read saw.
fn mark_shown_by(there: &mut [bool], writers: &[Option<Writer>], read: &DoneRead<'_>)
    requires { AreWritersBelow (length there.old) writers.now }
    ensures { AddsMarks (IsShownBy writers.now read.now) there.old there.new }
{
    for element in read.seen {
        if let Some(place) = writer_of(writers, read.key, *element) {
            there[place] = true;
        }
    }
}

/// Marks of the elements below `elements` that a longest read has. All that longest reads have is
/// below that number.
///
/// Errors: where there is no memory for the marks.
///
/// Takes time linear in the number of elements, the number of keys and what the longest reads saw.
pub fn marks_of_read(
    alloc: Global,
    elements: usize,
    longest: &[Option<DoneRead<'_>>],
) -> Result<Vec<bool>, AllocError>
    requires { (key element : ℕ) → includes (longest_of longest.now key) element ≡ true
        → element < elements }
    ensures count { IfOk result (λ marks. length marks.items ≡ elements) }
    ensures read { IfOk result (λ marks. (element : ℕ)
        → IsMarked marks.items element ↔ IsReadElement longest.now element) }
{
    let mut marks = vec![in alloc; false; elements]?;
    mark_longest(&mut marks, longest);
    Ok(marks)
}

/// Marks the elements of all longest reads.
fn mark_longest(marks: &mut [bool], longest: &[Option<DoneRead<'_>>])
    requires { (key element : ℕ) → includes (longest_of longest.now key) element ≡ true
        → element < length marks.old }
    ensures { AddsMarks (IsReadElement longest.now) marks.old marks.new }
{
    for key in 0..longest.len() {
        mark_elements(marks, longest_at(longest, key));
    }
}

/// Marks the elements of a list, beside those that are marked. Each has a mark.
///
/// Takes time linear in the list.
pub fn mark_elements(marks: &mut [bool], seen: &[usize])
    requires { (element : ℕ) → includes seen.now element ≡ true → element < length marks.old }
    ensures { AddsMarks (λ element. includes seen.now element ≡ true) marks.old marks.new }
{
    for element in seen {
        marks[*element] = true;
    }
}

/// Whether a number is marked; past the end none is. Takes constant time.
pub fn is_marked(marks: &[bool], number: usize) -> bool
    ensures { result ≡ slice_index_or marks.now number false }
{
    match marks.get(number) {
        Some(mark) => *mark,
        None => false,
    }
}
