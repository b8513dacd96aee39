//! What stands between those who read all of a key and the writers of what nobody read.

ghost use Rattle.std.specs.List.{All};
ghost use Rattle.std.specs.Prelude.{◌≡◌, ◌≤◌, ◌<◌, ◌+◌, ◌↔◌, ◌∷◌, [], ℕ, None, Some, Option};
ghost use Rattle.std.specs.Prelude.{length, slice_get, IfOk, IsTrue};
ghost use Rattle.jh_txn.specs.Transactions.{AreKeysBelow, IsKeyBelow};
ghost use Rattle.jh_txn_seen.specs.Inside.{AreUnread, IsNotedUnread, LooksAtMiddle, NotesUnread};
ghost use Rattle.jh_txn_seen.specs.Inside.{unread_at};
ghost use Rattle.jh_txn_seen.specs.Middles.{AreMiddlesOf, IsFullRead};
ghost use Rattle.jh_txn_seen.specs.Reads.{AreDoneReads};
ghost use Rattle.jh_txn_seen.specs.declared.middles.Middle.{Middle};

use crate::done_reads::DoneRead;
use crate::longest::longest_at;
use crate::marks::is_marked;
use jh_txn::{MicroOp, Txn, Why};
use std::alloc::{AllocError, Global};

/// What stands in the middle of a key: the node, and the reason of the steps that lead to it, which
/// nobody looks at where it is a hub.
#[derive(Clone, Copy, Debug)]
pub struct Middle {
    pub node: usize,
    pub why: Why,
}

/// An element that nobody read, and the place of the transaction that appends it.
#[derive(Clone, Copy, Debug)]
struct Unread {
    place: usize,
    element: usize,
}

/// What stands in the middle of each key: a transaction that read all of it and appends to it what
/// nobody read, or else the key's hub. The hubs are the nodes behind the transactions, one for each
/// key, and end before `end`. The marks are those of the elements that reads have.
///
/// Errors: where there is no memory for the middles.
///
/// Takes time linear in the number of keys, the micro-operations and the elements that reads saw.
pub fn middles_of(
    alloc: Global,
    txns: &[Txn],
    marks: &[bool],
    longest: &[Option<DoneRead<'_>>],
    reads: &[DoneRead<'_>],
    end: usize,
) -> Result<Vec<Middle>, AllocError>
    requires reads { AreDoneReads txns.now reads.now }
    requires keys { AreKeysBelow (length longest.now) txns.now }
    requires end { end ≡ length txns.now + length longest.now }
    ensures { IfOk result (λ middles.
        AreMiddlesOf txns.now marks.now longest.now reads.now (length reads.now) middles.items) }
{
    let mut middles = hubs(alloc, txns.len(), end)?;
    let mut table: Vec<Option<Unread>> = vec![in alloc; None; longest.len()]?;
    look_at_all(&mut middles, &mut table, txns, marks, longest, reads);
    Ok(middles)
}

/// Puts a transaction into the middle of each key that has one which read all of it and appends to it
/// what nobody read. The table is for the elements that are noted on the way.
fn look_at_all(
    middles: &mut [Middle],
    table: &mut [Option<Unread>],
    txns: &[Txn],
    marks: &[bool],
    longest: &[Option<DoneRead<'_>>],
    reads: &[DoneRead<'_>],
)
    requires reads { AreDoneReads txns.now reads.now }
    requires keys { AreKeysBelow (length longest.now) txns.now }
    requires table { length table.old ≡ length longest.now }
    requires none { (key : ℕ) → unread_at table.old key ≡ None }
    requires middles { AreMiddlesOf txns.now marks.now longest.now reads.now 0 middles.old }
    ensures { AreMiddlesOf txns.now marks.now longest.now reads.now (length reads.now) middles.new }
{
    let mut noted = None;
    for read in reads {
        note_txn(table, noted, marks, txns, read.place);
        noted = Some(read.place);
        look_at(middles, table, longest, read);
    }
}

/// A hub for each node from the first one up to an end.
fn hubs(alloc: Global, first: usize, end: usize) -> Result<Vec<Middle>, AllocError>
    requires { first ≤ end }
    ensures count { IfOk result (λ middles. first + length middles.items ≡ end) }
    ensures hubs { IfOk result (λ middles. (key : ℕ) (middle : Middle)
        → slice_get middles.items key ≡ Some middle → middle.node ≡ first + key) }
{
    let mut middles = Vec::new(alloc);
    for node in first..end {
        middles.push(Middle {
            node,
            why: Why::RealTime,
        })?;
    }
    Ok(middles)
}

/// Notes what the transaction at a place appends and nobody read, unless that was noted last.
fn note_txn(
    table: &mut [Option<Unread>],
    noted: Option<usize>,
    marks: &[bool],
    txns: &[Txn],
    place: usize,
)
    requires place { place < length txns.now }
    requires keys { AreKeysBelow (length table.old) txns.now }
    requires unread { AreUnread txns.now marks.now table.old }
    requires noted { (other : ℕ) → noted ≡ Some other
        → IsNotedUnread txns.now marks.now table.old other }
    ensures unread { AreUnread txns.now marks.now table.new }
    ensures noted { IsNotedUnread txns.now marks.now table.new place }
{
    if !is_place(noted, place) {
        note_unread(table, marks, place, txns[place].ops.as_slice());
    }
}

/// Whether a place is this one.
fn is_place(noted: Option<usize>, place: usize) -> bool
    ensures { IsTrue result ↔ (noted ≡ Some place) }
{
    match noted {
        Some(other) => other == place,
        None => false,
    }
}

/// Whether a read saw all that the longest read of its key saw.
///
/// Takes time linear in what it saw.
pub fn is_full(longest: &[Option<DoneRead<'_>>], read: &DoneRead<'_>) -> bool
    requires { read.now.key < length longest.now }
    ensures { IsTrue result ↔ IsFullRead longest.now read.now }
{
    read.seen == longest_at(longest, read.key)
}

/// Notes what a transaction appends and nobody read, for each key one element.
fn note_unread(table: &mut [Option<Unread>], marks: &[bool], place: usize, ops: &[MicroOp])
    requires { All (IsKeyBelow (length table.old)) ops.now }
    ensures { NotesUnread marks.now place ops.now table.old table.new }
{
    for op in ops {
        note_op(table, marks, place, op);
    }
}

/// Notes an element, if the micro-operation of a transaction appends it and nobody read it.
fn note_op(table: &mut [Option<Unread>], marks: &[bool], place: usize, op: &MicroOp)
    requires { IsKeyBelow (length table.old) op.now }
    ensures { NotesUnread marks.now place (op.now ∷ []) table.old table.new }
{
    if let MicroOp::Append { key, element } = op {
        if !is_marked(marks, *element) {
            table[*key] = Some(Unread {
                place,
                element: *element,
            });
        }
    }
}

/// Puts the transaction of a read into the middle of its key, if the read saw all of it and the table
/// has an unread element of this transaction.
fn look_at(
    middles: &mut [Middle],
    table: &[Option<Unread>],
    longest: &[Option<DoneRead<'_>>],
    read: &DoneRead<'_>,
)
    requires middles { read.now.key < length middles.old }
    requires table { read.now.key < length table.now }
    requires longest { read.now.key < length longest.now }
    ensures { LooksAtMiddle table.now longest.now read.now middles.old middles.new }
{
    if let Some(unread) = table[read.key] {
        if unread.place == read.place && is_full(longest, read) {
            let why = Why::ReadWrite {
                key: read.key,
                element: unread.element,
            };
            middles[read.key] = Middle {
                node: read.place,
                why,
            };
        }
    }
}
