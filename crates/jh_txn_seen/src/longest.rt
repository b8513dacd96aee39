//! The longest read of each key. `specs/Reads.antt` says what that is.

ghost use Rattle.std.specs.Prelude.{◌≡◌, ◌<◌, None, Some, IfOk, length};
ghost use Rattle.jh_txn_seen.specs.Inside.{LooksAt};
ghost use Rattle.jh_txn_seen.specs.Reads.{IsLongest, IsAmongReads, longest_of};
ghost use Rattle.jh_txn_seen.specs.declared.done_reads.DoneRead.{DoneRead};

use crate::done_reads::DoneRead;
use std::alloc::{AllocError, Global};

/// What there is among reads.
#[derive(Drop)]
pub enum Longest<'a> {
    /// The longest read of each key, if it has one: all reads of the key begin it.
    Reads(Vec<Option<DoneRead<'a>>>),
    /// Two reads of a key, of which neither begins the other one.
    Fork(DoneRead<'a>, DoneRead<'a>),
}

/// The longest read of each key below `keys`, or two reads that fork. The keys of all reads are below
/// `keys`.
///
/// Errors: where there is no memory for the table.
///
/// Takes time linear in the number of keys and the elements that reads saw.
pub fn longest_reads<'a>(
    alloc: Global,
    reads: &[DoneRead<'a>],
    keys: usize,
) -> Result<Longest<'a>, AllocError>
    requires { (read : DoneRead) → IsAmongReads reads.now read → read.key < keys }
    ensures { IfOk result (IsLongest reads.now keys) }
{
    let mut table: Vec<Option<DoneRead<'a>>> = vec![in alloc; None; keys]?;
    for read in reads {
        if let Some(other) = look_at(&mut table, read) {
            return Ok(Longest::Fork(other, *read));
        }
    }
    Ok(Longest::Reads(table))
}

/// Puts a read into the table, if the one there begins it; the one there, if neither begins the other.
fn look_at<'a>(table: &mut [Option<DoneRead<'a>>], read: &DoneRead<'a>) -> Option<DoneRead<'a>>
    requires { read.now.key < length table.old }
    ensures { LooksAt table.old read.now result table.new }
{
    match table[read.key] {
        None => {
            table[read.key] = Some(*read);
            None
        }
        Some(other) => {
            if other.seen.starts_with(read.seen) {
                None
            } else if read.seen.starts_with(other.seen) {
                table[read.key] = Some(*read);
                None
            } else {
                Some(other)
            }
        }
    }
}

/// What the longest read of a key saw; nothing where nobody read the key. Takes constant time.
pub fn longest_at<'a>(table: &[Option<DoneRead<'a>>], key: usize) -> &'a [usize]
    requires { key < length table.now }
    ensures { result.now ≡ longest_of table.now key }
{
    match table[key] {
        Some(read) => read.seen,
        None => &[],
    }
}
