//! Where the last read was invoked that completed behind a place, for each place.
//! `specs/Inside.antt` has the rule.

ghost use Rattle.std.specs.Prelude.{◌≡◌, ℕ, ◌-◌, ◌<◌, All, IfOk, get_or, length, None, take};
ghost use Rattle.std.specs.Prelude.{vec_len, cond, nat_lt, replicate, Some};
ghost use Rattle.jh_ops.specs.Pairing.{IsPairWithin};
ghost use Rattle.jh_set_full.specs.Inside as inside;
ghost use Rattle.jh_set_full.specs.Inside.{latest_of, newest_within};
ghost use Rattle.jh_set_full.specs.SetFull as rule;

use crate::places::later_of;
use jh_check::end_of;
use jh_ops::Pair;
use std::alloc::{AllocError, Global};

/// Keeps the later of the two at a place.
fn put_later(marks: &mut Vec<Option<usize>>, at: usize, place: usize)
    requires { at < vec_len marks.old }
    ensures long { vec_len marks.new ≡ vec_len marks.old }
    ensures marks { (near : ℕ) → latest_of (take near marks.new.items)
        ≡ rule.later_of (latest_of (take near marks.old.items)) (cond (nat_lt at near) (Some place) None) }
{
    marks[at] = later_of(marks[at], Some(place));
}

/// So many marks with no place.
fn blank(alloc: Global, count: usize) -> Result<Vec<Option<usize>>, AllocError>
    ensures { IfOk result (λ marks. marks.items ≡ replicate count None) }
{
    let mut marks = Vec::new(alloc);
    for _turn in 0..count {
        marks.push(None)?;
    }
    Ok(marks)
}

/// How far the completion of an operation is from the end of so many records.
fn from_end(count: usize, pair: Pair) -> usize
    requires { IsPairWithin count pair }
    ensures value { result ≡ inside.from_end count pair }
    ensures less { result < count }
{
    count - 1 - end_of(pair)
}

/// Where the last of the reads was invoked that completes so far from the end, for each distance.
fn marks_of(alloc: Global, count: usize, reads: &[Pair]) -> Result<Vec<Option<usize>>, AllocError>
    requires { All (IsPairWithin count) reads.now }
    ensures long { IfOk result (λ marks. vec_len marks ≡ count) }
    ensures marks { IfOk result (λ marks. (near : ℕ)
        → latest_of (take near marks.items) ≡ newest_within count reads.now near) }
{
    let mut marks = blank(alloc, count)?;
    for read in reads {
        put_later(&mut marks, from_end(count, *read), read.invoke);
    }
    Ok(marks)
}

/// For each index the latest of the places that stand before it.
fn latest_before(alloc: Global, marks: &[Option<usize>]) -> Result<Vec<Option<usize>>, AllocError>
    ensures long { IfOk result (λ table. vec_len table ≡ length marks.now) }
    ensures table { IfOk result (λ table. (near : ℕ) → near < length marks.now
        → get_or table.items near None ≡ latest_of (take near marks.now)) }
{
    let mut table = Vec::new(alloc);
    let mut last = None;
    for mark in marks {
        table.push(last)?;
        last = later_of(last, *mark);
    }
    Ok(table)
}

/// For each distance from the end of so many records: where the last read was invoked, of those that
/// completed nearer to the end.
pub(crate) fn newest(
    alloc: Global,
    count: usize,
    reads: &[Pair],
) -> Result<Vec<Option<usize>>, AllocError>
    requires { All (IsPairWithin count) reads.now }
    ensures long { IfOk result (λ table. vec_len table ≡ count) }
    ensures table { IfOk result (λ table. (near : ℕ) → near < count
        → get_or table.items near None ≡ newest_within count reads.now near) }
{
    let marks = marks_of(alloc, count, reads)?;
    latest_before(alloc, &marks)
}
