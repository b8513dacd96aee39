//! The marks of counters. `specs/Marked.antt` has the rule.

ghost use Rattle.std.specs.Prelude.{◌≡◌, IfOk, option_and_then};
ghost use Rattle.jh_ops.specs.Operation.{operations};
ghost use Rattle.jh_ops.specs.Pairing.{history_pairs};
ghost use Rattle.jh_check.specs.CounterResults as counter;
ghost use Rattle.jh_timeline_marks.specs.Marked as rule;
ghost use Rattle.jh_timeline_marks.specs.Marked.{marks_by};
ghost use Rattle.jh_timeline_marks.specs.MarkedInside.{bounds_with};

use crate::notes::{noted, push_note};
use crate::pairs::pairs_of;
use crate::places::{place_of, places_of};
use jh_check::{ReadBounds, is_within, read_ends};
use jh_ops::Op;
use jh_timeline::{Call, Mark, Note};
use std::alloc::{AllocError, Global};
use std::collections::BTreeMap;

/// Where the reads that happened end, in order.
fn ends_of(alloc: Global, history: &[Op]) -> Result<Vec<usize>, AllocError>
    ensures { IfOk result (λ ends. ends.items
        ≡ counter.read_ends (operations history.now) (history_pairs (operations history.now))) }
{
    let pairs = pairs_of(alloc, history)?;
    read_ends(alloc, history, &pairs)
}

/// The bounds, where a read lies outside.
fn outside_note(read: ReadBounds) -> Option<Note>
    ensures { result ≡ rule.outside_note read }
{
    let note = Note::Outside {
        lower: read.lower,
        upper: read.upper,
    };
    noted(!is_within(read), note)
}

/// The bounds of the read that ends at an index, if one does.
fn bounds_at(
    reads: &[ReadBounds],
    places: &BTreeMap<usize, usize>,
    index: usize,
) -> Option<ReadBounds>
    ensures { result ≡ bounds_with reads.now places.now index }
{
    let place = place_of(places, index)?;
    reads.get(place).copied()
}

/// The bounds, where a call is a read that lies outside.
fn counter_note(reads: &[ReadBounds], places: &BTreeMap<usize, usize>, call: &Call) -> Option<Note>
    ensures { result ≡ option_and_then rule.outside_note
        (option_and_then (bounds_with reads.now places.now) call.now.completion) }
{
    let index = call.completion?;
    let read = bounds_at(reads, places, index)?;
    outside_note(read)
}

/// A mark at each read outside its bounds.
pub(crate) fn counter_marks(
    alloc: Global,
    reads: &[ReadBounds],
    history: &[Op],
    calls: &[Call],
) -> Result<Vec<Mark>, AllocError>
    ensures { IfOk result (λ marks. marks.items
        ≡ marks_by (rule.counter_note reads.now (operations history.now)) calls.now) }
{
    let ends = ends_of(alloc, history)?;
    let places = places_of(alloc, &ends)?;
    let mut marks = Vec::new(alloc);
    for (number, call) in calls.iter().enumerate() {
        push_note(counter_note(reads, &places, call), number, &mut marks)?;
    }
    Ok(marks)
}
