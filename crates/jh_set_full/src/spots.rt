//! What decides on an element. `specs/Inside.antt` has the rule.

ghost use Rattle.std.specs.Prelude.{◌≡◌, ◌<◌, ◌-◌, All, IfOk, None, Some, filter, get_or, length, map};
ghost use Rattle.std.specs.Prelude.{option_map, slice_get, unwrap_or};
ghost use Rattle.std.specs.List.{cons_option};
ghost use Rattle.jh_edn.specs.View.{view};
ghost use Rattle.jh_ops.specs.Operation.{operations};
ghost use Rattle.jh_ops.specs.Pairing.{IsPairWithin};
ghost use Rattle.jh_check.specs.CounterResults as counter;
ghost use Rattle.jh_check.specs.CounterResults.{end_place};
ghost use Rattle.jh_set_full.specs.Inside as inside;
ghost use Rattle.jh_set_full.specs.Inside.{AreByElement, AreTables, sighted_pairs};
ghost use Rattle.jh_set_full.specs.SetFull as rule;
ghost use Rattle.jh_set_full.specs.SetFull.{greatest_of, invoke_place, is_later, least};

use crate::newest::newest;
use crate::places::{earlier_of, is_before, later_of, same_place};
use crate::sightings::{Side, Sighting, sightings, sightings_of};
use jh_check::{end_of, has_ended, is_ok_read};
use jh_edn::Value;
use jh_ops::{Kind, Op, Pair};
use std::alloc::{AllocError, Global};

/// What the checker keeps of a history, whose operations are from the one that was invoked last on.
#[derive(Drop)]
pub(crate) struct Tables {
    pub(crate) pairs: Vec<Pair>,
    pub(crate) adds: Vec<Sighting>,
    pub(crate) shown: Vec<Sighting>,
    /// The reads that happened.
    pub(crate) reads: Vec<Pair>,
    /// For each distance from the end of the history: where the last of them was invoked, of those
    /// that completed nearer to the end (`newest.rt`).
    pub(crate) newest: Vec<Option<usize>>,
}

/// What decides on an element.
#[derive(Clone, Copy)]
pub(crate) struct Spot {
    /// Where it was known to be there.
    pub(crate) known: Option<usize>,
    /// Where the last read was invoked that has it, of those that completed behind the invocation of its add.
    pub(crate) present: Option<usize>,
    /// Where the last read was invoked that lacks it, of all reads of the history.
    pub(crate) missed: Option<usize>,
    /// Where the last read was invoked, of those that completed behind the invocation of its add.
    pub(crate) newest: Option<usize>,
}

/// What is found of an element.
#[derive(Clone, Copy)]
pub(crate) enum State {
    Stable,
    Lost,
    NeverRead,
    Stale,
}

impl Spot {
    /// Whether it is stable: behind some place every read that is invoked has it.
    fn is_stable(self) -> bool
        ensures { result ≡ inside.is_stable_spot self }
    {
        same_place(self.present, self.newest)
    }

    /// Whether some read lacks it, though it was known to be there when that read was invoked.
    fn is_missed(self) -> bool
        ensures { result ≡ inside.is_missed_spot self }
    {
        self.known.is_some() && is_before(self.known, self.missed)
    }

    /// Whether it is lost: such a read lacks it, and no read that was invoked later has it.
    fn is_lost(self) -> bool
        ensures { result ≡ inside.is_lost_spot self }
    {
        self.is_missed() && is_before(self.present, self.missed)
    }

    /// Whether this is found of it.
    pub(crate) fn is_in(self, state: State) -> bool
        ensures { result ≡ inside.is_spot_in state self }
    {
        match state {
            State::Stable => self.is_stable(),
            State::Lost => self.is_lost(),
            State::NeverRead => !self.is_stable() && !self.is_lost(),
            State::Stale => self.is_stable() && self.is_missed(),
        }
    }
}

/// The reads that happened.
fn ok_reads(alloc: Global, history: &[Op], pairs: &[Pair]) -> Result<Vec<Pair>, AllocError>
    ensures reads { IfOk result (λ reads. reads.items
        ≡ filter (counter.is_ok_read (operations history.now)) pairs.now) }
    ensures within { All (IsPairWithin (length history.now)) pairs.now
        → IfOk result (λ reads. All (IsPairWithin (length history.now)) reads.items) }
{
    let mut reads = Vec::new(alloc);
    for pair in pairs {
        if is_ok_read(history, *pair) {
            reads.push(*pair)?;
        }
    }
    Ok(reads)
}

/// The tables of a history with these operations.
pub(crate) fn tables_of(
    alloc: Global,
    history: &[Op],
    pairs: Vec<Pair>,
) -> Result<Tables, AllocError>
    requires { All (IsPairWithin (length history.now)) pairs.items }
    ensures tables { IfOk result (λ tables. AreTables (operations history.now) tables) }
    ensures pairs { IfOk result (λ tables. tables.pairs.items ≡ pairs.items) }
    ensures long { IfOk result (λ tables. length tables.newest.items ≡ length history.now) }
{
    let adds = sightings(alloc, Side::Adds, history, &pairs)?;
    let shown = sightings(alloc, Side::Reads, history, &pairs)?;
    let reads = ok_reads(alloc, history, &pairs)?;
    let newest = newest(alloc, history.len(), &reads)?;
    Ok(Tables {
        pairs,
        adds,
        shown,
        reads,
        newest,
    })
}

/// The place where an operation completed, if it is `:ok`.
fn ok_end(history: &[Op], pair: Pair) -> Option<usize>
    ensures { result ≡ rule.ok_end (operations history.now) pair }
{
    if has_ended(Kind::Ok, history, pair) {
        Some(end_of(pair))
    } else {
        None
    }
}

/// The place where an operation completed, if that is behind the given one.
fn end_behind(place: usize, pair: Pair) -> Option<usize>
    ensures { result ≡ inside.end_behind place pair }
{
    if place < end_of(pair) {
        Some(end_of(pair))
    } else {
        None
    }
}

/// The place where an operation was invoked, if it completed behind the given one.
fn invoke_behind(place: usize, pair: Pair) -> Option<usize>
    ensures { result ≡ inside.invoke_behind place pair }
{
    if place < end_of(pair) {
        Some(pair.invoke)
    } else {
        None
    }
}

/// The place from which on an element is known to be there: the first completion of its add, or of a
/// read that shows it and completed behind the invocation of the add.
fn known_since(history: &[Op], add: Pair, shown: &[Sighting]) -> Option<usize>
    ensures { result ≡ least (cons_option (rule.ok_end (operations history.now) add)
        (map end_place (filter (is_later add.invoke) (sighted_pairs shown.now)))) }
{
    let mut known = ok_end(history, add);
    for sighting in shown {
        known = earlier_of(known, end_behind(add.invoke, sighting.pair));
    }
    known
}

/// The place where the last of these operations was invoked, of those that completed behind the given
/// place.
fn present_since(place: usize, shown: &[Sighting]) -> Option<usize>
    ensures { result ≡ greatest_of (map invoke_place (filter (is_later place) (sighted_pairs shown.now))) }
{
    let mut present = None;
    for sighting in shown {
        present = later_of(present, invoke_behind(place, sighting.pair));
    }
    present
}

/// The place where the operation at an index of these was invoked, if there is one.
fn next_invoked(shown: &[Sighting], place: usize) -> Option<usize>
    ensures { result ≡ option_map (λ s. s.pair.invoke) (slice_get shown.now place) }
{
    match shown.get(place) {
        Some(sighting) => Some(sighting.pair.invoke),
        None => None,
    }
}

/// The place where the last read was invoked that does not show an element. Both lists begin with
/// the read that was invoked last, so it is the first at which they differ.
///
/// Takes as many steps as reads show the element, and one more.
fn first_lacking(reads: &[Pair], shown: &[Sighting]) -> Option<usize>
    ensures { result ≡ inside.first_lacking reads.now (sighted_pairs shown.now) }
{
    for (place, read) in reads.iter().enumerate() {
        if !same_place(next_invoked(shown, place), Some(read.invoke)) {
            return Some(read.invoke);
        }
    }
    None
}

/// The place where the last read was invoked, of those that completed behind the given place.
fn newest_behind(table: &[Option<usize>], place: usize) -> Option<usize>
    requires { place < length table.now }
    ensures { result ≡ get_or table.now (length table.now - 1 - place) None }
{
    table[table.len() - 1 - place]
}

/// What decides on an element that this operation added.
fn spot_since(history: &[Op], tables: &Tables, shown: &[Sighting], add: Pair) -> Spot
    requires { add.invoke < length tables.now.newest.items }
    ensures { result ≡ inside.spot_by (operations history.now) tables.now (sighted_pairs shown.now) add }
{
    Spot {
        known: known_since(history, add, shown),
        present: present_since(add.invoke, shown),
        missed: first_lacking(&tables.reads, shown),
        newest: newest_behind(&tables.newest, add.invoke),
    }
}

/// The operation at the front: as these lists stand, the one that was invoked last.
fn first_pair(sightings: &[Sighting]) -> Option<Pair>
    ensures { result ≡ slice_get (sighted_pairs sightings.now) 0 }
{
    match sightings.first() {
        Some(sighting) => Some(sighting.pair),
        None => None,
    }
}

/// What decides on an element that nothing added.
fn no_spot() -> Spot
    ensures { result ≡ inside.no_spot }
{
    Spot {
        known: None,
        present: None,
        missed: None,
        newest: None,
    }
}

/// What decides on an element.
///
/// Takes O(log n) comparisons for n sightings, and as many steps as there are of it.
pub(crate) fn spot_of(history: &[Op], tables: &Tables, element: &Value) -> Spot
    requires tables { AreTables (operations history.now) tables.now }
    requires within { All (IsPairWithin (length tables.now.newest.items)) tables.now.pairs.items }
    ensures { result
        ≡ inside.spot_of (operations history.now) tables.now.pairs.items (view element.now) }
{
    match first_pair(sightings_of(&tables.adds, element)) {
        Some(add) => spot_since(history, tables, sightings_of(&tables.shown, element), add),
        None => no_spot(),
    }
}

/// The greatest number of times that one of these shows an element.
fn most_times(shown: &[Sighting]) -> usize
    ensures { result ≡ unwrap_or (greatest_of (map (λ s. s.times) shown.now)) 0 }
{
    let mut most = None;
    for sighting in shown {
        most = later_of(most, Some(sighting.times));
    }
    most.unwrap_or(0)
}

/// The greatest number of times that one read shows the element.
pub(crate) fn most_shown(tables: &Tables, element: &Value) -> usize
    requires { AreByElement tables.now.shown.items }
    ensures { result ≡ inside.most_by tables.now (view element.now) }
{
    most_times(sightings_of(&tables.shown, element))
}
