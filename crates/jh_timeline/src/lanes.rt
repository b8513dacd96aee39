//! The lanes of the calls that are drawn. `specs/Lanes.antt` has the rule.

ghost use Rattle.std.specs.Prelude.{◌≡◌, ◌==◌, ℕ, ◌<◌, ◌≤◌, [], ◌∷◌, ◌++◌, IfNone, IfOk, IfSome};
ghost use Rattle.std.specs.Prelude.{OnOk, if◌then◌else◌, length, map};
ghost use Rattle.jh_ops.specs.Operation.{operations};
ghost use Rattle.jh_timeline.specs.Lanes.{AreBarsOf, AreKeptApart, AreLanesOf, TakeLanes};
ghost use Rattle.jh_timeline.specs.Lanes.{count_left_out, lane_clients};
ghost use Rattle.jh_timeline.specs.LanesInside.{AreHeld, AreCallsInOrder, AreKept, IsFirst};
ghost use Rattle.jh_timeline.specs.LanesInside.{IsPopped, TakesOrKeepsLane};
ghost use Rattle.jh_timeline.specs.LanesInside.{lane_ends_with};

use crate::drawn::drawn_in;
use crate::marks::Mark;
use crate::picture::{Bar, Call, Lane, Picture, Window};
use jh_ops::Op;
use std::alloc::{AllocError, Global};
use std::collections::{BTreeMap, BTreeSet};

/// Up to which index each lane is held.
#[derive(Drop)]
struct Ends {
    /// For each lane, the index up to which it is held, or was.
    until: Vec<usize>,
    /// Lanes that may be held, each behind that index.
    busy: BTreeSet<(usize, usize)>,
    /// Lanes that are free.
    free: BTreeSet<usize>,
}

/// Takes out the lane that is held no longer than any other, where it is free at an index.
fn pop_free(busy: &mut BTreeSet<(usize, usize)>, index: usize) -> Option<(usize, usize)>
    ensures some { IfSome result (IsPopped busy.old busy.new index) }
    ensures none { IfNone result (AreHeld busy.old index) }
    ensures same { IfNone result (busy.new ≡ busy.old) }
{
    let first = *busy.first()?;
    if first.0 < index {
        busy.remove(&first);
        Some(first)
    } else {
        None
    }
}

/// Frees the lanes that are free at an index.
fn release(ends: &mut Ends, index: usize) -> Result<(), AllocError>
    requires { AreKept ends.old index (length ends.old.until.items) }
    ensures kept { OnOk result (AreKept ends.new index (length ends.new.until.items)) }
    ensures held { OnOk result (AreHeld ends.new.busy index) }
    ensures until { OnOk result (ends.new.until ≡ ends.old.until) }
{
    'freed: while let Some((_, lane)) = pop_free(&mut ends.busy, index) {
        ends.free.insert(lane)?;
    }
    Ok(())
}

/// The first lane that is free at an index, taken out of those that are free.
fn free_lane(ends: &mut Ends, index: usize) -> Result<usize, AllocError>
    requires { AreKept ends.old index (length ends.old.until.items) }
    ensures first { IfOk result (IsFirst ends.old.until.items index) }
    ensures kept { IfOk result (AreKept ends.new index) }
    ensures until { OnOk result (ends.new.until ≡ ends.old.until) }
{
    release(ends, index)?;
    match ends.free.pop_first() {
        Some(lowest) => Ok(lowest),
        None => Ok(ends.until.len()),
    }
}

/// Says up to which index a lane is held.
fn set_until(until: &mut Vec<usize>, lane: usize, last: usize) -> Result<(), AllocError>
    requires { lane ≤ length until.old.items }
    ensures { OnOk result (until.new.items ≡ lane_ends_with until.old.items lane last) }
{
    if lane < until.len() {
        until[lane] = last;
    } else {
        until.push(last)?;
    }
    Ok(())
}

/// Holds a lane up to an index.
fn hold(ends: &mut Ends, lane: usize, last: usize) -> Result<(), AllocError>
    requires { lane ≤ length ends.old.until.items }
    ensures until { OnOk result
        (ends.new.until.items ≡ lane_ends_with ends.old.until.items lane last) }
    ensures kept { OnOk result ((index : ℕ) → AreKept ends.old index lane
        → AreKept ends.new index (length ends.new.until.items)) }
{
    set_until(&mut ends.until, lane, last)?;
    ends.busy.insert((last, lane))?;
    Ok(())
}

/// The lane of a call: the one that its process has, or else the first that is free at its
/// invocation.
fn take_lane(
    call: &Call,
    held: &mut BTreeMap<u64, usize>,
    ends: &mut Ends,
) -> Result<usize, AllocError>
    requires { AreKept ends.old call.now.first (length ends.old.until.items) }
    ensures takes { IfOk result
        (TakesOrKeepsLane held.old held.new ends.old.until.items ends.new.until.items call.now) }
    ensures kept { OnOk result (AreKept ends.new call.now.first (length ends.new.until.items)) }
{
    let had = held.get(&call.client).copied();
    match had {
        Some(lane) => Ok(lane),
        None => {
            let lane = free_lane(ends, call.first)?;
            hold(ends, lane, call.last)?;
            held.insert(call.client, lane)?;
            Ok(lane)
        }
    }
}

/// The bars of calls, each in its lane.
fn bars_of(alloc: Global, calls: &[Call]) -> Result<Vec<Bar>, AllocError>
    requires { AreCallsInOrder calls.now }
    ensures calls { IfOk result (λ bars. map (λ bar. bar.call) bars.items ≡ calls.now) }
    ensures lanes { IfOk result (λ bars. TakeLanes [] bars.items) }
{
    let mut held = BTreeMap::new(alloc);
    let mut ends = Ends {
        until: Vec::new(alloc),
        busy: BTreeSet::new(alloc),
        free: BTreeSet::new(alloc),
    };
    let mut bars = Vec::new(alloc);
    for call in calls {
        let lane = take_lane(call, &mut held, &mut ends)?;
        bars.push(Bar { call: *call, lane })?;
    }
    Ok(bars)
}

/// Makes lanes up to one, with no process yet.
fn make_lanes(alloc: Global, lanes: &mut Vec<Lane>, lane: usize) -> Result<(), AllocError>
    ensures made { OnOk result (lane < length lanes.new.items) }
    ensures same { OnOk result
        ((other : ℕ) → lane_clients other lanes.new.items ≡ lane_clients other lanes.old.items) }
{
    'missing: while lanes.len() <= lane {
        lanes.push(Lane {
            clients: Vec::new(alloc),
        })?;
    }
    Ok(())
}

/// Adds a process to those that a lane had.
fn add_client(
    alloc: Global,
    lanes: &mut Vec<Lane>,
    lane: usize,
    client: u64,
) -> Result<(), AllocError>
    ensures { OnOk result ((other : ℕ) → lane_clients other lanes.new.items
        ≡ lane_clients other lanes.old.items ++ (if lane == other then client ∷ [] else [])) }
{
    make_lanes(alloc, lanes, lane)?;
    lanes[lane].clients.push(client)?;
    Ok(())
}

/// The lanes of bars, each with the processes that it had.
fn lanes_of(alloc: Global, bars: &[Bar]) -> Result<Vec<Lane>, AllocError>
    ensures { IfOk result (λ lanes. AreLanesOf bars.now lanes.items) }
{
    let mut seen = BTreeSet::new(alloc);
    let mut lanes = Vec::new(alloc);
    for bar in bars {
        if seen.insert(bar.call.client)? {
            add_client(alloc, &mut lanes, bar.lane, bar.call.client)?;
        }
    }
    Ok(lanes)
}

/// What is drawn of a history in a window: a bar for each call that is drawn, in order, and the
/// processes that each lane had, in order. `marks` stand at the calls of the history, by their numbers
/// in [calls_of](crate::calls_of): what they say of an order decides which calls of unknown outcome are
/// drawn. The first mark of a number counts.
///
/// A call that begins in the window is drawn. One that began before is drawn where it ends in the
/// window or behind it. A call of unknown outcome ends nowhere: one that began before the window is
/// drawn where marks place it behind a call that begins in the window and its process does nothing
/// more, and `left_out` counts the others.
///
/// A process takes the first lane that is free at its first bar, and has it up to its last record in
/// the whole history, or at least up to the begin of the window.
///
/// Any history has a picture: where a process has an invocation right behind another, the first has
/// no completion, and a completion that answers no invocation has a bar of its own. Takes O(n log n)
/// for n records and marks.
///
/// Errors: where memory runs out.
pub fn picture_in(
    alloc: Global,
    window: Window,
    history: &[Op],
    marks: &[Mark],
) -> Result<Picture, AllocError>
    ensures bars { IfOk result
        (λ picture. AreBarsOf window (operations history.now) marks.now picture.bars.items) }
    ensures apart { IfOk result (λ picture. AreKeptApart window picture.bars.items) }
    ensures left_out { IfOk result (λ picture. picture.left_out
        ≡ count_left_out window (operations history.now) marks.now) }
    ensures lanes { IfOk result (λ picture. AreLanesOf picture.bars.items picture.lanes.items) }
{
    let drawn = drawn_in(alloc, window, history, marks)?;
    let bars = bars_of(alloc, &drawn.calls)?;
    let lanes = lanes_of(alloc, &bars)?;
    Ok(Picture {
        bars,
        left_out: drawn.left_out,
        lanes,
    })
}
