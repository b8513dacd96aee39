//! A serial order, which is a snapshot order too: each transaction starts and commits at once.

ghost use Rattle.std.specs.Prelude.{◌≡◌, ◌++◌, ◌∷◌, [], ℕ, List, length, IfOk, MatchOption, OnOk};
ghost use Rattle.jh_txn.specs.BadReads.{HasNoBadRead};
ghost use Rattle.jh_txn.specs.RealTime.{CompleteAfterInvocation};
ghost use Rattle.jh_txn.specs.SerialOrders.{IsSerialOrderFor};
ghost use Rattle.jh_txn_seen.specs.Marks.{AreThereMarks};
ghost use Rattle.jh_txn_seen.specs.Reads.{AreDoneReads, AreLongestOf};
ghost use Rattle.jh_txn_snapshot_judge.specs.SerialInside.{marked_places};
ghost use Rattle.jh_txn_snapshots.specs.AtOnce.{at_once};
ghost use Rattle.jh_txn_writers.specs.Numbers.{AreNumbersOf};
ghost use Rattle.jh_txn_writers.specs.Writers.{AreWriters};

use jh_txn::{Point, Txn};
use jh_txn_edges::graph_of;
use jh_txn_graph::{OrderOrCycle, order_or_cycle};
use jh_txn_seen::{DoneRead, is_marked};
use jh_txn_writers::Writer;
use std::alloc::{AllocError, Global};

/// All places, in an order of which the marked ones are a serial order. None: there is no serial order.
/// The graph is let go before the answer is used, since it is what takes the memory.
pub(crate) fn serial_places(
    alloc: Global,
    txns: &[Txn],
    elements: usize,
    writers: &[Option<Writer>],
    reads: &[DoneRead<'_>],
    there: &[bool],
    longest: &[Option<DoneRead<'_>>],
    real_time: bool,
) -> Result<Option<Vec<usize>>, AllocError>
    requires numbered { AreNumbersOf txns.now (length longest.now) elements }
    requires ends { CompleteAfterInvocation txns.now }
    requires writers { AreWriters txns.now elements writers.now }
    requires good { HasNoBadRead txns.now }
    requires reads { AreDoneReads txns.now reads.now }
    requires there { AreThereMarks txns.now writers.now reads.now there.now }
    requires longest { AreLongestOf reads.now (length reads.now) longest.now }
    ensures { IfOk result (λ found. MatchOption found
        ((order : List ℕ) → ¬ IsSerialOrderFor txns.now real_time order)
        (λ places. IsSerialOrderFor txns.now real_time (marked_places there.now places.items))) }
{
    let graph = graph_of(
        alloc, txns, elements, writers, there, reads, longest, real_time,
    )?;
    match order_or_cycle(alloc, &graph, txns.len())? {
        OrderOrCycle::Order(places) => Ok(Some(places)),
        OrderOrCycle::Cycle(_) => Ok(None),
    }
}

/// The points of the marked ones of some places, of which each starts and commits at once.
pub(crate) fn points_at_once(
    alloc: Global,
    there: &[bool],
    places: &[usize],
) -> Result<Vec<Point>, AllocError>
    ensures { IfOk result (λ points. points.items ≡ at_once (marked_places there.now places.now)) }
{
    let mut points = Vec::new(alloc);
    for place in places {
        add_at_once(&mut points, there, *place)?;
    }
    Ok(points)
}

/// Adds the points of a place, if it is marked.
fn add_at_once(points: &mut Vec<Point>, there: &[bool], place: usize) -> Result<(), AllocError>
    ensures { OnOk result
        (points.new.items ≡ points.old.items ++ at_once (marked_places there.now (place ∷ []))) }
{
    if is_marked(there, place) {
        points.push(Point::Start(place))?;
        points.push(Point::Commit(place))?;
    }
    Ok(())
}
