//! The judge: a snapshot order, or what excludes each one. `specs/Judged.antt` says what its answers
//! say.

ghost use Rattle.std.specs.Prelude.{Bool, length, IfOk};
ghost use Rattle.jh_txn.specs.BadReads.{HasNoBadRead};
ghost use Rattle.jh_txn.specs.Cycles.{IsSnapshotCycle};
ghost use Rattle.jh_txn.specs.RealTime.{CompleteAfterInvocation};
ghost use Rattle.jh_txn_seen.specs.Marks.{AreThereMarks};
ghost use Rattle.jh_txn_seen.specs.Reads.{AreDoneReads, AreForked, AreLongestOf};
ghost use Rattle.jh_txn_snapshot_judge.specs.Judged.{IsSnapshotJudged, snapshot_model};
ghost use Rattle.jh_txn_snapshot_judge.specs.TurnsInside.{AreUntoldMarks};
ghost use Rattle.jh_txn_writers.specs.Numbers.{AreNumbersOf};
ghost use Rattle.jh_txn_writers.specs.Writers.{AreWriters};

use crate::nodes::{dependencies_of, marked_nodes, points_of_nodes};
use crate::serial::{points_at_once, serial_places};
use crate::turns::order_in_turn;
use crate::untold::marks_of_untold;
use jh_txn::{Point, Step, Txn};
use jh_txn_cycles::order_or_short_cycle;
use jh_txn_graph::OrderOrCycle;
use jh_txn_points::{fork_points_of, points_of};
use jh_txn_reads::{BadReadAt, find_bad_read};
use jh_txn_seen::{DoneRead, Longest, longest_reads, marks_of, marks_of_read, reads_of};
use jh_txn_writers::{Writer, writers_of};
use std::alloc::{AllocError, Global};

/// What the judge finds: a snapshot order, or what excludes each one.
#[derive(Debug, Drop)]
pub enum SnapshotVerdict {
    /// A snapshot order: the starts and commits of its transactions, each of those that are done among
    /// them.
    Valid(Vec<Point>),
    /// A read that no order explains, whatever the rest of the history is.
    BadRead(BadReadAt),
    /// A cycle of dependencies in which no two `:rw` are neighbours, which no snapshot order can keep.
    Cycle(Vec<Step>),
    /// Nothing: a key has two writers of which no read tells the order, and a guess of it failed.
    Unknown,
}

/// Judges transactions: a snapshot order, which keeps real time where that is asked for, or what
/// excludes each one; or nothing, where a key has two writers that must be there, of which no read tells
/// the order, and a guess of it fails. The transactions are numbered, with keys below `keys` and
/// elements below `elements`; a completion stands behind its invocation.
///
/// Errors: out of memory.
///
/// Takes time linear in the keys, the elements, the micro-operations and what reads saw, and n log n for
/// n transactions.
pub fn judge_snapshots(
    alloc: Global,
    txns: &[Txn],
    keys: usize,
    elements: usize,
    real_time: bool,
) -> Result<SnapshotVerdict, AllocError>
    requires numbered { AreNumbersOf txns.now keys elements }
    requires ends { CompleteAfterInvocation txns.now }
    ensures { IfOk result (IsSnapshotJudged txns.now real_time) }
{
    let writers = writers_of(alloc, txns, keys, elements)?;
    match find_bad_read(alloc, txns, keys, elements, &writers)? {
        Some(at) => Ok(SnapshotVerdict::BadRead(at)),
        None => judge_good_reads(alloc, txns, keys, elements, &writers, real_time),
    }
}

/// Judges transactions of which no read is bad.
fn judge_good_reads(
    alloc: Global,
    txns: &[Txn],
    keys: usize,
    elements: usize,
    writers: &[Option<Writer>],
    real_time: bool,
) -> Result<SnapshotVerdict, AllocError>
    requires numbered { AreNumbersOf txns.now keys elements }
    requires ends { CompleteAfterInvocation txns.now }
    requires writers { AreWriters txns.now elements writers.now }
    requires good { HasNoBadRead txns.now }
    ensures { IfOk result (IsSnapshotJudged txns.now real_time) }
{
    let reads = reads_of(alloc, txns)?;
    let there = marks_of(alloc, txns, writers, &reads)?;
    match longest_reads(alloc, &reads, keys)? {
        Longest::Reads(longest) => judge_longest(
            alloc, txns, elements, writers, &reads, &there, &longest, real_time,
        ),
        Longest::Fork(one, other) => {
            let steps = fork_cycle(
                alloc, txns, keys, elements, writers, &reads, &there, &one, &other,
            )?;
            Ok(SnapshotVerdict::Cycle(steps))
        }
    }
}

/// Judges transactions by the longest read of each key, which all reads of the key begin. Where they have
/// a serial order, that is a snapshot order too, and the graph of points, twice as large, is not wanted.
fn judge_longest(
    alloc: Global,
    txns: &[Txn],
    elements: usize,
    writers: &[Option<Writer>],
    reads: &[DoneRead<'_>],
    there: &[bool],
    longest: &[Option<DoneRead<'_>>],
    real_time: bool,
) -> Result<SnapshotVerdict, AllocError>
    requires numbered { AreNumbersOf txns.now (length longest.now) elements }
    requires ends { CompleteAfterInvocation txns.now }
    requires writers { AreWriters txns.now elements writers.now }
    requires good { HasNoBadRead txns.now }
    requires reads { AreDoneReads txns.now reads.now }
    requires there { AreThereMarks txns.now writers.now reads.now there.now }
    requires longest { AreLongestOf reads.now (length reads.now) longest.now }
    ensures { IfOk result (IsSnapshotJudged txns.now real_time) }
{
    match serial_places(
        alloc, txns, elements, writers, reads, there, longest, real_time,
    )? {
        Some(places) => {
            let points = points_at_once(alloc, there, &places)?;
            Ok(SnapshotVerdict::Valid(points))
        }
        None => judge_points(
            alloc, txns, elements, writers, reads, there, longest, real_time,
        ),
    }
}

/// Judges them by the graph of points. An order that keeps real time is looked for first, whatever is
/// asked for: it tells the better turns.
fn judge_points(
    alloc: Global,
    txns: &[Txn],
    elements: usize,
    writers: &[Option<Writer>],
    reads: &[DoneRead<'_>],
    there: &[bool],
    longest: &[Option<DoneRead<'_>>],
    real_time: bool,
) -> Result<SnapshotVerdict, AllocError>
    requires numbered { AreNumbersOf txns.now (length longest.now) elements }
    requires ends { CompleteAfterInvocation txns.now }
    requires writers { AreWriters txns.now elements writers.now }
    requires good { HasNoBadRead txns.now }
    requires reads { AreDoneReads txns.now reads.now }
    requires there { AreThereMarks txns.now writers.now reads.now there.now }
    requires longest { AreLongestOf reads.now (length reads.now) longest.now }
    ensures { IfOk result (IsSnapshotJudged txns.now real_time) }
{
    let marks = marks_of_read(alloc, elements, longest)?;
    let untold = marks_of_untold(alloc, txns, there, &marks, longest.len(), elements)?;
    match judge_in_turn(
        alloc, txns, elements, writers, reads, there, longest, &untold, true,
    )? {
        SnapshotVerdict::Valid(points) => Ok(SnapshotVerdict::Valid(points)),
        verdict => {
            if real_time {
                Ok(verdict)
            } else {
                judge_in_turn(
                    alloc, txns, elements, writers, reads, there, longest, &untold, false,
                )
            }
        }
    }
}

/// Judges them by the graph of points with real time or without it. The untold writers of a key take
/// turns, as they start in an order of its nodes.
fn judge_in_turn(
    alloc: Global,
    txns: &[Txn],
    elements: usize,
    writers: &[Option<Writer>],
    reads: &[DoneRead<'_>],
    there: &[bool],
    longest: &[Option<DoneRead<'_>>],
    untold: &[bool],
    real_time: bool,
) -> Result<SnapshotVerdict, AllocError>
    requires numbered { AreNumbersOf txns.now (length longest.now) elements }
    requires ends { CompleteAfterInvocation txns.now }
    requires writers { AreWriters txns.now elements writers.now }
    requires good { HasNoBadRead txns.now }
    requires reads { AreDoneReads txns.now reads.now }
    requires there { AreThereMarks txns.now writers.now reads.now there.now }
    requires longest { AreLongestOf reads.now (length reads.now) longest.now }
    requires untold { AreUntoldMarks txns.now untold.now }
    ensures { IfOk result (IsSnapshotJudged txns.now real_time) }
{
    let mut graph = points_of(
        alloc, txns, elements, writers, there, reads, longest, real_time,
    )?;
    let count = txns.len();
    match order_or_short_cycle(alloc, &graph, count + count, count)? {
        OrderOrCycle::Order(order) => {
            match order_in_turn(alloc, txns, untold, longest.len(), &mut graph, order)? {
                None => Ok(SnapshotVerdict::Unknown),
                Some(nodes) => {
                    let nodes = marked_nodes(alloc, there, count, &nodes)?;
                    let points = points_of_nodes(alloc, count, &nodes)?;
                    Ok(SnapshotVerdict::Valid(points))
                }
            }
        }
        OrderOrCycle::Cycle(steps) => {
            let steps = dependencies_of(alloc, count, &steps)?;
            Ok(SnapshotVerdict::Cycle(steps))
        }
    }
}

/// A cycle in what two reads say that fork.
fn fork_cycle(
    alloc: Global,
    txns: &[Txn],
    keys: usize,
    elements: usize,
    writers: &[Option<Writer>],
    reads: &[DoneRead<'_>],
    there: &[bool],
    one: &DoneRead<'_>,
    other: &DoneRead<'_>,
) -> Result<Vec<Step>, AllocError>
    requires numbered { AreNumbersOf txns.now keys elements }
    requires writers { AreWriters txns.now elements writers.now }
    requires good { HasNoBadRead txns.now }
    requires reads { AreDoneReads txns.now reads.now }
    requires there { AreThereMarks txns.now writers.now reads.now there.now }
    requires forked { AreForked reads.now one.now other.now }
    ensures { IfOk result (λ steps. (real_time : Bool)
        → IsSnapshotCycle txns.now (snapshot_model real_time) steps.items) }
{
    let count = txns.len();
    let graph = fork_points_of(alloc, count, writers, there, one, other)?;
    match order_or_short_cycle(alloc, &graph, count + count, count)? {
        OrderOrCycle::Order(_) => unreachable!(),
        OrderOrCycle::Cycle(steps) => dependencies_of(alloc, count, &steps),
    }
}
