//! The graph of all points, where no two reads fork. `specs/PointGraph.antt` says which steps it has.

ghost use Rattle.std.specs.Prelude.{length, IfOk};
ghost use Rattle.jh_txn.specs.BadReads.{HasNoBadRead};
ghost use Rattle.jh_txn.specs.RealTime.{CompleteAfterInvocation};
ghost use Rattle.jh_txn_points.specs.PointGraph.{IsPointGraphOf};
ghost use Rattle.jh_txn_seen.specs.Marks.{AreThereMarks};
ghost use Rattle.jh_txn_seen.specs.Reads.{AreDoneReads, AreLongestOf};
ghost use Rattle.jh_txn_writers.specs.Numbers.{AreNumbersOf};
ghost use Rattle.jh_txn_writers.specs.Writers.{AreWriters};

use crate::kept::add_kept_steps;
use crate::steps::add_commit_steps;
use crate::unread::{add_hub_steps, add_unread_steps};
use jh_txn::{Step, Txn};
use jh_txn_edges::{add_nodes, graph_of, no_steps};
use jh_txn_seen::{DoneRead, marks_of_read, middles_of};
use jh_txn_writers::Writer;
use std::alloc::{AllocError, Global};

/// The graph of all starts and commits: from those that come first to those behind them, by steps
/// linear in number, from which all other dependencies follow. Its nodes are the starts, the commits, a
/// hub for each key, and a hub for each completion, where real time is asked for.
///
/// No read is bad, and all reads begin the longest ones of their keys. The marks in `there` are those of
/// the transactions that must be there, and all elements are below `elements`.
///
/// Errors: where there is no memory for the graph.
///
/// Takes time linear in the keys, the elements, the micro-operations and what reads saw, but for the
/// order of completions: n log n for n transactions.
pub fn points_of(
    alloc: Global,
    txns: &[Txn],
    elements: usize,
    writers: &[Option<Writer>],
    there: &[bool],
    reads: &[DoneRead<'_>],
    longest: &[Option<DoneRead<'_>>],
    real_time: bool,
) -> Result<Vec<Vec<Step>>, AllocError>
    requires numbered { AreNumbersOf txns.now (length longest.now) elements }
    requires ends { CompleteAfterInvocation txns.now }
    requires writers { AreWriters txns.now elements writers.now }
    requires good { HasNoBadRead txns.now }
    requires reads { AreDoneReads txns.now reads.now }
    requires there { AreThereMarks txns.now writers.now reads.now there.now }
    requires longest { AreLongestOf reads.now (length reads.now) longest.now }
    ensures { IfOk result (λ graph. IsPointGraphOf txns.now writers.now there.now reads.now
        longest.now real_time graph.items) }
{
    let edges = graph_of(
        alloc, txns, elements, writers, there, reads, longest, real_time,
    )?;
    let count = txns.len();
    let marks = marks_of_read(alloc, elements, longest)?;
    let middles = middles_of(alloc, txns, &marks, longest, reads, count + longest.len())?;
    let mut graph = no_steps(alloc, count)?;
    add_nodes(alloc, &mut graph, edges.len())?;
    add_kept_steps(&mut graph, &edges, count, longest.len())?;
    add_commit_steps(&mut graph, count)?;
    add_hub_steps(&mut graph, count, longest, reads)?;
    add_unread_steps(&mut graph, count, writers, there, &marks, longest, &middles)?;
    Ok(graph)
}
