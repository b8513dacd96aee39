//! The graph of all transactions, where no two reads fork. `specs/Graph.antt` says which steps it has.

ghost use Rattle.std.specs.Prelude.{◌≡◌, ◌⊎◌, ◌≤◌, ◌<◌, ◌+◌, ℕ, true, length, IfOk, OnOk};
ghost use Rattle.jh_txn.specs.Transactions.{AreKeysBelow, includes};
ghost use Rattle.jh_txn_edges.specs.Graph.{IsGraphOf};
ghost use Rattle.jh_txn_edges.specs.Inside.{AddsSteps};
ghost use Rattle.jh_txn_edges.specs.Moments.{AreMoments, IsTimeStep};
ghost use Rattle.jh_txn_edges.specs.Steps.{IsAlongStep, IsReadStep};
ghost use Rattle.jh_txn_seen.specs.Places.{AreWriterKeysBelow, AreWritersBelow};
ghost use Rattle.jh_txn_seen.specs.Reads.{AreDoneReads, IsAmongReads, longest_of};
ghost use Rattle.jh_txn_seen.specs.declared.done_reads.DoneRead.{DoneRead};

use crate::moments::{add_moment_steps, moments};
use crate::reads::add_read_steps;
use crate::steps::{add_nodes, no_steps};
use crate::unread::add_middle_steps;
use crate::writers::add_along_all;
use jh_txn::{Step, Txn};
use jh_txn_seen::{DoneRead, marks_of_read, middles_of};
use jh_txn_writers::Writer;
use std::alloc::{AllocError, Global};

/// The graph of all transactions: from those that come first to those behind them, by steps linear in
/// number, from which all other dependencies follow. Its nodes are the transactions, a hub for each
/// key, and a hub for each completion, where real time is asked for.
///
/// All reads begin the longest ones of their keys. The marks in `there` are those of the transactions
/// that must be there, and all elements are below `elements`.
///
/// Errors: where there is no memory for the graph.
///
/// Takes time linear in the keys, the elements, the micro-operations and what reads saw, but for the
/// order of completions: n log n for n transactions.
pub fn graph_of(
    alloc: Global,
    txns: &[Txn],
    elements: usize,
    writers: &[Option<Writer>],
    there: &[bool],
    reads: &[DoneRead<'_>],
    longest: &[Option<DoneRead<'_>>],
    real_time: bool,
) -> Result<Vec<Vec<Step>>, AllocError>
    requires writers { AreWritersBelow (length txns.now) writers.now }
    requires writer_keys { AreWriterKeysBelow (length longest.now) writers.now }
    requires there { length there.now ≡ length txns.now }
    requires reads { AreDoneReads txns.now reads.now }
    requires keys { AreKeysBelow (length longest.now) txns.now }
    requires elements { (key element : ℕ) → includes (longest_of longest.now key) element ≡ true
        → element < elements }
    ensures { IfOk result (λ graph. IsGraphOf txns.now writers.now there.now reads.now longest.now
        real_time graph.items) }
{
    let marks = marks_of_read(alloc, elements, longest)?;
    let moments = moments_if(alloc, txns, real_time)?;
    let mut graph = no_steps(alloc, txns.len())?;
    add_nodes(alloc, &mut graph, longest.len())?;
    let first = graph.len();
    let middles = middles_of(alloc, txns, &marks, longest, reads, first)?;
    add_nodes(alloc, &mut graph, moments.len())?;
    add_order_steps(&mut graph, writers, longest, reads)?;
    add_middle_steps(&mut graph, writers, there, &marks, longest, &middles, reads)?;
    add_time_steps(&mut graph, txns, there, &moments, first, real_time)?;
    Ok(graph)
}

/// The moments, where real time is asked for.
fn moments_if(alloc: Global, txns: &[Txn], real_time: bool) -> Result<Vec<usize>, AllocError>
    ensures { IfOk result (λ moments. real_time ≡ true → AreMoments txns.now moments.items) }
{
    if real_time {
        moments(alloc, txns)
    } else {
        Ok(Vec::new(alloc))
    }
}

/// Adds the steps along the longest reads, to readers and from readers.
fn add_order_steps(
    graph: &mut [Vec<Step>],
    writers: &[Option<Writer>],
    longest: &[Option<DoneRead<'_>>],
    reads: &[DoneRead<'_>],
) -> Result<(), AllocError>
    requires writers { AreWritersBelow (length graph.old) writers.now }
    requires places { (read : DoneRead) → IsAmongReads reads.now read → read.place < length graph.old }
    requires keys { (read : DoneRead) → IsAmongReads reads.now read → read.key < length longest.now }
    ensures { OnOk result (AddsSteps (λ place why target.
        IsAlongStep writers.now longest.now place why target
        ⊎ IsReadStep writers.now longest.now reads.now place why target) graph.old graph.new) }
{
    add_along_all(graph, writers, longest)?;
    add_read_steps(graph, writers, longest, reads)
}

/// Adds the steps of real time, where that is asked for.
fn add_time_steps(
    graph: &mut [Vec<Step>],
    txns: &[Txn],
    there: &[bool],
    moments: &[usize],
    first: usize,
    real_time: bool,
) -> Result<(), AllocError>
    requires moments { real_time ≡ true → AreMoments txns.now moments.now }
    requires marks { length there.now ≡ length txns.now }
    requires count { length txns.now ≤ length graph.old }
    requires hubs { first + length moments.now ≤ length graph.old }
    ensures { OnOk result (AddsSteps
        (IsTimeStep txns.now there.now moments.now first real_time) graph.old graph.new) }
{
    if real_time {
        add_moment_steps(graph, txns, there, moments, first)
    } else {
        Ok(())
    }
}
