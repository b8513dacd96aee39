//! The graph of points of two reads that fork: all that they say. `specs/ForkGraph.antt` says which
//! steps it has.

ghost use Rattle.std.specs.Prelude.{◌≡◌, ◌≢◌, ◌≤◌, ◌<◌, ◌+◌, ◌↔◌, ℕ, true, Some, length};
ghost use Rattle.std.specs.Prelude.{IfOk, IsTrue, MatchOption, OnOk};
ghost use Rattle.jh_txn.specs.Transactions.{includes};
ghost use Rattle.jh_txn_edges.specs.Inside.{AddsSteps};
ghost use Rattle.jh_txn_points.specs.ForkGraph.{IsAnyWinStep, IsFirstOwn, IsForkGraphOf, IsWinStep};
ghost use Rattle.jh_txn_points.specs.ForkGraph.{IsWinStepOf};
ghost use Rattle.jh_txn_seen.specs.Marks.{IsMarked};
ghost use Rattle.jh_txn_seen.specs.Places.{AreWritersBelow, writer_place};

use crate::kept::add_kept_steps;
use crate::steps::add_commit_steps;
use jh_txn::{Step, Why};
use jh_txn_edges::{add, add_nodes, fork_graph, no_steps};
use jh_txn_seen::{DoneRead, is_marked, mark_elements, writer_of};
use jh_txn_writers::Writer;
use std::alloc::{AllocError, Global};

/// The graph of all that two reads say of starts and commits: the writers of what each saw commit
/// before its reader starts, and in the order in which it saw them; the reader starts before the
/// writers of what it did not see commit; and if it appends to the key itself, it commits before they
/// start. Its nodes are the starts of `count` transactions and behind them the commits; the marks in
/// `there` are those of the transactions that must be there.
///
/// Errors: where there is no memory for the graph.
///
/// Takes time linear in the transactions, the elements of the table and what the two reads saw.
pub fn fork_points_of(
    alloc: Global,
    count: usize,
    writers: &[Option<Writer>],
    there: &[bool],
    one: &DoneRead<'_>,
    other: &DoneRead<'_>,
) -> Result<Vec<Vec<Step>>, AllocError>
    requires writers { AreWritersBelow count writers.now }
    requires one { one.now.place < count }
    requires other { other.now.place < count }
    requires elements { (element : ℕ) → includes one.now.seen.now element ≡ true
        → element < length writers.now }
    requires others { (element : ℕ) → includes other.now.seen.now element ≡ true
        → element < length writers.now }
    ensures { IfOk result (λ graph. IsForkGraphOf count writers.now there.now one.now other.now
        graph.items) }
{
    let edges = fork_graph(alloc, count, writers, there, one, other)?;
    let mut graph = no_steps(alloc, count)?;
    add_nodes(alloc, &mut graph, count)?;
    add_kept_steps(&mut graph, &edges, count, 0)?;
    add_commit_steps(&mut graph, count)?;
    add_win_steps(alloc, &mut graph, count, writers, there, one)?;
    add_win_steps(alloc, &mut graph, count, writers, there, other)?;
    Ok(graph)
}

/// Adds the steps from a reader as first committer, if it appends to the key of its read itself.
fn add_win_steps(
    alloc: Global,
    graph: &mut [Vec<Step>],
    count: usize,
    writers: &[Option<Writer>],
    there: &[bool],
    read: &DoneRead<'_>,
) -> Result<(), AllocError>
    requires nodes { count + count ≤ length graph.old }
    requires writers { AreWritersBelow count writers.now }
    requires place { read.now.place < count }
    requires elements { (element : ℕ) → includes read.now.seen.now element ≡ true
        → element < length writers.now }
    ensures { OnOk result
        (AddsSteps (IsAnyWinStep count writers.now there.now read.now) graph.old graph.new) }
{
    match first_own(writers, read) {
        None => Ok(()),
        Some(own) => {
            let marks = marks_of(alloc, writers.len(), read.seen)?;
            add_win_steps_of(graph, count, writers, there, &marks, read, own)
        }
    }
}

/// The first element that a reader appends to the key of its read itself, if there is one.
fn first_own(writers: &[Option<Writer>], read: &DoneRead<'_>) -> Option<usize>
    ensures { MatchOption result
        ((element : ℕ) → writer_place writers.now read.now.key element ≢ Some read.now.place)
        (IsFirstOwn writers.now read.now) }
{
    for element in 0..writers.len() {
        if is_own(writers, read, element) {
            return Some(element);
        }
    }
    None
}

/// Whether a reader appends an element to the key of its read itself.
fn is_own(writers: &[Option<Writer>], read: &DoneRead<'_>, element: usize) -> bool
    ensures { IsTrue result ↔ (writer_place writers.now read.now.key element ≡ Some read.now.place) }
{
    match writer_of(writers, read.key, element) {
        None => false,
        Some(writer) => writer == read.place,
    }
}

/// Marks of the elements of a list, below a number.
fn marks_of(alloc: Global, elements: usize, seen: &[usize]) -> Result<Vec<bool>, AllocError>
    requires { (element : ℕ) → includes seen.now element ≡ true → element < elements }
    ensures { IfOk result (λ marks. (element : ℕ)
        → IsMarked marks.items element ↔ (includes seen.now element ≡ true)) }
{
    let mut marks = vec![in alloc; false; elements]?;
    mark_elements(&mut marks, seen);
    Ok(marks)
}

/// Adds the steps from a reader as first committer, which appends this element itself, to the writers
/// of what its read did not see, as the marks say.
fn add_win_steps_of(
    graph: &mut [Vec<Step>],
    count: usize,
    writers: &[Option<Writer>],
    there: &[bool],
    marks: &[bool],
    read: &DoneRead<'_>,
    own: usize,
) -> Result<(), AllocError>
    requires nodes { count + count ≤ length graph.old }
    requires writers { AreWritersBelow count writers.now }
    requires place { read.now.place < count }
    requires marks { (element : ℕ)
        → IsMarked marks.now element ↔ (includes read.now.seen.now element ≡ true) }
    ensures { OnOk result
        (AddsSteps (IsWinStepOf count writers.now there.now read.now own) graph.old graph.new) }
{
    for element in 0..writers.len() {
        add_win_step(graph, count, writers, there, marks, read, own, element)?;
    }
    Ok(())
}

/// Adds the step from a reader as first committer to the writer of an element, if that loses to it.
fn add_win_step(
    graph: &mut [Vec<Step>],
    count: usize,
    writers: &[Option<Writer>],
    there: &[bool],
    marks: &[bool],
    read: &DoneRead<'_>,
    own: usize,
    element: usize,
) -> Result<(), AllocError>
    requires nodes { count + count ≤ length graph.old }
    requires writers { AreWritersBelow count writers.now }
    requires place { read.now.place < count }
    requires marks { (element : ℕ)
        → IsMarked marks.now element ↔ (includes read.now.seen.now element ≡ true) }
    ensures { OnOk result
        (AddsSteps (IsWinStep count writers.now there.now read.now own element) graph.old graph.new) }
{
    match writer_of(writers, read.key, element) {
        None => Ok(()),
        Some(writer) => {
            if loses(there, marks, read, element, writer) {
                let place = count + read.place;
                let why = Why::FirstCommitter {
                    key: read.key,
                    element: own,
                };
                add(graph, Step { place, why }, writer)
            } else {
                Ok(())
            }
        }
    }
}

/// Whether the writer of an element is another one than a reader, must be there, and wrote what the
/// read did not see.
fn loses(there: &[bool], marks: &[bool], read: &DoneRead<'_>, element: usize, writer: usize) -> bool
    ensures { IsTrue result
        ↔ ((writer ≢ read.now.place) × IsMarked there.now writer × (¬ IsMarked marks.now element)) }
{
    writer != read.place && is_marked(there, writer) && !is_marked(marks, element)
}
