//! The graph of two reads that fork: all that they say. `specs/Graph.antt` says which steps it has.

ghost use Rattle.std.specs.Prelude.{◌≡◌, ◌⊎◌, ◌↔◌, ◌<◌, ℕ, true, false, length, IfOk, OnOk};
ghost use Rattle.jh_txn.specs.Transactions.{includes};
ghost use Rattle.jh_txn.specs.declared.dependency.Why.{Why};
ghost use Rattle.jh_txn_edges.specs.Graph.{IsAnyLackedStep, IsAnyShownStep, IsLackedThere};
ghost use Rattle.jh_txn_edges.specs.Graph.{IsWholeReadStep};
ghost use Rattle.jh_txn_edges.specs.Inside.{AddsSteps};
ghost use Rattle.jh_txn_graph.specs.Graphs.{HasStep};
ghost use Rattle.jh_txn_seen.specs.Marks.{IsMarked};
ghost use Rattle.jh_txn_seen.specs.Places.{AreWritersBelow};

use crate::reads::{add_lacked_step, add_shown_step};
use crate::steps::no_steps;
use crate::writers::add_along;
use jh_txn::Step;
use jh_txn_seen::{DoneRead, is_marked, mark_elements, writer_of};
use jh_txn_writers::Writer;
use std::alloc::{AllocError, Global};

/// The graph of all that two reads say: the writers of what each saw come before its reader, in the
/// order in which it saw them, and the reader before the writers of what it did not see. Its nodes are
/// `count` transactions; the marks in `there` are those of the transactions that must be there.
///
/// Errors: where there is no memory for the graph.
///
/// Takes time linear in the transactions, the elements of the table and what the two reads saw.
pub fn fork_graph(
    alloc: Global,
    count: usize,
    writers: &[Option<Writer>],
    there: &[bool],
    one: &DoneRead<'_>,
    other: &DoneRead<'_>,
) -> Result<Vec<Vec<Step>>, AllocError>
    requires writers { AreWritersBelow count writers.now }
    requires one { one.now.place < count }
    requires other { other.now.place < count }
    requires elements { (element : ℕ) → includes one.now.seen.now element ≡ true
        → element < length writers.now }
    requires others { (element : ℕ) → includes other.now.seen.now element ≡ true
        → element < length writers.now }
    ensures count { IfOk result (λ graph. length graph.items ≡ count) }
    ensures steps { IfOk result (λ graph. (place : ℕ) (why : Why) (target : ℕ)
        → HasStep graph.items place why target
        ↔ (IsWholeReadStep writers.now there.now one.now place why target
        ⊎ IsWholeReadStep writers.now there.now other.now place why target)) }
{
    let mut graph = no_steps(alloc, count)?;
    add_both(alloc, &mut graph, writers, there, one, other)?;
    Ok(graph)
}

/// Adds all that two reads say.
fn add_both(
    alloc: Global,
    graph: &mut [Vec<Step>],
    writers: &[Option<Writer>],
    there: &[bool],
    one: &DoneRead<'_>,
    other: &DoneRead<'_>,
) -> Result<(), AllocError>
    requires writers { AreWritersBelow (length graph.old) writers.now }
    requires one { one.now.place < length graph.old }
    requires other { other.now.place < length graph.old }
    requires elements { (element : ℕ) → includes one.now.seen.now element ≡ true
        → element < length writers.now }
    requires others { (element : ℕ) → includes other.now.seen.now element ≡ true
        → element < length writers.now }
    ensures { OnOk result (AddsSteps (λ place why target.
        IsWholeReadStep writers.now there.now one.now place why target
        ⊎ IsWholeReadStep writers.now there.now other.now place why target)
        graph.old graph.new) }
{
    add_whole_read(alloc, graph, writers, there, one)?;
    add_whole_read(alloc, graph, writers, there, other)
}

/// Adds all that a read says.
fn add_whole_read(
    alloc: Global,
    graph: &mut [Vec<Step>],
    writers: &[Option<Writer>],
    there: &[bool],
    read: &DoneRead<'_>,
) -> Result<(), AllocError>
    requires writers { AreWritersBelow (length graph.old) writers.now }
    requires place { read.now.place < length graph.old }
    requires elements { (element : ℕ) → includes read.now.seen.now element ≡ true
        → element < length writers.now }
    ensures { OnOk result (AddsSteps
        (IsWholeReadStep writers.now there.now read.now) graph.old graph.new) }
{
    let marks = marks_of(alloc, writers.len(), read.seen)?;
    add_shown(graph, writers, read)?;
    add_along(graph, writers, read.key, read.seen)?;
    add_lacked(graph, writers, there, &marks, read)
}

/// Marks of the elements of a list, below a number.
fn marks_of(alloc: Global, elements: usize, seen: &[usize]) -> Result<Vec<bool>, AllocError>
    requires { (element : ℕ) → includes seen.now element ≡ true → element < elements }
    ensures { IfOk result (λ marks. (element : ℕ)
        → IsMarked marks.items element ↔ (includes seen.now element ≡ true)) }
{
    let mut marks = vec![in alloc; false; elements]?;
    mark_elements(&mut marks, seen);
    Ok(marks)
}

/// Adds the steps from the writers of what a read saw.
fn add_shown(
    graph: &mut [Vec<Step>],
    writers: &[Option<Writer>],
    read: &DoneRead<'_>,
) -> Result<(), AllocError>
    requires { read.now.place < length graph.old }
    ensures { OnOk result (AddsSteps
        (IsAnyShownStep writers.now read.now) graph.old graph.new) }
{
    for element in read.seen {
        add_shown_step(graph, writers, read, *element)?;
    }
    Ok(())
}

/// Adds the steps to the writers of what a read did not see, as its marks say, that must be there.
fn add_lacked(
    graph: &mut [Vec<Step>],
    writers: &[Option<Writer>],
    there: &[bool],
    marks: &[bool],
    read: &DoneRead<'_>,
) -> Result<(), AllocError>
    requires writers { AreWritersBelow (length graph.old) writers.now }
    requires marks { (element : ℕ)
        → IsMarked marks.now element ↔ (includes read.now.seen.now element ≡ true) }
    ensures { OnOk result (AddsSteps
        (IsAnyLackedStep writers.now there.now read.now) graph.old graph.new) }
{
    for element in 0..writers.len() {
        add_lacked_if(graph, writers, there, marks, read, element)?;
    }
    Ok(())
}

/// Adds the step to the writer of an element, if a read did not see this and the writer must be there.
fn add_lacked_if(
    graph: &mut [Vec<Step>],
    writers: &[Option<Writer>],
    there: &[bool],
    marks: &[bool],
    read: &DoneRead<'_>,
    element: usize,
) -> Result<(), AllocError>
    requires writers { AreWritersBelow (length graph.old) writers.now }
    requires marks { (element : ℕ)
        → IsMarked marks.now element ↔ (includes read.now.seen.now element ≡ true) }
    ensures { OnOk result (AddsSteps
        (IsLackedThere writers.now there.now read.now element) graph.old graph.new) }
{
    match writer_of(writers, read.key, element) {
        None => Ok(()),
        Some(writer) => {
            if is_marked(there, writer) && !is_marked(marks, element) {
                add_lacked_step(graph, writers, read, element)
            } else {
                Ok(())
            }
        }
    }
}
