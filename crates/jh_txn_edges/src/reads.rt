//! Steps to readers and from readers.

ghost use Rattle.std.specs.Prelude.{◌<◌, length, OnOk};
ghost use Rattle.jh_txn_edges.specs.Inside.{AddsSteps};
ghost use Rattle.jh_txn_edges.specs.Steps.{IsFromReader, IsLackedStep, IsReadStep, IsShownStep};
ghost use Rattle.jh_txn_edges.specs.Steps.{IsToReader};
ghost use Rattle.jh_txn_seen.specs.Places.{AreWritersBelow};
ghost use Rattle.jh_txn_seen.specs.Reads.{IsAmongReads};
ghost use Rattle.jh_txn_seen.specs.declared.done_reads.DoneRead.{DoneRead};

use crate::steps::add_other;
use jh_txn::{Step, Why};
use jh_txn_seen::{DoneRead, longest_at, writer_of};
use jh_txn_writers::Writer;
use std::alloc::AllocError;

/// Adds, for each read, the step from the writer of its last element, and that to the writer of the
/// next element of the longest read.
pub(crate) fn add_read_steps(
    graph: &mut [Vec<Step>],
    writers: &[Option<Writer>],
    longest: &[Option<DoneRead<'_>>],
    reads: &[DoneRead<'_>],
) -> Result<(), AllocError>
    requires writers { AreWritersBelow (length graph.old) writers.now }
    requires places { (read : DoneRead) → IsAmongReads reads.now read → read.place < length graph.old }
    requires keys { (read : DoneRead) → IsAmongReads reads.now read → read.key < length longest.now }
    ensures { OnOk result
        (AddsSteps (IsReadStep writers.now longest.now reads.now) graph.old graph.new) }
{
    for read in reads {
        add_to_reader(graph, writers, read)?;
        add_from_reader(graph, writers, longest, read)?;
    }
    Ok(())
}

/// Adds the step from the writer of the last element of a read.
fn add_to_reader(
    graph: &mut [Vec<Step>],
    writers: &[Option<Writer>],
    read: &DoneRead<'_>,
) -> Result<(), AllocError>
    requires { read.now.place < length graph.old }
    ensures { OnOk result (AddsSteps (IsToReader writers.now read.now) graph.old graph.new) }
{
    match read.seen.last() {
        None => Ok(()),
        Some(element) => add_shown_step(graph, writers, read, *element),
    }
}

/// Adds the step to the writer of the first element that the longest read has behind a read.
fn add_from_reader(
    graph: &mut [Vec<Step>],
    writers: &[Option<Writer>],
    longest: &[Option<DoneRead<'_>>],
    read: &DoneRead<'_>,
) -> Result<(), AllocError>
    requires writers { AreWritersBelow (length graph.old) writers.now }
    requires key { read.now.key < length longest.now }
    ensures { OnOk result
        (AddsSteps (IsFromReader writers.now longest.now read.now) graph.old graph.new) }
{
    let longest = longest_at(longest, read.key);
    if read.seen.len() < longest.len() {
        add_lacked_step(graph, writers, read, longest[read.seen.len()])
    } else {
        Ok(())
    }
}

/// Adds the step from the writer of an element to a read that saw it.
pub(crate) fn add_shown_step(
    graph: &mut [Vec<Step>],
    writers: &[Option<Writer>],
    read: &DoneRead<'_>,
    element: usize,
) -> Result<(), AllocError>
    requires { read.now.place < length graph.old }
    ensures { OnOk result
        (AddsSteps (IsShownStep writers.now read.now element) graph.old graph.new) }
{
    let why = Why::WriteRead {
        key: read.key,
        element,
    };
    match writer_of(writers, read.key, element) {
        None => Ok(()),
        Some(place) => add_other(graph, Step { place, why }, read.place),
    }
}

/// Adds the step from a read to the writer of an element that it did not see.
pub(crate) fn add_lacked_step(
    graph: &mut [Vec<Step>],
    writers: &[Option<Writer>],
    read: &DoneRead<'_>,
    element: usize,
) -> Result<(), AllocError>
    requires { AreWritersBelow (length graph.old) writers.now }
    ensures { OnOk result
        (AddsSteps (IsLackedStep writers.now read.now element) graph.old graph.new) }
{
    let why = Why::ReadWrite {
        key: read.key,
        element,
    };
    match writer_of(writers, read.key, element) {
        None => Ok(()),
        Some(target) => add_other(
            graph,
            Step {
                place: read.place,
                why,
            },
            target,
        ),
    }
}
