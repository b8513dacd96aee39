//! Steps from those who read all of a key to the writers of what nobody read, through the middles.

ghost use Rattle.std.specs.Prelude.{◌≡◌, ◌<◌, ℕ, Some, length, slice_get, OnOk};
ghost use Rattle.jh_txn_edges.specs.Inside.{AddsSteps};
ghost use Rattle.jh_txn_edges.specs.MiddleSteps.{IsAnyFullStep, IsAnyUnreadStep, IsFullStep};
ghost use Rattle.jh_txn_edges.specs.MiddleSteps.{IsMiddleStep, IsUnreadStep};
ghost use Rattle.jh_txn_seen.specs.Places.{AreWriterKeysBelow, AreWritersBelow};
ghost use Rattle.jh_txn_seen.specs.Reads.{IsAmongReads};
ghost use Rattle.jh_txn_seen.specs.declared.done_reads.DoneRead.{DoneRead};
ghost use Rattle.jh_txn_seen.specs.declared.middles.Middle.{Middle};

use crate::steps::add_other;
use jh_txn::{Step, Why};
use jh_txn_seen::{DoneRead, Middle, is_full, is_marked};
use jh_txn_writers::Writer;
use std::alloc::AllocError;

/// Adds the steps to and from the middle of each key.
pub(crate) fn add_middle_steps(
    graph: &mut [Vec<Step>],
    writers: &[Option<Writer>],
    there: &[bool],
    marks: &[bool],
    longest: &[Option<DoneRead<'_>>],
    middles: &[Middle],
    reads: &[DoneRead<'_>],
) -> Result<(), AllocError>
    requires writers { AreWritersBelow (length graph.old) writers.now }
    requires keys { AreWriterKeysBelow (length middles.now) writers.now }
    requires longest { length longest.now ≡ length middles.now }
    requires reads { (read : DoneRead) → IsAmongReads reads.now read → read.key < length longest.now }
    requires nodes { (key : ℕ) (middle : Middle) → slice_get middles.now key ≡ Some middle
        → middle.node < length graph.old }
    ensures { OnOk result (AddsSteps
        (IsMiddleStep writers.now there.now marks.now longest.now middles.now reads.now)
        graph.old graph.new) }
{
    add_full_steps(graph, longest, middles, reads)?;
    add_unread_steps(graph, writers, there, marks, middles)
}

/// Adds the steps from those who read all of a key to its middle.
fn add_full_steps(
    graph: &mut [Vec<Step>],
    longest: &[Option<DoneRead<'_>>],
    middles: &[Middle],
    reads: &[DoneRead<'_>],
) -> Result<(), AllocError>
    requires longest { length longest.now ≡ length middles.now }
    requires reads { (read : DoneRead) → IsAmongReads reads.now read → read.key < length longest.now }
    requires nodes { (key : ℕ) (middle : Middle) → slice_get middles.now key ≡ Some middle
        → middle.node < length graph.old }
    ensures { OnOk result (AddsSteps
        (IsAnyFullStep longest.now middles.now reads.now) graph.old graph.new) }
{
    for read in reads {
        add_full_step(graph, longest, middles, read)?;
    }
    Ok(())
}

/// Adds the step from a read to the middle of its key, if it read all of it.
fn add_full_step(
    graph: &mut [Vec<Step>],
    longest: &[Option<DoneRead<'_>>],
    middles: &[Middle],
    read: &DoneRead<'_>,
) -> Result<(), AllocError>
    requires longest { length longest.now ≡ length middles.now }
    requires key { read.now.key < length longest.now }
    requires nodes { (key : ℕ) (middle : Middle) → slice_get middles.now key ≡ Some middle
        → middle.node < length graph.old }
    ensures { OnOk result (AddsSteps
        (IsFullStep longest.now middles.now read.now) graph.old graph.new) }
{
    if is_full(longest, read) {
        let Middle { node, why } = middles[read.key];
        add_other(
            graph,
            Step {
                place: read.place,
                why,
            },
            node,
        )
    } else {
        Ok(())
    }
}

/// Adds the steps from the middle of each key to the writers of what nobody read.
fn add_unread_steps(
    graph: &mut [Vec<Step>],
    writers: &[Option<Writer>],
    there: &[bool],
    marks: &[bool],
    middles: &[Middle],
) -> Result<(), AllocError>
    requires writers { AreWritersBelow (length graph.old) writers.now }
    requires keys { AreWriterKeysBelow (length middles.now) writers.now }
    ensures { OnOk result (AddsSteps
        (IsAnyUnreadStep writers.now there.now marks.now middles.now) graph.old graph.new) }
{
    for element in 0..writers.len() {
        add_unread_step(graph, writers, there, marks, middles, element)?;
    }
    Ok(())
}

/// Adds the step from the middle of its key to the writer of an element, if nobody read this and the
/// writer must be there.
fn add_unread_step(
    graph: &mut [Vec<Step>],
    writers: &[Option<Writer>],
    there: &[bool],
    marks: &[bool],
    middles: &[Middle],
    element: usize,
) -> Result<(), AllocError>
    requires element { element < length writers.now }
    requires writers { AreWritersBelow (length graph.old) writers.now }
    requires keys { AreWriterKeysBelow (length middles.now) writers.now }
    ensures { OnOk result (AddsSteps
        (IsUnreadStep writers.now there.now marks.now middles.now element) graph.old graph.new) }
{
    match writers[element] {
        None => Ok(()),
        Some(writer) => {
            if is_marked(there, writer.place) && !is_marked(marks, element) {
                let why = Why::ReadWrite {
                    key: writer.key,
                    element,
                };
                let place = middles[writer.key].node;
                add_other(graph, Step { place, why }, writer.place)
            } else {
                Ok(())
            }
        }
    }
}
