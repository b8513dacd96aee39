//! Steps from those who read all of a key to the writers of what nobody read, and to these from the
//! writers who come before them.

ghost use Rattle.std.specs.Prelude.{◌≡◌, ◌≤◌, ◌<◌, ◌+◌, ℕ, Some, length, slice_get, OnOk};
ghost use Rattle.jh_txn_edges.specs.Inside.{AddsSteps};
ghost use Rattle.jh_txn_points.specs.PointSteps.{IsAnyHubStep, IsAnyUnreadPointStep, IsBehindStep};
ghost use Rattle.jh_txn_points.specs.PointSteps.{IsFirstCommitterStep, IsFromHubStep, IsHubStep};
ghost use Rattle.jh_txn_points.specs.PointSteps.{IsLastStep, IsUnreadPointStep, IsWriterStep};
ghost use Rattle.jh_txn_points.specs.PointSteps.{last_why};
ghost use Rattle.jh_txn_seen.specs.Places.{AreWriterKeysBelow, AreWritersBelow};
ghost use Rattle.jh_txn_seen.specs.Reads.{IsAmongReads};
ghost use Rattle.jh_txn_seen.specs.declared.done_reads.DoneRead.{DoneRead};

use jh_txn::{Step, Why};
use jh_txn_edges::add;
use jh_txn_seen::{DoneRead, Middle, is_full, is_marked, writer_of};
use jh_txn_writers::Writer;
use std::alloc::AllocError;

/// Adds the steps from those who read all of a key to its hub.
pub(crate) fn add_hub_steps(
    graph: &mut [Vec<Step>],
    count: usize,
    longest: &[Option<DoneRead<'_>>],
    reads: &[DoneRead<'_>],
) -> Result<(), AllocError>
    requires hubs { count + count + length longest.now ≤ length graph.old }
    requires reads { (read : DoneRead) → IsAmongReads reads.now read → read.key < length longest.now }
    ensures { OnOk result (AddsSteps (IsAnyHubStep count longest.now reads.now) graph.old graph.new) }
{
    for read in reads {
        add_hub_step(graph, count, longest, read)?;
    }
    Ok(())
}

/// Adds the step from a read to the hub of its key, if it read all of it.
fn add_hub_step(
    graph: &mut [Vec<Step>],
    count: usize,
    longest: &[Option<DoneRead<'_>>],
    read: &DoneRead<'_>,
) -> Result<(), AllocError>
    requires hubs { count + count + length longest.now ≤ length graph.old }
    requires key { read.now.key < length longest.now }
    ensures { OnOk result (AddsSteps (IsHubStep count longest.now read.now) graph.old graph.new) }
{
    if is_full(longest, read) {
        let hub = count + count + read.key;
        let step = Step {
            place: read.place,
            why: Why::RealTime,
        };
        add(graph, step, hub)
    } else {
        Ok(())
    }
}

/// Adds the steps to the writers of what nobody read, which must be there.
pub(crate) fn add_unread_steps(
    graph: &mut [Vec<Step>],
    count: usize,
    writers: &[Option<Writer>],
    there: &[bool],
    marks: &[bool],
    longest: &[Option<DoneRead<'_>>],
    middles: &[Middle],
) -> Result<(), AllocError>
    requires hubs { count + count + length longest.now ≤ length graph.old }
    requires writers { AreWritersBelow count writers.now }
    requires keys { AreWriterKeysBelow (length longest.now) writers.now }
    requires middles { length middles.now ≡ length longest.now }
    ensures { OnOk result (AddsSteps
        (IsAnyUnreadPointStep count writers.now there.now marks.now longest.now middles.now)
        graph.old graph.new) }
{
    for element in 0..writers.len() {
        add_unread_step(
            graph, count, writers, there, marks, longest, middles, element,
        )?;
    }
    Ok(())
}

/// Adds the steps to the writer of an element, if nobody read this and the writer must be there.
fn add_unread_step(
    graph: &mut [Vec<Step>],
    count: usize,
    writers: &[Option<Writer>],
    there: &[bool],
    marks: &[bool],
    longest: &[Option<DoneRead<'_>>],
    middles: &[Middle],
    element: usize,
) -> Result<(), AllocError>
    requires element { element < length writers.now }
    requires hubs { count + count + length longest.now ≤ length graph.old }
    requires writers { AreWritersBelow count writers.now }
    requires keys { AreWriterKeysBelow (length longest.now) writers.now }
    requires middles { length middles.now ≡ length longest.now }
    ensures { OnOk result (AddsSteps
        (IsUnreadPointStep count writers.now there.now marks.now longest.now middles.now element)
        graph.old graph.new) }
{
    match writers[element] {
        None => Ok(()),
        Some(writer) => {
            if is_marked(there, writer.place) && !is_marked(marks, element) {
                add_writer_steps(graph, count, writers, longest, middles, &writer, element)
            } else {
                Ok(())
            }
        }
    }
}

/// Adds all steps to the writer of an element that nobody read.
fn add_writer_steps(
    graph: &mut [Vec<Step>],
    count: usize,
    writers: &[Option<Writer>],
    longest: &[Option<DoneRead<'_>>],
    middles: &[Middle],
    writer: &Writer,
    element: usize,
) -> Result<(), AllocError>
    requires hubs { count + count + length longest.now ≤ length graph.old }
    requires writers { AreWritersBelow count writers.now }
    requires place { writer.now.place < count }
    requires key { writer.now.key < length longest.now }
    requires middles { length middles.now ≡ length longest.now }
    ensures { OnOk result (AddsSteps
        (IsWriterStep count writers.now longest.now middles.now writer.now element)
        graph.old graph.new) }
{
    let step = Step {
        place: count + count + writer.key,
        why: Why::ReadWrite {
            key: writer.key,
            element,
        },
    };
    add(graph, step, count + writer.place)?;
    add_behind_step(graph, count, writers, longest, writer)?;
    add_first_committer_step(graph, count, middles, writer)
}

/// Adds the step to a writer from that of the last element of its key, if there is one.
fn add_behind_step(
    graph: &mut [Vec<Step>],
    count: usize,
    writers: &[Option<Writer>],
    longest: &[Option<DoneRead<'_>>],
    writer: &Writer,
) -> Result<(), AllocError>
    requires nodes { count + count ≤ length graph.old }
    requires writers { AreWritersBelow count writers.now }
    requires place { writer.now.place < count }
    requires key { writer.now.key < length longest.now }
    ensures { OnOk result
        (AddsSteps (IsBehindStep count writers.now longest.now writer.now) graph.old graph.new) }
{
    match longest[writer.key] {
        None => Ok(()),
        Some(read) => match read.seen.last() {
            None => Ok(()),
            Some(last) => add_last_step(graph, count, writers, writer, read.place, *last),
        },
    }
}

/// Adds the step to a writer from that of an element, which the reader at a place saw last.
fn add_last_step(
    graph: &mut [Vec<Step>],
    count: usize,
    writers: &[Option<Writer>],
    writer: &Writer,
    reader: usize,
    last: usize,
) -> Result<(), AllocError>
    requires nodes { count + count ≤ length graph.old }
    requires writers { AreWritersBelow count writers.now }
    requires place { writer.now.place < count }
    ensures { OnOk result
        (AddsSteps (IsLastStep count writers.now writer.now reader last) graph.old graph.new) }
{
    match writer_of(writers, writer.key, last) {
        None => Ok(()),
        Some(first) => {
            if first == writer.place {
                Ok(())
            } else {
                let why = last_reason(reader, first, writer.key, last);
                let place = count + first;
                add(graph, Step { place, why }, writer.place)
            }
        }
    }
}

/// Why the writer of the last element comes before one that appends more.
fn last_reason(reader: usize, first: usize, key: usize, element: usize) -> Why
    ensures { result ≡ last_why reader first key element }
{
    if reader == first {
        Why::FirstCommitter { key, element }
    } else {
        Why::WriteWrite { key, element }
    }
}

/// Adds the step to a writer from the transaction in the middle of its key, if there is one.
fn add_first_committer_step(
    graph: &mut [Vec<Step>],
    count: usize,
    middles: &[Middle],
    writer: &Writer,
) -> Result<(), AllocError>
    requires nodes { count + count ≤ length graph.old }
    requires place { writer.now.place < count }
    requires key { writer.now.key < length middles.now }
    ensures { OnOk result
        (AddsSteps (IsFirstCommitterStep count middles.now writer.now) graph.old graph.new) }
{
    let Middle { node, why } = middles[writer.key];
    match why {
        Why::ReadWrite { key, element } => {
            if node < count && node != writer.place {
                let why = Why::FirstCommitter { key, element };
                let place = count + node;
                add(graph, Step { place, why }, writer.place)
            } else {
                Ok(())
            }
        }
        _ => Ok(()),
    }
}
