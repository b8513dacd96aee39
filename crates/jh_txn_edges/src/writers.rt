//! Steps from writer to writer along the longest reads.

ghost use Rattle.std.specs.Prelude.{length, OnOk};
ghost use Rattle.jh_txn_edges.specs.Inside.{AddsSteps};
ghost use Rattle.jh_txn_edges.specs.Steps.{IsAlong, IsAlongStep, IsPairStep};
ghost use Rattle.jh_txn_seen.specs.Places.{AreWritersBelow};

use crate::steps::add_other;
use jh_txn::{Step, Why};
use jh_txn_seen::{DoneRead, longest_at, writer_of};
use jh_txn_writers::Writer;
use std::alloc::AllocError;

/// Adds the steps along the longest read of each key.
pub(crate) fn add_along_all(
    graph: &mut [Vec<Step>],
    writers: &[Option<Writer>],
    longest: &[Option<DoneRead<'_>>],
) -> Result<(), AllocError>
    requires { AreWritersBelow (length graph.old) writers.now }
    ensures { OnOk result
        (AddsSteps (IsAlongStep writers.now longest.now) graph.old graph.new) }
{
    for key in 0..longest.len() {
        add_along(graph, writers, key, longest_at(longest, key))?;
    }
    Ok(())
}

/// Adds the steps from writer to writer along a list of a key.
pub(crate) fn add_along(
    graph: &mut [Vec<Step>],
    writers: &[Option<Writer>],
    key: usize,
    seen: &[usize],
) -> Result<(), AllocError>
    requires { AreWritersBelow (length graph.old) writers.now }
    ensures { OnOk result
        (AddsSteps (IsAlong writers.now key seen.now) graph.old graph.new) }
{
    for next in 1..seen.len() {
        add_pair(graph, writers, key, seen[next - 1], seen[next])?;
    }
    Ok(())
}

/// Adds the step from the writer of an element to that of another one.
fn add_pair(
    graph: &mut [Vec<Step>],
    writers: &[Option<Writer>],
    key: usize,
    one: usize,
    other: usize,
) -> Result<(), AllocError>
    requires { AreWritersBelow (length graph.old) writers.now }
    ensures { OnOk result
        (AddsSteps (IsPairStep writers.now key one other) graph.old graph.new) }
{
    let why = Why::WriteWrite { key, element: one };
    match writer_of(writers, key, one) {
        None => Ok(()),
        Some(place) => match writer_of(writers, key, other) {
            None => Ok(()),
            Some(target) => add_other(graph, Step { place, why }, target),
        },
    }
}
