//! The steps from starts to commits. `specs/PointSteps.antt` says which steps there are; how a step is
//! added stands in jh_txn_edges.

ghost use Rattle.std.specs.Prelude.{◌≤◌, ◌+◌, length, OnOk};
ghost use Rattle.jh_txn_edges.specs.Inside.{AddsSteps};
ghost use Rattle.jh_txn_points.specs.PointSteps.{IsCommitStep};

use jh_txn::{Step, Why};
use jh_txn_edges::add;
use std::alloc::AllocError;

/// Adds the step from the start of each transaction to its commit.
pub(crate) fn add_commit_steps(graph: &mut [Vec<Step>], count: usize) -> Result<(), AllocError>
    requires { count + count ≤ length graph.old }
    ensures { OnOk result (AddsSteps (IsCommitStep count) graph.old graph.new) }
{
    for place in 0..count {
        let why = Why::RealTime;
        add(graph, Step { place, why }, count + place)?;
    }
    Ok(())
}
