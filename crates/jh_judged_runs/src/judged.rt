//! A serial run, and what is found in its history. `specs/JudgedRuns.antt` has the rule.

ghost use Rattle.std.specs.Prelude.{◌≡◌, IfOk, MatchResult};
ghost use Rattle.jh_ops.specs.Operation.{operations};
ghost use Rattle.jh_simnode.specs.Runs.{Stops, setup_of};
ghost use Rattle.jh_judged_runs.specs.JudgedRuns.{IsJudgedRun};

use crate::judging::run_judging;
use jh_check::CheckError;
use jh_checkers::{Finding, check_history};
use jh_ops::Op;
use jh_run_laws::{own_histories_are_judged, own_lines_are_text};
use jh_simnode::{Plan, RunError, World, run_serial};
use std::alloc::Global;

/// A run, with what is found in its history.
#[derive(Drop)]
pub struct JudgedRun {
    /// The world behind the last event of the run.
    pub world: World,
    pub history: Vec<Op>,
    /// What the checker of the plan's workload finds in the history.
    pub finding: Finding,
}

/// Runs a plan serially, and judges its history by the checker of its workload, with this budget for
/// a register. The same plan gives the same history each time (`jh_simnode::one_run`).
///
/// Errors: `Stuck` where in one round no thread got a call; `OutOfMemory`, or `World` with
/// `WorldError::OutOfMemory`.
/// No checker refuses the history of a serial run (`jh_run_laws::own_histories_are_judged`).
///
/// Takes what `run_serial` takes, and then what the checker takes.
pub fn judge_run(alloc: Global, plan: &Plan, budget: u64) -> Result<JudgedRun, RunError>
    ensures judged { MatchResult result
        (λ run. IsJudgedRun plan.now budget
        run.world.journal (operations run.history.items) run.finding)
        (Stops plan.now) }
    ensures setup { IfOk result (λ run. run.world.setup ≡ setup_of plan.now) }
{
    // By these laws no checker refuses the history of a run, and its printed lines are a text of it.
    own_histories_are_judged();
    own_lines_are_text();
    let (world, history) = run_serial(alloc, plan)?;
    match check_history(alloc, &history, run_judging(plan, budget)) {
        Ok(finding) => Ok(JudgedRun {
            world,
            history,
            finding,
        }),
        Err(CheckError::OutOfMemory) => Err(RunError::OutOfMemory),
        Err(_) => unreachable!(),
    }
}
