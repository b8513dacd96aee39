//! What comes of a plan: the verdict on its serial run. `specs/Search.antt` has the rule.

ghost use Rattle.std.specs.Prelude.{IfOk};
ghost use Rattle.jh_search.specs.Search.{ComesOf, IsPlanVerdict};

use crate::candidates::candidate;
use crate::options::Options;
use jh_check::Verdict;
use jh_judged_runs::judge_run;
use jh_simnode::{Plan, RunError};
use std::alloc::{AllocError, Global};

/// What comes of a plan. A run that is stuck is unknown.
fn verdict_of_plan(alloc: Global, plan: &Plan, budget: u64) -> Result<Verdict, AllocError>
    ensures { IfOk result (IsPlanVerdict plan.now budget) }
{
    match judge_run(alloc, plan, budget) {
        Ok(run) => Ok(run.finding.verdict()),
        Err(RunError::Stuck) => Ok(Verdict::Unknown),
        Err(_) => Err(AllocError),
    }
}

/// What comes of the candidate of this number.
pub(crate) fn verdict_at(
    alloc: Global,
    plan: &Plan,
    options: &Options,
    number: u64,
) -> Result<Verdict, AllocError>
    ensures { IfOk result (ComesOf plan.now options.now number) }
{
    let candidate = candidate(alloc, plan, options, number)?;
    verdict_of_plan(alloc, &candidate, options.budget)
}
