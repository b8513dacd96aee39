//! What the history of a run is judged by. `specs/JudgedRuns.antt` has the rule.

ghost use Rattle.std.specs.Prelude.{◌≡◌};
ghost use Rattle.jh_judged_runs.specs.JudgedRuns as rule;

use jh_checkers::{Checker, Judging};
use jh_simnode::Plan;

/// What the history of a run of the plan is judged by, with a budget for a register: the checker of
/// the plan's workload, from what a register holds at first. A no is not explained. Options
/// of other checkers are not used, since no cluster runs their workloads.
pub fn run_judging(plan: &Plan, budget: u64) -> Judging<'static>
    ensures { result ≡ rule.run_judging plan.now budget }
{
    Judging {
        initial: plan.initial(),
        ..Judging::by(Checker::of(plan.workload()), budget)
    }
}
