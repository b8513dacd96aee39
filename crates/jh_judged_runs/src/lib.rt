//! Serial runs of a plan, each judged by the checker of the plan's workload. `specs/JudgedRuns.antt`
//! has the rule. `run`, `search` and `shrink` judge serial runs by `judge_run` alone. `run` judges a run on
//! threads by the same `run_judging`.
#![tactic(auto)]

mod judged;
mod judging;

pub use judged::{JudgedRun, judge_run};
pub use judging::run_judging;
