//! What the checker of a workload finds in one history: a table with a row for each checker.
//!
//! `specs/Checkers.antt` has the checkers with their names, `specs/Findings.antt` what each finds and
//! why it judges no history, `specs/Lines.antt` the line of what is found. A new checker is a case of
//! `Checker` and of `Finding`, and a line in each definition and each `match` over them.
#![tactic(auto)]

mod bank;
mod checker;
mod explanation;
mod finding;
mod laws;
mod lines;
mod models;
mod register;
mod transactions;

pub use checker::Checker;
pub use explanation::{Explanation, named_by_unique_reason};
pub use finding::{Finding, Judging, check_history};
pub use laws::findings_agree;
pub use lines::write_finding;
pub use models::model_named;
