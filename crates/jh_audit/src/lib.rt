//! The audit of a run: whether its history and its journal tell the same, and whether they keep to
//! its plan.
//!
//! No call takes memory or waits.
#![tactic(auto)]

mod checks;
mod decode;
mod forms;
mod horizon;
mod planned;
mod replies;
mod ticks;
mod turns;

pub use checks::{AuditFault, audit};
pub use planned::follows_plan;
