//! What a judge of transactions found, as users see it, and the line of it.
//!
//! `specs/CycleNames.antt` names cycles, `specs/Lines.antt` has the line, `specs/Found.antt` says how a
//! step has the values of its numbers.
#![tactic(auto)]

mod cycle_name;
mod elements;
mod finding;
mod lines;
mod steps;

pub use cycle_name::{CycleKind, CycleName, name_of_cycle};
pub use finding::{FoundStep, FoundWhy, TxnFinding};
pub use lines::write_txn_finding;
pub use steps::found_steps;
