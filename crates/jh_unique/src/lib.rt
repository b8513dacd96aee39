//! A linearizability checker for a register each of whose values is written once at most (Gibbons and Korach,
//! "Testing shared memories", SIAM J. Comput. 26, 1997). Compare-and-set and operations of unknown outcome are
//! this project's own. Of a register that is none such, `check_register` asks `jh_linear`.
//!
//! A cluster is the values to which compare-and-sets lead from one beginning, the initial value or one write;
//! its operations are those that leave one of these values. In each order they stand together, so clusters are
//! put in an order, and not single operations. `specs/Unique.antt` has the definitions, `judge.rt` the files in the
//! order in which they are asked.
#![tactic(auto)]

mod behind;
mod calls;
mod cuts;
mod flat;
mod judge;
mod keys;
mod late;
mod laws;
mod lists;
mod marks;
mod nils;
mod register;
mod sorted;
mod tables;
mod verdict;
mod walk;
mod writers;

pub use judge::judge_unique;
pub use laws::{clusters_stand_together, reasons_exclude};
pub use register::check_register;
pub use verdict::{UniqueReason, UniqueVerdict};
