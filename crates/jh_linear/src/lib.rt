//! A linearizability checker for a register with read, write and compare-and-set (Herlihy and Wing
//! 1990): whether each operation can have taken effect at one moment between its invocation and its
//! completion. A yes carries a linearization, and a no is proved. A mutex is judged as such a
//! register, which has one number while the mutex is free and another while it is held.
//!
//! `check` is the search of Wing and Gong (1993) with Lowe's cache of configurations (2017). A
//! configuration is what has been linearized so far, and the value that the register then has.
//! Each is entered once, and the best is taken first. `judge.rt` has the search, and a list of its
//! prunings with the lemma of each that it loses no linearization.
//!
//! The other files, in the order in which they rest on one another: `register.rt` has the register
//! and its operations, `operations.rt` finds these in a history, `sorted_ops.rt` sorts them,
//! `config.rt` has configurations, `moves.rt` and `wanted.rt` say which operations are tried next,
//! `walk.rt` goes on where there is one way only, `search.rt` has the cache, `queue.rt` the ranks,
//! and `stuck.rt` the reason of a no. `order_check.rt` checks a given linearization.
#![tactic(auto)]

mod config;
mod judge;
mod moves;
mod operations;
mod order_check;
mod queue;
mod register;
mod search;
mod sorted_ops;
mod stuck;
mod verdict;
mod walk;
mod wanted;

pub use judge::check;
pub use operations::{FREE, HELD, Object, RegOpsError, reg_op, reg_ops};
pub use order_check::{OrderFault, check_order};
pub use register::{Outcome, RegCall, RegOp, op_end};
pub use verdict::{LinVerdict, Linearization, Reached, Step, Stuck};
