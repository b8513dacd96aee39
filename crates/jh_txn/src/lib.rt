//! Transactions over lists (Kingsbury and Alvaro, "Elle", 2020): the orders that explain what they read, and
//! what excludes every order: a read that none explains, or a cycle of dependencies (Adya, "Weak consistency",
//! 1999). The heads of `specs/` name the papers of each definition.
#![tactic(auto)]

mod anomaly;
mod dependency;
mod laws;
mod model;
mod order_check;
mod phases;
mod reads;
mod snapshot_check;
mod starts;
mod txn;
mod writers;

pub use anomaly::BadRead;
pub use dependency::{Step, Why};
pub use laws::{
    bad_reads_exclude, cycles_exclude, dependencies_order, dependencies_suffice,
    kept_reads_are_explained, next_dependencies_suffice, told_writers_are_apart,
};
pub use model::ConsistencyModel;
pub use order_check::{are_keys_below, check_order};
pub use snapshot_check::check_snapshot_order;
pub use txn::{Elements, MicroOp, MicroOps, Outcome, Point, Txn};
