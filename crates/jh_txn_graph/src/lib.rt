//! Graphs of transactions: an order that keeps each step, or a cycle.
#![tactic(auto)]

mod graph;
mod hubs;
mod loops;
mod walk;

pub use graph::{OrderOrCycle, order_or_cycle};
pub use loops::cycle_in;
