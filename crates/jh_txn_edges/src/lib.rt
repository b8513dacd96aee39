//! Graphs of dependencies between transactions, with a number of steps linear in the history.
#![tactic(auto)]

mod fork;
mod graph;
mod moments;
mod reads;
mod steps;
mod unread;
mod writers;

pub use fork::fork_graph;
pub use graph::graph_of;
pub use steps::{add, add_nodes, no_steps};
