//! Graphs of the starts and commits of transactions, for whoever looks for a snapshot order.
#![tactic(auto)]

mod fork;
mod graph;
mod kept;
mod laws;
mod steps;
mod unread;

pub use fork::fork_points_of;
pub use graph::points_of;
pub use laws::{
    fork_graphs_are_searchable, fork_paths_are_dependencies, forks_have_no_order,
    graphs_are_searchable, orders_keep_next_dependencies, paths_are_dependencies,
};
