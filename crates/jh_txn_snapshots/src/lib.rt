//! Snapshot orders by a number of dependencies linear in the history, and by what single reads say.
#![tactic(auto)]

mod laws;

pub use laws::{
    kept_points_explain_reads, next_points_are_dependencies, next_points_suffice, overlaps_exclude,
    point_cycles_are_cycles, reads_say_dependencies, serial_orders_are_snapshot_orders,
    untold_writers_are_apart,
};
