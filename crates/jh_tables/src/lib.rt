//! Counted tables: what a link and a node are like, faults that are put on them and taken off, and
//! how often a count, a sum or an entry is written for it.
#![tactic(auto)]

mod cells;
mod changing;
mod counted;
mod entries;
mod faults;
mod laws;
mod nodes;
mod reading;
mod tables;

pub use cells::{Life, Link, NodeCell};
pub use counted::MAX_NODES;
pub use faults::{LinkFault, NodeFault, PlainFault};
pub use laws::limits;
pub use nodes::Node;
pub use tables::{MAX_LAID, Tables};
