//! The checker of a queue, each of whose dequeues comes from an enqueue.
#![tactic(auto)]

mod laws;
mod lines;
mod passages;
mod queue;

pub use laws::each_takes_its_own;
pub use lines::write_queue;
pub use queue::{QueueResult, check_queue};
