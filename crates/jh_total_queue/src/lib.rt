//! The checker of queues: what goes in must come out.
#![tactic(auto)]

mod dequeued;
mod lines;
mod lists;
mod total_queue;

pub use dequeued::taken_by;
pub use lines::write_total_queue;
pub use total_queue::{TotalQueueResult, check_total_queue};
