//! The checker of a first-in-first-out queue: the judge of `jh_fifo` over the operations of a history.
#![tactic(auto)]

mod finding;
mod histories;
mod laws;
mod lines;

pub use finding::{FifoFinding, check_fifo, named_by_verdict};
pub use laws::{fifo_verdicts_agree, numbers_tell};
pub use lines::write_fifo;
