//! Numbered tasks that threads share: a thread that is free takes the next one.
#![tactic(auto)]

mod board;
mod laws;
mod tasks;

pub use laws::limits;
pub use tasks::{MAX_THREADS, Task, TaskAnswers, answer_tasks};
