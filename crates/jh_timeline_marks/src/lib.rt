//! What a checker found in a history, as marks of its page.
#![tactic(auto)]

mod bank;
mod completed;
mod counter;
mod fifo;
mod held;
mod ids;
mod marked;
mod notes;
mod operations;
mod orders;
mod pairs;
mod places;
mod queues;
mod register;
mod set;
mod set_full;
mod transactions;
mod values;

pub use marked::marks_of;
pub use orders::operation_numbers;
