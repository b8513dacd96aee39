//! Tests of `jh_checkers`, through its public calls alone: what no clause says. A row of `rows` is a history and the line of
//! what is found in it, or the message of the error.
//!
//! Each test passes, too, where one allocation is refused: what answers so is asked again.

mod checkers;
mod explained;
mod queues;
pub(crate) mod rows;
mod transactions;
mod writing;
