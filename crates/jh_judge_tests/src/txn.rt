//! Tests of `jh_txn` and of the crates that judge transactions by it, `jh_numbers`, `jh_txn_histories` and `jh_txn_check`
//! with what stands below, through their public calls alone: what no clause says. A row of `rows` is transactions with
//! an order, and what is said of it; a row of `judged` is a history, and what the judge finds in it.
//!
//! Each test passes, too, where one allocation is refused: what answers so is asked again.

mod first;
mod histories;
mod judged;
mod numbers;
mod orders;
mod rows;
