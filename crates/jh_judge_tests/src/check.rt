//! Tests of `jh_check` and `jh_linear`, through their public calls alone: what no clause says. A row of `rows` is a
//! history and what is answered; `random` compares the crates with the programs of `plain_check`.
//!
//! Each test passes, too, where one allocation is refused: what answers so is asked again.

mod checkers;
mod random;
mod register;
mod rows;
mod writing;
