//! Tests of `jh_independent`, through its public calls alone: what no clause says. A row of `rows` is a history and what is
//! answered, by the serial call and on several threads; `random` compares both with the program of
//! `plain_independent`; `histories` has the history of each key; `gates` shows that threads run at once, and what is answered of
//! keys that are not let in.
//!
//! Each test passes, too, where one allocation is refused: what answers so is asked again.

mod errors;
mod explained;
mod findings;
mod gates;
mod histories;
mod keys;
mod random;
mod rows;
mod writing;
