//! Tests of `jh_ops`, `jh_histories` and `jh_slots`, through their public calls alone: what no clause says. What the clauses say is
//! proved: a test is for values and texts that come from outside, and shows that memory suffices where there is some.
//!
//! The tests of `jh_ops` and `jh_histories` are rows of calls with their answers: `rows` says what a row is, `operations`,
//! `histories`, `words` and `names` what may be called. The tests of `jh_slots` are worked examples. `random` and `same_slots` compare both with
//! plain slow programs on what looks random.

mod histories;
mod names;
mod operations;
mod players;
mod random;
mod rows;
mod same_slots;
mod slots;
mod words;
