//! Tests of `jh_env` and `jh_grudge`, through their public calls alone: worked examples of names, starting environments, faults
//! and what they make of an environment, of texts and of grudges, and the messages of errors. What a clause says is proved: a
//! test is for values and texts that come from outside.
//!
//! A row is a line: what is called, ` => `, and the answer. Each module says what its calls are.

mod environment;
mod faults;
mod grudge;
mod largest;
mod names;
mod rows;
mod same_grudges;
mod starting;
mod taking;
mod texts;
