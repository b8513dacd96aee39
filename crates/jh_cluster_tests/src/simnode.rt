//! Tests of `jh_simnode` and `jh_settings`, through their public calls alone: worked examples of stores, worlds, plans,
//! runs and settings, the texts of errors, and random events beside the cluster of `plain_simnode`. What the
//! clauses say is proved: a test is for values that come from outside, and shows that memory suffices where there is
//! some.
//!
//! `rows` says what a row is. A row is asked once more where memory was refused, so that the tests stand one refused
//! allocation.

mod copies;
mod documents;
mod fixtures;
mod messages;
mod plain;
mod plans;
mod rows;
mod runs;
mod settings;
mod stores;
mod worlds;
