//! Tests of the crates of which histories are made: EDN texts, operations and their logs, generators, and conversations by lines.
//!
//! A module is named after the crate whose public calls it tests, and says what its tests show; `ops` has `jh_histories` and
//! `jh_slots` too. A module `plain_X` is a plain slow program of which nothing is claimed: the module `X` compares with
//! it. `first` has what the READMEs of these crates show.
#![tactic(auto)]

#[cfg(test)]
#[cfg(test)]
mod edn;
#[cfg(test)]
mod first;
#[cfg(test)]
mod generators;
#[cfg(test)]
mod lines;
#[cfg(test)]
mod one_by_one;
#[cfg(test)]
mod ops;
#[cfg(test)]
mod plain_edn;
#[cfg(test)]
mod plain_generators;
#[cfg(test)]
mod plain_ops;
#[cfg(test)]
mod plain_slots;
