//! Tests of the crates that judge histories, and of those that draw what was found: checkers, the judge of a register,
//! independent keys, transactions, pages and their marks.
//!
//! A module is named after the crate whose public calls it tests, and says what its tests show; `check` has `jh_linear` too,
//! `txn` has all crates that judge transactions, and `pages` has `jh_timeline`. A module `plain_X` is a plain slow program of
//! which nothing is claimed: the module `X` compares with it. `first` has what the READMEs of these crates show.
#![tactic(auto)]

#[cfg(test)]
mod check;
#[cfg(test)]
mod checkers;
#[cfg(test)]
mod first;
#[cfg(test)]
mod independent;
#[cfg(test)]
mod marks;
#[cfg(test)]
mod narrow;
#[cfg(test)]
mod pages;
#[cfg(test)]
mod plain_check;
#[cfg(test)]
mod plain_independent;
#[cfg(test)]
mod spelled;
#[cfg(test)]
mod txn;
