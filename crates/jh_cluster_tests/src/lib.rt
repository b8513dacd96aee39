//! Tests of the crates that run a cluster under faults: simulated runs, their audit, and schedules made small.
//!
//! A module is named after the crate whose public calls it tests, and says what its tests show; `simnode` has `jh_settings` too. A
//! module `plain_X` is a plain slow program of which nothing is claimed: the module `X` compares with it. `first` has what the
//! READMEs of these crates show.
#![tactic(auto)]

#[cfg(test)]
mod audit;
#[cfg(test)]
mod first;
#[cfg(test)]
mod plain_audit;
#[cfg(test)]
mod plain_simnode;
#[cfg(test)]
#[cfg(test)]
mod shrink;
#[cfg(test)]
mod simnode;
