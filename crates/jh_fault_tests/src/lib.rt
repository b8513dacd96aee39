//! Tests of the crates that say what faults make of a cluster: environments, grudges, the nemesis and its steps.
//!
//! A module is named after the crate whose public calls it tests, and says what its tests show; `env` has `jh_grudge` too, and `nemesis`
//! has `jh_step_texts`. A module `plain_X` is a plain slow program of which nothing is claimed: the module `X` compares
//! with it, and `env` with `plain_grudge`. `first` has what the READMEs of these crates show.
#![tactic(auto)]

#[cfg(test)]
mod env;
#[cfg(test)]
mod first;
#[cfg(test)]
mod nemesis;
#[cfg(test)]
mod plain_grudge;
#[cfg(test)]
mod plain_nemesis;
