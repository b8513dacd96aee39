//! Tests of `jh_bands`, through its public calls alone: what no clause says, with rows that were worked out by hand.
#![tactic(auto)]

#[cfg(test)]
mod bands;
#[cfg(test)]
mod lines;
#[cfg(test)]
mod rows;
