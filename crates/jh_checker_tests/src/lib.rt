//! Tests of the checkers that stand in crates of their own, through their public calls alone: what no clause says, with rows that
//! were worked out by hand, and with plain slow programs (`plain`) on random histories (`random`).
#![tactic(auto)]

#[cfg(test)]
mod banks;
#[cfg(test)]
mod plain;
#[cfg(test)]
mod queues;
#[cfg(test)]
mod random;
#[cfg(test)]
mod rows;
#[cfg(test)]
mod sets;
#[cfg(test)]
mod unique;
