//! Tests of `jh_workers`, through its public calls alone: runs on threads over locked worlds, ports that show that
//! threads run at once, and histories that are gathered from a log. What the clauses say is proved: a test is for values
//! that come from outside, shows that a run does give an outcome, and that memory suffices where there is some.
//!
//! Threads run in another order each time, so only what is true of all orders is tested. A test that runs out of memory
//! once tries again, so that it stands one refused allocation.
#![tactic(auto)]

#[cfg(test)]
mod first;
#[cfg(test)]
mod gate;
#[cfg(test)]
mod gathers;
#[cfg(test)]
mod journals;
#[cfg(test)]
mod outcomes;
#[cfg(test)]
mod rows;
#[cfg(test)]
mod runs;
#[cfg(test)]
mod shares;
#[cfg(test)]
mod texts;
