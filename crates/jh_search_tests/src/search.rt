//! Tests of `jh_search` and `jh_tasks`, through their public calls alone: candidates worked out by another program, random ones beside the plain
//! ones of `plain_search`, searches, and tasks that threads share. What the clauses say is proved: a test is for values that come from outside, and shows
//! that memory suffices where there is some.
//!
//! What runs out of memory is made once more, so that the tests stand one refused allocation.

mod candidates;
mod first;
pub(crate) mod fixtures;
mod order;
mod searches;
mod tasks;
