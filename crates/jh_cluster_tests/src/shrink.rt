//! Tests of `jh_shrink`, through its public calls alone: edits, one after another, with what they leave; and schedules that are
//! made small by judges of which it is known what they need. What the clauses say is proved: a test is for values that come
//! from outside, and shows that memory suffices where there is some.
//!
//! What runs out of memory is made once more, so that the tests stand one refused allocation.

mod editors;
mod entries;
mod judges;
