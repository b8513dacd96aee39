//! Tests of `jh_test_candidates`, through its public call alone: a candidate has the schedule that `jh_search` gives a run of the same nodes, which
//! values from outside are compared with. What the clauses say is proved.
//!
//! What runs out of memory is made once more, so that the tests stand one refused allocation.

mod beside;
mod first;
