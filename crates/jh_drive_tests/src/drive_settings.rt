//! Tests of `jh_drive_settings`, through its public calls alone: which settings mean which test, and the texts of
//! refusals. What the clauses say is proved; a row shows that they were meant so, and that memory suffices where there
//! is some.
//!
//! What runs out of memory is made once more, so that the tests stand one refused allocation.

mod documents;
mod rows;
