//! Tests of `jh_drive`, and through it of `jh_conversation` and `jh_test_parts`: what is written to which replies, byte for
//! byte. What the clauses say is proved; a row shows that they were meant so, that a test comes to its end, and that
//! memory suffices where there is some.
//!
//! What runs out of memory is made once more, so that the tests stand one refused allocation.

mod calls;
mod drives;
mod once;
mod streams;
