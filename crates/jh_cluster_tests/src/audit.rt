//! Tests of `jh_audit`, through its public calls alone: histories with one thing wrong, a long one, and
//! random ones beside the audit of `plain_audit`. What the clauses
//! say is proved: a test is for values that come from outside, and one is of a history as long as that of a run may be.
//!
//! `rows` says what a row is. What a row needs is made once more where memory was refused, so that the tests stand one
//! refused allocation.

mod audits;
mod histories;
mod long;
mod random;
mod rows;
