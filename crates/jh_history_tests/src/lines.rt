//! Tests of `jh_lines`, through its public calls alone, with a small machine that quotes lines, and peers that give pieces of lines,
//! several at once, an end in the midst of one, and failures. What the clauses say is proved: a test is for values that
//! come from outside, which error a conversation ends with, and that memory suffices where there is some.
//!
//! What runs out of memory is made once more, so that the tests stand one refused allocation.

mod hearing;
mod quoter;
mod scripts;
mod streams;
