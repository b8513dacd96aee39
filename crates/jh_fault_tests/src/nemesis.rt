//! Tests of `jh_nemesis` and `jh_step_texts`, through their public calls alone: worked examples of steps back and forth, of
//! their texts and those of faults, and the messages of errors. What the clauses say is proved: a test is for values and
//! texts that come from outside, and shows that memory suffices where there is some.
//!
//! A row is a line: what is called or read, an arrow, and the answer. Each module says what its calls are. `random` takes
//! random steps beside the one of `plain_nemesis`.

mod fault_texts;
mod messages;
mod random;
mod steps;
mod texts;
mod written;
