//! Tests of `jh_gen` and `jh_gen_texts`, through their public calls alone: what no clause says, and worked examples from outside. What the
//! clauses say is proved; so a test shows that they were meant so, that memory suffices where there is some, and what
//! is printed. A row of `rows` is a call and its answer; `runs` compares the driver with a plain slow one.
//!
//! Each test passes, too, where one allocation is refused: the call that answers so is made again.

mod drivers;
mod rows;
mod runs;
mod suits;
mod texts;
mod written;
