//! Operations and their pairs found slowly, straight from their definitions, and records that look
//! random: `ops` compares `jh_ops` with them.
//!
//! A value is its text, as it is printed.

mod pairs;
mod plain;
mod random;
mod records;

pub use pairs::{Step, pairs_slowly};
pub use plain::{PlainOp, history_slowly, op_slowly};
pub use random::{random_records, random_steps};
pub use records::{Held, Record, Records, Words};
