//! Checkers of histories: the elements of a set, the bounds of a counter, and unique ids; and what
//! checkers of other crates share with them.
#![tactic(auto)]

mod asked;
mod counter;
mod distinct;
mod elements;
mod error;
mod ids;
mod laws;
mod lines;
mod pairs;
mod set;
mod shown;
mod tally;
mod tally_lines;
mod totals;
mod verdict;

pub use asked::{in_normal_order, push_normal, sorted_normal, sorted_values};
pub use counter::{CounterResult, ReadBounds, Reads, check_counter, is_within, read_ends};
pub use distinct::{each_once, is_among, is_same, selected};
pub use error::CheckError;
pub use ids::{IdsResult, check_unique};
pub use laws::same_values_are_equal;
pub use lines::{write_count, write_counter, write_ids, write_keyword, write_set, write_verdict};
pub use pairs::{asks, end_of, has_ended, is_ok_read, op_at, value_at};
pub use set::{SetFound, SetResult, check_set, elements_shown, final_read};
pub use shown::operations_of;
pub use tally::{Counted, Tally, push_repeated};
pub use tally_lines::{separate, write_tally};
pub use verdict::{Verdict, merge};
