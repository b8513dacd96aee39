//! What the reads of numbered transactions show: all reads in one list, the longest one of each key,
//! who must be there, and what stands between those who read all of a key and the writers of what
//! nobody read.
#![tactic(auto)]

mod done_reads;
mod longest;
mod marks;
mod middles;
mod places;

pub use done_reads::{DoneRead, is_done, reads_of};
pub use longest::{Longest, longest_at, longest_reads};
pub use marks::{is_marked, mark_elements, marks_of, marks_of_read};
pub use middles::{Middle, is_full, middles_of};
pub use places::writer_of;
