//! What a page of histories shows: which records of a history, the sections that are made of it, the title,
//! and the verdict that the input says.
#![tactic(auto)]

mod key_sections;
mod laws;
mod nemesis;
mod said;
mod section;
mod title;
mod window;

pub use key_sections::sections_of_keys;
pub use laws::limits;
pub use said::said_verdict;
pub use section::section_of;
pub use title::{title_of, title_of_keys};
pub use window::{Choice, MAX_WHOLE, SHOWN_AROUND, SHOWN_BEFORE};
