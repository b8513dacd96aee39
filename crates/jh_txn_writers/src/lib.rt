//! Numbered transactions: who appends each element, and what the same transaction appends to the
//! same key just before and behind it.
#![tactic(auto)]

mod table;
mod writer;

pub use table::writers_of;
pub use writer::Writer;
