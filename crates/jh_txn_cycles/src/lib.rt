//! Which cycle of a graph is shown to a person: one of the first kind that there is, and short.
#![tactic(auto)]

mod choice;
mod part;
mod readable;
mod search;

pub use readable::order_or_short_cycle;
