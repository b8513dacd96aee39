//! The transactions of a history judged: what is found in them.
#![tactic(auto)]

mod found;
mod shown;

pub use found::find_transactions;
