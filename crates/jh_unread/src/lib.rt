//! Texts of histories without the pairs that no reader of an operation asks for and that can't be read.
#![tactic(auto)]

mod blanking;
mod nesting;
mod pairs;
mod parts;
mod walking;

pub use walking::without_unread;
