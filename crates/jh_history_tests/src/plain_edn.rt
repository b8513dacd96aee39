//! A plain slow reader of EDN, and texts that look random: `edn` compares the reader of
//! `jh_edn` with it.
//!
//! It goes from item to item; what is open at a place is a pile of brackets, tags and discards.

mod equality;
mod items;
mod pieces;
mod pile;
mod reader;
mod texts;
mod tokens;
mod value;

pub use reader::{line_behind, read_slowly};
pub use texts::random_text;
pub use value::{PlainError, PlainKind, PlainValue};
