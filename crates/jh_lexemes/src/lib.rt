//! The lexemes of EDN texts, also of texts that the reader refuses: what stands where, which brackets
//! are open, and at which line and column.
#![tactic(auto)]

mod laws;
mod lexeme;
mod marks;
mod opened;
mod position;
mod quoted;
mod tag;

pub use laws::lexemes_are_whole;
pub use lexeme::{Bracket, Lexeme, lexeme_at};
pub use opened::open_brackets;
pub use position::{Position, position_of};
