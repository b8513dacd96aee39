//! Where and why an input was refused, in lines for whoever gave it: behind the one line of the error, which
//! names a line or a number, they show the token, its column, the brackets that are open, or where the
//! operation begins. Nothing is judged here: what is refused, and for which reason, is known before.
//! `specs/Lines.antt` has each line, `specs/Places.antt` where things stand.
#![tactic(auto)]

mod lines;
mod operations;
mod places;
mod replies;
mod texts;

pub use operations::{element_reasons, operation_reasons};
pub use replies::reply_reasons;
pub use texts::{InputKind, text_reasons};
