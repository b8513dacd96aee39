//! What is drawn of a history: calls as bars in lanes, and marks at calls.
#![tactic(auto)]

mod calls;
mod drawn;
mod lanes;
mod marks;
mod picture;

pub use calls::calls_of;
pub use lanes::picture_in;
pub use marks::{Mark, Note, Place, StepKind};
pub use picture::{Bar, Call, Lane, Picture, Window};
