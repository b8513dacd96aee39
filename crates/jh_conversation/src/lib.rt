//! A test of a real database as a conversation: what is said behind each line that is read, and what
//! holds of it. An adapter, a program of the user's, holds the other side.
#![tactic(auto)]

mod callers;
mod conversation;
mod laws;
mod machine;
mod phase;
mod taking;
mod text;
mod turns;

pub use callers::BadLine;
pub use conversation::Conversation;
pub use laws::{
    calls_are_bounded, calls_are_offers, cells_are_environment, conversation_is_run,
    first_bad_is_kept, history_is_the_conversation, history_is_well_formed, rest_is_start,
    turns_end,
};
pub use phase::Phase;
