//! Plain slow checkers, a search for an order of a register that tries every one, and histories
//! that look random: `check` compares `jh_check` and `jh_linear` with them.
//!
//! A history is a text: each operation is `PROCESS TYPE F VALUE` as a history writes them,
//! with `; ` behind it.

mod busy;
mod checkers;
mod events;
mod orders;
mod register;

pub use busy::busy_history;
pub use checkers::{Case, random_case};
pub use orders::{cut, ends_at, is_possible, judged_slowly, value_after};
pub use register::random_history;
