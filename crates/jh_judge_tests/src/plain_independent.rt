//! Random histories of independent keys, each with what is answered. The history of each key is one
//! of `plain_check`; they are mixed, and the answer is put together from the answers to each.
//! `independent` compares `jh_independent` with them.
//!
//! A history is a text: each operation is `PROCESS TYPE F VALUE` as a history writes them, with
//! `; ` behind it.

mod answers;
mod mixed;
mod parts;

pub use mixed::random_keys;
