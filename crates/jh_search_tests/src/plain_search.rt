//! A plain slow program that makes the candidates of a search: `search` compares those of
//! `jh_search` with it. It writes texts, where `jh_search`
//! makes steps, and sorts lines where that puts entries among others.

mod candidates;
mod faults;

pub use candidates::plain_candidate;
