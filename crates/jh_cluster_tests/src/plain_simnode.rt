//! A plain slow cluster, and events that look random: `simnode` compares the
//! worlds of `jh_simnode` with it.

mod cluster;
mod held;
mod random;
mod reach;

pub use cluster::{PlainCluster, PlainReply};
pub use random::{random_place, random_request, random_step};
pub use reach::node_at;
