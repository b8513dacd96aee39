//! A conversation by lines between a machine, which decides what is said, and a peer, which is told
//! bytes and heard.
#![tactic(auto)]

mod by_lines;
mod ending;
mod hearing;
mod laws;
mod machine;
mod peer;
mod streams;
mod talking;
mod writing;

pub use by_lines::{ByLines, converse_by_lines};
pub use ending::Ending;
pub use hearing::Hearing;
pub use laws::{cuts_lines, hears_no_more, tells_first};
pub use machine::Machine;
pub use peer::Peer;
pub use streams::{Streams, converse_over};
pub use talking::converse;
