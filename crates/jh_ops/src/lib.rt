//! Operations as Jepsen's histories have them, and the pairing of invocations with completions.
#![tactic(auto)]

mod call;
mod copy;
mod history;
mod op_printed;
mod op_text;
mod op_written;
mod operation;
mod pairing;
mod pairs;
mod record;
mod words;

pub use call::{Call, Request, Workload, vector_of};
pub use history::{HistoryError, history_of};
pub use op_printed::write_operation;
pub use op_text::{OpError, op_of};
pub use op_written::{operations_read_back, value_of};
pub use operation::{Kind, Op, Process};
pub use pairing::pair;
pub use pairs::{Pair, PairError};
pub use record::are_integers;
pub use words::{WordsError, event_pairs, of_words, recorded_once, to_words};
