//! The simulated environment of a test: names, faults that name them, and tables of what faults
//! make of the cells.
#![tactic(auto)]

mod amounts;
mod environment;
mod fault_order;
mod faults;
mod judging;
mod keeping;
mod laws;
mod names;
mod naming;
mod starting;
mod texts;

pub use amounts::GivenLinkFault;
pub use environment::{Env, MAX_DELAY_MS, MAX_LAID, MAX_OFFSET_MS};
pub use faults::{Fault, FaultError, MAX_BUMPED_MS, MAX_FIXED_MS, MAX_LOSS, MAX_SLOWED_MS};
pub use jh_tables::{Life, Link, LinkFault, Node, NodeCell, NodeFault, PlainFault};
pub use laws::limits;
pub use names::{Nodes, NodesError};
pub use naming::{NamesBump, NamesLink, NamesNode, bump_spelled, link_names, node_name};
pub use starting::{MAX_START_DELAY_MS, MAX_START_LOSS, MAX_START_OFFSET_MS, Start, StartError};
pub use texts::{EnvTextError, env_of_value, environments_read_back, value_of_env};
