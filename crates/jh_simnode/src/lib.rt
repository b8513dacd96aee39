//! A simulated cluster: replicas of a database on the nodes of an environment, kept by one of three
//! stores, under the faults of a nemesis. A world has a journal of all that happened, and stands
//! where its journal leads to.
#![tactic(auto)]

mod database;
mod effects;
mod events;
mod history;
mod integers;
mod laws;
mod plan;
mod reach;
mod replay;
mod replicas;
mod requests;
mod schedule;
mod serial;
mod stores;
mod turns;
mod world;

pub use database::{Database, Store};
pub use events::{Event, MAX_EVENTS, WorldError};
pub use history::{
    completion, completion_kind, entry_completion, entry_invocation, invocation, push_indexed,
};
pub use laws::{limits, world_laws};
pub use plan::{MAX_ROWS, Plan, PlanData, PlanError};
pub use replay::nemesis_after;
pub use replicas::{Contents, Got, Numbers, Recency, Replica, Reply};
pub use schedule::{Entry, MAX_ENTRIES, Schedule, TooLong};
pub use serial::{RunError, one_run, run_serial, world_of};
pub use turns::{driver_of, node_of, reply_ending, ticks_at};
pub use world::World;
