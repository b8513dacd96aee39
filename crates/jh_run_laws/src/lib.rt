//! What holds of the history of every serial run. A law is the contract of a function that does
//! nothing.
#![tactic(auto)]

mod laws;

pub use laws::{
    calls_are_of_their_workload, own_histories_are_judged, own_lines_are_text,
    recorded_lines_are_text, same_settings_same_run,
};
