//! What holds of the history of every test of a real database. A law is the contract of a function that does nothing.
#![tactic(auto)]

mod laws;

pub use laws::{
    calls_ask, faults_end_once, histories_are_formed, histories_are_judged,
    key_histories_are_judged,
};
