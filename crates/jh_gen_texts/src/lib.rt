//! The texts of generators, as EDN values: written. What is written is read back by `gen_of_value`
//! of `jh_gen`.
#![tactic(auto)]

mod laws;
mod writing;

pub use laws::generators_read_back;
pub use writing::value_of_gen;
