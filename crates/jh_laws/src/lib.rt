//! Laws over bytes: what is written of an environment, a step or an operation is printed so that it
//! is read back; and what checkers find, by the equality of EDN. Each is a function that does
//! nothing and whose contract is the law; in its body stand the laws that it rests on.
#![tactic(auto)]

mod environments;
mod lines;
mod operations;
mod results;
mod steps;

pub use environments::environment_lines_read_back;
pub use lines::lines_read_back;
pub use operations::{histories_read_back, operation_lines_read_back};
pub use results::{
    ids_are_judged_by_equality, read_histories_are_judged_by_equality, sets_are_judged_by_equality,
};
pub use steps::{faults_read_back, inputs_read_back, parsed_steps_are_steps, steps_read_back};
