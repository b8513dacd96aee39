//! Generators of calls (jepsen.generator), and the driver that gives their calls to threads.
#![tactic(auto)]

mod answers;
mod bad_parts;
mod build;
mod copy;
mod driver;
mod generator;
mod laws;
mod node;
mod rise;
mod suits;
mod text;

pub use answers::{DriverError, Ended, GenAnswer, GenError, Thread};
pub use bad_parts::{FormStep, bad_part};
pub use driver::{Driver, MAX_CALLS, MAX_CLIENTS};
pub use generator::{Gen, Gens, Inner, Shares};
pub use laws::{asked_answers, end_keeps_generator, limits};
pub use rise::Rise;
pub use text::{GenTextError, gen_of_value};
