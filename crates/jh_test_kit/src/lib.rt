//! What the crates of tests share: numbers that look random, the same ones for the same seed.
#![tactic(auto)]

mod dice;
mod random;

pub use dice::Dice;
pub use random::Random;
