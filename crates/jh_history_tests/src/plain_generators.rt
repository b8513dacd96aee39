//! A plain slow driver of generators, and generators that look random: `generators` compares
//! the driver of `jh_gen` with it.

mod driver;
mod offers;
mod parts;
mod random;

pub use driver::PlainDriver;
pub use random::random_source;
