//! Random faults: the random numbers that a candidate of a search has, the kinds of faults that are drawn,
//! and what numbers make of them: a fault, its id, and when it begins and ends.
#![tactic(auto)]

mod draws;
mod ids;
mod kinds;
mod random_faults;
mod times;

pub use draws::{Draw, candidate_seed, next_draw, next_number, numbers_of};
pub use ids::{fault_id, greater_id};
pub use kinds::{Palette, drawn_kind, kinds_of};
pub use random_faults::fault_drawn;
pub use times::{begin_within, end_within, heal_within, heals, stays};
