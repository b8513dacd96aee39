//! A plain slow nemesis, and starts, faults and steps that look random: `nemesis` compares
//! that of `jh_nemesis` with it.

mod cells;
mod draws;
mod faults;
mod nemesis;
mod steps;

pub use cells::{PlainCells, all_links};
pub use draws::random_cells;
pub use faults::{LinkFault, NodeFault, PlainFault};
pub use nemesis::{PlainNemesis, PlainStep};
pub use steps::{Habit, random_step};
