//! Which faults were active when, in a recorded history, and what each record of the nemesis says.
#![tactic(auto)]

mod band;
mod bands;
mod edit;
mod labels;
mod lines;
mod moment;
mod replay;
mod step;
mod words;

pub use band::{Band, Line};
pub use bands::bands_of;
pub use lines::lines_of;
pub use words::{answered_text, asked_text};
