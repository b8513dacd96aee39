//! A plain slow audit, over the printed texts of a history's lines, and changes of histories that
//! look random. `audit` compares `jh_audit` with them.

mod audit;
mod changes;
mod completions;
mod forms;
mod lines;

pub use audit::audited_slowly;
pub use changes::change;
pub use lines::{Line, lines_of, text_of};
