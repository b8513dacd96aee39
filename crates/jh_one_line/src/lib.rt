//! Texts of others, shown in messages: on one line, and no longer than one reads. `specs/OneLine.antt` has
//! the rule.
#![tactic(auto)]

mod line;

pub use line::{OnOneLine, shortened};
