//! What commands write: lines of what is found, of active faults and of environments, and the report
//! of a test.
#![tactic(auto)]

mod judged;
mod lines;
mod reports;
mod statuses;

pub use judged::{Output, judge_keys, judge_whole, output_of_finding, output_of_keys};
pub use lines::{finding_text, keys_text, write_active, write_environment, write_line};
pub use reports::write_report;
pub use statuses::{DONE, FAILED, INVALID, REFUSED, UNKNOWN, status_of};
