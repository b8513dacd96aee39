//! The command `drive`: a test of a real database, by lines on a reader and a writer, and its report.
//! `specs/Drive.antt` says what is told and written, `specs/DriveErrors.antt` why it ends early.
#![tactic(auto)]

mod calls;
mod conducting;
mod error;
mod report;

pub use calls::{CallCounts, CallObserver};
pub use conducting::{drive, drive_answer, judging_of};
pub use error::DriveError;
pub use report::{judge_test, report_test, write_bytes, write_test_report};
