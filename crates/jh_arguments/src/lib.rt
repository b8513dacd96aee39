//! The arguments of the command line: which command they ask for, and what is done then.
//!
//! `line.rt` has the commands and their options as `clap` reads them, `help.rt` what stands at the end
//! of their help, `accounts.rt` how the accounts of a bank are read, and `commands.rt` what each command is and
//! does. `drive` is no `Command`, nor are `search --drive` and `shrink --drive`: each has a file of settings, and `answers.rt` conducts its
//! test, or has `trials.rt` try many. `answer` in `answers.rt` is the whole in one call, from the arguments to the exit status; `program.rt` has the standard
//! streams, `teller.rt` what a terminal is told, and `reasons.rt` what `--verbose` says of a refusal.
//!
//! A new command is a function in `line.rt` and a text in `help.rt`, and a case of `Command`, of `command_of` and of
//! `do_command`, and of `Work` in `teller.rt`.
#![tactic(auto)]

mod accounts;
mod answers;
mod commands;
mod help;
mod laws;
mod limits;
mod line;
mod palettes;
mod program;
mod reasons;
mod streams;
mod teller;
mod trials;

pub use answers::{CommandObserver, Refusal, answer};
pub use commands::{
    Command, TestQuestion, TrialQuestion, check_question_of, command_of, do_command, is_verbose,
    search_question_of, test_question_of, timeline_question_of, trial_question_of,
};
pub use jh_cli::{
    CheckQuestion, CliError, HistoryCounts, HistoryObserver, JudgingOption, SearchQuestion,
    TimelineQuestion,
};
pub use jh_drive::{CallCounts, CallObserver, DriveError};
pub use jh_lines::Streams;
pub use jh_reports::REFUSED;
pub use laws::argument_laws;
pub use line::{parse, status_of_refusal};
pub use palettes::palette_named;
pub use program::status;
pub use teller::Terminals;
