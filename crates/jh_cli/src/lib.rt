//! The commands of the program `jeprun` but for `drive`, `search --drive` and `shrink --drive`,
//! over any reader and any writer: one function for each command. `X_run` does the command `X`; a
//! run is what the command `run` makes. `specs/EnvText.antt`, `specs/CheckText.antt`,
//! `specs/RunText.antt`, `specs/ShrinkText.antt`, `specs/SearchText.antt`,
//! `specs/TimelineText.antt` and `specs/PlotText.antt` say what is written, each `..Refusals.antt`
//! why an input is refused. `output.rt` is the frame that all share.
#![tactic(auto)]

mod check_command;
mod counts;
mod enough;
mod env_command;
mod error;
mod history_input;
mod judging_option;
mod notice;
mod output;
mod plot_command;
mod run_command;
mod search_command;
mod shrink_command;
mod timeline_command;

pub use check_command::{CheckQuestion, check_run};
pub use counts::{HistoryCounts, HistoryObserver, history_counts};
pub use enough::functions_of;
pub use env_command::env_run;
pub use error::CliError;
pub use judging_option::JudgingOption;
pub use plot_command::plot_run;
pub use run_command::run_run;
pub use search_command::{SearchQuestion, Show, search_run};
pub use shrink_command::shrink_run;
pub use timeline_command::{TimelineQuestion, timeline_run};
