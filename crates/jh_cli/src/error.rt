//! Why a command ended before its work was done. `specs/Status.antt` has the exit status of each,
//! and the text of those that are the commands' own; docs/formats.md lists all texts.

ghost use Rattle.std.specs.Prelude.{◌≡◌, IfSome, OnOk};
ghost use Rattle.std.specs.Io.KnownBytes.{Appends};
ghost use Rattle.jh_cli.specs.Status.{command_text, error_status};

use crate::judging_option::JudgingOption;
use jh_check::CheckError;
use jh_edn::EdnError;
use jh_env::EnvTextError;
use jh_histories::ReadHistoryError;
use jh_independent::KeysError;
use jh_ops::HistoryError;
use jh_plots::PlotError;
use jh_reports::{FAILED, REFUSED};
use jh_search::SearchError;
use jh_settings::SettingsError;
use jh_simnode::{RunError, WorldError};
use jh_step_texts::StepTextError;
use jh_workers::RunError as ThreadsError;
use std::alloc::{AllocError, AllocFailed};
use std::error::Error;
use std::fmt::{self, Display, Formatter};
use std::io::{self, Write};

/// Why a command ended early. `SettingsRead`, `Read`, `Write`, `Thread` and `OutOfMemory` are errors of the
/// machine, `Run`, `HistoryFull` and `Mismatch` say that a run was not completed, `Misplaced`, `Missing`,
/// `BadAccounts` and `BadPalette` refuse the arguments, and all others what was read.
#[derive(Debug, Drop)]
pub enum CliError {
    /// The input is no text of EDN values, or its end was not seen within the reads that are
    /// allowed. Of settings, which are TOML, the second alone.
    Input(EdnError),
    /// The input holds no element.
    EnvironmentMissing,
    /// The first element is no environment.
    Environment(EnvTextError),
    /// The element of this number is no step. Elements count from 1, which is the environment.
    Element { number: u64, error: StepTextError },
    /// An element is no operation.
    History(HistoryError),
    /// The history is none that its checker can judge.
    Check(CheckError),
    /// The input is no settings of a run.
    Settings(SettingsError),
    /// The run was not completed.
    Run(RunError),
    /// The log of a run on threads has too few rows for its records.
    HistoryFull,
    /// A run on threads contradicts itself: its history and its journal disagree, they do not keep
    /// to its plan, or no checker takes the history.
    Mismatch,
    /// A thread could not be had.
    Thread,
    /// This option is given, and the workload is none that takes it.
    Misplaced(JudgingOption),
    /// This option is not given, and the workload needs it.
    Missing(JudgingOption),
    /// The accounts of a bank are no vector or list of EDN values.
    BadAccounts,
    /// The kinds of faults of a search are no names of kinds.
    BadPalette,
    /// Settings can't say the plan of a search again.
    Unwritable,
    /// The operation at this index has no time, and a plot needs one of each. Indexes count from 0.
    TimeMissing { index: usize },
    /// The file of settings could not be read.
    SettingsRead,
    /// The input could not be read.
    Read,
    /// The output could not be written.
    Write,
    OutOfMemory,
}

impl CliError {
    /// The exit status: 3 where the input or the arguments are refused, 4 where the machine failed
    /// or a run was not completed.
    pub fn status(&self) -> u8
        ensures { result ≡ error_status self.now }
    {
        match self {
            CliError::Input(_)
            | CliError::EnvironmentMissing
            | CliError::Environment(_)
            | CliError::Element { .. }
            | CliError::History(_)
            | CliError::Check(_)
            | CliError::Settings(_)
            | CliError::Misplaced(_)
            | CliError::Missing(_)
            | CliError::BadAccounts
            | CliError::BadPalette
            | CliError::Unwritable
            | CliError::TimeMissing { .. } => REFUSED,
            CliError::Run(_)
            | CliError::HistoryFull
            | CliError::Mismatch
            | CliError::Thread
            | CliError::SettingsRead
            | CliError::Read
            | CliError::Write
            | CliError::OutOfMemory => FAILED,
        }
    }

    /// Writes the text of the error, without `jeprun: ` before it or a line feed behind it.
    pub fn text<W: Write>(&self, writer: &mut W) -> io::Result<()>
        ensures { OnOk result
            (IfSome (command_text self.now) (Appends (W.contents writer.old) (W.contents writer.new))) }
    {
        write!(writer, "{self}")
    }
}

impl Display for CliError {
    ghost output = { command_text };

    fn fmt<W: fmt::Write>(&self, f: &mut Formatter<W>) -> fmt::Result {
        match self {
            CliError::Input(error) => write!(f, "{error}"),
            CliError::EnvironmentMissing => f.write_str("environment missing"),
            CliError::Environment(error) => write!(f, "environment: {error}"),
            CliError::Element { number, error } => write!(f, "element {number}: {error}"),
            CliError::History(error) => write!(f, "{error}"),
            CliError::Check(error) => write!(f, "{error}"),
            CliError::Settings(error) => write!(f, "settings: {error}"),
            CliError::Run(error) => write!(f, "{error}"),
            CliError::HistoryFull => f.write_str("history full"),
            CliError::Mismatch => f.write_str("mismatch"),
            CliError::Thread => f.write_str("thread failed"),
            CliError::Misplaced(option) => {
                write!(f, "{}: only for {}", option.name(), option.workload())
            }
            CliError::Missing(option) => {
                write!(f, "{}: needed for {}", option.name(), option.workload())
            }
            CliError::BadAccounts => f.write_str("--accounts: no vector or list of values"),
            CliError::BadPalette => f.write_str(
                "--palette: not kinds of cut, slow, loss, fix, pause, kill, bump, with commas between",
            ),
            CliError::Unwritable => f.write_str("settings: generator too deep to be written again"),
            CliError::TimeMissing { index } => write!(f, "operation {index}: time missing"),
            CliError::SettingsRead => f.write_str("settings: read failed"),
            CliError::Read => f.write_str("read failed"),
            CliError::Write => f.write_str("write failed"),
            CliError::OutOfMemory => f.write_str("out of memory"),
        }
    }
}

impl Error for CliError {}

impl From<EdnError> for CliError {
    ghost use Rattle.jh_cli.specs.Status.{edn_error};

    ghost from_gives = { λ error e. e ≡ edn_error error };

    fn from(error: EdnError) -> CliError {
        match error {
            EdnError::Read => CliError::Read,
            EdnError::Write => CliError::Write,
            EdnError::OutOfMemory => CliError::OutOfMemory,
            _ => CliError::Input(error),
        }
    }
}

impl From<EnvTextError> for CliError {
    ghost use Rattle.jh_cli.specs.Status.{environment_error};

    ghost from_gives = { λ error e. e ≡ environment_error error };

    fn from(error: EnvTextError) -> CliError {
        match error {
            EnvTextError::OutOfMemory => CliError::OutOfMemory,
            _ => CliError::Environment(error),
        }
    }
}

impl From<HistoryError> for CliError {
    ghost use Rattle.jh_cli.specs.Status.{history_error};

    ghost from_gives = { λ error e. e ≡ history_error error };

    fn from(error: HistoryError) -> CliError {
        match error {
            HistoryError::OutOfMemory => CliError::OutOfMemory,
            _ => CliError::History(error),
        }
    }
}

impl From<ReadHistoryError> for CliError {
    ghost use Rattle.jh_cli.specs.Status.{reading_error};

    ghost from_gives = { λ error e. e ≡ reading_error error };

    fn from(error: ReadHistoryError) -> CliError {
        match error {
            ReadHistoryError::Text(error) => CliError::from(error),
            ReadHistoryError::History(error) => CliError::from(error),
        }
    }
}

impl From<CheckError> for CliError {
    ghost use Rattle.jh_cli.specs.Status.{check_error};

    ghost from_gives = { λ error e. e ≡ check_error error };

    fn from(error: CheckError) -> CliError {
        match error {
            CheckError::OutOfMemory => CliError::OutOfMemory,
            _ => CliError::Check(error),
        }
    }
}

impl From<KeysError> for CliError {
    ghost use Rattle.jh_cli.specs.Status.{keys_error};

    ghost from_gives = { λ error e. e ≡ keys_error error };

    fn from(error: KeysError) -> CliError {
        match error {
            KeysError::BadValue(place) => CliError::Check(CheckError::BadValue(place)),
            KeysError::Key(error) => CliError::from(error),
            KeysError::Thread => CliError::Thread,
            KeysError::OutOfMemory => CliError::OutOfMemory,
        }
    }
}

impl From<SettingsError> for CliError {
    ghost use Rattle.jh_cli.specs.Status.{settings_error};

    ghost from_gives = { λ error e. e ≡ settings_error error };

    fn from(error: SettingsError) -> CliError {
        match error {
            SettingsError::OutOfMemory => CliError::OutOfMemory,
            _ => CliError::Settings(error),
        }
    }
}

impl From<RunError> for CliError {
    ghost use Rattle.jh_cli.specs.Status.{run_error};

    ghost from_gives = { λ error e. e ≡ run_error error };

    fn from(error: RunError) -> CliError {
        match error {
            RunError::World(WorldError::OutOfMemory) => CliError::OutOfMemory,
            RunError::OutOfMemory => CliError::OutOfMemory,
            _ => CliError::Run(error),
        }
    }
}

impl From<ThreadsError> for CliError {
    ghost use Rattle.jh_cli.specs.Status.{threads_error};

    ghost from_gives = { λ error e. e ≡ threads_error error };

    fn from(error: ThreadsError) -> CliError {
        match error {
            ThreadsError::HistoryFull => CliError::HistoryFull,
            ThreadsError::World(refusal) => CliError::from(refusal),
            ThreadsError::Mismatch => CliError::Mismatch,
            ThreadsError::Thread => CliError::Thread,
            ThreadsError::OutOfMemory => CliError::OutOfMemory,
        }
    }
}

impl From<SearchError> for CliError {
    ghost use Rattle.jh_cli.specs.Status.{search_error};

    ghost from_gives = { λ error e. e ≡ search_error error };

    fn from(error: SearchError) -> CliError {
        match error {
            SearchError::Thread => CliError::Thread,
            SearchError::OutOfMemory => CliError::OutOfMemory,
        }
    }
}

impl From<PlotError> for CliError {
    ghost use Rattle.jh_cli.specs.Status.{plot_error};

    ghost from_gives = { λ error e. e ≡ plot_error error };

    fn from(error: PlotError) -> CliError {
        match error {
            PlotError::TimeMissing { index } => CliError::TimeMissing { index },
            PlotError::Pair(error) => CliError::Check(CheckError::Pair(error)),
            PlotError::OutOfMemory => CliError::OutOfMemory,
        }
    }
}

impl From<WorldError> for CliError {
    ghost use Rattle.jh_cli.specs.Status.{world_error};

    ghost from_gives = { λ error e. e ≡ world_error error };

    fn from(error: WorldError) -> CliError {
        match error {
            WorldError::UnknownNode => CliError::Mismatch,
            WorldError::TooManyEvents => CliError::Run(RunError::World(error)),
            WorldError::OutOfMemory => CliError::OutOfMemory,
        }
    }
}

impl From<AllocError> for CliError {
    ghost use Rattle.jh_cli.specs.declared.error.CliError.TheVariants.{OutOfMemory};

    ghost from_gives = { λ _ e. e ≡ OutOfMemory };

    fn from(_error: AllocError) -> CliError {
        CliError::OutOfMemory
    }
}

impl<T: Drop> From<AllocFailed<T>> for CliError {
    ghost use Rattle.jh_cli.specs.declared.error.CliError.TheVariants.{OutOfMemory};

    ghost from_gives = { λ _ e. e ≡ OutOfMemory };

    fn from(_error: AllocFailed<T>) -> CliError {
        CliError::OutOfMemory
    }
}
