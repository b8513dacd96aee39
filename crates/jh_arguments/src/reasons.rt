//! The lines that `--verbose` puts behind the one of an error, and what `run` and `search` warn of. Each is
//! made from the input again, which is kept for it: no command knows of them.

use crate::answers::Refusal;
use crate::commands::{TestQuestion, run_settings_path_of, test_question_of};
use crate::line::parse;
use crate::teller::Work;
use jh_check::CheckError;
use jh_cli::{CliError, functions_of};
use jh_drive::DriveError;
use jh_ops::{HistoryError, PairError};
use jh_plan_warnings::{Warning, warnings_of};
use jh_settings::{SettingsError, settings_of};
use jh_settings_reasons::{SettingsKind, settings_reasons};
use jh_text_reasons::{InputKind, element_reasons, operation_reasons, reply_reasons, text_reasons};
use jh_unread::without_unread;
use std::alloc::{AllocError, Global};
use std::fs::{self, Files};
use std::io;

/// What a command was given, and how reading it failed, if it did.
#[derive(Clone, Copy)]
pub(crate) struct Given<'a> {
    /// The work of the command, where the arguments ask for one.
    pub(crate) work: Option<Work>,
    /// What was read.
    pub(crate) input: &'a [u8],
    /// How the last read failed, if it did.
    pub(crate) failure: Option<io::ErrorKind>,
}

/// The lines of a reason, each without a line feed.
type Lines = Vec<Vec<u8>>;

/// What is warned of the settings of a run. Nothing where they are none.
pub(crate) fn warnings_in(alloc: Global, settings: &[u8]) -> Result<Vec<Warning>, AllocError> {
    match settings_of(alloc, settings) {
        Ok(settings) => warnings_of(alloc, &settings.plan),
        Err(_) => Ok(Vec::new(alloc)),
    }
}

/// What a command reads its input as.
fn kind_of(work: Option<Work>) -> InputKind {
    match work {
        Some(Work::History { .. }) => InputKind::History,
        _ => InputKind::Values,
    }
}

/// Whether a command leaves out keys that can't be read.
fn skips_unread(work: Option<Work>) -> bool {
    match work {
        Some(Work::History { skips_unread, .. }) => skips_unread,
        _ => false,
    }
}

/// The functions that a command's checker judges, and none where nothing is judged.
fn judged_functions(work: Option<Work>) -> &'static [&'static str] {
    match work {
        Some(
            Work::History {
                checker: Some(checker),
                ..
            },
        ) => functions_of(checker),
        _ => &[],
    }
}

/// The number of the operation that a checker refuses.
fn refused_operation(error: CheckError) -> Option<usize> {
    match error {
        CheckError::Pair(
            PairError::AfterCrash(number)
            | PairError::DoubleInvoke(number)
            | PairError::NoInvoke(number),
        )
        | CheckError::BadValue(number)
        | CheckError::NegativeAdd(number)
        | CheckError::RepeatedAppend(number) => Some(number),
        CheckError::Pair(PairError::OutOfMemory) | CheckError::OutOfMemory => None,
    }
}

/// The text that a command reads: its input, without what it leaves out.
fn text_read(alloc: Global, given: Given<'_>) -> Result<Vec<u8>, AllocError> {
    match str::from_utf8(given.input) {
        Ok(text) if skips_unread(given.work) => without_unread(alloc, text),
        _ => Vec::from_slice(alloc, given.input),
    }
}

/// How the system says that a read failed.
fn failure_lines(alloc: Global, failure: Option<io::ErrorKind>) -> Result<Lines, AllocError> {
    let mut lines = Vec::new(alloc);
    if let Some(kind) = failure {
        lines.push(format!(in alloc; "the system says: {kind}")?.into_bytes())?;
    }
    Ok(lines)
}

/// Why a command refused its input.
fn command_reasons(alloc: Global, given: Given<'_>, error: &CliError) -> Result<Lines, AllocError> {
    let text = text_read(alloc, given)?;
    match error {
        CliError::Input(_) => text_reasons(alloc, &text, kind_of(given.work)),
        CliError::Environment(_) => element_reasons(alloc, &text, 1),
        CliError::Element { number, .. } => element_reasons(alloc, &text, *number),
        CliError::History(HistoryError::Op(number, _)) => {
            operation_reasons(alloc, &text, *number, &[])
        }
        CliError::TimeMissing { index } => operation_reasons(alloc, &text, *index, &[]),
        CliError::Check(error) => match refused_operation(*error) {
            Some(number) => {
                operation_reasons(alloc, &text, number, judged_functions(given.work))
            }
            None => Ok(Vec::new(alloc)),
        },
        CliError::Settings(error) => settings_reasons(alloc, SettingsKind::Run, &text, error),
        CliError::Read => failure_lines(alloc, given.failure),
        _ => Ok(Vec::new(alloc)),
    }
}

/// Why the settings in a file are refused, or how reading it failed.
fn file_reasons<T: Files + Alloc<A = Global>>(
    rt: &T,
    path: &str,
    kind: SettingsKind,
    refusal: Option<&SettingsError>,
) -> Result<Lines, AllocError> {
    match (fs::read(rt, path), refusal) {
        (Ok(settings), Some(refusal)) => settings_reasons(rt.alloc(), kind, &settings, refusal),
        (Err(error), _) => failure_lines(rt.alloc(), Some(error.kind())),
        (Ok(_), None) => Ok(Vec::new(rt.alloc())),
    }
}

/// Why a test ended otherwise than with a verdict, whose settings are in the file that the arguments name.
fn test_reasons<T: Files + Alloc<A = Global>>(
    rt: &T,
    arguments: &[String],
    given: Given<'_>,
    error: &DriveError,
) -> Result<Lines, AllocError> {
    let alloc = rt.alloc();
    let refusal = match error {
        DriveError::Reply { number, .. } => return reply_reasons(alloc, given.input, *number),
        DriveError::Read => return failure_lines(alloc, given.failure),
        DriveError::Settings(refusal) => Some(refusal),
        DriveError::SettingsRead => None,
        _ => return Ok(Vec::new(alloc)),
    };
    let Ok(matches) = parse(alloc, arguments) else {
        return Ok(Vec::new(alloc));
    };
    match test_question_of(&matches) {
        Some(
            TestQuestion::Conduct { path }
            | TestQuestion::Try { path, .. }
            | TestQuestion::Reduce { path, .. },
        ) => file_reasons(rt, path, SettingsKind::Test, refusal),
        None => Ok(Vec::new(alloc)),
    }
}

/// Why the settings of the run that a page shows are refused, in the file that the arguments name.
fn run_settings_reasons<T: Files + Alloc<A = Global>>(
    rt: &T,
    arguments: &[String],
    error: &CliError,
) -> Result<Lines, AllocError> {
    let alloc = rt.alloc();
    let refusal = match error {
        CliError::Settings(refusal) => Some(refusal),
        CliError::SettingsRead => None,
        _ => return Ok(Vec::new(alloc)),
    };
    let Ok(matches) = parse(alloc, arguments) else {
        return Ok(Vec::new(alloc));
    };
    match run_settings_path_of(&matches) {
        Some(path) => file_reasons(rt, path, SettingsKind::Run, refusal),
        None => Ok(Vec::new(alloc)),
    }
}

/// The lines that say where and why the program refused what it was given. None for what the arguments are
/// refused for: the line of the error says it.
pub(crate) fn reasons_of<T: Files + Alloc<A = Global>>(
    rt: &T,
    arguments: &[String],
    given: Given<'_>,
    refusal: &Refusal,
) -> Result<Lines, AllocError> {
    match refusal {
        Refusal::Arguments(_) | Refusal::Accounts(_) => Ok(Vec::new(rt.alloc())),
        Refusal::Command(error) => command_reasons(rt.alloc(), given, error),
        Refusal::RunSettings(error) => run_settings_reasons(rt, arguments, error),
        Refusal::Test(error) => test_reasons(rt, arguments, given, error),
    }
}
