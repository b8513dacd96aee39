//! From the arguments to what is written and the exit status, over any reader and any writer: one call.
//! `specs/Answers.antt` has the rule.

ghost use Rattle.std.specs.Prelude.{◌≡◌, ◌≢◌, ◌⊎◌, ◌<◌, ◌+◌, ◌^◌, List, ℕ, Option, IfErr, IfOk};
ghost use Rattle.std.specs.Prelude.{IsErrAnd, IsErrOf, map};
ghost use Rattle.clap.specs.Words.{Text, subcommand_rows_of};
ghost use Rattle.clap.specs.declared.error.Error.{Error};
ghost use Rattle.jh_edn.specs.View.{views};
ghost use Rattle.jh_settings_texts.specs.ScheduleSteps.{AreStepsIn};
ghost use Rattle.jh_cli.specs.declared.error.CliError.{CliError as CliErrorData};
ghost use Rattle.jh_cli.specs.declared.error.CliError.TheVariants as CliErrors;
ghost use Rattle.jh_drive.specs.declared.error.DriveError.{DriveError as DriveErrorData};
ghost use Rattle.jh_drive.specs.declared.error.DriveError.TheVariants as DriveErrors;
ghost use Rattle.jh_settings.specs.declared.error.SettingsError.{SettingsError};
ghost use Rattle.jh_arguments.specs.Answers as rule;
ghost use Rattle.jh_arguments.specs.Answers.{IsTestDone};
ghost use Rattle.jh_arguments.specs.Answers.{IsConductedTo, IsCommandDone, IsFailed, IsFileUnread};
ghost use Rattle.jh_arguments.specs.Answers.{GivesSteps, HasNoAccounts, HasNoSteps};
ghost use Rattle.jh_arguments.specs.Answers.{IsRunSettingsError, IsUnfinished};
ghost use Rattle.jh_arguments.specs.Commands.{HasNumbers, SubcommandHasRunSettings, test_asked};
ghost use Rattle.jh_arguments.specs.Line.{IsRefused};
ghost use Rattle.jh_arguments.specs.declared.answers.Refusal.TheVariants as Refusals;

use crate::accounts::accounts_of;
use crate::commands::{
    Command, TestQuestion, command_of, do_command, run_settings_path_of, test_question_of,
};
use crate::line::parse;
use crate::trials::{reduce_test, try_test};
use clap::ArgMatches;
use jh_cli::{CliError, HistoryObserver};
use jh_drive::{CallObserver, DriveError, drive};
use jh_edn::Value;
use jh_lines::Streams;
use jh_search::SearchObserver;
use jh_settings_texts::steps_in_settings;
use jh_shrink::ShrinkObserver;
use std::alloc::Global;
use std::convert::AsStr;
use std::fs::{self, Files};
use std::io::{self, Read, Write};
use std::sync::Wait;
use std::thread::Threads;

/// Why the program ends otherwise than with the exit status of what it was asked for.
#[derive(Debug, Drop)]
pub enum Refusal {
    /// The arguments ask for help or for the version, or are wrong.
    Arguments(clap::Error),
    /// The accounts of a bank are refused.
    Accounts(CliError),
    /// The command refuses its options or its input, or did not do its work.
    Command(CliError),
    /// The file that `timeline --settings` names could not be read, or what it holds is refused.
    /// (Settings that `run` reads are refused as `Command`.)
    RunSettings(CliError),
    /// The test of a real database ended otherwise than with a verdict.
    Test(DriveError),
}

/// Who is told what is done next.
pub trait CommandObserver {
    /// This command is run next.
    fn see_command(&mut self, command: Command<'_>);

    /// The file with the settings of a test was read. What it holds is looked at next, and then the
    /// test is conducted, or tried.
    fn see_test(&mut self);
}

/// The settings of a test that a file holds.
///
/// Errors: `OutOfMemory`, `SettingsRead`.
fn settings_in_file<T>(rt: &T, path: &str) -> Result<Vec<u8>, DriveError>
where
    T: Files + Alloc<A = Global>,
    ensures { IfErr result IsFileUnread }
{
    match fs::read(rt, path) {
        Ok(settings) => Ok(settings),
        Err(error) if error.kind() == io::ErrorKind::OutOfMemory => Err(DriveError::OutOfMemory),
        Err(_) => Err(DriveError::SettingsRead),
    }
}

/// Does what is asked of the test that a file of settings sets.
///
/// Errors: `OutOfMemory` and `SettingsRead`, before anything is told or read; else those of `drive`, of `try_test`
/// or of `reduce_test`.
fn answer_test<T, R, W, O>(
    rt: &T,
    question: TestQuestion<'_>,
    streams: &mut Streams<R, W>,
    observer: &mut O,
) -> Result<u8, DriveError>
where
    T: Files + Alloc<A = Global>,
    R: Read,
    W: Write,
    O: CommandObserver + ShrinkObserver + CallObserver,
    requires { HasNumbers question }
    ensures ended { (IsErrAnd result IsFileUnread × (streams.new.reader ≡ streams.old.reader) × (streams.new.writer ≡ streams.old.writer))
        ⊎ ((settings : List ℕ) × IsTestDone (test_asked question.entry) settings
        (R.remaining streams.old.reader) (R.remaining streams.new.reader)
        (W.contents streams.old.writer) (W.contents streams.new.writer) result) }
    ensures streams_kept { (error : SettingsError) → IsErrOf result (DriveErrors.Settings error)
        → (streams.new.reader ≡ streams.old.reader) × (streams.new.writer ≡ streams.old.writer) }
{
    match question {
        TestQuestion::Conduct { path } => {
            let settings = settings_in_file(rt, path)?;
            observer.see_test();
            drive(rt.alloc(), &settings, streams, observer)
        }
        TestQuestion::Try { path, candidates } => {
            let settings = settings_in_file(rt, path)?;
            observer.see_test();
            try_test(rt.alloc(), &settings, candidates, streams)
        }
        TestQuestion::Reduce { path, runs } => {
            let settings = settings_in_file(rt, path)?;
            observer.see_test();
            reduce_test(rt.alloc(), &settings, runs, streams, observer)
        }
    }
}

/// The steps of the schedule that the settings in a file have.
///
/// Errors: `SettingsRead` where the file can't be read, `Settings` where it holds no settings of a run, `OutOfMemory`.
fn steps_in_file<T>(rt: &T, path: &str) -> Result<Vec<Value>, CliError>
where
    T: Files + Alloc<A = Global>,
    ensures steps { IfOk result
        (λ steps. (settings : List ℕ) × AreStepsIn settings (views steps.items)) }
    ensures error { IfErr result IsRunSettingsError }
{
    let settings = match fs::read(rt, path) {
        Ok(settings) => settings,
        Err(error) if error.kind() == io::ErrorKind::OutOfMemory => {
            return Err(CliError::OutOfMemory);
        }
        Err(_) => return Err(CliError::SettingsRead),
    };
    Ok(steps_in_settings(rt.alloc(), &settings)?)
}

/// The steps in whose words a page says what the nemesis did: those of the schedule in the file of settings that
/// `timeline --settings` names, and none where it names none.
///
/// Errors: those of `steps_in_file`, and none where no file is named.
fn steps_of<T>(rt: &T, matches: &ArgMatches<'_>) -> Result<Vec<Value>, CliError>
where
    T: Files + Alloc<A = Global>,
    ensures steps { IfOk result
        (λ steps. GivesSteps (subcommand_rows_of matches.now) (views steps.items)) }
    ensures named { IfErr result (λ e. (path : Text)
        × SubcommandHasRunSettings (subcommand_rows_of matches.now) path) }
    ensures error { IfErr result IsRunSettingsError }
{
    match run_settings_path_of(matches) {
        Some(path) => steps_in_file(rt, path),
        None => Ok(Vec::new(rt.alloc())),
    }
}

/// What a command answers.
fn of_command(answer: Result<u8, CliError>) -> Result<u8, Refusal>
    ensures { result ≡ rule.of_command answer }
{
    match answer {
        Ok(status) => Ok(status),
        Err(error) => Err(Refusal::Command(error)),
    }
}

/// What a test answers.
fn of_test(answer: Result<u8, DriveError>) -> Result<u8, Refusal>
    ensures { result ≡ rule.of_test answer }
{
    match answer {
        Ok(verdict) => Ok(verdict),
        Err(error) => Err(Refusal::Test(error)),
    }
}

/// Does what the arguments ask for, over these streams. The first argument is the program's name. A
/// command reads and writes the streams. Before that a test reads its settings from a file, and `timeline` reads
/// those of the run that it shows, where a file is named. The answer is the exit status: that of
/// `do_command`, or of a test that of `drive`, of `try_test` or of `reduce_test`.
///
/// A run on threads, a search and the judgement of keys may wait. A test waits where its reader blocks.
///
/// Errors: `Arguments`, then `Accounts`, then `RunSettings`, all before anything is read or written; then, of a command,
/// `Command` as `do_command` has it, and of a test `Test` as that one has it, or where its file
/// could not be read.
pub fn answer<T, S, R, W, O>(
    rt: &T,
    arguments: &[S],
    streams: &mut Streams<R, W>,
    observer: &mut O,
) -> Result<u8, Refusal>
where
    T: Files + Alloc<A = Global> + Threads + Wait + Sync,
    S: AsStr,
    R: Read,
    W: Write,
    O: CommandObserver + ShrinkObserver + SearchObserver + HistoryObserver + CallObserver,
    ensures done { IfOk result (λ status. IsCommandDone (map S.text arguments.now)
        (R.remaining streams.old.reader) (W.contents streams.old.writer) (W.contents streams.new.writer) status
        ⊎ IsConductedTo (map S.text arguments.now)
        (R.remaining streams.old.reader) (R.remaining streams.new.reader)
        (W.contents streams.old.writer) (W.contents streams.new.writer) status) }
    ensures refused { (error : Error) → IsErrOf result (Refusals.Arguments error)
        → IsRefused (map S.text arguments.now) error }
    ensures reader_kept { (error : Error) → IsErrOf result (Refusals.Arguments error)
        → streams.new.reader ≡ streams.old.reader }
    ensures unwritten { (error : Error) → IsErrOf result (Refusals.Arguments error)
        → streams.new.writer ≡ streams.old.writer }
    ensures failed { (error : CliErrorData) → IsErrOf result (Refusals.Command error)
        → IsFailed (map S.text arguments.now) (R.remaining streams.old.reader) streams.old.reader streams.new.reader error }
    ensures failed_unwritten { (error : CliErrorData) → IsErrOf result (Refusals.Command error)
        → error ≢ CliErrors.Write → streams.new.writer ≡ streams.old.writer }
    ensures unaccounted { (error : CliErrorData) → IsErrOf result (Refusals.Accounts error)
        → HasNoAccounts (map S.text arguments.now) error }
    ensures unaccounted_reader_kept { (error : CliErrorData)
        → IsErrOf result (Refusals.Accounts error) → streams.new.reader ≡ streams.old.reader }
    ensures unaccounted_unwritten { (error : CliErrorData)
        → IsErrOf result (Refusals.Accounts error) → streams.new.writer ≡ streams.old.writer }
    ensures no_steps { (error : CliErrorData) → IsErrOf result (Refusals.RunSettings error)
        → HasNoSteps (map S.text arguments.now) error }
    ensures no_steps_reader_kept { (error : CliErrorData)
        → IsErrOf result (Refusals.RunSettings error) → streams.new.reader ≡ streams.old.reader }
    ensures no_steps_unwritten { (error : CliErrorData)
        → IsErrOf result (Refusals.RunSettings error) → streams.new.writer ≡ streams.old.writer }
    ensures unfinished { (error : DriveErrorData) → IsErrOf result (Refusals.Test error)
        → IsUnfinished (map S.text arguments.now)
        (R.remaining streams.old.reader) (R.remaining streams.new.reader)
        (W.contents streams.old.writer) (W.contents streams.new.writer)
        streams.old.reader streams.new.reader streams.old.writer streams.new.writer error }
{
    let matches = match parse(rt.alloc(), arguments) {
        Ok(matches) => matches,
        Err(error) => return Err(Refusal::Arguments(error)),
    };
    if let Some(question) = test_question_of(&matches) {
        return of_test(answer_test(rt, question, streams, observer));
    }
    let accounts = match accounts_of(rt.alloc(), &matches) {
        Ok(accounts) => accounts,
        Err(error) => return Err(Refusal::Accounts(error)),
    };
    // `clap` takes no arguments that ask for neither a test nor a command.
    let Some(command) = command_of(&matches, accounts.as_deref()) else {
        unreachable!()
    };
    let steps = match steps_of(rt, &matches) {
        Ok(steps) => steps,
        Err(error) => return Err(Refusal::RunSettings(error)),
    };
    observer.see_command(command);
    of_command(do_command(
        rt,
        rt.alloc(),
        command,
        &steps,
        &mut streams.reader,
        &mut streams.writer,
        observer,
    ))
}
