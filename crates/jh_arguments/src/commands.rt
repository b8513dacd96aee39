//! What the arguments ask for, and what is done then, over any reader and any writer.
//! `specs/Commands.antt` says which arguments ask for which command, what a command writes, and why
//! it refuses its input.

ghost use Rattle.std.specs.Prelude.{◌≡◌, ◌≢◌, ◌↔◌, ◌≤◌, ◌<◌, ◌+◌, ◌^◌, ℕ, Option, codes, IfOk, IfErr, IfSome};
ghost use Rattle.std.specs.Prelude.{IsNone, IsErrOf, None, Some, option_and_then};
ghost use Rattle.clap.specs.Words.{Text, first_of, found_of, one_of, rows_of, subcommand_rows_of};
ghost use Rattle.jh_edn.specs.View.{views};
ghost use Rattle.jh_checkers.specs.declared.finding.Judging.{Judging};
ghost use Rattle.jh_cli.specs.Outputs.{OnInput, WritesOutput};
ghost use Rattle.jh_cli.specs.declared.error.CliError.{CliError as CliErrorData};
ghost use Rattle.jh_cli.specs.declared.error.CliError.TheVariants as CliError;
ghost use Rattle.jh_arguments.specs.Commands.{AsksCheck, AsksPlot, SubcommandHasAccounts};
ghost use Rattle.jh_arguments.specs.Commands.{SubcommandHasRunSettings};
ghost use Rattle.jh_arguments.specs.Commands.{SubcommandIs};
ghost use Rattle.jh_arguments.specs.Commands.{SubcommandIsTest, SubcommandIsVerbose, TestAsked};
ghost use Rattle.jh_arguments.specs.Commands.{AsksSearch, AsksTrials, HasNumbers, IsShow, test_asked};
ghost use Rattle.jh_arguments.specs.Commands.{AsksTimeline, HasNumbersInRange, IsFlag};
ghost use Rattle.jh_arguments.specs.Commands.{IsGivenNumber, IsGivenSigned, IsGivenWithin};
ghost use Rattle.jh_arguments.specs.Commands.{IsNumberWithin};
ghost use Rattle.jh_arguments.specs.Commands.{IsJudging, IsJudgingBy, IsNumber};
ghost use Rattle.jh_arguments.specs.Commands.{IsOfOptions, IsOutputOf, IsThreads, RefusesCommand};
ghost use Rattle.jh_arguments.specs.Commands.{RefusesOptions};
ghost use Rattle.jh_arguments.specs.declared.commands.Command.{Command};
ghost use Rattle.jh_arguments.specs.declared.commands.TrialQuestion.{TrialQuestion as TrialQuestionData};
ghost use Rattle.jh_arguments.specs.declared.commands.Command.TheVariants.{Search};
ghost use Rattle.jh_checkers.specs.Models.{model_named as model_of_name};
ghost use Rattle.jh_arguments.specs.Palettes as rule;
ghost use Rattle.jh_cli.specs.declared.check_command.CheckQuestion.{CheckQuestion};
ghost use Rattle.jh_cli.specs.declared.search_command.SearchQuestion.{SearchQuestion};
ghost use Rattle.jh_cli.specs.declared.timeline_command.TimelineQuestion.{TimelineQuestion};

use crate::limits::{MAX_CANDIDATES, MAX_FAULTS, MAX_SPREAD_MS, MAX_THREADS};
use crate::palettes::palette_named;
use clap::ArgMatches;
use jh_checkers::{Checker, Judging, model_named};
use jh_cli::{
    CheckQuestion, CliError, HistoryObserver, SearchQuestion, Show, TimelineQuestion, check_run,
    env_run, plot_run, run_run, search_run, shrink_run, timeline_run,
};
use jh_edn::Value;
use jh_random_faults::Palette;
use jh_search::SearchObserver;
use jh_shrink::ShrinkObserver;
use jh_timeline_sections::Choice;
use jh_txn::ConsistencyModel;
use std::alloc::Global;
use std::io::{Read, Write};
use std::sync::Wait;
use std::thread::Threads;

/// What the arguments ask for.
#[derive(Clone, Copy, Debug)]
pub enum Command<'a> {
    /// Faults over an environment.
    Env,
    /// The judgement of a history.
    Check(CheckQuestion<'a>),
    /// A run of a simulated cluster.
    Run,
    /// The schedule of a run made small.
    Shrink {
        /// How many runs may be made.
        runs: u64,
    },
    /// Random schedules tried for a run that fails.
    Search(SearchQuestion),
    /// A page that shows a history.
    Timeline(TimelineQuestion<'a>),
    /// A page that shows the latencies and rates of a history.
    Plot {
        /// Whether keys that can't be read are left out.
        skips_unread: bool,
    },
}

/// What is asked of a test of a real database, whose settings are in a file.
#[derive(Clone, Copy, Debug)]
pub enum TestQuestion<'a> {
    /// That it is conducted.
    Conduct {
        path: &'a str,
    },
    /// That candidates of it are tried.
    Try {
        path: &'a str,
        candidates: TrialQuestion,
    },
    /// That its schedule is made small, by so many tests at most, and one more with what is left.
    Reduce {
        path: &'a str,
        runs: u64,
    },
}

/// Which candidates of a run or of a test are tried: what `search` asks, with `--drive` and without it.
/// Only a candidate that is a test is held in a trial of `jh_trials`.
#[derive(Clone, Copy, Debug, PartialEq, Eq)]
pub struct TrialQuestion {
    /// The number of the first one.
    pub from: u64,
    /// How many are tried at most.
    pub runs: u64,
    /// How many random faults each has among the entries of its schedule.
    pub faults: u32,
    /// Of which kinds these are. None: what is named is none of the kinds.
    pub palette: Option<Palette>,
}

/// The command that the arguments ask for, with the accounts that they give. `parse` has seen to it that there
/// is one.
pub fn command_of<'a>(
    matches: &ArgMatches<'_>,
    accounts: Option<&'a [Value]>,
) -> Option<Command<'a>>
    ensures parsed { IfSome result (SubcommandIs accounts.entry (subcommand_rows_of matches.now)) }
    ensures ranges { IfSome result HasNumbersInRange }
    ensures taken { IsNone result → (command : Command)
        → SubcommandIs accounts.entry (subcommand_rows_of matches.now) command → ⊥ }
{
    match matches.subcommand()? {
        ("env", _) => Some(Command::Env),
        ("check", options) => Some(Command::Check(check_question_of(options, accounts)?)),
        ("run", _) => Some(Command::Run),
        ("shrink", options) => match text_of(options, "drive") {
            Some(_) => None,
            None => Some(Command::Shrink {
                runs: number_of(options, "budget")?,
            }),
        },
        ("search", options) => match text_of(options, "drive") {
            Some(_) => None,
            None => Some(Command::Search(search_question_of(options)?)),
        },
        ("timeline", options) => {
            Some(Command::Timeline(timeline_question_of(options, accounts)?))
        }
        ("plot", options) => Some(Command::Plot {
            skips_unread: plot_skips_unread(options),
        }),
        _ => None,
    }
}

/// Whether the arguments ask to be told where and why an input is refused.
pub fn is_verbose(matches: &ArgMatches<'_>) -> bool
    ensures { SubcommandIsVerbose (subcommand_rows_of matches.now) result }
{
    match matches.subcommand() {
        Some((_, options)) => flag_of(options, "verbose"),
        None => false,
    }
}

/// What the arguments ask of a test of a real database: `drive` that it is conducted; and where they are given
/// a file of settings, `search` that candidates of it are tried, and `shrink` that its schedule is made small. No
/// other command asks for one.
pub fn test_question_of<'a>(matches: &ArgMatches<'a>) -> Option<TestQuestion<'a>>
    ensures parsed { IfSome result
        (λ question. SubcommandIsTest (subcommand_rows_of matches.now) (test_asked question)) }
    ensures ranges { IfSome result HasNumbers }
    ensures taken { IsNone result → (asked : TestAsked)
        → SubcommandIsTest (subcommand_rows_of matches.now) asked → ⊥ }
{
    match matches.subcommand()? {
        ("drive", options) => Some(TestQuestion::Conduct {
            path: text_of(options, "settings")?,
        }),
        ("search", options) => Some(TestQuestion::Try {
            path: text_of(options, "drive")?,
            candidates: trial_question_of(options)?,
        }),
        ("shrink", options) => Some(TestQuestion::Reduce {
            path: text_of(options, "drive")?,
            runs: number_of(options, "budget")?,
        }),
        _ => None,
    }
}

/// The file with the settings of the run that `timeline` shows, where it is given. No other command has
/// one.
pub(crate) fn run_settings_path_of<'a>(matches: &ArgMatches<'a>) -> Option<&'a str>
    ensures parsed { IfSome result
        (λ path. SubcommandHasRunSettings (subcommand_rows_of matches.now) path.now) }
    ensures taken { IsNone result → (path : Text)
        → SubcommandHasRunSettings (subcommand_rows_of matches.now) path → ⊥ }
{
    match matches.subcommand()? {
        ("timeline", options) => Some(text_of(options, "settings")?),
        _ => None,
    }
}

/// The text of the accounts of a bank, where `check` or `timeline` is given one. No other command has one.
pub(crate) fn accounts_text_of<'a>(matches: &ArgMatches<'a>) -> Option<&'a str>
    ensures parsed { IfSome result
        (λ text. SubcommandHasAccounts (subcommand_rows_of matches.now) text.now) }
    ensures taken { IsNone result → (text : Text)
        → SubcommandHasAccounts (subcommand_rows_of matches.now) text → ⊥ }
{
    match matches.subcommand()? {
        ("check", options) => Some(text_of(options, "accounts")?),
        ("timeline", options) => Some(text_of(options, "accounts")?),
        _ => None,
    }
}

/// The text that an option gives, if it is there.
fn text_of<'a>(options: &ArgMatches<'a>, name: &str) -> Option<&'a str>
    ensures parsed { IfSome result
        (λ text. first_of name.now (rows_of (found_of options.now)) ≡ Some text.now) }
    ensures taken { IsNone result → (text : Text)
        → first_of name.now (rows_of (found_of options.now)) ≡ Some text → ⊥ }
{
    match options.get_str(name) {
        Some(text) => Some(text),
        None => None,
    }
}

/// What the options of `check` ask for, with the accounts that they give. `parse` has seen to it that the
/// workload is one that a checker judges, that the model is one, that the budget is a number, and that the
/// number of threads is from 1 to 16.
pub fn check_question_of<'a>(
    options: &ArgMatches<'_>,
    accounts: Option<&'a [Value]>,
) -> Option<CheckQuestion<'a>>
    ensures parsed { IfSome result (AsksCheck accounts.entry (rows_of (found_of options.now))) }
    ensures taken { IsNone result → (question : CheckQuestion)
        → AsksCheck accounts.entry (rows_of (found_of options.now)) question → ⊥ }
{
    let name = options.get_str("workload")?;
    let explain = flag_of(options, "explain");
    Some(CheckQuestion {
        judging: judging_by(options, name, explain, accounts)?,
        independent: flag_of(options, "independent"),
        threads: threads_of(options)?,
        at_least: given_number(options, "at-least"),
        skips_unread: flag_of(options, "skip-unread"),
    })
}

/// What the options of `search` ask for. `parse` has seen to it that each is a number in its range. Where
/// `--palette` names anything but kinds of faults, the question has no palette.
pub fn search_question_of(options: &ArgMatches<'_>) -> Option<SearchQuestion>
    ensures parsed { IfSome result (AsksSearch (rows_of (found_of options.now))) }
    ensures ranges { IfSome result (λ question. HasNumbersInRange (Search question)) }
    ensures taken { IsNone result → (question : SearchQuestion)
        → AsksSearch (rows_of (found_of options.now)) question → ⊥ }
{
    let candidates = trial_question_of(options)?;
    Some(SearchQuestion {
        from: candidates.from,
        runs: candidates.runs,
        faults: candidates.faults,
        palette: candidates.palette,
        threads: given_within(options, "threads", 1, MAX_THREADS as u32),
        show: show_of(options),
    })
}

/// Which candidates of a run or of a test the options of `search` ask for. `parse` has seen to it
/// that each number is in its range. Where `--palette` names anything but kinds of faults, the
/// question has no palette.
pub fn trial_question_of(options: &ArgMatches<'_>) -> Option<TrialQuestion>
    ensures parsed { IfSome result (AsksTrials (rows_of (found_of options.now))) }
    ensures ranges { IfSome result (λ question. question.from + question.runs < 2 ^ 64) }
    ensures taken { IsNone result → (question : TrialQuestionData)
        → AsksTrials (rows_of (found_of options.now)) question → ⊥ }
{
    Some(TrialQuestion {
        from: number_within(options, "from", 0, MAX_CANDIDATES as u64)?,
        runs: number_within(options, "runs", 1, MAX_CANDIDATES as u64)?,
        faults: number_within(options, "faults", 0, MAX_FAULTS as u64)? as u32,
        palette: palette_of(options),
    })
}

/// What the options of `timeline` ask for, with the accounts that they give. Where there is no workload,
/// options of a checker and a budget are not used. `parse` has seen to it that a workload is one that a checker
/// judges, that a model is one, and that the budget is a number.
pub fn timeline_question_of<'a>(
    options: &ArgMatches<'_>,
    accounts: Option<&'a [Value]>,
) -> Option<TimelineQuestion<'a>>
    ensures parsed { IfSome result (AsksTimeline accounts.entry (rows_of (found_of options.now))) }
    ensures taken { IsNone result → (question : TimelineQuestion)
        → AsksTimeline accounts.entry (rows_of (found_of options.now)) question → ⊥ }
{
    let independent = flag_of(options, "independent");
    Some(TimelineQuestion {
        judging: judging_of(options, accounts)?,
        independent,
        choice: Choice {
            from: given_number(options, "from"),
            to: given_number(options, "to"),
        },
        skips_unread: flag_of(options, "skip-unread"),
    })
}

/// Whether the options of `plot` ask that keys which can't be read are left out.
fn plot_skips_unread(options: &ArgMatches<'_>) -> bool
    ensures { AsksPlot (rows_of (found_of options.now)) result }
{
    flag_of(options, "skip-unread")
}

/// What a history is judged by, if options give a workload. A no is explained.
fn judging_of<'a>(
    options: &ArgMatches<'_>,
    accounts: Option<&'a [Value]>,
) -> Option<Option<Judging<'a>>>
    ensures parsed { IfSome result (IsJudging accounts.entry (rows_of (found_of options.now))) }
    ensures taken { IsNone result → (judging : Option Judging)
        → IsJudging accounts.entry (rows_of (found_of options.now)) judging → ⊥ }
{
    match options.get_str("workload") {
        Some(name) => Some(Some(judging_by(options, name, true, accounts)?)),
        None => Some(None),
    }
}

/// What a history is judged by, with the checker of the workload of this name, which options give, and with
/// the accounts that they give.
fn judging_by<'a>(
    options: &ArgMatches<'_>,
    name: &str,
    explain: bool,
    accounts: Option<&'a [Value]>,
) -> Option<Judging<'a>>
    ensures parsed { first_of (codes "workload") (rows_of (found_of options.now)) ≡ Some name.now
        → IfSome result (IsJudgingBy accounts.entry (rows_of (found_of options.now))) }
    ensures explained { IfSome result (λ judging. judging.explain ≡ explain) }
    ensures taken { first_of (codes "workload") (rows_of (found_of options.now)) ≡ Some name.now
        → IsNone result → (judging : Judging)
        → IsJudgingBy accounts.entry (rows_of (found_of options.now)) judging → ⊥ }
{
    Some(Judging {
        checker: Checker::named(name)?,
        initial: signed_of(options, "initial"),
        budget: number_of(options, "budget")?,
        explain,
        model: model_of(options),
        accounts,
        total: signed_of(options, "total"),
        negative_balances: flag_of(options, "negative-balances"),
        linearizable: flag_of(options, "linearizable"),
        locked: flag_of(options, "locked"),
    })
}

/// The consistency model that is given, if it is. `parse` has seen to it that it is one.
fn model_of(options: &ArgMatches<'_>) -> Option<ConsistencyModel>
    ensures { result ≡ option_and_then model_of_name
        (first_of (codes "model") (rows_of (found_of options.now))) }
{
    match options.get_str("model") {
        Some(name) => model_named(name),
        None => None,
    }
}

/// The signed number that an option gives, if it is there.
fn signed_of(options: &ArgMatches<'_>, name: &str) -> Option<i64>
    ensures { IsGivenSigned (one_of name.now (rows_of (found_of options.now))) result }
{
    options.get_one::<i64>(name)
}

/// Whether a flag is there.
fn flag_of(options: &ArgMatches<'_>, name: &str) -> bool
    ensures { IsFlag (one_of name.now (rows_of (found_of options.now))) result }
{
    options.get_flag(name)
}

/// The number that an option gives, if it is there: an index, or how many at least.
fn given_number(options: &ArgMatches<'_>, name: &str) -> Option<usize>
    ensures { IsGivenNumber (one_of name.now (rows_of (found_of options.now))) result }
{
    options.get_one::<usize>(name)
}

/// The number that an option gives.
fn number_of(options: &ArgMatches<'_>, name: &str) -> Option<u64>
    ensures parsed { IfSome result (IsNumber (one_of name.now (rows_of (found_of options.now)))) }
    ensures taken { IsNone result → (number : ℕ)
        → IsNumber (one_of name.now (rows_of (found_of options.now))) number → ⊥ }
{
    options.get_one::<u64>(name)
}

/// The number from the least to the most that an option gives.
fn number_within(options: &ArgMatches<'_>, name: &str, least: u64, most: u64) -> Option<u64>
    ensures parsed { IfSome result
        (IsNumberWithin least most (one_of name.now (rows_of (found_of options.now)))) }
    ensures taken { IsNone result → (number : ℕ)
        → IsNumberWithin least most (one_of name.now (rows_of (found_of options.now))) number → ⊥ }
{
    let number = number_of(options, name)?;
    if least <= number && number <= most {
        Some(number)
    } else {
        None
    }
}

/// How many threads options give.
fn threads_of(options: &ArgMatches<'_>) -> Option<u32>
    ensures parsed { IfSome result
        (IsThreads (one_of (codes "threads") (rows_of (found_of options.now)))) }
    ensures taken { IsNone result → (threads : ℕ)
        → IsThreads (one_of (codes "threads") (rows_of (found_of options.now))) threads → ⊥ }
{
    let threads = number_within(options, "threads", 1, MAX_THREADS as u64)?;
    Some(threads as u32)
}

/// The number from the least to the most that an option gives, if it is there.
fn given_within(options: &ArgMatches<'_>, name: &str, least: u32, most: u32) -> Option<u32>
    ensures given { IsGivenWithin least most (one_of name.now (rows_of (found_of options.now)))
        result }
    ensures within { IfSome result (λ number. (least ≤ number) × (number ≤ most)) }
{
    let number = number_within(options, name, u64::from(least), u64::from(most))?;
    Some(number as u32)
}

/// The candidate that is to be shown, if options name one.
fn show_of(options: &ArgMatches<'_>) -> Option<Show>
    ensures { IsShow (rows_of (found_of options.now)) result }
{
    let number = number_within(options, "show", 0, MAX_CANDIDATES as u64)?;
    Some(Show {
        number,
        milliseconds: given_within(options, "ms", 1, MAX_SPREAD_MS as u32),
    })
}

/// The kinds of faults that options name, if they name kinds.
fn palette_of(options: &ArgMatches<'_>) -> Option<Palette>
    ensures { result ≡ option_and_then rule.palette_named
        (first_of (codes "palette") (rows_of (found_of options.now))) }
{
    match options.get_str("palette") {
        Some(text) => palette_named(text),
        None => None,
    }
}

/// Does what a command does, and gives its exit status:
///
/// | status | `check`, `run`, `timeline` | `shrink` | `search` | `env`, `plot` |
/// |---|---|---|---|---|
/// | 0 | the history is valid, or is not judged | the run does not fail | no run found that fails, or a schedule is shown | done |
/// | 1 | the history is not valid | the schedule is minimal | a run found that fails | |
/// | 2 | it is not known whether it is valid | the budget was used up | none found, and some are unknown | |
///
/// An error has a status of its own (`CliError::status`): 3 where the options or the input are refused, 4 where
/// the machine failed or a run was not completed. Options that do not go with the checker, or that name no kinds
/// of faults, are refused before anything is read. Nothing is written before any error but `Write`.
///
/// The steps are those by which `timeline` names the records of the nemesis; no other command looks at them.
///
/// The observer is told how far the work of `shrink` or `search` is, and what a history holds that `check` judges. A run on threads, a search and
/// the judgement of keys may wait; all else returns if each call of the reader, the writer and the observer does.
pub fn do_command<T, R, W, O>(
    rt: &T,
    alloc: Global,
    command: Command<'_>,
    steps: &[Value],
    reader: &mut R,
    writer: &mut W,
    observer: &mut O,
) -> Result<u8, CliError>
where
    T: Threads + Wait + Sync,
    R: Read,
    W: Write,
    O: ShrinkObserver + SearchObserver + HistoryObserver,
    requires { HasNumbersInRange command }
    ensures written { IfOk result (λ status. WritesOutput (R.remaining reader.old)
        (IsOutputOf command.entry (views steps.now)) status (W.contents writer.old) (W.contents writer.new)) }
    ensures options { (error : CliErrorData) → IsOfOptions command.entry error
        → IsErrOf result error ↔ RefusesOptions command.entry error }
    ensures reader_kept { IfErr result
        (λ e. IsOfOptions command.entry e → reader.new ≡ reader.old) }
    ensures refused { IfErr result (λ e. OnInput (R.remaining reader.old)
        (λ input. RefusesCommand command.entry (views steps.now) input e)) }
    ensures unwritten { IfErr result (λ e. e ≢ CliError.Write → writer.new ≡ writer.old) }
{
    match command {
        Command::Env => env_run(alloc, reader, writer),
        Command::Check(question) => check_run(rt, alloc, reader, writer, question, observer),
        Command::Run => run_run(rt, alloc, reader, writer),
        Command::Shrink { runs } => shrink_run(alloc, reader, writer, runs, observer),
        Command::Search(question) => search_run(rt, alloc, reader, writer, question, observer),
        Command::Timeline(question) => timeline_run(alloc, reader, writer, question, steps),
        Command::Plot { skips_unread } => plot_run(alloc, reader, writer, skips_unread),
    }
}
