//! The commands and their options, as `clap` reads them, and what its refusals mean to the program.
//! The texts of help stand here and in `help.rt`. No clause speaks of them: tests show help and complaints.

ghost use Rattle.std.specs.Prelude.{◌≡◌, ◌≢◌, ◌↔◌, codes, false, IfOk, IfErr, IsErrOf, Ok, map};
ghost use Rattle.clap.specs.Words.{app_of, kind_of, rule_of, subcommand_rows_of};
ghost use Rattle.clap.specs.declared.builder.value_parser.ValueParser.TheVariants.{Unsigned};
ghost use Rattle.clap.specs.declared.error.ErrorKind.TheVariants as ErrorKind;
ghost use Rattle.jh_cli.specs.declared.error.CliError.TheVariants as CliError;
ghost use Rattle.jh_checkers.specs.Checkers.{checker_names};
ghost use Rattle.jh_arguments.specs.Commands.{SubcommandIsAny};
ghost use Rattle.jh_arguments.specs.Limits.{max_candidates, max_faults};
ghost use Rattle.jh_arguments.specs.Line as text;
ghost use Rattle.jh_checkers.specs.Models.{model_names};
ghost use Rattle.jh_arguments.specs.Line.{AreMatches, IsCommandLine, IsRefused};

use crate::help;
use crate::limits::{MAX_BUDGET, MAX_CANDIDATES, MAX_FAULTS, MAX_SPREAD_MS, MAX_THREADS};
use clap::builder::ValueParser;
use clap::error::ErrorKind;
use clap::{Arg, ArgAction, ArgMatches, Command, Error, value_parser};
use jh_cli::CliError;
use jh_reports::{DONE, REFUSED};
use std::alloc::Global;
use std::convert::AsStr;

/// The names of the workloads, as `jh_checkers` has them.
static WORKLOADS: [&str; 11] = [
    "register",
    "set",
    "counter",
    "unique-ids",
    "list-append",
    "total-queue",
    "queue",
    "bank",
    "set-full",
    "mutex",
    "fifo-queue",
];

/// The names of the consistency models, as `jh_checkers` has them.
static MODELS: [&str; 4] = [
    "strict-serializable",
    "serializable",
    "strong-snapshot-isolation",
    "snapshot-isolation",
];

/// The names of the workloads, in the order of help.
fn workloads() -> &'static [&'static str]
    ensures { map (λ name. name.now) result.now ≡ checker_names }
{
    WORKLOADS.as_slice()
}

/// The names of the consistency models, in the order of help.
fn models() -> &'static [&'static str]
    ensures { map (λ name. name.now) result.now ≡ model_names }
{
    MODELS.as_slice()
}

/// The commands and their options.
fn command_line<'a>(alloc: Global) -> Result<Command<'a>, Error>
    ensures line { IfOk result (λ line. IsCommandLine (app_of line)) }
    ensures memory { IfErr result (λ e. kind_of e ≡ ErrorKind.OutOfMemory) }
{
    let names = workloads();
    let models = models();
    let jeprun = Command::new(alloc, "jeprun")
        .about("A test harness for databases, over a simulated cluster under faults")
        .after_help(help::JEPRUN)
        .version(help::VERSION)
        .subcommand_required(true)
        .arg_required_else_help(true)
        .subcommand(env_command(alloc)?)?
        .subcommand(check_command(alloc, names, models)?)?
        .subcommand(run_command(alloc)?)?
        .subcommand(shrink_command(alloc)?)?
        .subcommand(search_command(alloc)?)?
        .subcommand(timeline_command(alloc, names, models)?)?
        .subcommand(drive_command(alloc)?)?
        .subcommand(plot_command(alloc)?)?;
    Ok(jeprun)
}

/// The command `env`.
fn env_command<'a>(alloc: Global) -> Result<Command<'a>, Error>
    ensures env { IfOk result (λ env. app_of env ≡ text.without_options (codes "env")) }
    ensures memory { IfErr result (λ e. kind_of e ≡ ErrorKind.OutOfMemory) }
{
    let env = Command::new(alloc, "env")
        .about("Applies fault steps to an environment, both read from standard input as EDN")
        .after_help(help::ENV)
        .arg(verbose_option(alloc))?;
    Ok(env)
}

/// The command `run`.
fn run_command<'a>(alloc: Global) -> Result<Command<'a>, Error>
    ensures run { IfOk result (λ run. app_of run ≡ text.without_options (codes "run")) }
    ensures memory { IfErr result (λ e. kind_of e ≡ ErrorKind.OutOfMemory) }
{
    let run = Command::new(alloc, "run")
        .about(
            "Runs a simulated cluster by settings, read from standard input as TOML, and judges its history",
        )
        .after_help(help::RUN)
        .arg(verbose_option(alloc))?;
    Ok(run)
}

/// The command `check` and its options.
fn check_command<'a>(
    alloc: Global,
    names: &'static [&'static str],
    models: &'static [&'static str],
) -> Result<Command<'a>, Error>
    ensures check { IfOk result (λ check. app_of check ≡ text.check names.entry models.entry) }
    ensures memory { IfErr result (λ e. kind_of e ≡ ErrorKind.OutOfMemory) }
{
    let explain = flag_option(
        alloc,
        "explain",
        "Says why a register, a mutex, list-append or a fifo-queue is not valid",
    );
    let independent = flag_option(
        alloc,
        "independent",
        "Judges each key by itself; values are tuples of a key and a value",
    );
    let command = Command::new(alloc, "check")
        .about("Judges a history of operations, read from standard input as EDN")
        .after_help(help::CHECK)
        .arg(workload_option(alloc, names).required(true))?;
    let check = judged(alloc, command, models)?
        .arg(explain)?
        .arg(independent)?
        .arg(threads_option(alloc))?
        .arg(at_least_option(alloc))?
        .arg(skip_unread_option(alloc))?
        .arg(verbose_option(alloc))?;
    Ok(check)
}

/// The command `timeline` and its options.
fn timeline_command<'a>(
    alloc: Global,
    names: &'static [&'static str],
    models: &'static [&'static str],
) -> Result<Command<'a>, Error>
    ensures timeline { IfOk result
        (λ timeline. app_of timeline ≡ text.timeline names.entry models.entry) }
    ensures memory { IfErr result (λ e. kind_of e ≡ ErrorKind.OutOfMemory) }
{
    let independent = flag_option(
        alloc,
        "independent",
        "Shows each key by itself; values are tuples of a key and a value",
    );
    let command = Command::new(alloc, "timeline")
        .about("Writes a page that shows a history, which is read from standard input as EDN")
        .after_help(help::TIMELINE)
        .arg(workload_option(alloc, names))?;
    let timeline = judged(alloc, command, models)?
        .arg(independent)?
        .arg(index_option(alloc, "from", "The first record that is shown, from 0"))?
        .arg(index_option(alloc, "to", "The record behind the last one that is shown"))?
        .arg(run_settings_option(alloc))?
        .arg(skip_unread_option(alloc))?
        .arg(verbose_option(alloc))?;
    Ok(timeline)
}

/// A command with the options of a judgement: what is said to one checker, and how much it may do.
fn judged<'a>(
    alloc: Global,
    command: Command<'a>,
    models: &'static [&'static str],
) -> Result<Command<'a>, Error>
    ensures judged { IfOk result
        (λ judged. app_of judged ≡ text.judged models.entry (app_of command.entry)) }
    ensures memory { IfErr result (λ e. kind_of e ≡ ErrorKind.OutOfMemory) }
{
    let negative = flag_option(
        alloc,
        "negative-balances",
        "Balances of a bank may be below 0",
    );
    let linearizable = flag_option(
        alloc,
        "linearizable",
        "Stale reads make a set-full not valid",
    );
    let locked = flag_option(alloc, "locked", "A mutex is held at first");
    let judged = command
        .arg(initial_option(alloc))?
        .arg(model_option(alloc, models))?
        .arg(accounts_option(alloc))?
        .arg(total_option(alloc))?
        .arg(negative)?
        .arg(linearizable)?
        .arg(locked)?
        .arg(judge_option(alloc))?;
    Ok(judged)
}

/// The command `shrink` and its options.
fn shrink_command<'a>(alloc: Global) -> Result<Command<'a>, Error>
    ensures shrink { IfOk result (λ shrink. app_of shrink ≡ text.shrink) }
    ensures memory { IfErr result (λ e. kind_of e ≡ ErrorKind.OutOfMemory) }
{
    let budget = budget_option(alloc, "How many runs may be made", "10000");
    let shrink = Command::new(alloc, "shrink")
        .about(
            "Makes the schedule of a failing run small, whose settings are read from standard input as TOML",
        )
        .after_help(help::SHRINK)
        .arg(budget)?
        .arg(tried_test_option(alloc))?
        .arg(verbose_option(alloc))?;
    Ok(shrink)
}

/// The command `search` and its options.
fn search_command<'a>(alloc: Global) -> Result<Command<'a>, Error>
    ensures search { IfOk result (λ search. app_of search ≡ text.search) }
    ensures memory { IfErr result (λ e. kind_of e ≡ ErrorKind.OutOfMemory) }
{
    let search = Command::new(alloc, "search")
        .about(
            "Tries random schedules for a run that fails, whose settings are read from standard input as TOML",
        )
        .after_help(help::SEARCH)
        .arg(runs_option(alloc))?
        .arg(faults_option(alloc))?
        .arg(palette_option(alloc))?
        .arg(from_option(alloc))?
        .arg(given_threads_option(alloc))?
        .arg(show_option(alloc))?
        .arg(spread_option(alloc))?
        .arg(tried_test_option(alloc))?
        .arg(verbose_option(alloc))?;
    Ok(search)
}

/// The command `drive`, and the file of its settings.
fn drive_command<'a>(alloc: Global) -> Result<Command<'a>, Error>
    ensures drive { IfOk result (λ drive. app_of drive ≡ text.drive) }
    ensures memory { IfErr result (λ e. kind_of e ≡ ErrorKind.OutOfMemory) }
{
    let drive = Command::new(alloc, "drive")
        .about(
            "Conducts a test of a real database, whose settings are read from a file as TOML, by lines",
        )
        .after_help(help::DRIVE)
        .arg(test_settings_argument(alloc))?
        .arg(verbose_option(alloc))?;
    Ok(drive)
}

/// The command `plot` and its options.
fn plot_command<'a>(alloc: Global) -> Result<Command<'a>, Error>
    ensures plot { IfOk result (λ plot. app_of plot ≡ text.plot) }
    ensures memory { IfErr result (λ e. kind_of e ≡ ErrorKind.OutOfMemory) }
{
    let plot = Command::new(alloc, "plot")
        .about(
            "Writes a page that plots latencies and rates of a history, which is read from standard input as EDN",
        )
        .after_help(help::PLOT)
        .arg(skip_unread_option(alloc))?
        .arg(verbose_option(alloc))?;
    Ok(plot)
}

/// The file with the settings of a test.
fn test_settings_argument<'a>(alloc: Global) -> Arg<'a>
    ensures rule { rule_of result ≡ text.test_settings_file }
    ensures local { result.global ≡ false }
{
    Arg::new(alloc, "settings")
        .value_name("SETTINGS")
        .help("The file with the settings of the test")
        .required(true)
}

/// The file with the settings of the run that is shown.
fn run_settings_option<'a>(alloc: Global) -> Arg<'a>
    ensures rule { rule_of result ≡ text.run_settings_file }
    ensures local { result.global ≡ false }
{
    Arg::new(alloc, "settings")
        .long("settings")
        .value_name("FILE")
        .help("The settings of the run that is shown, to name its steps")
}

/// The file with the settings of a test of a real database, which is tried more than once.
fn tried_test_option<'a>(alloc: Global) -> Arg<'a>
    ensures rule { rule_of result ≡ text.tried_test_file }
    ensures local { result.global ≡ false }
{
    Arg::new(alloc, "drive")
        .long("drive")
        .value_name("FILE")
        .help("The settings of a test as drive has them, to try tests by lines")
}

/// How many candidates are tried at most: one, or more.
fn runs_option<'a>(alloc: Global) -> Arg<'a>
    ensures rule { rule_of result
        ≡ text.number_rule (codes "runs") (Unsigned 1 max_candidates) (codes "10000") }
    ensures local { result.global ≡ false }
{
    let parser = value_parser!(u64).range(1..=MAX_CANDIDATES);
    number_option(
        alloc,
        "runs",
        "How many candidates are tried",
        parser,
        "10000",
    )
}

/// How many random faults each candidate has.
fn faults_option<'a>(alloc: Global) -> Arg<'a>
    ensures rule { rule_of result
        ≡ text.number_rule (codes "faults") (Unsigned 0 max_faults) (codes "8") }
    ensures local { result.global ≡ false }
{
    let parser = value_parser!(u64).range(..=MAX_FAULTS);
    number_option(
        alloc,
        "faults",
        "How many random faults each has",
        parser,
        "8",
    )
}

/// The number of the first candidate.
fn from_option<'a>(alloc: Global) -> Arg<'a>
    ensures rule { rule_of result
        ≡ text.number_rule (codes "from") (Unsigned 0 max_candidates) (codes "0") }
    ensures local { result.global ≡ false }
{
    let parser = value_parser!(u64).range(..=MAX_CANDIDATES);
    number_option(
        alloc,
        "from",
        "The number of the first candidate",
        parser,
        "0",
    )
}

/// The kinds of faults.
fn palette_option<'a>(alloc: Global) -> Arg<'a>
    ensures rule { rule_of result ≡ text.palette }
    ensures local { result.global ≡ false }
{
    Arg::new(alloc, "palette")
        .long("palette")
        .value_name("KINDS")
        .help("Of which kinds the faults are, with commas between")
        .default_value("cut,slow,loss,fix,pause,kill,bump")
}

/// How many threads try candidates, if that is given.
fn given_threads_option<'a>(alloc: Global) -> Arg<'a>
    ensures rule { rule_of result ≡ text.given_threads }
    ensures local { result.global ≡ false }
{
    given_option(
        alloc,
        "threads",
        "How many threads try candidates; as many as there are processors where it is left out",
        value_parser!(u64).range(1..=MAX_THREADS),
    )
}

/// The number of the candidate that is shown, if one is.
fn show_option<'a>(alloc: Global) -> Arg<'a>
    ensures rule { rule_of result ≡ text.show }
    ensures local { result.global ≡ false }
{
    given_option(
        alloc,
        "show",
        "Writes the schedule of this candidate, and runs none",
        value_parser!(u64).range(0..=MAX_CANDIDATES),
    )
}

/// The time over which the calls of a candidate that is shown are spread, if one is given.
fn spread_option<'a>(alloc: Global) -> Arg<'a>
    ensures rule { rule_of result ≡ text.spread }
    ensures local { result.global ≡ false }
{
    let parser = value_parser!(u64).range(1..=MAX_SPREAD_MS);
    given_option(
        alloc,
        "ms",
        "With --show: spreads the schedule over so many milliseconds, for drive",
        parser,
    )
}

/// What the database was to be: one of these names.
fn workload_option<'a>(alloc: Global, names: &'static [&'static str]) -> Arg<'a>
    ensures rule { rule_of result ≡ text.workload names.entry }
    ensures local { result.global ≡ false }
{
    Arg::new(alloc, "workload")
        .long("workload")
        .value_name("NAME")
        .help("What the database was to be")
        .value_parser(&*names)
}

/// What a register holds at first: a number of `i64`.
fn initial_option<'a>(alloc: Global) -> Arg<'a>
    ensures rule { rule_of result ≡ text.signed (codes "initial") }
    ensures local { result.global ≡ false }
{
    signed_option(
        alloc,
        "initial",
        "The register's first value, as --initial=-5; nil where it is left out",
    )
}

/// The sum of the balances of a bank: a number of `i64`.
fn total_option<'a>(alloc: Global) -> Arg<'a>
    ensures rule { rule_of result ≡ text.signed (codes "total") }
    ensures local { result.global ≡ false }
{
    signed_option(alloc, "total", "The sum of all balances of a bank")
}

/// The accounts of a bank: a text.
fn accounts_option<'a>(alloc: Global) -> Arg<'a>
    ensures rule { rule_of result ≡ text.accounts }
    ensures local { result.global ≡ false }
{
    Arg::new(alloc, "accounts")
        .long("accounts")
        .value_name("VALUES")
        .help("The accounts of a bank, as '[0 1 2]'")
}

/// By which consistency model transactions are judged: one of these names.
fn model_option<'a>(alloc: Global, models: &'static [&'static str]) -> Arg<'a>
    ensures rule { rule_of result ≡ text.model models.entry }
    ensures local { result.global ≡ false }
{
    Arg::new(alloc, "model")
        .long("model")
        .value_name("MODEL")
        .help("What transactions were to keep; strict-serializable where it is left out")
        .value_parser(&*models)
}

/// An option that takes a number of `i64`, which may be left out.
fn signed_option<'a>(alloc: Global, name: &'static str, help: &'static str) -> Arg<'a>
    ensures rule { rule_of result ≡ text.signed name.now }
    ensures local { result.global ≡ false }
{
    Arg::new(alloc, name)
        .long(name)
        .value_name("N")
        .help(help)
        .value_parser(value_parser!(i64))
}

/// The index of a record: a number of `u64`.
fn index_option<'a>(alloc: Global, name: &'static str, help: &'static str) -> Arg<'a>
    ensures rule { rule_of result ≡ text.given_number name.now }
    ensures local { result.global ≡ false }
{
    Arg::new(alloc, name)
        .long(name)
        .value_name("INDEX")
        .help(help)
        .value_parser(value_parser!(u64))
}

/// How much the judge of a register or a mutex may do.
fn judge_option<'a>(alloc: Global) -> Arg<'a>
    ensures rule { rule_of result ≡ text.budget (codes "100000") }
    ensures local { result.global ≡ false }
{
    budget_option(
        alloc,
        "How many configurations the judge of a register or a mutex may reach",
        "100000",
    )
}

/// How much a command may do.
fn budget_option<'a>(alloc: Global, help: &'static str, default: &'static str) -> Arg<'a>
    ensures rule { rule_of result ≡ text.budget default.now }
    ensures local { result.global ≡ false }
{
    let parser = value_parser!(u64).range(..=MAX_BUDGET);
    number_option(alloc, "budget", help, parser, default)
}

/// How many threads judge the keys of a history.
fn threads_option<'a>(alloc: Global) -> Arg<'a>
    ensures rule { rule_of result ≡ text.threads }
    ensures local { result.global ≡ false }
{
    let parser = value_parser!(u64).range(1..=MAX_THREADS);
    number_option(alloc, "threads", "How many threads judge keys", parser, "1")
}

/// How many operations that ended `:ok` a valid history has at least: a number of `u64`.
fn at_least_option<'a>(alloc: Global) -> Arg<'a>
    ensures rule { rule_of result ≡ text.given_number (codes "at-least") }
    ensures local { result.global ≡ false }
{
    given_option(
        alloc,
        "at-least",
        "A history with fewer calls that ended :ok is not called valid",
        value_parser!(u64),
    )
}

/// Whether pairs of an operation's map that can't be read are left out.
fn skip_unread_option<'a>(alloc: Global) -> Arg<'a>
    ensures rule { rule_of result ≡ text.skip_unread }
    ensures local { result.global ≡ false }
{
    flag_option(
        alloc,
        "skip-unread",
        "Leaves out keys with floats and other tokens that can't be read, where no checker reads them",
    )
}

/// Whether it is told where and why an input is refused.
fn verbose_option<'a>(alloc: Global) -> Arg<'a>
    ensures rule { rule_of result ≡ text.verbose }
    ensures local { result.global ≡ false }
{
    flag_option(
        alloc,
        "verbose",
        "Says on standard error where and why an input is refused",
    )
}

/// An option that is there or not.
fn flag_option<'a>(alloc: Global, name: &'static str, help: &'static str) -> Arg<'a>
    ensures rule { rule_of result ≡ text.flag name.now }
    ensures local { result.global ≡ false }
{
    Arg::new(alloc, name)
        .long(name)
        .help(help)
        .action(ArgAction::SetTrue)
}

/// An option that takes a number, which may be left out.
fn given_option<'a>(
    alloc: Global,
    name: &'static str,
    help: &'static str,
    parser: ValueParser<'a>,
) -> Arg<'a>
    ensures rule { rule_of result ≡ text.given_rule name.now parser.entry }
    ensures local { result.global ≡ false }
{
    Arg::new(alloc, name)
        .long(name)
        .value_name("N")
        .help(help)
        .value_parser(parser)
}

/// An option that takes a number, and this one where it is left out.
fn number_option<'a>(
    alloc: Global,
    name: &'static str,
    help: &'static str,
    parser: ValueParser<'a>,
    default: &'static str,
) -> Arg<'a>
    ensures rule { rule_of result ≡ text.number_rule name.now parser.entry default.now }
    ensures local { result.global ≡ false }
{
    given_option(alloc, name, help, parser).default_value(default)
}

/// What `clap` finds in these arguments, of which the first is the program's name: they ask for a command, or
/// for a test. Or its refusal, which is a request for help or for the version, a complaint, or out of memory.
pub fn parse<'a, S: AsStr>(alloc: Global, arguments: &'a [S]) -> Result<ArgMatches<'a>, Error>
    ensures found { IfOk result (AreMatches (map S.text arguments.entry.now)) }
    ensures asked { IfOk result (λ matches. SubcommandIsAny (subcommand_rows_of matches)) }
    ensures refused { IfErr result (IsRefused (map S.text arguments.entry.now)) }
{
    command_line(alloc)?.try_get_matches_from(arguments)
}

/// The exit status of a refusal: 0 where the arguments ask for help or for the version, 3 where
/// they are wrong. Where memory ran out that is an error, as it is of any command.
pub fn status_of_refusal(refusal: &Error) -> Result<u8, CliError>
    ensures memory { IsErrOf result CliError.OutOfMemory
        ↔ (kind_of refusal.now ≡ ErrorKind.OutOfMemory) }
    ensures help { (kind_of refusal.now ≡ ErrorKind.DisplayHelp) → result ≡ Ok 0 }
    ensures version { (kind_of refusal.now ≡ ErrorKind.DisplayVersion) → result ≡ Ok 0 }
    ensures wrong { (kind_of refusal.now ≢ ErrorKind.OutOfMemory)
        → (kind_of refusal.now ≢ ErrorKind.DisplayHelp)
        → (kind_of refusal.now ≢ ErrorKind.DisplayVersion) → result ≡ Ok 3 }
{
    if refusal.kind() == ErrorKind::OutOfMemory {
        Err(CliError::OutOfMemory)
    } else if refusal.use_stderr() {
        Ok(REFUSED)
    } else {
        Ok(DONE)
    }
}
