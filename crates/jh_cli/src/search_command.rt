//! The command `search`: reads the settings of a run, tries random schedules of faults, and writes
//! the settings of the first run that fails; or the schedule of one candidate, without a run. What is
//! written stands in `specs/SearchText.antt`, why an input is refused in `specs/SearchRefusals.antt`;
//! what a candidate is stands in `jh_search`.

ghost use Rattle.std.specs.Prelude.{◌≡◌, ◌≢◌, ◌↔◌, ◌≤◌, ◌<◌, ◌+◌, ◌^◌, IfOk, IfErr, IfSome};
ghost use Rattle.std.specs.Prelude.{IsErrOf, MatchResult, None, Some, string_bytes};
ghost use Rattle.jh_settings.specs.Limits.{max_budget};
ghost use Rattle.jh_settings_texts.specs.Comments.{IsComment};
ghost use Rattle.jh_settings_texts.specs.SettingsWritten.{CanBeWritten};
ghost use Rattle.jh_tasks.specs.Threads.{IsThreadCount};
ghost use Rattle.jh_cli.specs.Outputs.{OnInput, WritesOutput};
ghost use Rattle.jh_cli.specs.SearchRefusals.{RefusesSearch, RefusesSearchBytes};
ghost use Rattle.jh_cli.specs.SearchText as text;
ghost use Rattle.jh_cli.specs.SearchText.{IsAnswerText, IsFoundText, IsSearchTextOf};
ghost use Rattle.jh_cli.specs.SearchText.{IsSearchedText, IsShownText};
ghost use Rattle.jh_cli.specs.SearchText.{candidate_comment, search_options, spread_asked};

use crate::error::CliError;
use crate::output::{MAX_READS, finish};
use jh_edn::read_bytes;
use jh_random_faults::Palette;
use jh_reports::{DONE, INVALID, Output, UNKNOWN};
use jh_search::{Options, SearchError, SearchObserver, Searched, candidate, search};
use jh_settings::settings_of;
use jh_settings_texts::{Spread, can_be_written, schedule_to_text, settings_behind};
use jh_simnode::Plan;
use jh_tasks::MAX_THREADS;
use std::alloc::{AllocError, Global};
use std::io::{Read, Write};
use std::sync::Wait;
use std::thread::{self, Threads};

/// A candidate whose schedule is shown.
#[derive(Clone, Copy, Debug, PartialEq, Eq)]
pub struct Show {
    /// Its number, below 2^63.
    pub number: u64,
    /// Over how many milliseconds its calls are spread; none: its entries are due by calls.
    pub milliseconds: Option<u32>,
}

/// What the command line asks of `search`: which candidates, on how many threads, or which one to
/// show. Its kinds of faults may be unknown, and its budget stands in the settings. `jh_search::Options`
/// are what the search takes of it, with all known.
#[derive(Clone, Copy, Debug, PartialEq, Eq)]
pub struct SearchQuestion {
    /// The number of the first candidate, below 2^63.
    pub from: u64,
    /// How many candidates are tried at most, below 2^63.
    pub runs: u64,
    /// How many random faults each has among the entries of the settings.
    pub faults: u32,
    /// Of which kinds these are. None: what the arguments name is none of the kinds.
    pub palette: Option<Palette>,
    /// On how many threads candidates are tried, from 1 to 16; none: on as many as there are
    /// processors. The answer is the same.
    pub threads: Option<u32>,
    /// The candidate whose schedule is shown instead; none: candidates are tried.
    pub show: Option<Show>,
}

/// Reads settings in TOML as `jh_settings::settings_of` does, and tries candidates of them, which
/// `jh_search::candidate` makes: plans with the seed raised by their number, and with random faults
/// among the entries of the schedule. Each is run serially and judged by the checker of its
/// workload. It writes the settings of the least candidate that fails, or a line that says that there
/// is none. The number of threads does not matter for that. The answer is the exit status, where NUMBER
/// counts candidates from 0, and RUNS is how many are tried at most from `from` on:
///
/// | what is written | what is found | status |
/// |---|---|---|
/// | `# candidate NUMBER of RUNS: invalid`, and settings behind it | the least candidate that fails | 1 |
/// | `# none of RUNS candidates is invalid, UNKNOWN unknown` | that none is known not to be valid | 0, or 2 where some are unknown |
///
/// Where the question names a candidate to show, nothing is run: `schedule = [..]` with the entries of that candidate is
/// written, as `jh_settings_texts::schedule_to_text` writes it, and the status is 0. Settings of a
/// test of a real database take this schedule too, and they alone where it has milliseconds: so
/// such a test can have random faults.
///
/// The settings have all keys, `mode = "serial"`, the seed and the schedule of the candidate, so
/// `run_run` and `shrink_run` read them, with the comment. The mode that was read means nothing. All
/// is read and done before the first byte is written.
///
/// May wait, and promises only if it returns.
///
/// Errors: `BadPalette` where the question names no kinds, before anything is read; an error of
/// reading (`Input`, `Read`); `Settings`; `Unwritable` where settings can't say the plan again (its
/// generator would be nested deeper than a text may be); `Thread` where a thread could not be had, so
/// never where the question asks for a single thread; `OutOfMemory`; `Write`. Nothing is written before
/// any of them but `Write`.
pub fn search_run<T: Threads + Wait + Sync, R: Read, W: Write, O: SearchObserver>(
    rt: &T,
    alloc: Global,
    reader: &mut R,
    writer: &mut W,
    question: SearchQuestion,
    observer: &mut O,
) -> Result<u8, CliError>
    requires few { question.from + question.runs < 2 ^ 64 }
    requires threads { IfSome question.threads (λ threads. IsThreadCount threads) }
    ensures written { IfOk result (λ status. WritesOutput (R.remaining reader.old)
        (IsSearchTextOf question) status (W.contents writer.old) (W.contents writer.new)) }
    ensures asked { IsErrOf result CliError.BadPalette ↔ (question.palette ≡ None) }
    ensures reader_kept { IsErrOf result CliError.BadPalette → reader.new ≡ reader.old }
    ensures refused { IfErr result (λ e. OnInput (R.remaining reader.old)
        (λ input. RefusesSearch question input e)) }
    ensures unwritten { IfErr result (λ e. e ≢ CliError.Write → writer.new ≡ writer.old) }
{
    let Some(palette) = question.palette else {
        return Err(CliError::BadPalette);
    };
    let input = read_bytes(alloc, reader, MAX_READS)?;
    let output = search_bytes(rt, alloc, &input, question, palette, observer)?;
    finish(output, writer)
}

/// How many threads: as many as are given, or as there are processors, at most 16.
fn threads_wanted<T: Threads>(rt: &T, given: Option<u32>) -> u32
    requires { IfSome given (λ threads. IsThreadCount threads) }
    ensures given { IfSome given (λ threads. result ≡ threads) }
    ensures within { IsThreadCount result }
{
    match given {
        Some(threads) => threads,
        None => processors(rt),
    }
}

/// How many processors there are, at most 16, and one where that can't be known.
fn processors<T: Threads>(rt: &T) -> u32
    ensures { IsThreadCount result }
{
    match thread::available_parallelism(rt) {
        Ok(count) => count.get().min(MAX_THREADS) as u32,
        Err(_) => 1,
    }
}

/// The options of the search that a question asks for, with these kinds and a judge of this budget.
fn options_of(question: SearchQuestion, palette: Palette, budget: u64) -> Options
    ensures { result ≡ search_options question palette budget }
{
    Options {
        from: question.from,
        runs: question.runs,
        faults: question.faults,
        palette,
        budget,
    }
}

/// All that is written for these bytes.
fn search_bytes<T: Threads + Wait + Sync, O: SearchObserver>(
    rt: &T,
    alloc: Global,
    input: &[u8],
    question: SearchQuestion,
    palette: Palette,
    observer: &mut O,
) -> Result<Output, CliError>
    requires palette { question.palette ≡ Some palette }
    requires few { question.from + question.runs < 2 ^ 64 }
    requires threads { IfSome question.threads (λ threads. IsThreadCount threads) }
    ensures { MatchResult result
        (λ output. IsSearchTextOf question input.now output.status output.text.items)
        (RefusesSearchBytes question input.now) }
{
    let settings = settings_of(alloc, input)?;
    let plan = &settings.plan;
    if !can_be_written(plan) {
        return Err(CliError::Unwritable);
    }
    let options = options_of(question, palette, settings.budget);
    let threads = threads_wanted(rt, question.threads);
    match search_or_show(rt, alloc, plan, &options, threads, question.show, observer) {
        Ok(output) => Ok(output),
        Err(error) => Err(CliError::from(error)),
    }
}

/// All that is written of the candidates of a plan, or of the one that is to be shown.
fn search_or_show<T: Threads + Wait + Sync, O: SearchObserver>(
    rt: &T,
    alloc: Global,
    plan: &Plan,
    options: &Options,
    threads: u32,
    show: Option<Show>,
    observer: &mut O,
) -> Result<Output, SearchError>
    requires writable { CanBeWritten plan.now }
    requires budget { options.now.budget ≤ max_budget }
    requires few { options.now.from + options.now.runs < 2 ^ 64 }
    requires threads { IsThreadCount threads }
    ensures written { IfOk result
        (λ output. IsAnswerText show plan.now options.now output.status output.text.items) }
    ensures wanted { IsErrOf result SearchError.Thread → (show ≡ None) × (threads ≢ 1) }
{
    match show {
        None => search_plan(rt, alloc, plan, options, threads, observer),
        Some(show) => Ok(Output {
            status: DONE,
            text: shown_text(alloc, plan, options, show)?,
        }),
    }
}

/// The calls of a plan, spread over the time that is asked for, where one is.
fn spread_of(plan: &Plan, milliseconds: Option<u32>) -> Option<Spread>
    ensures spread { result ≡ spread_asked plan.now milliseconds }
    ensures some { IfSome result (λ s. 0 < s.calls) }
{
    let milliseconds = milliseconds?;
    Some(Spread {
        calls: plan.ops(),
        milliseconds,
    })
}

/// The schedule of a candidate, which is not run.
fn shown_text(
    alloc: Global,
    plan: &Plan,
    options: &Options,
    show: Show,
) -> Result<Vec<u8>, AllocError>
    requires writable { CanBeWritten plan.now }
    ensures { IfOk result (λ output. IsShownText plan.now options.now show output.items) }
{
    let shown = candidate(alloc, plan, options, show.number)?;
    let nodes = shown.environment().nodes();
    let spread = spread_of(plan, show.milliseconds);
    let text = schedule_to_text(alloc, nodes, shown.schedule().entries(), spread)?;
    Ok(text.into_bytes())
}

/// All that is written of the candidates of a plan.
fn search_plan<T: Threads + Wait + Sync, O: SearchObserver>(
    rt: &T,
    alloc: Global,
    plan: &Plan,
    options: &Options,
    threads: u32,
    observer: &mut O,
) -> Result<Output, SearchError>
    requires writable { CanBeWritten plan.now }
    requires budget { options.now.budget ≤ max_budget }
    requires few { options.now.from + options.now.runs < 2 ^ 64 }
    requires threads { IsThreadCount threads }
    ensures written { IfOk result
        (λ output. IsSearchedText plan.now options.now output.status output.text.items) }
    ensures wanted { IsErrOf result SearchError.Thread → threads ≢ 1 }
{
    let searched = search(rt, alloc, plan, options, threads, observer)?;
    Ok(Output {
        status: status_of(searched),
        text: text_of(alloc, plan, options, searched)?,
    })
}

/// The exit status of what is found.
fn status_of(searched: Searched) -> u8
    ensures { result ≡ text.searched_status searched.failing searched.unknown }
{
    match searched {
        Searched {
            failing: Some(_),
            ..
        } => INVALID,
        Searched { unknown: 0, .. } => DONE,
        _ => UNKNOWN,
    }
}

/// What is written of what is found.
fn text_of(
    alloc: Global,
    plan: &Plan,
    options: &Options,
    searched: Searched,
) -> Result<Vec<u8>, AllocError>
    requires writable { CanBeWritten plan.now }
    requires budget { options.now.budget ≤ max_budget }
    ensures { IfOk result (λ output.
        IsFoundText plan.now options.now searched.failing searched.unknown output.items) }
{
    match searched.failing {
        Some(number) => found_text(alloc, plan, options, number),
        None => none_text(alloc, options.runs, searched.unknown),
    }
}

/// The line where no candidate fails.
fn none_text(alloc: Global, runs: u64, unknown: u64) -> Result<Vec<u8>, AllocError>
    ensures { IfOk result (λ output. output.items ≡ text.none_line runs unknown) }
{
    let line = format!(in alloc; "# none of {runs} candidates is invalid, {unknown} unknown\n")?;
    Ok(line.into_bytes())
}

/// The comment before the settings of the candidate of a number, of so many.
fn comment_of(alloc: Global, number: u64, runs: u64) -> Result<String, AllocError>
    ensures text { IfOk result (λ text. string_bytes text ≡ candidate_comment number runs) }
    ensures comment { IfOk result (λ text. IsComment (string_bytes text)) }
{
    format!(in alloc; " candidate {number} of {runs}: invalid")
}

/// The settings of the candidate of a number, behind a comment.
fn found_text(
    alloc: Global,
    plan: &Plan,
    options: &Options,
    number: u64,
) -> Result<Vec<u8>, AllocError>
    requires writable { CanBeWritten plan.now }
    requires budget { options.now.budget ≤ max_budget }
    ensures { IfOk result (λ output.
        IsFoundText plan.now options.now (Some number) 0 output.items) }
{
    let found = candidate(alloc, plan, options, number)?;
    let comment = comment_of(alloc, number, options.runs)?;
    let output = settings_behind(alloc, &comment, &found, options.budget)?;
    Ok(output.into_bytes())
}
