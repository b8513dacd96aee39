//! The command `timeline`: reads a history, or all that `run` or `drive` printed, and writes a page that
//! shows it. What is written stands in `specs/TimelineText.antt`, why an input is refused in
//! `specs/TimelineRefusals.antt`.

ghost use Rattle.std.specs.Prelude.{◌≡◌, ◌≢◌, ◌↔◌, All, IfErr, IfOk, IsErrOf, IsTrue};
ghost use Rattle.std.specs.Prelude.{MatchResult, None, Some, false, true};
ghost use Rattle.std.specs.Option.{option_copied};
ghost use Rattle.jh_edn.specs.View.{views};
ghost use Rattle.jh_ops.specs.Operation.{operations};
ghost use Rattle.jh_ops.specs.OperationWritten.{IsWritable};
ghost use Rattle.jh_timeline_pages.specs.Page as pages;
ghost use Rattle.jh_cli.specs.Outputs.{OnInput, WritesOutput};
ghost use Rattle.jh_cli.specs.TimelineRefusals.{RefusesFinding, RefusesPage, RefusesShowing};
ghost use Rattle.jh_cli.specs.TimelineRefusals.{RefusesTimeline};
ghost use Rattle.jh_cli.specs.TimelineText as text;
ghost use Rattle.jh_cli.specs.TimelineText.{IsFoundBy, IsPage, IsTimelineTextOf, Shows};
ghost use Rattle.jh_cli.specs.TimelineText.{ShowsFound, ShowsKeys, ShowsWhole};
ghost use Rattle.jh_cli.specs.JudgingOptions.{IsOptionError, RefusesJudgingOptions};
ghost use Rattle.jh_cli.specs.declared.error.CliError.{CliError as CliErrorData};

use crate::error::CliError;
use crate::history_input::read_history_input;
use crate::judging_option::refuse_options;
use crate::notice::notice_of;
use crate::output::finish;
use jh_checkers::{Finding, Judging, check_history};
use jh_edn::Value;
use jh_histories::HistoryAndBelow;
use jh_independent::{check_keys_serial, verdict_of_all};
use jh_ops::Op;
use jh_reports::{DONE, Output, finding_text, keys_text};
use jh_timeline_pages::{Section, Top, write_page};
use jh_timeline_sections::{
    Choice, said_verdict, section_of, sections_of_keys, title_of, title_of_keys,
};
use std::alloc::{AllocError, Global};
use std::io::{Read, Write};

/// What `timeline` is asked of a history.
#[derive(Clone, Copy, Debug)]
pub struct TimelineQuestion<'a> {
    /// What it is judged by: where there is nothing, it is shown, and not judged.
    pub judging: Option<Judging<'a>>,
    /// Whether each key is judged by itself, and shown in a section of its own.
    pub independent: bool,
    /// Which records are shown.
    pub choice: Choice,
    /// Whether unread pairs of operations are made blank, as in `CheckQuestion`.
    pub skips_unread: bool,
}

/// What a page shows, with the exit status.
#[derive(Drop)]
struct Shown {
    status: u8,
    title: Vec<u8>,
    /// The line of the checker, without a line feed, and empty where nothing was judged.
    line: Vec<u8>,
    sections: Vec<Section>,
}

/// Reads a history as `jh_histories::read_history_and_below` does, also out of what `run` or `drive` printed,
/// without its unread keys where that is asked for, judges it by the checker of the workload, if
/// there is one, and writes a page in HTML that shows the
/// history: what was found in one sentence on top, as `jh_timeline_sections::title_of` says it,
/// with the line of the checker folded below, and a notice where the input says another verdict;
/// the history as `jh_timeline_sections::section_of` shows it; and below it what was
/// printed behind the history. Where its keys are independent, each is judged by itself, one after another,
/// sentence and line are those on all keys, and each has the section that
/// `jh_timeline_sections::sections_of_keys` makes. The answer is the exit status: 0 where the
/// history is valid or not judged, 1 where it is not valid, 2 where that is not known. All is read
/// and judged, and the page made, before the first byte is written.
///
/// The steps are those of the schedule of what recorded the history, as
/// `jh_settings_texts::steps_in_settings` gives them: by them the page names the records of the
/// nemesis that `run` wrote. There may be none.
///
/// Takes what the checker takes, O(n log n) for n records beside it, and memory for the text, the
/// history and the page.
///
/// Errors: `Misplaced` with the first option that the checker does not take, then `Missing` with the first
/// that it needs, both before anything is read; an error of reading, then of the text (`Input`), `History`, `Check`; `OutOfMemory`; `Write`.
/// Nothing is written before any of them but `Write`.
pub fn timeline_run<R: Read, W: Write>(
    alloc: Global,
    reader: &mut R,
    writer: &mut W,
    question: TimelineQuestion<'_>,
    steps: &[Value],
) -> Result<u8, CliError>
    ensures written { IfOk result (λ status. WritesOutput (R.remaining reader.old)
        (IsTimelineTextOf question.entry (views steps.now)) status (W.contents writer.old) (W.contents writer.new)) }
    ensures options { (e : CliErrorData) → IsOptionError e
        → IsErrOf result e ↔ RefusesJudgingOptions question.entry.judging e }
    ensures reader_kept { IfErr result (λ e. IsOptionError e → reader.new ≡ reader.old) }
    ensures refused { IfErr result (λ e. OnInput (R.remaining reader.old)
        (λ input. RefusesTimeline question.entry (views steps.now) input e)) }
    ensures unwritten { IfErr result (λ e. e ≢ CliError.Write → writer.new ≡ writer.old) }
{
    refuse_options(question.judging)?;
    let parts = read_history_input(alloc, reader, question.skips_unread)?;
    let output = page_of(alloc, parts, question, steps)?;
    finish(output, writer)
}

/// What is found in a history, if it is judged.
fn found_in(
    alloc: Global,
    history: &[Op],
    judging: Option<Judging<'_>>,
) -> Result<Option<Finding>, CliError>
    ensures { MatchResult result
        (IsFoundBy judging.entry (operations history.now))
        (RefusesFinding false judging.entry (operations history.now)) }
{
    match judging {
        Some(judging) => Ok(Some(check_history(alloc, history, judging)?)),
        None => Ok(None),
    }
}

/// The line of the checker.
fn line_of(alloc: Global, found: Option<&Finding>) -> Result<Vec<u8>, AllocError>
    ensures { IfOk result (λ line. line.items ≡ text.found_line (option_copied found.entry)) }
{
    match found {
        Some(found) => finding_text(alloc, found),
        None => Ok(Vec::new(alloc)),
    }
}

/// The exit status.
fn status_of(found: Option<&Finding>) -> u8
    ensures { result ≡ text.found_status (option_copied found.entry) }
{
    match found {
        Some(found) => jh_reports::status_of(found.verdict()),
        None => DONE,
    }
}

/// What a page shows of a history.
fn shown_of(
    alloc: Global,
    history: Vec<Op>,
    question: TimelineQuestion<'_>,
    steps: &[Value],
) -> Result<Shown, CliError>
    requires { All (λ op. IsWritable op.process) history.items }
    ensures shows { MatchResult result
        (λ shown. Shows question.entry (views steps.now) (operations history.items)
        shown.status shown.title.items shown.line.items shown.sections.items)
        (RefusesPage question.entry (operations history.items)) }
    ensures writable { IfOk result (λ shown.
        All (λ section. All (λ op. IsWritable op.process) section.history.items)
        shown.sections.items) }
{
    if question.independent {
        shown_by_keys(alloc, &history, question)
    } else {
        shown_whole(alloc, history, question, steps)
    }
}

/// What a page shows of a history as one.
fn shown_whole(
    alloc: Global,
    history: Vec<Op>,
    question: TimelineQuestion<'_>,
    steps: &[Value],
) -> Result<Shown, CliError>
    requires { All (λ op. IsWritable op.process) history.items }
    ensures shows { MatchResult result
        (λ shown. ShowsWhole question.entry.judging question.entry.choice (views steps.now) (operations history.items)
        shown.status shown.title.items shown.line.items shown.sections.items)
        (RefusesShowing false question.entry.judging (operations history.items)) }
    ensures writable { IfOk result (λ shown.
        All (λ section. All (λ op. IsWritable op.process) section.history.items)
        shown.sections.items) }
{
    let found = found_in(alloc, &history, question.judging)?;
    Ok(shown_found(alloc, history, found.as_ref(), question.choice, steps)?)
}

/// What a page shows of a history as one, in which this was found, if it was judged.
fn shown_found(
    alloc: Global,
    history: Vec<Op>,
    found: Option<&Finding>,
    choice: Choice,
    steps: &[Value],
) -> Result<Shown, AllocError>
    requires { All (λ op. IsWritable op.process) history.items }
    ensures shows { IfOk result (λ shown. ShowsFound (option_copied found.entry) choice (views steps.now)
        (operations history.items) shown.status shown.title.items shown.line.items shown.sections.items) }
    ensures writable { IfOk result (λ shown.
        All (λ section. All (λ op. IsWritable op.process) section.history.items)
        shown.sections.items) }
{
    let title = title_of(alloc, found)?;
    let line = line_of(alloc, found)?;
    let section = section_of(alloc, Vec::new(alloc), history, steps, found, choice)?;
    let mut sections = Vec::new(alloc);
    sections.push(section)?;
    Ok(Shown {
        status: status_of(found),
        title,
        line,
        sections,
    })
}

/// What a page shows of a history of independent keys.
fn shown_by_keys(
    alloc: Global,
    history: &[Op],
    question: TimelineQuestion<'_>,
) -> Result<Shown, CliError>
    requires { All (λ op. IsWritable op.process) history.now }
    ensures shows { MatchResult result
        (λ shown. ShowsKeys question.entry.judging question.entry.choice (operations history.now)
        shown.status shown.title.items shown.line.items shown.sections.items)
        (RefusesShowing true question.entry.judging (operations history.now)) }
    ensures writable { IfOk result (λ shown.
        All (λ section. All (λ op. IsWritable op.process) section.history.items)
        shown.sections.items) }
{
    match question.judging {
        Some(judging) => shown_judged(alloc, history, judging, question.choice),
        None => shown_unjudged(alloc, history, question.choice),
    }
}

/// What a page shows of a history of independent keys, each of them judged.
fn shown_judged(
    alloc: Global,
    history: &[Op],
    judging: Judging<'_>,
    choice: Choice,
) -> Result<Shown, CliError>
    requires { All (λ op. IsWritable op.process) history.now }
    ensures shows { MatchResult result
        (λ shown. ShowsKeys (Some judging.entry) choice (operations history.now)
        shown.status shown.title.items shown.line.items shown.sections.items)
        (RefusesShowing true (Some judging.entry) (operations history.now)) }
    ensures writable { IfOk result (λ shown.
        All (λ section. All (λ op. IsWritable op.process) section.history.items)
        shown.sections.items) }
{
    let findings = check_keys_serial(alloc, history, judging)?;
    let verdict = verdict_of_all(alloc, &findings)?;
    let title = title_of_keys(alloc, verdict, &findings)?;
    let line = keys_text(alloc, verdict, &findings)?;
    let sections = sections_of_keys(alloc, history, Some(findings), choice)?;
    Ok(Shown {
        status: jh_reports::status_of(verdict),
        title,
        line,
        sections,
    })
}

/// What a page shows of a history of independent keys, none of them judged.
fn shown_unjudged(alloc: Global, history: &[Op], choice: Choice) -> Result<Shown, CliError>
    requires { All (λ op. IsWritable op.process) history.now }
    ensures shows { MatchResult result
        (λ shown. ShowsKeys None choice (operations history.now)
        shown.status shown.title.items shown.line.items shown.sections.items)
        (RefusesShowing true None (operations history.now)) }
    ensures writable { IfOk result (λ shown.
        All (λ section. All (λ op. IsWritable op.process) section.history.items)
        shown.sections.items) }
{
    let sections = sections_of_keys(alloc, history, None, choice)?;
    Ok(Shown {
        status: DONE,
        title: title_of(alloc, None)?,
        line: Vec::new(alloc),
        sections,
    })
}

/// The bytes of a page.
fn page_text(
    alloc: Global,
    top: &Top,
    sections: &[Section],
    below: &[u8],
) -> Result<Vec<u8>, AllocError>
    requires { All (λ section. All (λ op. IsWritable op.process) section.history.items)
        sections.now }
    ensures { IfOk result (λ page. page.items ≡ pages.page_text top.now sections.now below.now) }
{
    let mut page = Vec::new(alloc);
    match write_page(alloc, top, sections, below, &mut page) {
        Ok(()) => Ok(page),
        Err(_) => Err(AllocError),
    }
}

/// The page of what was read.
fn page_of(
    alloc: Global,
    parts: HistoryAndBelow,
    question: TimelineQuestion<'_>,
    steps: &[Value],
) -> Result<Output, CliError>
    requires { All (λ op. IsWritable op.process) parts.history.items }
    ensures { MatchResult result
        (λ output. IsPage question.entry (views steps.now) (operations parts.history.items) parts.below.items
        output.status output.text.items)
        (RefusesPage question.entry (operations parts.history.items)) }
{
    let HistoryAndBelow { history, below } = parts;
    let Shown {
        status,
        title,
        line,
        sections,
    } = shown_of(alloc, history, question, steps)?;
    let said = said_verdict(&below);
    let notice = notice_of(alloc, question.judging, status, said)?;
    let top = Top {
        title,
        notice,
        line,
    };
    Ok(Output {
        status,
        text: page_text(alloc, &top, &sections, &below)?,
    })
}
