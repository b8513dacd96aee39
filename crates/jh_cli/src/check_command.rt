//! The command `check`: reads a history, or all that `run` or `drive` printed, and writes the one line
//! that a checker finds, in the history or in that of each of its keys; or that the history has too few
//! operations to be called valid, which `enough.rt` counts. What is written stands in `specs/CheckText.antt`,
//! why a history is refused in `specs/CheckRefusals.antt`; a new checker is a row of the table in
//! `jh_checkers`, and a case of `is_judged` in `enough.rt`.

ghost use Rattle.std.specs.Prelude.{◌≡◌, ◌≢◌, ◌↔◌, IfOk, IfErr, IsErrOf};
ghost use Rattle.std.specs.Prelude.{MatchResult, Some};
ghost use Rattle.jh_ops.specs.Operation.{operations};
ghost use Rattle.jh_cli.specs.CheckRefusals.{RefusesByKeys, RefusesCheck, RefusesJudging};
ghost use Rattle.jh_cli.specs.CheckRefusals.{RefusesWhole};
ghost use Rattle.jh_cli.specs.CheckText.{IsCheckTextOf, IsCheckLine};
ghost use Rattle.jh_cli.specs.JudgingOptions.{IsOptionError, RefusesJudgingOptions};
ghost use Rattle.jh_cli.specs.Outputs.{OnInput, WritesOutput};
ghost use Rattle.jh_reports.specs.Judged.{IsKeysText, IsTextBy, IsWholeText};
ghost use Rattle.jh_cli.specs.declared.error.CliError.{CliError as CliErrorData};
ghost use Rattle.jh_tasks.specs.Threads.{IsThreadCount};

use crate::counts::{HistoryObserver, history_counts};
use crate::enough::answer_where_enough;
use crate::error::CliError;
use crate::history_input::read_history_input;
use crate::judging_option::refuse_options;
use crate::output::finish;
use jh_checkers::Judging;
use jh_independent::check_keys;
use jh_ops::Op;
use jh_reports::{Output, output_of_keys};
use std::alloc::Global;
use std::io::{Read, Write};
use std::sync::Wait;
use std::thread::Threads;

/// What `check` is asked of a history.
#[derive(Clone, Copy, Debug)]
pub struct CheckQuestion<'a> {
    pub judging: Judging<'a>,
    /// Whether each key of independent operations is judged by itself.
    pub independent: bool,
    /// By how many threads keys are judged, from 1 to 16.
    pub threads: u32,
    /// A history with fewer operations that ended `:ok` is not called valid; counted are those of
    /// clients, of the functions that the checker judges, in all keys. None: any number is enough.
    pub at_least: Option<usize>,
    /// Whether pairs of an operation's map under other keys than `:type`, `:f`, `:process` and `:value`
    /// are made blank where they can't be read, as `jh_unread::without_unread` does: then an operation has
    /// no such `:time` either.
    pub skips_unread: bool,
}

/// Reads a history as `jh_histories::read_history_and_below` does, also out of what `run` or
/// `drive` printed; without the pairs of its operations that no checker reads and that can't be read,
/// where that is asked for. Judges it as
/// `jh_checkers::check_history` does, and writes one line with what is found. Returns the exit
/// status: 0 where the history is valid, 1 where it is not, 2 where that is not known. All is read
/// and judged before the first byte is written.
///
/// Where its keys are independent, each is judged by itself with the whole budget, on so many
/// threads, as `jh_independent::check_keys` does. Then the call may wait, and promises only if it
/// returns. Otherwise the threads mean nothing.
///
/// A history with fewer operations than the question wants is not called valid: where it would be, the
/// line is `{:valid? :unknown, :error "K of at least N operations"}`, and the status 2.
///
/// The observer is told, once the history is read, how many of its operations are judged.
///
/// Errors: `Misplaced` with the first option that the checker does not take, then `Missing` with the first
/// that it needs, both before anything is read; an error of reading, then of the text (`Input`), `History`, `Check`; `Thread`, where more than one
/// was wanted; `OutOfMemory`; `Write`. Nothing is written before any of them but `Write`.
pub fn check_run<T: Threads + Wait + Sync, R: Read, W: Write, O: HistoryObserver>(
    rt: &T,
    alloc: Global,
    reader: &mut R,
    writer: &mut W,
    question: CheckQuestion<'_>,
    observer: &mut O,
) -> Result<u8, CliError>
    requires { IsThreadCount question.threads }
    ensures written { IfOk result (λ status. WritesOutput (R.remaining reader.old)
        (IsCheckTextOf question.entry) status (W.contents writer.old) (W.contents writer.new)) }
    ensures options { (e : CliErrorData) → IsOptionError e
        → IsErrOf result e ↔ RefusesJudgingOptions (Some question.entry.judging) e }
    ensures reader_kept { IfErr result (λ e. IsOptionError e → reader.new ≡ reader.old) }
    ensures refused { IfErr result (λ e. OnInput (R.remaining reader.old)
        (λ input. RefusesCheck question.entry input e)) }
    ensures unwritten { IfErr result (λ e. e ≢ CliError.Write → writer.new ≡ writer.old) }
{
    refuse_options(Some(question.judging))?;
    let parts = read_history_input(alloc, reader, question.skips_unread)?;
    observer.see_history(history_counts(question.judging.checker, &parts.history));
    let output = judge_history(rt, alloc, &parts.history, question)?;
    finish(output, writer)
}

/// What is written for a history.
fn judge_history<T: Threads + Wait + Sync>(
    rt: &T,
    alloc: Global,
    history: &[Op],
    question: CheckQuestion<'_>,
) -> Result<Output, CliError>
    requires { IsThreadCount question.threads }
    ensures { MatchResult result
        (λ output. IsCheckLine question.entry (operations history.now)
        output.status output.text.items)
        (RefusesJudging question.entry (operations history.now)) }
{
    let output = judge_by(rt, alloc, history, question)?;
    Ok(answer_where_enough(alloc, history, question, output)?)
}

/// What is found in a history, by keys or as one.
fn judge_by<T: Threads + Wait + Sync>(
    rt: &T,
    alloc: Global,
    history: &[Op],
    question: CheckQuestion<'_>,
) -> Result<Output, CliError>
    requires { IsThreadCount question.threads }
    ensures { MatchResult result
        (λ output. IsTextBy question.entry.independent question.entry.judging (operations history.now)
        output.status output.text.items)
        (RefusesJudging question.entry (operations history.now)) }
{
    if question.independent {
        judge_keys_on_threads(rt, alloc, history, question.judging, question.threads)
    } else {
        judge_whole(alloc, history, question.judging)
    }
}

/// What is written for a history as one.
fn judge_whole(alloc: Global, history: &[Op], judging: Judging<'_>) -> Result<Output, CliError>
    ensures { MatchResult result
        (λ output. IsWholeText judging.entry (operations history.now) output.status output.text.items)
        (RefusesWhole judging.entry.checker (operations history.now)) }
{
    Ok(jh_reports::judge_whole(alloc, history, judging)?)
}

/// What is written for the history of each key, where several threads judge.
fn judge_keys_on_threads<T: Threads + Wait + Sync>(
    rt: &T,
    alloc: Global,
    history: &[Op],
    judging: Judging<'_>,
    threads: u32,
) -> Result<Output, CliError>
    requires { IsThreadCount threads }
    ensures { MatchResult result
        (λ output. IsKeysText judging.entry (operations history.now) output.status output.text.items)
        (RefusesByKeys judging.entry threads (operations history.now)) }
{
    let found = check_keys(rt, alloc, history, judging, threads)?;
    Ok(output_of_keys(alloc, &found)?)
}
