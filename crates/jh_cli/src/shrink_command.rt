//! The command `shrink`: reads the settings of a run, and takes out of their schedule what the run
//! does not need to fail. What is written stands in `specs/ShrinkText.antt`, why an input is
//! refused in `specs/ShrinkRefusals.antt`.

ghost use Rattle.std.specs.Prelude.{◌≡◌, ◌≢◌, ◌++◌, length, IfOk, IfErr, IfSome, MatchResult};
ghost use Rattle.std.specs.Prelude.{OnOk};
ghost use Rattle.std.specs.List.{All};
ghost use Rattle.jh_nemesis.specs.Steps.{FitsNodes};
ghost use Rattle.jh_shrink.specs.Shrunk.{IsShrunk};
ghost use Rattle.jh_reports.specs.Lines.{line};
ghost use Rattle.jh_cli.specs.Outputs.{OnInput, WritesOutput};
ghost use Rattle.jh_cli.specs.ShrinkRefusals.{RefusesShrinkBytes, RefusesShrinking};
ghost use Rattle.jh_cli.specs.ShrinkText as text;
ghost use Rattle.jh_cli.specs.ShrinkText.{IsRunFailure, IsShrinkTextOf, RunAnswers};

use crate::error::CliError;
use crate::output::{MAX_READS, finish};
use jh_check::Verdict;
use jh_edn::read_bytes;
use jh_env::Nodes;
use jh_judged_runs::judge_run;
use jh_reports::{DONE, INVALID, Output, UNKNOWN, write_line};
use jh_settings::settings_of;
use jh_settings_texts::value_of_entry;
use jh_shrink::{ShrinkObserver, Shrunk, shrink};
use jh_simnode::{Entry, Plan, Schedule};
use std::alloc::{AllocError, Global};
use std::io::{Read, Write};

/// Reads settings in TOML as `jh_settings::settings_of` does, and takes entries out of their
/// schedule as long as their serial run fails still: the line of its checker is
/// `{:valid? false ..}`. It writes a line that says what is left, and a line for each entry that is
/// left, as settings have it; a fault that was named by a grudge is written as its cut. The answer
/// is the exit status:
///
/// | line | what is left | status |
/// |---|---|---|
/// | `:minimal` | the run fails, and without any one of the entries it does not, or that is not known | 1 |
/// | `:budget` | the fewest with which it failed, when all `runs` were made; the given ones, where none may be made | 2 |
/// | `:not-failing` | the given ones: the run does not fail, or that is not known | 0 |
///
/// The mode of the settings means nothing. The same input gives the same runs each time
/// (`jh_run_laws::same_settings_same_run`), and the same bytes, as tests show. All is read and done
/// before the first byte is written. It tells an observer before each run how many entries are left and which run it is.
///
/// Errors: an error of reading (`Input`, `Read`); `Settings`; `OutOfMemory`, also where a run is
/// refused or stuck, or its history can't be judged; `Write`. Nothing is written before any of them but
/// `Write`.
pub fn shrink_run<R: Read, W: Write, O: ShrinkObserver>(
    alloc: Global,
    reader: &mut R,
    writer: &mut W,
    runs: u64,
    observer: &mut O,
) -> Result<u8, CliError>
    ensures written { IfOk result (λ status. WritesOutput (R.remaining reader.old)
        (IsShrinkTextOf runs) status (W.contents writer.old) (W.contents writer.new)) }
    ensures refused { IfErr result (λ e. OnInput (R.remaining reader.old)
        (λ input. RefusesShrinking runs input e)) }
    ensures unwritten { IfErr result (λ e. e ≢ CliError.Write → writer.new ≡ writer.old) }
{
    let input = read_bytes(alloc, reader, MAX_READS)?;
    let output = shrink_bytes(alloc, &input, runs, observer)?;
    finish(output, writer)
}

/// All that is written for these bytes.
fn shrink_bytes<O: ShrinkObserver>(
    alloc: Global,
    input: &[u8],
    runs: u64,
    observer: &mut O,
) -> Result<Output, CliError>
    ensures { MatchResult result
        (λ output. IsShrinkTextOf runs input.now output.status output.text.items)
        (RefusesShrinkBytes input.now) }
{
    let settings = settings_of(alloc, input)?;
    let plan = &settings.plan;
    let Ok(shrunk) = shrink_plan(alloc, plan, settings.budget, runs, observer) else {
        return Err(CliError::OutOfMemory);
    };
    Ok(Output {
        status: status_of(&shrunk),
        text: lines_of(alloc, plan.environment().nodes(), &shrunk)?,
    })
}

/// What is left of the schedule of a plan, by at most so many runs. Their histories are judged by a judge
/// of the budget `judge_budget`.
fn shrink_plan<O: ShrinkObserver>(
    alloc: Global,
    plan: &Plan,
    judge_budget: u64,
    runs: u64,
    observer: &mut O,
) -> Result<Shrunk, AllocError>
    ensures shrunk { IfOk result
        (IsShrunk (RunAnswers plan.now judge_budget) runs plan.now.schedule) }
    ensures fits { IfOk result (λ shrunk.
        All (λ entry. FitsNodes (length plan.now.env.names) entry.step) (text.schedule_of shrunk)) }
{
    let given = plan.schedule().copy(alloc)?;
    let judge = |schedule: &Schedule| -> Option<bool>
        ensures { RunAnswers plan.entry.now judge_budget schedule.now result }
    { answer_of(alloc, plan, judge_budget, schedule) };
    match shrink(alloc, given, judge, runs, observer) {
        Ok(shrunk) => Ok(shrunk),
        Err(_) => Err(AllocError),
    }
}

/// Whether the run of a plan with another schedule fails, and nothing where it is refused or stuck.
fn answer_of(alloc: Global, plan: &Plan, judge_budget: u64, schedule: &Schedule) -> Option<bool>
    ensures { RunAnswers plan.now judge_budget schedule.now result }
{
    let Ok(schedule) = schedule.copy(alloc) else {
        return None;
    };
    match plan.with_schedule(alloc, schedule) {
        Ok(plan) => fails(alloc, &plan, judge_budget),
        Err(_) => None,
    }
}

/// Whether the run of a plan fails, and nothing where it is refused or stuck: then there is no verdict by
/// which it could fail.
fn fails(alloc: Global, plan: &Plan, judge_budget: u64) -> Option<bool>
    ensures { IfSome result (IsRunFailure plan.now judge_budget) }
{
    match judge_run(alloc, plan, judge_budget) {
        Ok(run) => Some(is_failure(run.finding.verdict())),
        Err(_) => None,
    }
}

/// Whether a run fails whose history has this verdict: only where the history is not valid.
fn is_failure(verdict: Verdict) -> bool
    ensures { result ≡ text.is_failure verdict }
{
    match verdict {
        Verdict::False => true,
        Verdict::True | Verdict::Unknown => false,
    }
}

/// The exit status of what is left.
fn status_of(shrunk: &Shrunk) -> u8
    ensures { result ≡ text.shrunk_status shrunk.now }
{
    match shrunk {
        Shrunk::Minimal(_) => INVALID,
        Shrunk::Budget(_) => UNKNOWN,
        Shrunk::NotFailing(_) => DONE,
    }
}

/// The schedule that is left.
fn schedule_of(shrunk: &Shrunk) -> &Schedule
    ensures { result.now ≡ text.schedule_of shrunk.now }
{
    match shrunk {
        Shrunk::Minimal(schedule) | Shrunk::Budget(schedule) | Shrunk::NotFailing(schedule) => {
            schedule
        }
    }
}

/// The line that says what is left.
fn first_line(shrunk: &Shrunk) -> &'static str
    ensures { result.now ≡ line (text.shrunk_name shrunk.now) }
{
    match shrunk {
        Shrunk::Minimal(_) => ":minimal\n",
        Shrunk::Budget(_) => ":budget\n",
        Shrunk::NotFailing(_) => ":not-failing\n",
    }
}

/// All that is written of what is left.
fn lines_of(alloc: Global, nodes: &Nodes, shrunk: &Shrunk) -> Result<Vec<u8>, AllocError>
    requires { All (λ entry. FitsNodes (length nodes.now) entry.step)
        (text.schedule_of shrunk.now) }
    ensures { IfOk result (λ output. output.items ≡ text.shrunk_lines nodes.now shrunk.now) }
{
    let mut output = Vec::new(alloc);
    output.extend_from_slice(first_line(shrunk).as_bytes())?;
    write_entries(alloc, nodes, schedule_of(shrunk).entries(), &mut output)?;
    Ok(output)
}

/// Writes a line for each entry.
fn write_entries(
    alloc: Global,
    nodes: &Nodes,
    entries: &[Entry],
    output: &mut Vec<u8>,
) -> Result<(), AllocError>
    requires { All (λ entry. FitsNodes (length nodes.now) entry.step) entries.now }
    ensures { OnOk result
        (output.new.items ≡ output.old.items ++ text.entry_lines nodes.now entries.now) }
{
    for entry in entries {
        write_line(&value_of_entry(alloc, nodes, entry)?, output)?;
    }
    Ok(())
}
