//! The command `run`: reads the settings of a run, makes it, and writes its history, what is left
//! of the faults, and what the checker of its workload finds. What is written stands in
//! `specs/RunText.antt`, why an input is refused or a run not completed in
//! `specs/RunRefusals.antt`.

ghost use Rattle.std.specs.Prelude.{◌≡◌, ◌≢◌, IfOk, IfErr, MatchResult};
ghost use Rattle.jh_ops.specs.Operation.{operations};
ghost use Rattle.jh_checkers.specs.Checkers.{checker_of};
ghost use Rattle.jh_checkers.specs.Findings.{IsFinding};
ghost use Rattle.jh_judged_runs.specs.JudgedRuns.{run_judging};
ghost use Rattle.jh_ops.specs.HistoryWritten.{history_lines};
ghost use Rattle.jh_laws.specs.HistoryLines.{IsTextOfHistory};
ghost use Rattle.jh_cli.specs.Outputs.{OnInput, WritesOutput};
ghost use Rattle.jh_cli.specs.RunInside.{recorded_history_error};
ghost use Rattle.jh_cli.specs.RunRefusals.{RefusesRunBytes, RefusesRecorded, RefusesRun, RefusesSerial};
ghost use Rattle.jh_cli.specs.RunRefusals.{RefusesRunIn, RefusesThreads};
ghost use Rattle.jh_cli.specs.RunText.{IsRunOutput, IsRunText, IsRunTextOf};
ghost use Rattle.jh_cli.specs.RunText.{IsSerialText, IsThreadsText};
ghost use Rattle.jh_workers.specs.Outcomes.{IsOutcome};

use crate::error::CliError;
use crate::output::{MAX_READS, finish};
use jh_check::CheckError;
use jh_checkers::{Finding, check_history};
use jh_edn::read_bytes;
use jh_judged_runs::{judge_run, run_judging};
use jh_nemesis::Nemesis;
use jh_ops::Op;
use jh_reports::{Output, output_of_finding, write_report};
use jh_run_laws::recorded_lines_are_text;
use jh_settings::{Mode, RunSettings, settings_of};
use jh_simnode::{Plan, nemesis_after};
use jh_workers::{RecordedRun, RunError as ThreadsError, run_locked};
use std::alloc::{AllocError, Global};
use std::io::{Read, Write};
use std::sync::Wait;
use std::thread::Threads;

/// Reads settings in TOML as `jh_settings::settings_of` does, makes the run in their mode, and
/// writes a line for each operation of its history, one with the ids of the active faults, one with
/// the environment, and the line of the workload's checker. The answer is the exit status: 0 where
/// the history is valid, 1 where it is not, 2 where that is not known. All is read, run and judged
/// before the first byte is written.
///
/// A serial run gives the same history for the same input each time
/// (`jh_run_laws::same_settings_same_run`). Tests show that all its output is the same too.
///
/// A run on threads is one of `jh_workers::run_locked`. It may wait, and promises only if it returns.
/// It may give another history each time. Its two lines of faults show what the steps of its journal
/// make of the start that the settings have.
///
/// Errors: an error of reading (`Input`, `Read`); `Settings`; of a serial run `Run` where in a
/// whole round no thread got a call; of one on threads `HistoryFull`, `Thread`, `Mismatch` or `Run`
/// where it was not completed, and `Mismatch` where its history can't be judged; `OutOfMemory`;
/// `Write`. Nothing is written before any of them but `Write`.
pub fn run_run<T: Threads + Wait + Sync, R: Read, W: Write>(
    rt: &T,
    alloc: Global,
    reader: &mut R,
    writer: &mut W,
) -> Result<u8, CliError>
    ensures written { IfOk result (λ status. WritesOutput (R.remaining reader.old)
        IsRunTextOf status (W.contents writer.old) (W.contents writer.new)) }
    ensures refused { IfErr result (λ e. OnInput (R.remaining reader.old)
        (λ input. RefusesRun input e)) }
    ensures unwritten { IfErr result (λ e. e ≢ CliError.Write → writer.new ≡ writer.old) }
{
    let input = read_bytes(alloc, reader, MAX_READS)?;
    let output = run_bytes(rt, alloc, &input)?;
    finish(output, writer)
}

/// Reads settings, makes their run, and gives all that is written of it.
fn run_bytes<T: Threads + Wait + Sync>(
    rt: &T,
    alloc: Global,
    input: &[u8],
) -> Result<Output, CliError>
    ensures { MatchResult result
        (λ output. IsRunTextOf input.now output.status output.text.items)
        (RefusesRunBytes input.now) }
{
    let settings = settings_of(alloc, input)?;
    match run_text(rt, alloc, &settings) {
        Ok(output) => Ok(output),
        Err(error) => Err(error),
    }
}

/// Makes a run in the mode of its settings, and gives all that is written of it.
fn run_text<T: Threads + Wait + Sync>(
    rt: &T,
    alloc: Global,
    settings: &RunSettings,
) -> Result<Output, CliError>
    ensures { MatchResult result
        (λ output. IsRunText settings.now.plan settings.now.mode settings.now.budget output.status
        output.text.items)
        (RefusesRunIn settings.now.plan settings.now.mode) }
{
    match settings.mode {
        Mode::Serial => serial_text(alloc, &settings.plan, settings.budget),
        Mode::Threads => threads_text(rt, alloc, &settings.plan, settings.budget),
    }
}

/// Runs the plan serially, and gives all that is written of the run.
fn serial_text(alloc: Global, plan: &Plan, budget: u64) -> Result<Output, CliError>
    ensures { MatchResult result
        (λ output. IsSerialText plan.now budget output.status output.text.items)
        (RefusesSerial plan.now) }
{
    let run = judge_run(alloc, plan, budget)?;
    Ok(output_of(alloc, run.world.nemesis(), &run.history, &run.finding)?)
}

/// Runs the plan on threads, and gives all that is written of the run.
fn threads_text<T: Threads + Wait + Sync>(
    rt: &T,
    alloc: Global,
    plan: &Plan,
    budget: u64,
) -> Result<Output, CliError>
    ensures { MatchResult result
        (λ output. IsThreadsText plan.now budget output.status output.text.items)
        RefusesThreads }
{
    let run = match run_on_threads(rt, alloc, plan) {
        Ok(run) => run,
        Err(error) => return Err(CliError::from(error)),
    };
    let nemesis = match nemesis_after(alloc, plan, run.journal.as_slice()) {
        Ok(nemesis) => nemesis,
        Err(error) => return Err(CliError::from(error)),
    };
    let finding = match judge_recorded(alloc, plan, &run.history, budget) {
        Ok(finding) => finding,
        Err(error) => return Err(error),
    };
    Ok(output_of(alloc, &nemesis, &run.history, &finding)?)
}

/// Runs the plan on threads. The lines of the history that this gives are a text of that history.
fn run_on_threads<T: Threads + Wait + Sync>(
    rt: &T,
    alloc: Global,
    plan: &Plan,
) -> Result<RecordedRun, ThreadsError>
    ensures outcome { IfOk result
        (λ run. IsOutcome plan.now run.journal.items (operations run.history.items)) }
    ensures text { IfOk result (λ run. IsTextOfHistory
        (history_lines (operations run.history.items)) (operations run.history.items)) }
{
    recorded_lines_are_text();
    match run_locked(rt, alloc, plan) {
        Ok(run) => Ok(run),
        Err(error) => Err(error),
    }
}

/// The error of the command where the checker refuses the history of a run on threads.
fn recorded_history_error(error: CheckError) -> CliError
    ensures { result ≡ recorded_history_error error }
{
    match error {
        CheckError::OutOfMemory => CliError::OutOfMemory,
        _ => CliError::Mismatch,
    }
}

/// What the checker of the plan's workload finds in the history of its run on threads.
fn judge_recorded(
    alloc: Global,
    plan: &Plan,
    history: &[Op],
    budget: u64,
) -> Result<Finding, CliError>
    ensures { MatchResult result
        (IsFinding (run_judging plan.now budget) (operations history.now))
        (RefusesRecorded (checker_of plan.now.database.workload) (operations history.now)) }
{
    match check_history(alloc, history, run_judging(plan, budget)) {
        Ok(finding) => Ok(finding),
        Err(error) => Err(recorded_history_error(error)),
    }
}

/// All that is written of a run: its history, the faults that are still active, the environment that
/// they make, and what was found.
fn output_of(
    alloc: Global,
    nemesis: &Nemesis,
    history: &[Op],
    finding: &Finding,
) -> Result<Output, AllocError>
    requires { IsTextOfHistory (history_lines (operations history.now)) (operations history.now) }
    ensures { IfOk result (λ output. IsRunOutput nemesis.now.state (operations history.now)
        finding.now output.status output.text.items) }
{
    let found = output_of_finding(alloc, finding)?;
    let mut text = Vec::new(alloc);
    write_report(alloc, nemesis, history, &found.text, &mut text)?;
    Ok(Output {
        status: found.status,
        text,
    })
}
