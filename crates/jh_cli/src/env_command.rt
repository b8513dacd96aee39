//! The command `env`: reads a starting environment and steps, and writes the answers and the
//! environment that is left. What is written stands in `specs/EnvText.antt`, why an input is refused
//! in `specs/EnvRefusals.antt`.

ghost use Rattle.std.specs.Prelude.{◌≡◌, ◌≢◌, ◌++◌, length, map, Ok, OnOk, IfOk, IfErr};
ghost use Rattle.std.specs.Prelude.{MatchResult};
ghost use Rattle.std.specs.List.{All};
ghost use Rattle.jh_edn.specs.View.{views};
ghost use Rattle.jh_step_texts.specs.StepText.{parsed_step};
ghost use Rattle.jh_nemesis.specs.Steps.{FitsNodes, StepFits, answers_of, state_after_all};
ghost use Rattle.jh_cli.specs.EnvRefusals.{RefusesEnv, RefusesSteps, RefusesEnvValues};
ghost use Rattle.jh_cli.specs.EnvText as text;
ghost use Rattle.jh_cli.specs.EnvText.{IsEnvText, IsEnvTextOf, IsEnvReport, answer_lines};
ghost use Rattle.jh_reports.specs.Lines.{line};
ghost use Rattle.jh_cli.specs.Outputs.{OnInput, WritesOutput};
ghost use Rattle.jh_cli.specs.Status.{step_error};

use crate::error::CliError;
use crate::output::{MAX_READS, finish};
use jh_edn::{Value, read_all};
use jh_env::{Nodes, env_of_value};
use jh_nemesis::{Nemesis, Step, StepAnswer};
use jh_reports::{DONE, Output, write_active, write_environment};
use jh_step_texts::{StepTextError, step_of_value};
use std::alloc::{AllocError, Global};
use std::io::{Read, Write};

/// The number of the first step among the elements of the input, which count from 1.
const FIRST_STEP: u64 = 2;

/// Reads a starting environment and steps, and writes one line with the answer to each step, one
/// with the ids of the active faults in order, and one with the environment. Returns the exit
/// status, 0. All is read and judged before the first byte is written.
///
/// Errors: an error of reading, then of the text (`Input`), `EnvironmentMissing`, `Environment`,
/// `Element` for the first step that is none; `OutOfMemory`; `Write`. Nothing is written before any
/// of them but `Write`.
pub fn env_run<R: Read, W: Write>(
    alloc: Global,
    reader: &mut R,
    writer: &mut W,
) -> Result<u8, CliError>
    ensures status { IfOk result (λ status. status ≡ 0) }
    ensures written { IfOk result (λ status. WritesOutput (R.remaining reader.old)
        IsEnvTextOf status (W.contents writer.old) (W.contents writer.new)) }
    ensures refused { IfErr result (λ e. OnInput (R.remaining reader.old)
        (λ input. RefusesEnv input e)) }
    ensures unwritten { IfErr result (λ e. e ≢ CliError.Write → writer.new ≡ writer.old) }
{
    let values = read_all(alloc, reader, MAX_READS)?;
    let text = env_text(alloc, values.as_slice())?;
    finish(Output { status: DONE, text }, writer)
}

/// What is written for these values.
fn env_text(alloc: Global, values: &[Value]) -> Result<Vec<u8>, CliError>
    ensures { MatchResult result
        (λ output. IsEnvText (views values.now) output.items)
        (RefusesEnvValues (views values.now)) }
{
    let [first, others @ ..] = values else {
        return Err(CliError::EnvironmentMissing);
    };
    let env = env_of_value(alloc, first)?;
    let steps = steps_of(alloc, env.nodes(), others)?;
    let nemesis = Nemesis::new(alloc, env);
    Ok(report(alloc, nemesis, steps)?)
}

/// The steps that these values mean.
fn steps_of(alloc: Global, nodes: &Nodes, values: &[Value]) -> Result<Vec<Step>, CliError>
    ensures parsed { MatchResult result
        (λ steps. map (parsed_step nodes.now) (views values.now) ≡ map Ok steps.items)
        (RefusesSteps nodes.now (views values.now)) }
    ensures fit { IfOk result (λ steps. All (FitsNodes (length nodes.now)) steps.items) }
{
    let mut steps = Vec::new(alloc);
    for (index, value) in values.iter().enumerate() {
        match step_of_value(alloc, nodes, value) {
            Ok(step) => steps.push(step)?,
            Err(error) => return Err(element_error(index as u64 + FIRST_STEP, error)),
        }
    }
    Ok(steps)
}

/// What a refusal of the element of a number means.
fn element_error(number: u64, error: StepTextError) -> CliError
    ensures { result ≡ step_error number error }
{
    match error {
        StepTextError::OutOfMemory => CliError::OutOfMemory,
        _ => CliError::Element { number, error },
    }
}

/// What is written for these steps.
fn report(alloc: Global, mut nemesis: Nemesis, steps: Vec<Step>) -> Result<Vec<u8>, AllocError>
    requires { All (StepFits nemesis.state) steps.items }
    ensures { IfOk result (λ output. IsEnvReport nemesis.state steps.items output.items) }
{
    let mut output = Vec::new(alloc);
    answer_steps(alloc, &mut nemesis, steps, &mut output)?;
    write_active(alloc, &nemesis, &mut output)?;
    write_environment(alloc, nemesis.env(), &mut output)?;
    Ok(output)
}

/// Makes the steps, and writes a line with the answer to each.
fn answer_steps(
    alloc: Global,
    nemesis: &mut Nemesis,
    steps: Vec<Step>,
    output: &mut Vec<u8>,
) -> Result<(), AllocError>
    requires { All (StepFits nemesis.old.state) steps.items }
    ensures state { OnOk result
        (nemesis.new.state ≡ state_after_all nemesis.old.state steps.items) }
    ensures lines { OnOk result (output.new.items
        ≡ output.old.items ++ answer_lines (answers_of nemesis.old.state steps.items)) }
{
    match nemesis.apply_all(alloc, steps) {
        Ok(answers) => write_answers(&answers, output),
        Err(_) => Err(AllocError),
    }
}

/// Writes a line for each answer.
fn write_answers(answers: &[StepAnswer], output: &mut Vec<u8>) -> Result<(), AllocError>
    ensures { OnOk result (output.new.items ≡ output.old.items ++ answer_lines answers.now) }
{
    for answer in answers {
        write_answer(*answer, output)?;
    }
    Ok(())
}

/// Writes the line of an answer.
fn write_answer(answer: StepAnswer, output: &mut Vec<u8>) -> Result<(), AllocError>
    ensures { OnOk result
        (output.new.items ≡ output.old.items ++ line (text.answer_keyword answer)) }
{
    output.extend_from_slice(answer_line(answer).as_bytes())
}

/// The line that is written of an answer to a step.
fn answer_line(answer: StepAnswer) -> &'static str
    ensures { result.now ≡ line (text.answer_keyword answer) }
{
    match answer {
        StepAnswer::Ok => ":ok\n",
        StepAnswer::IdTaken => ":id-taken\n",
        StepAnswer::TooManyActive => ":too-many-active\n",
        StepAnswer::TooManySteps => ":too-many-steps\n",
        StepAnswer::NotActive => ":not-active\n",
        StepAnswer::NothingActive => ":nothing-active\n",
        StepAnswer::NothingToUndo => ":nothing-to-undo\n",
        StepAnswer::NothingToRedo => ":nothing-to-redo\n",
    }
}
