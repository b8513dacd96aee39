//! Rows of tables: a text, most often an input, and behind the arrow what is shown for it, most often the answer of the command.
//! White space around the text is no part of it; of what is shown every byte counts, the last line feed too.
//!
//! An answer is the status, a line feed and all that is written; or, of an error, all that was written before it, the status, a
//! space, the message and a line feed. Where an allocation is refused, all is done once more, so that the tests stand one
//! refused allocation.

ghost use Rattle.std.specs.Prelude.{IfSome};
ghost use Rattle.jh_arguments.specs.Commands.{HasNumbersInRange};

use crate::arguments::asked_once;
use crate::errors::named_once;
use crate::nobody::Nobody;
use crate::tests::asked_of_a_test_once;
use jh_arguments::{Command, command_of, do_command, parse};
use jh_cli::CliError;
use std::alloc::Global;
use std::io::{Read, Write};
use std::sync::Wait;
use std::thread::Threads;

/// The command that these arguments ask for, with no accounts; `None` also where memory was refused.
pub(crate) fn command(alloc: Global, arguments: &str) -> Option<Command<'static>>
    ensures { IfSome result HasNumbersInRange }
{
    let arguments: Vec<&str> = arguments.split(' ').collect(alloc).ok()?;
    command_of(&parse(alloc, arguments.as_slice()).ok()?, None)
}

/// Puts the status and the message of an error behind a text.
pub(crate) fn push_error(error: &CliError, text: &mut Vec<u8>) -> Option<()> {
    write!(text, "{} ", error.status()).ok()?;
    error.text(text).ok()?;
    text.push(b'\n').ok()
}

/// The answer to these arguments and what the reader gives; `None` where memory was refused, also to what is written into.
pub(crate) fn answer_once<T: Threads + Wait + Sync, R: Read + Drop>(
    rt: &T,
    alloc: Global,
    arguments: &str,
    mut reader: R,
) -> Option<Vec<u8>> {
    let mut output = Vec::new(alloc);
    match do_command(
        rt,
        alloc,
        command(alloc, arguments)?,
        &[],
        &mut reader,
        &mut output,
        &mut Nobody,
    ) {
        Ok(status) => with_status(alloc, status, &output),
        Err(CliError::OutOfMemory | CliError::Write) => None,
        Err(error) => {
            push_error(&error, &mut output)?;
            Some(output)
        }
    }
}

/// A status, and what was written.
pub(crate) fn with_status(alloc: Global, status: u8, output: &[u8]) -> Option<Vec<u8>> {
    let mut text = Vec::new(alloc);
    write!(&mut text, "{status}\n").ok()?;
    text.extend_from_slice(output).ok()?;
    Some(text)
}

/// Whether this is the answer to the arguments and the input.
pub(crate) fn is_answer<T: Threads + Wait + Sync>(
    rt: &T,
    alloc: Global,
    arguments: &str,
    input: &[u8],
    expected: &[u8],
) -> bool {
    let answer = answer_once(rt, alloc, arguments, input).or_else(|| answer_once(
        rt, alloc, arguments, input,
    ));
    answer.is_some_and(|text| text.as_slice() == expected)
}

/// What stands before the arrows of a table.
#[derive(Clone, Copy)]
pub(crate) enum Texts<'a> {
    /// Inputs of the command that these arguments ask for.
    Inputs(&'a str),
    /// The same, and of the answer only what is alike for every order of threads: no operations, and no order.
    Orders(&'a str),
    /// Settings of a run, and of its answer only the first line, which is the status.
    Statuses,
    /// Settings of a run, and the status of `check` for the history that it prints; nothing where another line is printed of it.
    Histories,
    /// Arguments.
    Arguments,
    /// Arguments, and of what they ask for only what is asked of a test.
    Tests,
    /// Names of errors.
    Errors,
}

/// The lines of an answer that are no operations, up to the order in which all can have happened.
fn alike_in(alloc: Global, answer: &[u8]) -> Option<Vec<u8>> {
    let mut alike = Vec::new(alloc);
    for line in str::from_utf8(answer).ok()?.lines() {
        let (line, _) = line.split_once(", :order").unwrap_or((line, ""));
        if !line.starts_with("{:index") {
            alike.extend_from_slice(line.as_bytes()).ok()?;
            alike.push(b'\n').ok()?;
        }
    }
    Some(alike)
}

/// A line by itself.
fn line_of(alloc: Global, line: &str) -> Option<Vec<u8>> {
    let mut text = Vec::from_slice(alloc, line.as_bytes()).ok()?;
    text.push(b'\n').ok()?;
    Some(text)
}

/// The first line of the answer to a run of these settings.
fn status_once<T: Threads + Wait + Sync>(rt: &T, alloc: Global, settings: &str) -> Option<Vec<u8>> {
    let answer = answer_once(rt, alloc, "jeprun run", settings.as_bytes())?;
    let (status, _) = str::from_utf8(&answer).ok()?.split_once('\n')?;
    line_of(alloc, status)
}

/// The lines of operations in an answer.
fn operations_in(alloc: Global, answer: &str) -> Option<Vec<u8>> {
    let mut operations = Vec::new(alloc);
    for line in answer.lines() {
        if line.starts_with("{:index") {
            operations.extend_from_slice(line.as_bytes()).ok()?;
            operations.push(b'\n').ok()?;
        }
    }
    Some(operations)
}

/// How the history of these settings is judged by itself.
fn arguments_for(settings: &str) -> &'static str {
    if settings.contains("workload = \"register\"") {
        "jeprun check --workload register --initial 0"
    } else if settings.contains("workload = \"counter\"") {
        "jeprun check --workload counter"
    } else if settings.contains("workload = \"set\"") {
        "jeprun check --workload set"
    } else {
        "jeprun check --workload unique-ids"
    }
}

/// The status of `check` for the history that a run of these settings prints, where both print the same line of it.
fn judged_once<T: Threads + Wait + Sync>(rt: &T, alloc: Global, settings: &str) -> Option<Vec<u8>> {
    let answer = answer_once(rt, alloc, "jeprun run", settings.as_bytes())?;
    let answer = str::from_utf8(&answer).ok()?;
    let (status, _) = answer.split_once('\n')?;
    let (_, line) = answer.trim_end().rsplit_once('\n')?;
    let operations = operations_in(alloc, answer)?;
    let judged = answer_once(rt, alloc, arguments_for(settings), operations.as_slice())?;
    let judged = str::from_utf8(&judged).ok()?;
    if judged.trim_end().split_once('\n') == Some((status, line)) {
        return line_of(alloc, status);
    }
    Some(Vec::new(alloc))
}

/// What is shown for a text; `None` where memory was refused.
fn shown_once<T: Threads + Wait + Sync>(
    rt: &T,
    alloc: Global,
    texts: Texts<'_>,
    text: &str,
) -> Option<Vec<u8>> {
    match texts {
        Texts::Inputs(arguments) => answer_once(rt, alloc, arguments, text.as_bytes()),
        Texts::Orders(arguments) => {
            alike_in(alloc, &answer_once(rt, alloc, arguments, text.as_bytes())?)
        }
        Texts::Statuses => status_once(rt, alloc, text),
        Texts::Histories => judged_once(rt, alloc, text),
        Texts::Arguments => asked_once(alloc, text),
        Texts::Tests => asked_of_a_test_once(alloc, text),
        Texts::Errors => named_once(alloc, text),
    }
}

/// The first row for whose text something else is shown.
pub(crate) fn first_wrong<'a, T: Threads + Wait + Sync>(
    rt: &T,
    alloc: Global,
    texts: Texts<'_>,
    rows: &'a str,
) -> Option<&'a str> {
    for row in rows.split('§') {
        let Some((text, expected)) = row.split_once('→') else {
            return Some(row);
        };
        let text = text.trim();
        let shown = shown_once(rt, alloc, texts, text).or_else(|| shown_once(
            rt, alloc, texts, text,
        ));
        if !shown.is_some_and(|shown| shown.as_slice() == expected.trim_start().as_bytes()) {
            return Some(row);
        }
    }
    None
}
