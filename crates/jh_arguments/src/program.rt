//! What the process does: it reads its arguments, opens the standard streams, and ends with a
//! status. What a terminal or a pipe gives or takes is no part of any clause, so this says nothing
//! but that a status is given. A run on threads may wait. `teller.rt` has what is told meanwhile, and
//! `reasons.rt` what `--verbose` adds to an error.

use crate::answers::{Refusal, answer};
use crate::commands::is_verbose;
use crate::line::{parse, status_of_refusal};
use crate::reasons::{Given, reasons_of, warnings_in};
use crate::streams::{BehindProgress, KeptReader};
use crate::teller::{Teller, Terminals};
use clap::error::ErrorKind;
use jh_cli::CliError;
use jh_drive::DriveError;
use jh_lines::Streams;
use jh_reports::REFUSED;
use std::alloc::Global;
use std::cell::Cell;
use std::env::Env;
use std::fs::Files;
use std::sync::Wait;
use std::thread::Threads;
use std::time::Clock;
use std::{env, io};

/// Says on standard error why a command ended early, and gives its status.
fn failed(rt: &impl Eprint, error: CliError) -> u8 {
    let _ = eprintln!(rt; "jeprun: {error}");
    error.status()
}

/// What helps whoever gave an argument that no command takes: the name of a file, mostly, or a number
/// below 0.
const UNKNOWN_ARGUMENT: &str =
    "files are read from standard input, as in `jeprun check --workload register < history.edn`; \
     a number below 0 is given as in `--initial=-5`";

/// Shows what a refusal has to say: help on standard output, complaints on standard error.
fn refused(rt: &(impl Print + Eprint), refusal: &clap::Error) -> u8 {
    match status_of_refusal(refusal) {
        Err(memory) => failed(rt, memory),
        Ok(status) => match refusal.print(rt) {
            Ok(()) => {
                advise_on(rt, refusal);
                status
            }
            Err(_) => failed(rt, CliError::Write),
        },
    }
}

/// Says on standard error, behind a complaint, what may help.
fn advise_on(rt: &impl Eprint, refusal: &clap::Error) {
    if refusal.kind() == ErrorKind::UnknownArgument {
        let _ = eprintln!(rt; "jeprun: {UNKNOWN_ARGUMENT}");
    }
}

/// Says on standard error why a test ended otherwise than with a verdict, and gives its status.
fn undriven(rt: &impl Eprint, error: DriveError) -> u8 {
    let _ = eprintln!(rt; "jeprun: {error}");
    error.status()
}

/// Says why the program ends otherwise than with the status of what it was asked for, and gives its status.
fn ended(rt: &(impl Print + Eprint), refusal: Refusal) -> u8 {
    match refusal {
        Refusal::Arguments(refusal) => refused(rt, &refusal),
        Refusal::Accounts(error) | Refusal::Command(error) | Refusal::RunSettings(error) => {
            failed(rt, error)
        }
        Refusal::Test(error) => undriven(rt, error),
    }
}

/// The arguments of the process, the program's name first.
fn arguments_of(rt: &(impl Env + Alloc<A = Global>)) -> io::Result<Vec<String>> {
    Ok(env::args(rt)?.collect(rt.alloc())?)
}

/// Whether the arguments ask to be told where and why an input is refused. They do not where they are refused.
fn asks_for_more(alloc: Global, arguments: &[String]) -> bool {
    match parse(alloc, arguments) {
        Ok(matches) => is_verbose(&matches),
        Err(_) => false,
    }
}

/// Says on standard error what is warned of the settings of a run.
fn warn(rt: &(impl Eprint + Alloc<A = Global>), settings: &[u8]) {
    if let Ok(warnings) = warnings_in(rt.alloc(), settings) {
        for warning in &warnings {
            let _ = eprintln!(rt; "jeprun: {warning}");
        }
    }
}

/// Says why the program ends otherwise than with the status of what it was asked for, and behind that where and
/// why it refused what it was given, a line for each reason. Gives its status.
fn explained<T>(rt: &T, arguments: &[String], given: Given<'_>, refusal: Refusal) -> u8
where
    T: Files + Print + Eprint + Alloc<A = Global>,
{
    let reasons = reasons_of(rt, arguments, given, &refusal);
    let status = ended(rt, refusal);
    if let Ok(lines) = reasons {
        for line in &lines {
            if let Ok(text) = str::from_utf8(line) {
                let _ = eprintln!(rt; "jeprun: {text}");
            }
        }
    }
    status
}

/// The exit status of the process, once it has done what its arguments ask for: 0, 1 or 2 as
/// `do_command` and `drive` answer, 0 where help or the version was asked for, 3 where the
/// arguments or the input are refused, 4 where the machine failed or a run was not completed.
///
/// What is told on standard error, and when:
///
/// - where standard error is a terminal: how far `shrink` or `search` of a run is, and nothing of that with `--drive`;
///   and what is read, where standard input is one too;
/// - where standard error is a terminal or `--verbose` is given: how many operations of a history `check` judges,
///   what `run` and `search` warn of, how the calls of a test ended, and what may decide a verdict that is unknown;
/// - where `--verbose` is given: lines behind an error, which say where and why the input was refused.
///
/// A run on threads, a search and the judgement of keys may wait.
pub fn status<R>(rt: &R, terminals: Terminals) -> u8
where
    R: Env + Files + Input + Print + Eprint + Clock + Alloc<A = Global> + Threads + Wait + Sync,
{
    let arguments = match arguments_of(rt) {
        Ok(arguments) => arguments,
        Err(error) if error.kind() == io::ErrorKind::OutOfMemory => {
            return failed(rt, CliError::OutOfMemory);
        }
        Err(_) => {
            let _ = eprintln!(rt; "error: an argument is not UTF-8");
            return REFUSED;
        }
    };
    let is_in_the_way = Cell::new(false);
    let is_verbose = asks_for_more(rt.alloc(), arguments.as_slice());
    let is_kept = Cell::new(is_verbose);
    let mut teller = Teller::new(rt, terminals, is_verbose, &is_in_the_way, &is_kept);
    let mut streams = Streams {
        reader: KeptReader::new(rt.alloc(), rt.reader(), &is_kept),
        writer: BehindProgress {
            rt,
            writer: io::writer(rt),
            is_in_the_way: &is_in_the_way,
        },
    };
    let answer = answer(rt, arguments.as_slice(), &mut streams, &mut teller);
    teller.end();
    let given = Given {
        work: teller.work(),
        input: streams.reader.kept(),
        failure: streams.reader.failure(),
    };
    match answer {
        Ok(status) => {
            if teller.is_warned() {
                warn(rt, given.input);
            }
            teller.tell_history();
            teller.advise(status);
            status
        }
        Err(refusal) if is_verbose => explained(rt, arguments.as_slice(), given, refusal),
        Err(refusal) => ended(rt, refusal),
    }
}
