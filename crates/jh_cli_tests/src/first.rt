//! First calls of `jh_cli` and `jh_arguments`, as their READMEs show them.

use jh_arguments::{Command, command_of, parse};
use jh_cli::env_run;
use std::alloc::Global;

/// What `jeprun env` writes for an input.
fn written_by_env(alloc: Global, input: &str) -> Option<Vec<u8>> {
    let mut written = Vec::new(alloc);
    env_run(alloc, &mut input.as_bytes(), &mut written).ok()?;
    Some(written)
}

#[test]
fn an_environment_without_steps_is_written(rt: HostRuntime) {
    let alloc = rt.alloc();
    let input = "{:nodes [\"n1\"]}";
    let answer = written_by_env(alloc, input).or_else(|| written_by_env(alloc, input));
    let wanted =
        b":active []\n{:nodes [\"n1\"], :cut [], :slow [], :loss [], :down [], :clock []}\n";
    assert!(rt; answer.is_some_and(|written| written.as_slice() == wanted.as_slice()));
}

/// The command that arguments ask for.
fn asked_by(alloc: Global, arguments: &[&str]) -> Option<Command<'static>> {
    command_of(&parse(alloc, arguments).ok()?, None)
}

#[test]
fn a_run_is_asked_for(rt: HostRuntime) {
    let arguments = ["jeprun", "run"];
    let answer = asked_by(rt.alloc(), &arguments).or_else(|| asked_by(rt.alloc(), &arguments));
    assert!(rt; matches!(answer, Some(Command::Run)));
}
