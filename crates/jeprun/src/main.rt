//! The program `jeprun`: its exit status is that of what its arguments ask for, which
//! `jh_arguments` does.
#![tactic(auto)]

use jh_arguments::{Terminals, status};
use std::io::IsTerminal;
use std::process::ExitCode;

/// Does what the arguments ask for, and ends with the exit status of that.
fn main(rt: HostRuntime) -> ExitCode {
    let terminals = Terminals {
        input: rt.stdin().is_terminal(),
        errors: rt.stderr().is_terminal(),
    };
    ExitCode::from(status(&rt, terminals))
}
