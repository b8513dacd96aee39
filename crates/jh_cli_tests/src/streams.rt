//! Streams that fail, and inputs that are long.

use crate::nobody::Nobody;
use crate::rows::{answer_once, command, is_answer};
use jh_arguments::do_command;
use jh_cli::CliError;
use std::alloc::Global;
use std::io::{self, Read, Write};
use std::sync::Wait;
use std::thread::Threads;

/// A reader that gives one space at each read, and fails after so many.
#[derive(Drop)]
struct Spaces {
    left: u32,
}

impl Read for Spaces {
    fn read(&mut self, buffer: &mut [u8]) -> io::Result<usize> {
        if self.left == 0 {
            return Err(io::Error::other("no more"));
        }
        self.left -= 1;
        if let Some(first) = buffer.first_mut() {
            *first = b' ';
            return Ok(1);
        }
        Ok(0)
    }
}

/// Whether a reader that fails after so many spaces fails the command, with nothing written.
fn fails_reading<T: Threads + Wait + Sync>(
    rt: &T,
    alloc: Global,
    arguments: &str,
    spaces: &str,
) -> bool {
    let left: u32 = spaces.parse().unwrap_or(9);
    let answer = answer_once(rt, alloc, arguments, Spaces { left }).or_else(|| answer_once(
        rt,
        alloc,
        arguments,
        Spaces { left },
    ));
    answer.is_some_and(|text| text.as_slice() == b"4 read failed\n".as_slice())
}

/// A row is arguments, and how many spaces are read before the error.
#[test]
fn a_failing_reader_fails_the_command(rt: HostRuntime) {
    let rows = "\
        jeprun env → 0\n\
        jeprun env → 1\n\
        jeprun env → 2\n\
        jeprun check --workload set --budget 0 → 1\n\
        jeprun run → 1";
    for row in rows.split('\n') {
        let (arguments, spaces) = row.split_once(" → ").unwrap_or(("", ""));
        assert!(rt; fails_reading(&rt, rt.alloc(), arguments, spaces), "{row}");
    }
}

/// A writer whose first write fails. It counts the bytes that are given to it behind that.
#[derive(Drop)]
struct FailsOnce {
    has_failed: bool,
    behind: usize,
}

impl Write for FailsOnce {
    fn write(&mut self, buffer: &[u8]) -> io::Result<usize> {
        if self.has_failed {
            self.behind = self.behind.saturating_add(buffer.len());
            return Ok(buffer.len());
        }
        self.has_failed = true;
        Err(io::Error::other("full"))
    }

    fn flush(&mut self) -> io::Result<()> {
        Ok(())
    }
}

/// Whether the writer fails the command, which then writes nothing more.
fn fails_writing<T: Threads + Wait + Sync>(
    rt: &T,
    alloc: Global,
    arguments: &str,
    mut input: &[u8],
) -> bool {
    let Some(command) = command(alloc, arguments) else {
        return false;
    };
    let mut writer = FailsOnce {
        has_failed: false,
        behind: 0,
    };
    let answer = do_command(
        rt,
        alloc,
        command,
        &[],
        &mut input,
        &mut writer,
        &mut Nobody,
    );
    matches!(answer, Err(CliError::Write)) && writer.behind == 0
}

/// A row is arguments and an input.
#[test]
fn a_failing_writer_fails_the_command(rt: HostRuntime) {
    let rows = r#"jeprun env → {:nodes ["n1"]}
§jeprun check --workload set --budget 0 →
§jeprun run →
start = '{:nodes ["n1" "n2"]}'
mode = "serial"
store = "lww"
workload = "register"
initial = 0
clients = 2
ops = 3
generator = '[:seq [:once [:write 1]] [:once [:write 2]] [:once :read]]'
§jeprun shrink →
start = '{:nodes ["n1"]}'
store = "local"
workload = "register"
clients = 1
ops = 1
generator = '[:once :read]'
"#;
    for row in rows.split('§') {
        let (arguments, input) = row.split_once(" →").unwrap_or(("", ""));
        let input = input.as_bytes();
        let failed = fails_writing(&rt, rt.alloc(), arguments, input)
            || fails_writing(&rt, rt.alloc(), arguments, input);
        assert!(rt; failed, "{row}");
    }
}

/// Puts the numbers from `first` to `last` behind a text, each between two parts.
fn push_numbers(text: &mut String, first: u32, last: u32, parts: (&str, &str)) -> Option<()> {
    let (before, after) = parts;
    for number in first..=last {
        write!(text, "{before}{number}{after}").ok()?;
    }
    Some(())
}

/// 257 delays of a millisecond on one link, and an undo.
fn many_delays(alloc: Global) -> Option<String> {
    let mut text = String::from_str(alloc, r#"{:nodes ["n1" "n2"]}"#).ok()?;
    push_numbers(
        &mut text,
        1,
        257,
        (" [:begin ", r#" [:slow 1 [["n1" "n2"]]]]"#),
    )?;
    text.push_str(" [:undo]").ok()?;
    Some(text)
}

/// The last delay is refused, and the one before it undone.
fn many_delays_answered(alloc: Global) -> Option<String> {
    let mut text = String::from_str(alloc, "0\n").ok()?;
    text.push_str(":ok\n".repeat(alloc, 256).ok()?.as_str())
        .ok()?;
    text.push_str(":too-many-active\n:ok\n:active [1").ok()?;
    push_numbers(&mut text, 2, 255, (" ", ""))?;
    text.push_str(
        "]\n{:nodes [\"n1\" \"n2\"], :cut [], :slow [[\"n1\" \"n2\" 255]], :loss [], :down [], :clock []}\n",
    ).ok()?;
    Some(text)
}

/// Whether this is the answer to the input, where memory sufficed for both.
fn is_stood<T: Threads + Wait + Sync>(
    rt: &T,
    alloc: Global,
    input: Option<String>,
    answer: Option<String>,
) -> bool {
    let (Some(input), Some(answer)) = (input, answer) else {
        return false;
    };
    is_answer(rt, alloc, "jeprun env", input.as_bytes(), answer.as_bytes())
}

#[test]
fn stands_many_faults(rt: HostRuntime) {
    let input = many_delays(rt.alloc()).or_else(|| many_delays(rt.alloc()));
    let answer = many_delays_answered(rt.alloc()).or_else(|| many_delays_answered(rt.alloc()));
    assert!(rt; is_stood(&rt, rt.alloc(), input, answer));
}

/// 2,048 begins and withdrawals, one begin too many, and an undo.
fn many_steps(alloc: Global) -> Option<String> {
    let mut text = String::from_str(alloc, r#"{:nodes ["n1" "n2"]}"#).ok()?;
    let steps = " [:begin 1 [:cut []]] [:withdraw 1]".repeat(alloc, 2048);
    text.push_str(steps.ok()?.as_str()).ok()?;
    text.push_str(" [:begin 2 [:cut []]] [:undo]").ok()?;
    Some(text)
}

/// The begin is refused, and the last withdrawal undone.
fn many_steps_answered(alloc: Global) -> Option<String> {
    let mut text = String::from_str(alloc, "0\n").ok()?;
    text.push_str(":ok\n".repeat(alloc, 4096).ok()?.as_str())
        .ok()?;
    text.push_str(
        ":too-many-steps\n:ok\n:active [1]\n{:nodes [\"n1\" \"n2\"], :cut [], :slow [], :loss [], :down [], :clock []}\n",
    ).ok()?;
    Some(text)
}

#[test]
fn stands_many_steps(rt: HostRuntime) {
    let input = many_steps(rt.alloc()).or_else(|| many_steps(rt.alloc()));
    let answer = many_steps_answered(rt.alloc()).or_else(|| many_steps_answered(rt.alloc()));
    assert!(rt; is_stood(&rt, rt.alloc(), input, answer));
}
