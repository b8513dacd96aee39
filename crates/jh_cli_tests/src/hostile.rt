//! Inputs that are cut anywhere or too long, readers that give one byte at a time, and writers that take one, or none from some byte
//! on.

use crate::nobody::Nobody;
use crate::rows::{answer_once, command, with_status};
use jh_arguments::do_command;
use jh_cli::CliError;
use std::alloc::Global;
use std::io::{self, Read, Write};
use std::sync::Wait;
use std::thread::Threads;

/// Faults of three kinds, one of which is withdrawn, which is undone.
const FAULTS: &str =
    r#"{:nodes ["n1" "n2"]} [:begin 1 [:pause ["n1"]]] [:begin 2 [:kill ["n2"]]] [:begin 3 [:bump {"n1" 500}]] [:withdraw 2] [:undo]"#;

/// A history of a register, of which nothing is wrong.
const HISTORY: &str =
    r#"{:type :invoke, :f :write, :value 1, :process 0} {:type :ok, :f :write, :value 1, :process 0}"#;

/// Whether an input that ends within an element, or between two, has one of the answers that it may have.
fn is_answer_to_a_part(part: &[u8], answer: &[u8]) -> bool {
    match answer {
        b"3 environment missing\n" => part.is_empty(),
        b"3 line 1: unexpected end\n" => true,
        b"3 line 1: bad token\n" => part.ends_with(b":"),
        _ => answer.starts_with(b"0\n"),
    }
}

/// Whether the input cut behind so many bytes is answered as it may be.
fn stands_a_cut<T: Threads + Wait + Sync>(
    rt: &T,
    alloc: Global,
    arguments: &str,
    input: &[u8],
    length: usize,
) -> bool {
    let part = input.get(..length).unwrap_or(input);
    let answer = answer_once(rt, alloc, arguments, part).or_else(|| answer_once(
        rt, alloc, arguments, part,
    ));
    answer.is_some_and(|answer| is_answer_to_a_part(part, &answer))
}

#[test]
fn stands_each_cut_of_an_environment(rt: HostRuntime) {
    for length in 0..FAULTS.len() {
        let stands = stands_a_cut(&rt, rt.alloc(), "jeprun env", FAULTS.as_bytes(), length);
        assert!(rt; stands, "{length}");
    }
}

#[test]
fn stands_each_cut_of_a_history(rt: HostRuntime) {
    let arguments = "jeprun check --workload register";
    for length in 0..HISTORY.len() {
        let stands = stands_a_cut(&rt, rt.alloc(), arguments, HISTORY.as_bytes(), length);
        assert!(rt; stands, "{length}");
    }
}

/// A reader that gives one byte at a time.
#[derive(Drop)]
struct Bytes<'a> {
    left: &'a [u8],
}

impl Read for Bytes<'_> {
    fn read(&mut self, buffer: &mut [u8]) -> io::Result<usize> {
        let Some(first) = buffer.first_mut() else {
            return Ok(0);
        };
        let Some((byte, left)) = self.left.split_first() else {
            return Ok(0);
        };
        *first = *byte;
        self.left = left;
        Ok(1)
    }
}

/// A writer that takes one byte at a time, so many in all, and then fails.
#[derive(Drop)]
struct Narrow {
    taken: Vec<u8>,
    room: usize,
}

impl Write for Narrow {
    fn write(&mut self, buffer: &[u8]) -> io::Result<usize> {
        let Some(byte) = buffer.first() else {
            return Ok(0);
        };
        if self.taken.len() >= self.room || self.taken.push(*byte).is_err() {
            return Err(io::Error::other("full"));
        }
        Ok(1)
    }

    fn flush(&mut self) -> io::Result<()> {
        Ok(())
    }
}

/// More bytes than the answer has. They are had at once, so that no refused allocation is taken for a full writer.
const MAX: usize = 1_000;

/// The answer by such a reader and such a writer; `None` where memory was refused.
fn answer_by_bytes<T: Threads + Wait + Sync>(
    rt: &T,
    alloc: Global,
    room: usize,
) -> Option<Vec<u8>> {
    let mut writer = Narrow {
        taken: Vec::with_capacity(alloc, MAX).ok()?,
        room,
    };
    let mut reader = Bytes {
        left: FAULTS.as_bytes(),
    };
    let command = command(alloc, "jeprun env")?;
    match do_command(
        rt,
        alloc,
        command,
        &[],
        &mut reader,
        &mut writer,
        &mut Nobody,
    ) {
        Ok(status) => with_status(alloc, status, &writer.taken),
        Err(CliError::Write) => with_status(alloc, CliError::Write.status(), &writer.taken),
        Err(_) => None,
    }
}

/// Whether what is written with so much room is the first of the whole answer, with the status that says so.
fn is_written_up_to<T: Threads + Wait + Sync>(
    rt: &T,
    alloc: Global,
    whole: &[u8],
    room: usize,
) -> bool {
    let answer = answer_by_bytes(rt, alloc, room).or_else(|| answer_by_bytes(rt, alloc, room));
    let status = if room < whole.len() { b"4\n" } else { b"0\n" };
    answer.is_some_and(|answer| answer.strip_prefix(status) == whole.get(..room.min(whole.len())))
}

#[test]
fn reads_and_writes_byte_by_byte(rt: HostRuntime) {
    let whole = ":ok\n:ok\n:ok\n:ok\n:ok\n:active [1 2 3]\n\
        {:nodes [\"n1\" \"n2\"], :cut [], :slow [], :loss [], :down [[\"n1\" :paused] [\"n2\" :killed]], :clock [[\"n1\" 500]]}\n";
    for room in [
        0,
        1,
        2,
        3,
        4,
        19,
        20,
        36,
        37,
        whole.len() - 1,
        whole.len(),
        MAX,
    ] {
        assert!(rt;
            is_written_up_to(&rt, rt.alloc(), whole.as_bytes(), room),
            "{room}"
        );
    }
}

/// Settings whose schedule has so many entries, each an undo where there is nothing to undo.
fn settings_with(alloc: Global, entries: usize) -> Option<String> {
    let mut text = String::from_str(alloc, SETTINGS).ok()?;
    text.push_str("'[0 [:undo]]', ".repeat(alloc, entries).ok()?.as_str())
        .ok()?;
    text.push_str("]\n").ok()?;
    Some(text)
}

const SETTINGS: &str = r#"start = '{:nodes ["n1"]}'
mode = "serial"
store = "local"
workload = "register"
clients = 1
ops = 1
generator = '[:once :read]'
schedule = ["#;

/// Whether the answer to settings with so many entries begins so.
fn begins_with<T: Threads + Wait + Sync>(
    rt: &T,
    alloc: Global,
    entries: usize,
    expected: &str,
) -> Option<bool> {
    let input = settings_with(alloc, entries)?;
    let answer = answer_once(rt, alloc, "jeprun run", input.as_bytes())?;
    Some(answer.starts_with(expected.as_bytes()))
}

#[test]
fn takes_a_schedule_of_1024_entries(rt: HostRuntime) {
    for (entries, expected) in [
        (1_024, "0\n{:index 0,"),
        (1_025, "3 settings: schedule: bad value\n"),
    ] {
        let begins = begins_with(&rt, rt.alloc(), entries, expected).or_else(|| begins_with(
            &rt,
            rt.alloc(),
            entries,
            expected,
        ));
        assert_eq!(rt; begins, Some(true), "{entries}");
    }
}
