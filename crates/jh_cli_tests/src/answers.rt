//! Rows from the arguments to the output. A row is arguments, an input on the next line, an arrow, and the answer. Commas are blanks
//! in EDN, so that blanks part arguments.

use crate::arguments::Seen;
use crate::rows::{push_error, with_status};
use jh_arguments::{CliError, Refusal, Streams, answer};
use std::alloc::Global;
use std::fs::Files;
use std::sync::Wait;
use std::thread::Threads;

/// The answer to these arguments and an input; `None` where memory was refused, and where `clap` refuses the arguments.
fn answer_once<T>(rt: &T, arguments: &str, input: &str) -> Option<Vec<u8>>
where
    T: Files + Alloc<A = Global> + Threads + Wait + Sync,
{
    let arguments: Vec<&str> = arguments.split(' ').collect(rt.alloc()).ok()?;
    let mut streams = Streams {
        reader: input.as_bytes(),
        writer: Vec::new(rt.alloc()),
    };
    let mut seen = Seen { is_env: false };
    match answer(rt, arguments.as_slice(), &mut streams, &mut seen) {
        Ok(status) => with_status(rt.alloc(), status, &streams.writer),
        Err(Refusal::Accounts(CliError::OutOfMemory) | Refusal::Command(CliError::OutOfMemory)) => {
            None
        }
        Err(Refusal::Accounts(error) | Refusal::Command(error)) => {
            let mut text = streams.writer;
            push_error(&error, &mut text)?;
            Some(text)
        }
        Err(_) => None,
    }
}

/// Whether a row is right; `None` where memory was refused.
fn is_right_once<T>(rt: &T, row: &str) -> Option<bool>
where
    T: Files + Alloc<A = Global> + Threads + Wait + Sync,
{
    let Some((text, expected)) = row.split_once("→ ") else {
        return Some(false);
    };
    let Some((arguments, input)) = text.trim().split_once('\n') else {
        return Some(false);
    };
    let answer = answer_once(rt, arguments, input)?;
    Some(answer.as_slice() == expected.as_bytes())
}

/// The first row that is wrong.
pub(crate) fn first_wrong<'a, T>(rt: &T, rows: &'a str) -> Option<&'a str>
where
    T: Files + Alloc<A = Global> + Threads + Wait + Sync,
{
    for row in rows.split('§') {
        let is_right = is_right_once(rt, row).or_else(|| is_right_once(rt, row));
        if is_right != Some(true) {
            return Some(row);
        }
    }
    None
}
