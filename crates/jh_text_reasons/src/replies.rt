//! The reply that a test of a real database refused, as it came.

use crate::lines::{MAX_REPLY, reply_line};
use jh_one_line::shortened;
use std::alloc::{AllocError, Global};

/// The line of this number, from 1, without its line feed.
fn line_at(input: &[u8], number: u64) -> Option<&[u8]> {
    let mut before = number.checked_sub(1)?;
    for line in input.split(|b| *b == b'\n') {
        if before == 0 {
            return Some(line);
        }
        before -= 1;
    }
    None
}

/// The line that shows the reply of this number, from 1, cut to 200 bytes. None where there is no such reply, or
/// it is no UTF-8.
pub fn reply_reasons(alloc: Global, input: &[u8], number: u64) -> Result<Vec<Vec<u8>>, AllocError> {
    let mut lines = Vec::new(alloc);
    let Some(line) = line_at(input, number) else {
        return Ok(lines);
    };
    if let Ok(text) = str::from_utf8(line) {
        let shown = shortened(alloc, text, MAX_REPLY)?;
        lines.push(reply_line(alloc, number, &shown)?)?;
    }
    Ok(lines)
}
