//! A test that is conducted over bytes, with its end.

use jh_drive::{CallCounts, CallObserver, DriveError, drive};
use jh_lines::Streams;
use std::alloc::Global;
use std::io::{Read, Write};

/// Nobody is told how the calls ended.
#[derive(Drop)]
pub(crate) struct Nobody;

impl CallObserver for Nobody {
    fn see_calls(&mut self, _calls: CallCounts) {}
}

/// All that a test writes to these replies, and behind it the message and the status. None: memory was refused.
pub(crate) fn driven_once<R: Read + Drop>(
    alloc: Global,
    settings: &str,
    replies: R,
) -> Option<Vec<u8>> {
    let mut streams = Streams {
        reader: replies,
        writer: Vec::new(alloc),
    };
    let ended = drive(alloc, settings.as_bytes(), &mut streams, &mut Nobody);
    let mut text = streams.writer;
    match ended {
        Ok(status) => writeln!(text, "status {status}").ok()?,
        // What is written goes to memory too.
        Err(DriveError::OutOfMemory | DriveError::Write) => return None,
        Err(error) => writeln!(text, "jeprun: {error}\nstatus {}", error.status()).ok()?,
    }
    Some(text)
}

/// The same, made once more where memory was refused.
pub(crate) fn driven(alloc: Global, settings: &str, replies: &[u8]) -> Option<Vec<u8>> {
    driven_once(alloc, settings, replies).or_else(|| driven_once(alloc, settings, replies))
}

/// Whether a test writes exactly this to these replies.
pub(crate) fn says(alloc: Global, settings: &str, replies: &str, expected: &str) -> bool {
    let text = driven(alloc, settings, replies.as_bytes());
    text.is_some_and(|text| text.as_slice() == expected.as_bytes())
}

/// Whether what a test writes to these replies ends so.
pub(crate) fn ends(alloc: Global, settings: &str, replies: &str, expected: &str) -> bool {
    let text = driven(alloc, settings, replies.as_bytes());
    text.is_some_and(|text| text.ends_with(expected.as_bytes()))
}
