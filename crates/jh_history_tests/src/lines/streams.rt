//! Conversations over a reader and a writer that give or take little at once, are interrupted, or fail.

use crate::lines::quoter::{Quoter, name_of};
use crate::one_by_one::OneByOne;
use jh_lines::{Ending, Streams, converse_over};
use std::alloc::{AllocError, Global};
use std::io::{self, ErrorKind, Write};

/// Takes one byte a call, so many in all. A flush is a `|` among what it has taken. It is interrupted
/// once before each of them. When it has no room it fails, or takes none.
#[derive(Drop)]
struct Narrow {
    room: usize,
    fails: bool,
    is_ready: bool,
    taken: Vec<u8>,
}

impl Narrow {
    /// Takes a byte.
    fn note(&mut self, byte: u8) -> io::Result<()> {
        if !self.is_ready {
            self.is_ready = true;
            return Err(io::Error::from(ErrorKind::Interrupted));
        }
        self.is_ready = false;
        match self.taken.push(byte) {
            Ok(()) => Ok(()),
            Err(_) => Err(io::Error::from(ErrorKind::OutOfMemory)),
        }
    }
}

impl Write for Narrow {
    fn write(&mut self, bytes: &[u8]) -> io::Result<usize> {
        let Some(first) = bytes.first() else {
            return Ok(0);
        };
        if self.room == 0 {
            return if self.fails {
                Err(io::Error::from(ErrorKind::BrokenPipe))
            } else {
                Ok(0)
            };
        }
        self.note(*first)?;
        self.room = self.room.saturating_sub(1);
        Ok(1)
    }

    fn flush(&mut self) -> io::Result<()> {
        self.note(b'|')
    }
}

/// What is written, a `=`, and how it ends. None: memory was refused.
fn answer_once(alloc: Global, text: &str, room: usize, fails: bool) -> Option<Vec<u8>> {
    let writer = Narrow {
        room,
        fails,
        is_ready: false,
        taken: Vec::new(alloc),
    };
    let mut streams = Streams {
        reader: OneByOne {
            left: text.as_bytes(),
        },
        writer,
    };
    let mut machine = Quoter { is_over: false };
    let ending = converse_over(alloc, &mut streams, &mut machine);
    let mut taken = streams.writer.taken;
    let name = name_of(&ending)?;
    taken.push(b'=').ok()?;
    taken.extend_from_slice(name.as_bytes()).ok()?;
    Some(taken)
}

/// Whether that is what is written, with as much memory as it takes.
fn is_answer(alloc: Global, text: &str, room: usize, fails: bool, expected: &str) -> bool {
    let answer = answer_once(alloc, text, room, fails).or_else(|| answer_once(
        alloc, text, room, fails,
    ));
    answer.is_some_and(|taken| taken.as_slice() == expected.as_bytes())
}

/// A row is what is read, `\x1f` and what is written; each turn ends with a flush.
#[test]
fn flushes_each_turn(rt: HostRuntime) {
    let rows = "\
        \x1fhello\n||=ended\
        \x1ea\n\x1fhello\n||[a]\n||=ended\
        \x1e!a!!\n\x1fhello\n||[a]\n||=ended\
        \x1ea\x1fhello\n||[a]\n|=ended\
        \x1ea\nb?c\x1fhello\n||[a]\n||=read: reset\
        \x1e?\x1fhello\n|=read: reset\
        \x1estop\nb\x1fhello\n|||||[stop]\n|=over";
    for row in rows.split('\x1e') {
        let (text, expected) = row.split_once('\x1f').unwrap_or(("", ""));
        assert!(rt;
            is_answer(rt.alloc(), text, usize::MAX, true, expected),
            "{row}"
        );
    }
}

/// A row is how many bytes are taken, and what is written then, to `a` and its line's end.
#[test]
fn says_that_the_writer_failed(rt: HostRuntime) {
    let rows = "\
        0\x1f\
        \x1e1\x1fh\
        \x1e6\x1fhello\n||\
        \x1e9\x1fhello\n||[a]\
        \x1e10\x1fhello\n||[a]\n||=ended";
    for row in rows.split('\x1e') {
        let (room, written) = row.split_once('\x1f').unwrap_or(("", ""));
        let room: usize = room.parse().unwrap_or(99);
        assert!(rt;
            has_failed(rt.alloc(), room, true, written, "=write: broken pipe"),
            "{row}"
        );
        assert!(rt;
            has_failed(rt.alloc(), room, false, written, "=write: none written"),
            "{row}"
        );
    }
}

/// Whether that is written, and behind it how it ends, unless it is said already.
fn has_failed(alloc: Global, room: usize, fails: bool, written: &str, ending: &str) -> bool {
    let ending = if written.contains('=') { "" } else { ending };
    let answer = answer_once(alloc, "a\n", room, fails).or_else(|| answer_once(
        alloc, "a\n", room, fails,
    ));
    answer.is_some_and(|taken| taken.as_slice().strip_suffix(ending.as_bytes())
        == Some(written.as_bytes()))
}

/// How many bytes are written to a line of so many bytes, at last one without an end. An error:
/// memory was refused.
fn count_once(alloc: Global, len: usize) -> Result<usize, AllocError> {
    let mut line = Vec::with_capacity(alloc, len)?;
    line.resize(len, b'a')?;
    let mut streams = Streams {
        reader: line.as_slice(),
        writer: Vec::new(alloc),
    };
    let mut machine = Quoter { is_over: false };
    match converse_over(alloc, &mut streams, &mut machine) {
        Ending::InputEnded => Ok(streams.writer.len()),
        _ => Err(AllocError),
    }
}

/// Lines about as long as what is read at once, and longer ones: all of each is one line.
#[test]
fn no_line_is_too_long(rt: HostRuntime) {
    for len in [1usize, 4_095, 4_096, 4_097, 100_000, 10_000_000] {
        let count = match count_once(rt.alloc(), len) {
            Err(_) => count_once(rt.alloc(), len),
            count => count,
        };
        assert!(rt; count == Ok(len + 9), "{len}");
    }
}
