//! Peers that write down what passes, in order.

use crate::lines::quoter::{Quoter, name_of};
use jh_lines::{Peer, converse};
use std::alloc::Global;
use std::io;
use std::io::{ErrorKind, Read};

/// A peer by a text: it gives the bytes up to a `|` at once, fails where they are `!`, and ends where
/// there are none. It writes down what is told, up to so many bytes, and what is heard, behind a `<`.
#[derive(Drop)]
struct Script<'a> {
    left: &'a [u8],
    room: usize,
    log: Vec<u8>,
}

/// The bytes in front of a `|`, and those behind it.
fn next_piece(text: &[u8]) -> (&[u8], &[u8]) {
    match text.iter().position(|byte| *byte == b'|') {
        Some(end) => (
            text.get(..end).unwrap_or(b""),
            text.get(end.saturating_add(1)..).unwrap_or(b""),
        ),
        None => (text, b""),
    }
}

impl Script<'_> {
    /// Writes down some bytes.
    fn note(&mut self, bytes: &[u8]) -> io::Result<()> {
        match self.log.extend_from_slice(bytes) {
            Ok(()) => Ok(()),
            Err(_) => Err(io::Error::from(ErrorKind::OutOfMemory)),
        }
    }
}

impl Peer for Script<'_> {
    ghost told = { λ _ _ _. Unit {0} };

    ghost heard = { λ _ _ _. Unit {0} };

    ghost ended = { λ _ _. Unit {0} };

    ghost tell_failed = { λ _ _ _ _. Unit {0} };

    ghost listen_failed = { λ _ _ _. Unit {0} };

    fn tell(&mut self, bytes: &[u8]) -> io::Result<()> {
        let count = bytes.len().min(self.room);
        self.note(bytes.get(..count).unwrap_or(b""))?;
        self.room = self.room.saturating_sub(count);
        if count < bytes.len() {
            return Err(io::Error::from(ErrorKind::BrokenPipe));
        }
        Ok(())
    }

    fn listen(&mut self, buffer: &mut [u8]) -> io::Result<usize> {
        let (mut piece, left) = next_piece(self.left);
        self.left = left;
        self.note(b"<")?;
        if piece == b"!".as_slice() {
            return Err(io::Error::from(ErrorKind::ConnectionReset));
        }
        self.note(piece)?;
        piece.read(buffer)
    }
}

/// What passes, a `=`, how it ends, and whether the machine was stopped. None: memory was refused.
fn answer_once(alloc: Global, text: &str, room: usize) -> Option<Vec<u8>> {
    let mut script = Script {
        left: text.as_bytes(),
        room,
        log: Vec::new(alloc),
    };
    let mut machine = Quoter { is_over: false };
    let ending = converse(alloc, &mut script, &mut machine);
    let mut log = script.log;
    let name = name_of(&ending)?;
    log.push(b'=').ok()?;
    log.extend_from_slice(name.as_bytes()).ok()?;
    if machine.is_over {
        log.extend_from_slice(b", stopped").ok()?;
    }
    Some(log)
}

/// Whether that is what passes, with as much memory as it takes.
fn is_answer(alloc: Global, text: &str, room: usize, expected: &str) -> bool {
    let answer = answer_once(alloc, text, room).or_else(|| answer_once(alloc, text, room));
    answer.is_some_and(|log| log.as_slice() == expected.as_bytes())
}

/// A row is a text of a peer, `\x1f` and what passes; `\x1e` begins each row but the first. The expected
/// comes from the definitions of lines and of what is due, by hand.
#[test]
fn tells_before_it_listens(rt: HostRuntime) {
    let rows = "\
        \x1fhello\n<=ended\
        \x1eone\n\x1fhello\n<one\n[one]\n<=ended\
        \x1eone\ntwo\n\x1fhello\n<one\ntwo\n[one]\n[two]\n<=ended\
        \x1eo|ne\nt|w|o\n\x1fhello\n<o<ne\nt[one]\n<w<o\n[two]\n<=ended\
        \x1eone\ntwo\x1fhello\n<one\ntwo[one]\n<[two]\n=ended\
        \x1eone|\n\x1fhello\n<one<\n[one]\n<=ended\
        \x1e\n\n\x1fhello\n<\n\n[]\n[]\n<=ended\
        \x1eone\r\n\x1fhello\n<one\r\n[one\r]\n<=ended\
        \x1e\r\x1fhello\n<\r<[\r]\n=ended\
        \x1estop\n\x1fhello\n<stop\n[stop]\n=over, stopped\
        \x1est|op\n\x1fhello\n<st<op\n[stop]\n=over, stopped\
        \x1ea\nstop\nb\nstop\nc\x1fhello\n<a\nstop\nb\nstop\nc[a]\n[stop]\n=over, stopped\
        \x1estop\n|b\n\x1fhello\n<stop\n[stop]\n=over, stopped\
        \x1estop\x1fhello\n<stop<[stop]\n=ended, stopped\
        \x1estop\n|!\x1fhello\n<stop\n[stop]\n=over, stopped\
        \x1e!\x1fhello\n<=read: reset\
        \x1eone\nt|!\x1fhello\n<one\nt[one]\n<=read: reset";
    for row in rows.split('\x1e') {
        let (text, expected) = row.split_once('\x1f').unwrap_or(("", ""));
        assert!(rt; is_answer(rt.alloc(), text, usize::MAX, expected), "{row}");
    }
}

/// A row is how many bytes are told, `\x1f` and what passes then.
#[test]
fn fails_where_a_byte_is_not_taken(rt: HostRuntime) {
    let rows = "\
        0\x1f=write: broken pipe\
        \x1e1\x1fh=write: broken pipe\
        \x1e5\x1fhello=write: broken pipe\
        \x1e6\x1fhello\n<one\nst=write: broken pipe\
        \x1e7\x1fhello\n<one\nst[=write: broken pipe\
        \x1e11\x1fhello\n<one\nst[one]=write: broken pipe\
        \x1e12\x1fhello\n<one\nst[one]\n<op\n=write: broken pipe, stopped\
        \x1e18\x1fhello\n<one\nst[one]\n<op\n[stop]=write: broken pipe, stopped\
        \x1e19\x1fhello\n<one\nst[one]\n<op\n[stop]\n=over, stopped";
    for row in rows.split('\x1e') {
        let (room, expected) = row.split_once('\x1f').unwrap_or(("", ""));
        let room: usize = room.parse().unwrap_or(99);
        assert!(rt;
            is_answer(rt.alloc(), "one\nst|op\n", room, expected),
            "{row}"
        );
    }
}
