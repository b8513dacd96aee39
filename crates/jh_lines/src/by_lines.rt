//! A reader and a writer as a peer that is heard a line at a time. `specs/ByLines.antt` says what the
//! reader has left.

ghost use Rattle.std.specs.Prelude.{◌≡◌, ◌<◌, ◌≤◌, [], IfOk, List, MatchResult, length, take};
ghost use Rattle.std.specs.Io.{ReadsAtMost};
ghost use Rattle.std.specs.Io.BufRead.{take_through};
ghost use Rattle.std.specs.Io.KnownBytes.{Appends, Consumes, IsAtEnd, Keeps};
ghost use Rattle.jh_lines.specs.ByLines.{StopsAtFeed, left_by_lines, unread_line};
ghost use Rattle.jh_lines.specs.Endings.{IsConversation};
ghost use Rattle.jh_lines.specs.Events.{TalkEvent, heard_in, told_in};
ghost use Rattle.jh_lines.specs.Lines.{rest_from};

use crate::ending::Ending;
use crate::machine::Machine;
use crate::peer::Peer;
use crate::talking::converse;
use crate::writing::write_whole;
use std::alloc::Global;
use std::io;
use std::io::{BufRead, Read, Write};

/// The lines of a reader. They are given one after another, and no read goes on behind a line feed.
#[derive(Drop)]
pub struct ByLines<B> {
    reader: B,
    /// The line that is being given, with its line feed.
    line: Vec<u8>,
    /// How many bytes of it were given.
    given: usize,
}

/// The bytes up to the first line feed, with it, or all of them.
fn through_feed(bytes: &[u8]) -> &[u8]
    ensures { result.now ≡ take_through 10 bytes.now }
{
    for (place, byte) in bytes.iter().enumerate() {
        if *byte == b'\n' {
            return &bytes[..=place];
        }
    }
    bytes
}

impl<B: BufRead> ByLines<B> {
    /// All lines of a reader.
    pub fn new(alloc: Global, reader: B) -> ByLines<B>
        ensures { left_by_lines B.remaining result ≡ B.remaining reader }
    {
        ByLines {
            reader,
            line: Vec::new(alloc),
            given: 0,
        }
    }

    /// Reads on to the end of the next line, where all of this one was given.
    fn fill(&mut self) -> io::Result<()>
        ensures kept { Keeps (left_by_lines B.remaining self.old)
            (left_by_lines B.remaining self.new) }
        ensures within { IfOk result (λ _. self.new.given ≤ length self.new.line.items) }
        ensures end { IfOk result (λ _. unread_line self.new ≡ []
            → IsAtEnd (left_by_lines B.remaining self.old)) }
    {
        if self.given >= self.line.len() {
            self.line.clear();
            self.given = 0;
            self.reader.read_until(b'\n', &mut self.line)?;
        }
        Ok(())
    }

    /// Gives bytes of one line; none at the end alone.
    fn give(&mut self, buffer: &mut [u8]) -> io::Result<usize>
        requires { 0 < length buffer.old }
        ensures bound { ReadsAtMost result buffer.new }
        ensures bytes { MatchResult result
            (λ count. Consumes (left_by_lines B.remaining self.old)
            (left_by_lines B.remaining self.new) (take count buffer.new)
            × (count ≡ 0 → IsAtEnd (left_by_lines B.remaining self.old))
            × StopsAtFeed (take count buffer.new))
            (λ _. Keeps (left_by_lines B.remaining self.old)
            (left_by_lines B.remaining self.new)) }
    {
        self.fill()?;
        let unread = &self.line[self.given..];
        // No more is looked at than is given, so a long line is looked through once.
        let most = unread.len().min(buffer.len());
        let mut piece = through_feed(&unread[..most]);
        let count = piece.read(buffer)?;
        self.given += count;
        Ok(count)
    }
}

/// The lines of a reader and a writer, lent for one conversation. What is told is written and flushed,
/// and what is heard ends with a line.
#[derive(Drop)]
struct LinePeer<'a, B, W> {
    lines: &'a mut ByLines<B>,
    writer: &'a mut W,
}

impl<'a, B: BufRead, W: Write> Peer for LinePeer<'a, B, W> {
    ghost told = { λ s bytes t. (t.lines ≡ s.lines) × (t.writer.ghost_name ≡ s.writer.ghost_name)
        × Appends (W.contents s.writer.now) (W.contents t.writer.now) bytes };

    ghost heard = { λ s bytes t. (t.writer ≡ s.writer) × (t.lines.ghost_name ≡ s.lines.ghost_name)
        × Consumes (left_by_lines B.remaining s.lines.now) (left_by_lines B.remaining t.lines.now) bytes
        × StopsAtFeed bytes };

    ghost ended = { λ s t. (t.writer ≡ s.writer) × (t.lines.ghost_name ≡ s.lines.ghost_name)
        × Consumes (left_by_lines B.remaining s.lines.now) (left_by_lines B.remaining t.lines.now) []
        × IsAtEnd (left_by_lines B.remaining s.lines.now) };

    ghost tell_failed = { λ s bytes _ t. (t.lines ≡ s.lines) × (t.writer.ghost_name ≡ s.writer.ghost_name)
        × Appends (W.contents s.writer.now) (W.contents t.writer.now) bytes };

    ghost listen_failed = { λ s _ t. (t.writer ≡ s.writer) × (t.lines.ghost_name ≡ s.lines.ghost_name)
        × Keeps (left_by_lines B.remaining s.lines.now) (left_by_lines B.remaining t.lines.now) };

    fn tell(&mut self, bytes: &[u8]) -> io::Result<()> {
        write_whole(self.writer, bytes)
    }

    fn listen(&mut self, buffer: &mut [u8]) -> io::Result<usize> {
        self.lines.give(buffer)
    }
}

/// Holds a conversation over the lines of a reader and a writer. Where it is over, what was heard ends with
/// the line that ended it, so the lines behind it are left to the next conversation.
pub fn converse_by_lines<B: BufRead, W: Write, M: Machine>(
    alloc: Global,
    lines: &mut ByLines<B>,
    writer: &mut W,
    machine: &mut M,
) -> Ending
    ensures { (past : List TalkEvent)
        × Consumes (left_by_lines B.remaining lines.old)
        (left_by_lines B.remaining lines.new) (heard_in past)
        × Appends (W.contents writer.old) (W.contents writer.new) (told_in past)
        × IsConversation M.opening M.after_line M.answer_to M.has_finished
        machine.old past machine.new result
        × (result ≡ Ending.Over → rest_from [] (heard_in past) ≡ []) }
{
    let mut peer = LinePeer { lines, writer };
    converse(alloc, &mut peer, machine)
}
