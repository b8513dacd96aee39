//! A reader and a writer as a peer.
ghost use Rattle.std.specs.Prelude.{◌≡◌, ◌⊎◌, List, [], IfSome};
ghost use Rattle.std.specs.Io.KnownBytes.{Appends, Consumes, IsAtEnd, Keeps};
ghost use Rattle.jh_lines.specs.Answering.{said_to_all};
ghost use Rattle.jh_lines.specs.Events.{TalkEvent, heard_in, told_in};
ghost use Rattle.jh_lines.specs.Endings.{IsConversation};

use crate::ending::Ending;
use crate::machine::Machine;
use crate::peer::Peer;
use crate::talking::converse;
use crate::writing::{read_some, write_whole};
use std::alloc::Global;
use std::io;
use std::io::{Read, Write};

/// A reader and a writer. What is told is written and flushed.
#[derive(Drop)]
pub struct Streams<R, W> {
    pub reader: R,
    pub writer: W,
}

impl<R: Read, W: Write> Peer for Streams<R, W> {
    ghost told = { λ s bytes t. (t.reader ≡ s.reader)
        × Appends (W.contents s.writer) (W.contents t.writer) bytes };

    ghost heard = { λ s bytes t. (t.writer ≡ s.writer)
        × Consumes (R.remaining s.reader) (R.remaining t.reader) bytes };

    ghost ended = { λ s t. (t.writer ≡ s.writer)
        × Consumes (R.remaining s.reader) (R.remaining t.reader) []
        × IsAtEnd (R.remaining t.reader) };

    ghost tell_failed = { λ s bytes _ t. (t.reader ≡ s.reader)
        × Appends (W.contents s.writer) (W.contents t.writer) bytes };

    ghost listen_failed = { λ s _ t. (t.writer ≡ s.writer)
        × Keeps (R.remaining s.reader) (R.remaining t.reader) };

    fn tell(&mut self, bytes: &[u8]) -> io::Result<()> {
        write_whole(&mut self.writer, bytes)
    }

    fn listen(&mut self, buffer: &mut [u8]) -> io::Result<usize> {
        read_some(&mut self.reader, buffer)
    }
}

/// Holds a conversation over a reader and a writer.
pub fn converse_over<R: Read, W: Write, M: Machine>(
    alloc: Global,
    streams: &mut Streams<R, W>,
    machine: &mut M,
) -> Ending
    // What was taken from the reader and what went to the writer is a conversation.
    ensures talk { (past : List TalkEvent)
        × Consumes (R.remaining streams.old.reader) (R.remaining streams.new.reader) (heard_in past)
        × Appends (W.contents streams.old.writer) (W.contents streams.new.writer) (told_in past)
        × IsConversation M.opening M.after_line M.answer_to M.has_finished
        machine.old past machine.new result }

    // Where nothing failed, what was written is what the machine says to all of the input.
    ensures whole { (result ≡ Ending.Over) ⊎ (result ≡ Ending.InputEnded)
        → IfSome (R.remaining streams.old.reader) (λ input.
        Appends (W.contents streams.old.writer) (W.contents streams.new.writer)
        (said_to_all M.opening M.after_line M.answer_to machine.old input)) }
{
    converse(alloc, streams, machine)
}
