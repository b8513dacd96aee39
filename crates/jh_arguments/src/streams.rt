//! The streams of the process: a writer that takes the line of progress off the terminal before its first byte,
//! and a reader that keeps what it gave, where more is to be said of it.

use crate::teller::EMPTY_LINE;
use std::alloc::Global;
use std::cell::Cell;
use std::io::{self, Read, Write};

/// A writer before whose first byte what was told on the terminal is taken off.
#[derive(Drop)]
pub(crate) struct BehindProgress<'a, P, W> {
    pub(crate) rt: &'a P,
    pub(crate) writer: W,
    /// Whether a line of progress stands there.
    pub(crate) is_in_the_way: &'a Cell<bool>,
}

impl<P: Eprint, W: Write> Write for BehindProgress<'_, P, W> {
    fn write(&mut self, buffer: &[u8]) -> io::Result<usize> {
        if self.is_in_the_way.get() {
            self.is_in_the_way.set(false);
            let _ = eprint!(self.rt; "{EMPTY_LINE}");
        }
        self.writer.write(buffer)
    }

    fn flush(&mut self) -> io::Result<()> {
        self.writer.flush()
    }
}

/// A reader that keeps what it gave, while that is wanted, and how it failed.
#[derive(Drop)]
pub(crate) struct KeptReader<'a, R> {
    reader: R,
    /// Whether what it gives is kept.
    is_kept: &'a Cell<bool>,
    /// What it gave; only a front of that where memory was refused.
    kept: Vec<u8>,
    /// How its last read failed, if it did.
    failure: Option<io::ErrorKind>,
}

impl<'a, R> KeptReader<'a, R> {
    /// A reader that keeps nothing yet.
    pub(crate) fn new(alloc: Global, reader: R, is_kept: &'a Cell<bool>) -> KeptReader<'a, R> {
        KeptReader {
            reader,
            is_kept,
            kept: Vec::new(alloc),
            failure: None,
        }
    }

    /// What it gave while that was kept.
    pub(crate) fn kept(&self) -> &[u8] {
        &self.kept
    }

    /// How its last read failed, if it did.
    pub(crate) fn failure(&self) -> Option<io::ErrorKind> {
        self.failure
    }
}

impl<R: Read> Read for KeptReader<'_, R> {
    fn read(&mut self, buffer: &mut [u8]) -> io::Result<usize> {
        let len = match self.reader.read(buffer) {
            Ok(len) => len,
            Err(error) => {
                self.failure = Some(error.kind());
                return Err(error);
            }
        };
        if self.is_kept.get() && self.kept.extend_from_slice(&buffer[..len]).is_err() {
            self.is_kept.set(false);
        }
        Ok(len)
    }
}
