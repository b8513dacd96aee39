//! A writer that fails, to which lines and pages are written.

use std::io::{self, ErrorKind, Write};

/// A writer that takes so many bytes, and no more.
#[derive(Drop)]
pub(crate) struct Narrow {
    pub(crate) left: usize,
}

impl Write for Narrow {
    fn write(&mut self, bytes: &[u8]) -> io::Result<usize> {
        if bytes.len() > self.left {
            return Err(io::Error::from(ErrorKind::BrokenPipe));
        }
        self.left -= bytes.len();
        Ok(bytes.len())
    }

    fn flush(&mut self) -> io::Result<()> {
        Ok(())
    }
}
