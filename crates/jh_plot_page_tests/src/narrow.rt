//! A writer that fails, to which pages are written.

use std::io::{self, ErrorKind, Write};

/// A writer that takes so many pieces of bytes, and no more.
#[derive(Drop)]
pub(crate) struct Narrow {
    pub(crate) left: usize,
}

impl Write for Narrow {
    fn write(&mut self, bytes: &[u8]) -> io::Result<usize> {
        if self.left == 0 {
            return Err(io::Error::from(ErrorKind::BrokenPipe));
        }
        self.left -= 1;
        Ok(bytes.len())
    }

    fn flush(&mut self) -> io::Result<()> {
        Ok(())
    }
}
