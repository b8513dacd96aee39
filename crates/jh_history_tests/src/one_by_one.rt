//! A reader that gives little at once, is interrupted, or fails.

use std::io::{self, ErrorKind, Read};

/// Gives one byte a call, fails in place of a `?`, and is interrupted in place of a `!`.
#[derive(Drop)]
pub(crate) struct OneByOne<'a> {
    pub(crate) left: &'a [u8],
}

impl Read for OneByOne<'_> {
    fn read(&mut self, buffer: &mut [u8]) -> io::Result<usize> {
        let ([first, left @ ..], [place, ..]) = (self.left, buffer) else {
            return Ok(0);
        };
        self.left = left;
        match *first {
            b'?' => Err(io::Error::from(ErrorKind::ConnectionReset)),
            b'!' => Err(io::Error::from(ErrorKind::Interrupted)),
            byte => {
                *place = byte;
                Ok(1)
            }
        }
    }
}
