//! Reading all bytes of a reader.

ghost use Rattle.std.specs.Prelude.{◌≡◌, IfOk, IfErr, IfSome, Err};
ghost use Rattle.jh_edn.specs.Refused.{IsReaderError};

use crate::error::EdnError;
use std::alloc::Global;
use std::io::{ErrorKind, Read};

/// How many bytes one read asks for at most.
const BUFFER_LEN: usize = 65_536;

/// The bytes that the reader gives, up to its end.
///
/// There are at most `reads` reads; the one that finds the end counts, and so does one that was
/// interrupted. After an error the reader stands where its last read left it.
///
/// Errors: `Read` where a read failed, `TooLong` where the end was not seen within `reads` reads,
/// `OutOfMemory`.
pub fn read_bytes<R: Read>(alloc: Global, reader: &mut R, reads: u32) -> Result<Vec<u8>, EdnError>
    ensures bytes { IfOk result (λ v. IfSome (R.remaining reader.old) (λ all. v.items ≡ all)) }
    ensures error { IfErr result IsReaderError }
    ensures no_reads { reads ≡ 0 → result ≡ Err EdnError.TooLong }
{
    let mut bytes = Vec::new(alloc);
    let mut buffer = [0; BUFFER_LEN];
    for _read in 0..reads {
        match reader.read(&mut buffer) {
            Ok(0) => return Ok(bytes),
            Ok(len) => bytes.extend_from_slice(&buffer[..len])?,
            Err(error) if error.kind() == ErrorKind::Interrupted => {}
            Err(_) => return Err(EdnError::Read),
        }
    }
    Err(EdnError::TooLong)
}
