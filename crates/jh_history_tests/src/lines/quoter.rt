//! A machine that quotes lines, and the first call that the README of `jh_lines` shows.

ghost use Rattle.std.specs.Prelude.{◌≡◌, ◌++◌, ◌∷◌, []};

use jh_lines::{Ending, Machine};
use std::alloc::AllocError;
use std::io::ErrorKind;

/// Says each line in brackets, up to a line that is `stop`.
#[derive(Drop)]
pub(crate) struct Quoter {
    pub(crate) is_over: bool,
}

impl Machine for Quoter {
    ghost use Rattle.std.specs.Prelude.{◌||◌, codes, cond};
    ghost use Rattle.std.specs.Str.{bytes_eq};
    ghost use Rattle.std.proofs.Common.{ap};

    ghost opening = { λ _. codes "hello" ++ 10 ∷ [] };

    ghost after_line = { λ m line. record { is_over = m.is_over || bytes_eq line (codes "stop") } };

    ghost answer_to = { λ m line. cond m.is_over [] (codes "[" ++ line ++ codes "]" ++ 10 ∷ []) };

    ghost has_finished = { λ m. m.is_over };

    ghost stays_over = { λ m line over. (
      ap (λ b. cond b [] (codes "[" ++ line ++ codes "]" ++ 10 ∷ [])) over,
      ap (λ b. b || bytes_eq line (codes "stop")) over,
    ) };

    fn open(&self, out: &mut Vec<u8>) -> Result<(), AllocError> {
        out.extend_from_slice(b"hello\n")
    }

    fn answer(&mut self, line: &[u8], out: &mut Vec<u8>) -> Result<(), AllocError> {
        if self.is_over {
            return Ok(());
        }
        self.is_over = line == b"stop".as_slice();
        out.push(b'[')?;
        out.extend_from_slice(line)?;
        out.extend_from_slice(b"]\n")
    }

    fn is_over(&self) -> bool {
        self.is_over
    }
}

/// What an ending is called in the rows. None: memory was refused.
pub(crate) fn name_of(ending: &Ending) -> Option<&'static str> {
    match ending {
        Ending::Over => Some("over"),
        Ending::InputEnded => Some("ended"),
        Ending::ReadFailed(error) => Some(match error.kind() {
            ErrorKind::ConnectionReset => "read: reset",
            ErrorKind::OutOfMemory => return None,
            _ => "read: another error",
        }),
        Ending::WriteFailed(error) => Some(match error.kind() {
            ErrorKind::BrokenPipe => "write: broken pipe",
            ErrorKind::WriteZero => "write: none written",
            ErrorKind::OutOfMemory => return None,
            _ => "write: another error",
        }),
        Ending::OutOfMemory => None,
        Ending::TooManyTurns => Some("too many turns"),
    }
}
