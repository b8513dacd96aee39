//! The frame of the commands: how much may be read, what a command writes, and how it ends. A command
//! reads its input, makes its output, and calls `finish`. `specs/Outputs.antt` has the words of their
//! contracts.

ghost use Rattle.std.specs.Prelude.{◌≡◌, IfErr, IfOk, OnOk};
ghost use Rattle.std.specs.Io.KnownBytes.{Appends};

use crate::error::CliError;
use jh_reports::Output;
use std::io::Write;

/// The most reads that an input may take.
pub(crate) const MAX_READS: u32 = 16_777_216;

/// Writes an output, the last thing that a command does: the answer is the exit status.
///
/// Errors: `Write` where the writer failed, which may have taken a part of the text.
pub(crate) fn finish<W: Write>(output: Output, writer: &mut W) -> Result<u8, CliError>
    ensures status { IfOk result (λ status. status ≡ output.status) }
    ensures written { OnOk result
        (Appends (W.contents writer.old) (W.contents writer.new) output.text.items) }
    ensures failed { IfErr result (λ e. e ≡ CliError.Write) }
{
    match writer.write_all(&output.text) {
        Ok(()) => Ok(output.status),
        Err(_) => Err(CliError::Write),
    }
}
