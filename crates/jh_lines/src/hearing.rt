//! What is heard, cut into lines.
ghost use Rattle.std.specs.Prelude.{◌≡◌, ◌++◌, [], OnOk};
ghost use Rattle.jh_lines.specs.Lines.{lines_from, rest_from, last_line};
ghost use Rattle.jh_lines.specs.Answering.{after_lines, answers_to_lines};

use crate::machine::Machine;
use std::alloc::{AllocError, Global};
use std::marker::Model;

/// Cuts lines out of bytes as they come. It keeps what has come of the line that has not ended, and
/// is seen by contracts as that. After an error it is used no more.
#[derive(Drop)]
pub struct Hearing {
    line: Vec<u8>,
}

impl Model for Hearing {
    ghost use Rattle.std.specs.Prelude.{ℕ, List};

    ghost Value = { List ℕ };

    ghost view = { λ h. h.line.items };
}

impl Hearing {
    /// Nothing has come.
    pub fn new(alloc: Global) -> Hearing
        ensures { result ≡ [] }
    {
        Hearing {
            line: Vec::new(alloc),
        }
    }

    /// Gives a machine each line that ends in these bytes. Each byte is looked at once, and moved at
    /// most once, into the line that it belongs to.
    pub fn hear<M: Machine>(
        &mut self,
        bytes: &[u8],
        machine: &mut M,
        out: &mut Vec<u8>,
    ) -> Result<(), AllocError>
        ensures rest { OnOk result (self.new ≡ rest_from self.old bytes.now) }
        ensures machine { OnOk result (machine.new ≡ after_lines M.after_line machine.old
            (lines_from self.old bytes.now)) }
        ensures said { OnOk result (out.new.items ≡ out.old.items
            ++ answers_to_lines M.after_line M.answer_to machine.old (lines_from self.old bytes.now)) }
    {
        for byte in bytes {
            if *byte == b'\n' {
                machine.answer(self.line.as_slice(), out)?;
                self.line.clear();
            } else {
                self.line.push(*byte)?;
            }
        }
        Ok(())
    }

    /// Gives a machine the line that ends with the input, if one does.
    pub fn hear_end<M: Machine>(
        &mut self,
        machine: &mut M,
        out: &mut Vec<u8>,
    ) -> Result<(), AllocError>
        ensures machine { OnOk result (machine.new ≡ after_lines M.after_line machine.old
            (last_line self.old)) }
        ensures said { OnOk result (out.new.items ≡ out.old.items
            ++ answers_to_lines M.after_line M.answer_to machine.old (last_line self.old)) }
    {
        if !self.line.is_empty() {
            machine.answer(self.line.as_slice(), out)?;
        }
        Ok(())
    }
}
