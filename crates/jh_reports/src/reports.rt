//! What is written of a run or a test behind its end. `specs/Reports.antt` has the rule.

ghost use Rattle.std.specs.Prelude.{◌≡◌, ◌++◌, OnOk, List, ℕ};
ghost use Rattle.jh_edn.specs.Print.{print};
ghost use Rattle.jh_ops.specs.HistoryWritten.{history_lines};
ghost use Rattle.jh_ops.specs.Operation.{operation, operations};
ghost use Rattle.jh_ops.specs.OperationWritten.{value_written};
ghost use Rattle.jh_reports.specs.Lines.{line};
ghost use Rattle.jh_reports.specs.Reports.{IsReport};

use crate::lines::{write_active, write_environment};
use jh_nemesis::Nemesis;
use jh_ops::{Op, write_operation};
use std::alloc::{AllocError, Global};

/// Adds what is written of a history, of the faults that are active now and what they make, and
/// behind it a last line, which says what was found and comes with its line feed. `drive` writes
/// the same in two parts, so that the first is there where judging fails.
///
/// Error: memory was refused, and a part of it may have been added.
pub fn write_report(
    alloc: Global,
    nemesis: &Nemesis,
    history: &[Op],
    last_line: &[u8],
    output: &mut Vec<u8>,
) -> Result<(), AllocError>
    ensures { OnOk result ((report : List ℕ)
        × IsReport nemesis.now.state (operations history.now) last_line.now report
        × (output.new.items ≡ output.old.items ++ report)) }
{
    write_history(history, output)?;
    write_active(alloc, nemesis, output)?;
    write_environment(alloc, nemesis.env(), output)?;
    output.extend_from_slice(last_line)
}

/// Adds a line for each operation, with its line feed.
fn write_history(history: &[Op], output: &mut Vec<u8>) -> Result<(), AllocError>
    ensures { OnOk result
        (output.new.items ≡ output.old.items ++ history_lines (operations history.now)) }
{
    for op in history {
        write_operation_line(op, output)?;
    }
    Ok(())
}

/// Adds the line of an operation, with its line feed.
fn write_operation_line(op: &Op, output: &mut Vec<u8>) -> Result<(), AllocError>
    ensures { OnOk result
        (output.new.items ≡ output.old.items ++ line (print (value_written (operation op.now)))) }
{
    if write_operation(op, output).is_err() {
        return Err(AllocError);
    }
    output.push(b'\n')?;
    Ok(())
}
