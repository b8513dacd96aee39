//! What is written of a conversation. `specs/Text.antt` has the rule.

ghost use Rattle.std.specs.Prelude.{◌≡◌, ◌<◌, ◌≤◌, ◌++◌, ◌∷◌, ◌^◌, [], All, drop, length, IfOk, OnOk, reverse};
ghost use Rattle.std.specs.Prelude.{take};
ghost use Rattle.jh_edn.specs.Print.{print};
ghost use Rattle.jh_ops.specs.HistoryWritten.{history_lines};
ghost use Rattle.jh_ops.specs.Operation.{operations};
ghost use Rattle.jh_ops.specs.OperationWritten.{value_written};
ghost use Rattle.jh_test_parts.specs.Records.{operation_of_record, recorded_operations};
ghost use Rattle.jh_conversation.specs.Sound.{IsSoundMachine};
ghost use Rattle.jh_test_parts.specs.Records.{IsWritableRecord};
ghost use Rattle.jh_conversation.specs.Text as rule;

use crate::machine::Machine;
use jh_env::Nodes;
use jh_ops::{Op, write_operation};
use jh_test_parts::{Recorded, Test, operation_of, operations_of};
use std::alloc::{AllocError, Global};

/// Adds the line of a record.
fn write_record(
    alloc: Global,
    nodes: &Nodes,
    index: usize,
    recorded: &Recorded,
    out: &mut Vec<u8>,
) -> Result<(), AllocError>
    requires index { index < 2 ^ 63 }
    requires writable { IsWritableRecord (length nodes.now) recorded.now }
    ensures { OnOk result (out.new.items ≡ out.old.items
        ++ (print (value_written (operation_of_record nodes.now index recorded.now)) ++ 10 ∷ [])) }
{
    let op = operation_of(alloc, nodes, index, recorded)?;
    if write_operation(&op, out).is_err() {
        return Err(AllocError);
    }
    out.push(b'\n')?;
    Ok(())
}

/// Adds the lines of these records from an index on.
fn write_records(
    alloc: Global,
    nodes: &Nodes,
    records: &[Recorded],
    first: usize,
    out: &mut Vec<u8>,
) -> Result<(), AllocError>
    requires few { length records.now < 2 ^ 63 }
    requires writable { All (IsWritableRecord (length nodes.now)) records.now }
    ensures { OnOk result (out.new.items
        ≡ out.old.items
        ++ history_lines (recorded_operations nodes.now first (drop first records.now))) }
{
    for index in first..records.len() {
        write_record(alloc, nodes, index, &records[index], out)?;
    }
    Ok(())
}

impl Machine {
    /// The history, the oldest record first.
    pub(crate) fn records(&self) -> &[Recorded]
        ensures history { self.now.history ≡ reverse result.now }
        ensures few { length result.now < 2 ^ 63 }
    {
        self.history.as_slice()
    }

    /// How many records were said since the last line that was read.
    fn count_said(&self) -> usize
        ensures said { self.now.said ≡ take result self.now.history }
        ensures few { result ≤ length self.now.history }
    {
        self.said
    }

    /// Adds the lines of what was said since the last line that was read, and behind the last record
    /// the line of the end.
    pub(crate) fn write_said(
        &self,
        alloc: Global,
        test: &Test,
        out: &mut Vec<u8>,
    ) -> Result<(), AllocError>
        requires { IsSoundMachine test.now self.now }
        ensures { OnOk result
            (out.new.items ≡ out.old.items ++ rule.said_lines test.now self.now) }
    {
        let records = self.records();
        let first = records.len() - self.count_said();
        write_records(alloc, test.nodes(), records, first, out)?;
        if self.is_over() {
            out.extend_from_slice(b":end\n")?;
        }
        Ok(())
    }

    /// Adds a line for each record of the history.
    pub(crate) fn write_history(
        &self,
        alloc: Global,
        test: &Test,
        out: &mut Vec<u8>,
    ) -> Result<(), AllocError>
        requires { IsSoundMachine test.now self.now }
        ensures { OnOk result
            (out.new.items ≡ out.old.items ++ rule.recorded_lines test.now self.now) }
    {
        write_records(alloc, test.nodes(), self.records(), 0, out)
    }

    /// The history, with an operation for each record.
    pub(crate) fn history(&self, alloc: Global, test: &Test) -> Result<Vec<Op>, AllocError>
        requires { IsSoundMachine test.now self.now }
        ensures { IfOk result
            (λ history. operations history.items ≡ rule.recorded_history test.now self.now) }
    {
        operations_of(alloc, test.nodes(), self.records())
    }
}
