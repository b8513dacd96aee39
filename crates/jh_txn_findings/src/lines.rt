//! The one line of what is found in transactions. `specs/Lines.antt` has the rule.

ghost use Rattle.std.specs.Prelude.{◌≡◌, ◌∷◌, ◌++◌, [], IfErr, OnOk, codes, map};
ghost use Rattle.std.specs.Io.KnownBytes.{Appends};
ghost use Rattle.jh_edn.specs.Edn.{keyword};
ghost use Rattle.jh_edn.specs.Parts.{behind_pair_text, vector_of};
ghost use Rattle.jh_ops.specs.Operation.{operation};
ghost use Rattle.jh_ops.specs.OperationWritten.{value_written};
ghost use Rattle.jh_txn_findings.specs.CycleNames.{cycle_name, cycle_name_text};
ghost use Rattle.jh_txn_findings.specs.Findings as rule;
ghost use Rattle.jh_txn_findings.specs.Lines.{txn_finding_line, number_value, operations_pairs};
ghost use Rattle.jh_txn_findings.specs.Lines.{pairs_of_finding, step_value};
ghost use Rattle.jh_txn_findings.specs.TextInside.{pairs_text};

use crate::cycle_name::name_of_cycle;
use crate::finding::{FoundStep, TxnFinding, anomaly_text};
use jh_check::{write_count, write_keyword, write_verdict};
use jh_edn::{EdnError, put, write_part};
use jh_ops::Op;
use jh_txn::BadRead;
use std::io::Write;

/// Writes the pair of the operations, behind others, where they are there.
fn write_operations<W: Write>(operations: &Option<Vec<Op>>, writer: &mut W) -> Result<(), EdnError>
    ensures bytes { OnOk result (Appends (W.contents writer.old) (W.contents writer.new)
        (pairs_text (operations_pairs operations.now))) }
    ensures error { IfErr result (λ e. e ≡ EdnError.Write) }
{
    let Some(operations) = operations else {
        return Ok(());
    };
    write_part("operations", operations.as_slice(), writer)
}

/// Writes what stands behind the verdict of a bad read, but for the operations.
fn write_bad_read<W: Write>(
    place: usize,
    index: usize,
    kind: BadRead,
    writer: &mut W,
) -> Result<(), EdnError>
    ensures bytes { OnOk result (Appends (W.contents writer.old) (W.contents writer.new)
        (pairs_text ((keyword (codes "anomaly"), keyword (rule.anomaly_text kind))
        ∷ (keyword (codes "place"), number_value place)
        ∷ (keyword (codes "op"), number_value index) ∷ []))) }
    ensures error { IfErr result (λ e. e ≡ EdnError.Write) }
{
    write_keyword("anomaly", anomaly_text(kind), writer)?;
    write_count("place", place, writer)?;
    write_count("op", index, writer)
}

/// Writes what stands behind the verdict of a cycle, but for the operations.
fn write_cycle<W: Write>(steps: &[FoundStep], writer: &mut W) -> Result<(), EdnError>
    ensures bytes { OnOk result (Appends (W.contents writer.old) (W.contents writer.new)
        (pairs_text ((keyword (codes "anomaly"), keyword (cycle_name_text (cycle_name steps.now)))
        ∷ (keyword (codes "cycle"), vector_of (map step_value steps.now)) ∷ []))) }
    ensures error { IfErr result (λ e. e ≡ EdnError.Write) }
{
    write_keyword("anomaly", name_of_cycle(steps).text(), writer)?;
    write_part("cycle", steps, writer)
}

/// Writes what stands behind the verdict.
fn write_others<W: Write>(finding: &TxnFinding, writer: &mut W) -> Result<(), EdnError>
    ensures bytes { OnOk result (Appends (W.contents writer.old) (W.contents writer.new)
        (pairs_text (pairs_of_finding finding.now))) }
    ensures error { IfErr result (λ e. e ≡ EdnError.Write) }
{
    match finding {
        TxnFinding::Valid { order } => write_part("order", order, writer),
        TxnFinding::BadRead {
            place,
            index,
            kind,
            operations,
        } => {
            write_bad_read(*place, *index, *kind, writer)?;
            write_operations(operations, writer)
        }
        TxnFinding::Cycle { steps, operations } => {
            write_cycle(steps, writer)?;
            write_operations(operations, writer)
        }
        TxnFinding::Unknown => Ok(()),
    }
}

/// Writes the one line of a finding, without a line feed: `{:valid? true, :order [0 1]}`,
/// `{:valid? false, :anomaly :G1a, :place 1, :op 0}`,
/// `{:valid? false, :anomaly :G-single-realtime, :cycle [[1 :rw 1 1] [0 :rt]]}` or
/// `{:valid? :unknown}`. A step of a cycle has its place, why it is one, and the key and the element
/// of that. Behind a bad read and behind a cycle stands `:operations [{..} ..]`, if the finding has
/// operations.
///
/// Takes no memory. The writer may have taken a part of the line where it failed.
///
/// Errors: `Write` where the writer failed, and no other.
pub fn write_txn_finding<W: Write>(finding: &TxnFinding, writer: &mut W) -> Result<(), EdnError>
    ensures bytes { OnOk result
        (Appends (W.contents writer.old) (W.contents writer.new) (txn_finding_line finding.now)) }
    ensures error { IfErr result (λ e. e ≡ EdnError.Write) }
{
    write_verdict(finding.verdict(), writer)?;
    write_others(finding, writer)?;
    put(b"}", writer)
}
