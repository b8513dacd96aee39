//! The one line of what is found of a queue. `specs/FifoLines.antt` has the rule.

ghost use Rattle.std.specs.Prelude.{◌≡◌, ◌++◌, ◌∷◌, [], IfErr, OnOk, codes};
ghost use Rattle.std.specs.Io.KnownBytes.{Appends};
ghost use Rattle.jh_edn.specs.Edn.{keyword};
ghost use Rattle.jh_edn.specs.Parts.{behind_pair_text};
ghost use Rattle.jh_edn.specs.Print.{print};
ghost use Rattle.jh_check.specs.Lines.{map_with_verdict, operations_value, verdict_value};
ghost use Rattle.jh_check.specs.declared.verdict.Verdict.TheVariants.{True, False};
ghost use Rattle.jh_fifo_check.specs.FifoFindings as findings;
ghost use Rattle.jh_fifo_check.specs.FifoLines as rule;
ghost use Rattle.jh_fifo_check.specs.FifoLines.{fifo_value, numbers_value};

use crate::finding::FifoFinding;
use jh_check::{Verdict, write_keyword, write_verdict};
use jh_edn::{EdnError, put, write_part};
use jh_fifo::{FifoReason, FifoVerdict};
use jh_ops::Op;
use std::io::Write;

/// The name of a reason, as the line has it, without its colon.
fn reason_name(reason: FifoReason) -> &'static str
    ensures { result.now ≡ rule.reason_name reason }
{
    match reason {
        FifoReason::EndedBeforeInvoked(_) => "ended-before-invoked",
        FifoReason::NeverEnqueued(_) => "never-enqueued",
        FifoReason::DequeuedTwice(..) => "dequeued-twice",
        FifoReason::DequeuedBeforeEnqueued(..) => "dequeued-before-enqueued",
        FifoReason::OutOfOrder(..) => "out-of-order",
        FifoReason::NeverEmpty(_) => "never-empty",
    }
}

/// Writes the line of a queue that has an order.
fn write_order<W: Write>(order: &[usize], writer: &mut W) -> Result<(), EdnError>
    ensures bytes { OnOk result (Appends (W.contents writer.old) (W.contents writer.new)
        (print (map_with_verdict True ((keyword (codes "order"), numbers_value order.now) ∷ [])))) }
    ensures error { IfErr result (λ e. e ≡ EdnError.Write) }
{
    write_verdict(Verdict::True, writer)?;
    write_part("order", order, writer)?;
    put(b"}", writer)
}

/// Writes the opening of a line whose verdict is not `true`: why, and which operations are named.
fn write_named<W: Write>(
    verdict: Verdict,
    because: &str,
    named: &[usize],
    writer: &mut W,
) -> Result<(), EdnError>
    ensures bytes { OnOk result (Appends (W.contents writer.old) (W.contents writer.new)
        (((codes "{:valid? " ++ print (verdict_value verdict))
        ++ behind_pair_text (codes "because") (keyword because.now))
        ++ behind_pair_text (codes "named") (numbers_value named.now))) }
    ensures error { IfErr result (λ e. e ≡ EdnError.Write) }
{
    write_verdict(verdict, writer)?;
    write_keyword("because", because, writer)?;
    write_part("named", named, writer)
}

/// Writes such a line without operations.
fn write_plain<W: Write>(
    verdict: Verdict,
    because: &str,
    named: &[usize],
    writer: &mut W,
) -> Result<(), EdnError>
    ensures bytes { OnOk result (Appends (W.contents writer.old) (W.contents writer.new)
        (print (map_with_verdict verdict (rule.why_pairs because.now named.now [])))) }
    ensures error { IfErr result (λ e. e ≡ EdnError.Write) }
{
    write_named(verdict, because, named, writer)?;
    put(b"}", writer)
}

/// Writes such a line with the operations that are named.
fn write_explained<W: Write>(
    verdict: Verdict,
    because: &str,
    named: &[usize],
    operations: &[Op],
    writer: &mut W,
) -> Result<(), EdnError>
    ensures bytes { OnOk result (Appends (W.contents writer.old) (W.contents writer.new)
        (print (map_with_verdict verdict ((keyword (codes "because"), keyword because.now)
        ∷ (keyword (codes "named"), numbers_value named.now)
        ∷ (keyword (codes "operations"), operations_value operations.now) ∷ [])))) }
    ensures error { IfErr result (λ e. e ≡ EdnError.Write) }
{
    write_named(verdict, because, named, writer)?;
    write_part("operations", operations, writer)?;
    put(b"}", writer)
}

/// Writes a line whose verdict is not `true`, with operations if there are any.
fn write_why<W: Write>(
    verdict: Verdict,
    because: &str,
    named: &[usize],
    operations: &[Op],
    writer: &mut W,
) -> Result<(), EdnError>
    ensures bytes { OnOk result (Appends (W.contents writer.old) (W.contents writer.new)
        (print (map_with_verdict verdict (rule.why_pairs because.now named.now operations.now)))) }
    ensures error { IfErr result (λ e. e ≡ EdnError.Write) }
{
    match operations {
        [] => write_plain(verdict, because, named, writer),
        _ => write_explained(verdict, because, named, operations, writer),
    }
}

/// Writes the line of a queue that has no order.
fn write_reason<W: Write>(
    reason: FifoReason,
    operations: &[Op],
    writer: &mut W,
) -> Result<(), EdnError>
    ensures bytes { OnOk result (Appends (W.contents writer.old) (W.contents writer.new)
        (print (map_with_verdict False
        (rule.why_pairs (rule.reason_name reason) (findings.named_by_reason reason) operations.now)))) }
    ensures error { IfErr result (λ e. e ≡ EdnError.Write) }
{
    let name = reason_name(reason);
    match reason {
        FifoReason::EndedBeforeInvoked(number)
        | FifoReason::NeverEnqueued(number)
        | FifoReason::NeverEmpty(number) => {
            write_why(Verdict::False, name, &[number], operations, writer)
        }
        FifoReason::DequeuedTwice(first, second)
        | FifoReason::DequeuedBeforeEnqueued(first, second)
        | FifoReason::OutOfOrder(first, second) => {
            write_why(Verdict::False, name, &[first, second], operations, writer)
        }
    }
}

/// Writes the one line of a finding, without a line feed: `{:valid? true, :order [0 1]}`, or else
/// `{:valid? false, :because :out-of-order, :named [0 2]}`, with the numbers of the operations that
/// are named. `:valid?` is `:unknown` where a value is enqueued twice (`:enqueued-twice`), or where it is
/// not known what a dequeue did (`:unknown-dequeue`). Behind `:named` stands `:operations [{..} ..]`, if
/// the finding has operations.
///
/// Takes no memory. The writer may have taken a part of the line where it failed.
///
/// Errors: `Write` where the writer failed, and no other.
pub fn write_fifo<W: Write>(found: &FifoFinding, writer: &mut W) -> Result<(), EdnError>
    ensures bytes { OnOk result
        (Appends (W.contents writer.old) (W.contents writer.new) (print (fifo_value found.now))) }
    ensures error { IfErr result (λ e. e ≡ EdnError.Write) }
{
    let operations = found.operations.as_slice();
    match &found.verdict {
        FifoVerdict::Valid(order) => write_order(order, writer),
        FifoVerdict::Invalid(reason) => write_reason(*reason, operations, writer),
        FifoVerdict::EnqueuedTwice(first, second) => {
            let named = [*first, *second];
            write_why(
                Verdict::Unknown,
                "enqueued-twice",
                &named,
                operations,
                writer,
            )
        }
        FifoVerdict::UnknownDequeue(number) => {
            write_why(
                Verdict::Unknown,
                "unknown-dequeue",
                &[*number],
                operations,
                writer,
            )
        }
    }
}
