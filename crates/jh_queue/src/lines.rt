//! The one line of the result. `specs/Lines.antt` has the rule.

ghost use Rattle.std.specs.Prelude.{◌≡◌, IfErr, OnOk, codes};
ghost use Rattle.std.specs.Io.KnownBytes.{Appends};
ghost use Rattle.jh_edn.specs.Parts.{behind_pair_text};
ghost use Rattle.jh_edn.specs.Print.{print};
ghost use Rattle.jh_ops.specs.Operation.{operation};
ghost use Rattle.jh_ops.specs.OperationWritten.{value_written};
ghost use Rattle.jh_check.specs.Lines.{map_with_verdict};
ghost use Rattle.jh_check.specs.declared.verdict.Verdict.TheVariants.{False};
ghost use Rattle.jh_queue.specs.Lines.{first_pairs, queue_value};
ghost use Rattle.jh_queue.specs.declared.queue.QueueResult.TheVariants.{Dequeued};

use crate::queue::QueueResult;
use jh_check::{Verdict, write_count, write_verdict};
use jh_edn::{EdnError, put};
use jh_ops::{Op, write_operation};
use std::io::Write;

/// The line where each dequeue comes from an enqueue.
fn write_dequeued<W: Write>(count: usize, writer: &mut W) -> Result<(), EdnError>
    ensures bytes { OnOk result (Appends (W.contents writer.old) (W.contents writer.new)
        (print (queue_value (Dequeued count)))) }
    ensures error { IfErr result (λ e. e ≡ EdnError.Write) }
{
    write_verdict(Verdict::True, writer)?;
    write_count("dequeued", count, writer)?;
    put(b"}", writer)
}

/// The first completion that comes from none, behind other pairs.
fn write_completion<W: Write>(op: &Op, writer: &mut W) -> Result<(), EdnError>
    ensures bytes { OnOk result (Appends (W.contents writer.old) (W.contents writer.new)
        (behind_pair_text (codes "first") (value_written (operation op.now)))) }
    ensures error { IfErr result (λ e. e ≡ EdnError.Write) }
{
    put(b", :first ", writer)?;
    write_operation(op, writer)
}

/// The line where this is the first completion that comes from none.
fn write_first<W: Write>(op: &Op, writer: &mut W) -> Result<(), EdnError>
    ensures bytes { OnOk result (Appends (W.contents writer.old) (W.contents writer.new)
        (print (map_with_verdict False (first_pairs (operation op.now))))) }
    ensures error { IfErr result (λ e. e ≡ EdnError.Write) }
{
    write_verdict(Verdict::False, writer)?;
    write_completion(op, writer)?;
    put(b"}", writer)
}

/// Writes the one line of a queue's result, without a line feed: `{:valid? true, :dequeued N}`, or
/// `{:valid? false, :first {..}}` with the operation as the history has it.
///
/// Takes no memory. The writer may have taken a part of the line where it failed.
///
/// Errors: `Write` where the writer failed, and no other.
pub fn write_queue<W: Write>(judged: &QueueResult, writer: &mut W) -> Result<(), EdnError>
    ensures bytes { OnOk result
        (Appends (W.contents writer.old) (W.contents writer.new) (print (queue_value judged.now))) }
    ensures error { IfErr result (λ e. e ≡ EdnError.Write) }
{
    match judged {
        QueueResult::Dequeued(count) => write_dequeued(*count, writer),
        QueueResult::First { completion, .. } => write_first(completion, writer),
    }
}
