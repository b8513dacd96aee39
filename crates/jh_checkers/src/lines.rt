//! The one line of what is found in a history. `specs/Lines.antt` has the rule.

ghost use Rattle.std.specs.Prelude.{◌≡◌, [], ◌∷◌, IfErr, OnOk, codes, Some, None};
ghost use Rattle.std.specs.Io.KnownBytes.{Appends};
ghost use Rattle.jh_edn.specs.Edn.{keyword};
ghost use Rattle.jh_edn.specs.Parts.{behind_pair_text};
ghost use Rattle.jh_edn.specs.Print.{print};
ghost use Rattle.jh_check.specs.Lines.{map_with_verdict};
ghost use Rattle.jh_checkers.specs.Lines as rule;
ghost use Rattle.jh_checkers.specs.Lines.{finding_line, object_value, order_value, others_of};
ghost use Rattle.jh_checkers.specs.Lines.{stuck_pairs, stuck_register_pairs};
ghost use Rattle.jh_checkers.specs.LinesInside as inside;

use crate::explanation::Explanation;
use crate::finding::Finding;
use jh_bank::write_bank;
use jh_check::{Verdict, write_counter, write_ids, write_keyword, write_set, write_verdict};
use jh_edn::{EdnError, put, write_part};
use jh_fifo_check::write_fifo;
use jh_linear::{LinVerdict, Linearization, Object, Stuck};
use jh_ops::write_operation;
use jh_queue::write_queue;
use jh_set_full::write_set_full;
use jh_total_queue::write_total_queue;
use jh_txn_findings::write_txn_finding;
use jh_unique::UniqueReason;
use std::io::Write;

/// Writes what a register holds, behind other pairs.
fn write_held<W: Write>(held: Option<i64>, writer: &mut W) -> Result<(), EdnError>
    ensures bytes { OnOk result (Appends (W.contents writer.old) (W.contents writer.new)
        (behind_pair_text (codes "value") (rule.held_value held))) }
    ensures error { IfErr result (λ e. e ≡ EdnError.Write) }
{
    match held {
        Some(number) => write!(writer, ", :value {number}").map_err(|_| EdnError::Write),
        None => put(b", :value nil", writer),
    }
}

/// Writes the line of an object that has an order.
fn write_valid<W: Write>(order: &Linearization, writer: &mut W) -> Result<(), EdnError>
    ensures bytes { OnOk result (Appends (W.contents writer.old) (W.contents writer.new)
        (print (map_with_verdict Verdict.True
        ((keyword (codes "order"), order_value order.now) ∷ [])))) }
    ensures error { IfErr result (λ e. e ≡ EdnError.Write) }
{
    write_verdict(Verdict::True, writer)?;
    write_part("order", order.as_slice(), writer)?;
    put(b"}", writer)
}

/// Writes the opening of the line of what has no order, up to the order of what is before.
fn write_stuck_opening<W: Write>(
    stuck: &Stuck,
    explanation: &Explanation,
    writer: &mut W,
) -> Result<(), EdnError>
    ensures bytes { OnOk result (Appends (W.contents writer.old) (W.contents writer.new)
        (inside.stuck_opening stuck.now explanation.now)) }
    ensures error { IfErr result (λ e. e ≡ EdnError.Write) }
{
    write_verdict(Verdict::False, writer)?;
    put(b", :stuck ", writer)?;
    write_operation(&explanation.completion, writer)?;
    write_part("order", stuck.order.as_slice(), writer)
}

/// Writes the end of the line of a mutex, from what is pending on.
fn write_stuck_end<W: Write>(explanation: &Explanation, writer: &mut W) -> Result<(), EdnError>
    ensures bytes { OnOk result (Appends (W.contents writer.old) (W.contents writer.new)
        (inside.stuck_end explanation.now)) }
    ensures error { IfErr result (λ e. e ≡ EdnError.Write) }
{
    write_part("pending", explanation.pending.as_slice(), writer)?;
    put(b"}", writer)
}

/// The name of a reason, as the line has it, without its colon.
fn unique_reason_name(reason: UniqueReason) -> &'static str
    ensures { result.now ≡ rule.unique_reason_name reason }
{
    match reason {
        UniqueReason::Nowhere(_) => "no-origin",
        UniqueReason::FromOne(_, _) => "replaced-twice",
        UniqueReason::Behind(_, _) => "out-of-order",
    }
}

/// Writes which operations a reason names, behind other pairs.
fn write_named<W: Write>(reason: UniqueReason, writer: &mut W) -> Result<(), EdnError>
    ensures bytes { OnOk result (Appends (W.contents writer.old) (W.contents writer.new)
        (behind_pair_text (codes "named") (order_value (rule.named_by_unique_reason reason)))) }
    ensures error { IfErr result (λ e. e ≡ EdnError.Write) }
{
    match reason {
        UniqueReason::Nowhere(number) => write_part("named", &[number], writer),
        UniqueReason::FromOne(first, second) => write_part("named", &[first, second], writer),
        UniqueReason::Behind(first, second) => write_part("named", &[first, second], writer),
    }
}

/// Writes the opening of the line of a register that has no order, up to what is pending.
fn write_stuck_register_opening<W: Write>(
    stuck: &Stuck,
    explanation: &Explanation,
    writer: &mut W,
) -> Result<(), EdnError>
    ensures bytes { OnOk result (Appends (W.contents writer.old) (W.contents writer.new)
        (inside.stuck_register_opening stuck.now explanation.now)) }
    ensures error { IfErr result (λ e. e ≡ EdnError.Write) }
{
    write_stuck_opening(stuck, explanation, writer)?;
    write_held(stuck.value, writer)?;
    write_part("pending", explanation.pending.as_slice(), writer)
}

/// Writes the line of a register that has no order, with its explanation but no reason.
fn write_without_reason<W: Write>(
    stuck: &Stuck,
    explanation: &Explanation,
    writer: &mut W,
) -> Result<(), EdnError>
    ensures bytes { OnOk result (Appends (W.contents writer.old) (W.contents writer.new)
        (print (map_with_verdict Verdict.False
        (stuck_register_pairs stuck.now explanation.now None)))) }
    ensures error { IfErr result (λ e. e ≡ EdnError.Write) }
{
    write_stuck_register_opening(stuck, explanation, writer)?;
    put(b"}", writer)
}

/// Writes the line of a register that has no order, with its explanation and the reason.
fn write_with_reason<W: Write>(
    stuck: &Stuck,
    explanation: &Explanation,
    reason: UniqueReason,
    writer: &mut W,
) -> Result<(), EdnError>
    ensures bytes { OnOk result (Appends (W.contents writer.old) (W.contents writer.new)
        (print (map_with_verdict Verdict.False
        (stuck_register_pairs stuck.now explanation.now (Some reason))))) }
    ensures error { IfErr result (λ e. e ≡ EdnError.Write) }
{
    write_stuck_register_opening(stuck, explanation, writer)?;
    write_keyword("because", unique_reason_name(reason), writer)?;
    write_named(reason, writer)?;
    put(b"}", writer)
}

/// Writes the line of a register that has no order, with its explanation.
fn write_stuck_register<W: Write>(
    stuck: &Stuck,
    explanation: &Explanation,
    writer: &mut W,
) -> Result<(), EdnError>
    ensures bytes { OnOk result (Appends (W.contents writer.old) (W.contents writer.new)
        (print (map_with_verdict Verdict.False
        (stuck_pairs Object.Register stuck.now explanation.now)))) }
    ensures error { IfErr result (λ e. e ≡ EdnError.Write) }
{
    match explanation.because {
        Some(reason) => write_with_reason(stuck, explanation, reason, writer),
        None => write_without_reason(stuck, explanation, writer),
    }
}

/// Writes the line of a mutex that has no order, with its explanation.
fn write_stuck_mutex<W: Write>(
    stuck: &Stuck,
    explanation: &Explanation,
    writer: &mut W,
) -> Result<(), EdnError>
    ensures bytes { OnOk result (Appends (W.contents writer.old) (W.contents writer.new)
        (print (map_with_verdict Verdict.False
        (stuck_pairs Object.Mutex stuck.now explanation.now)))) }
    ensures error { IfErr result (λ e. e ≡ EdnError.Write) }
{
    write_stuck_opening(stuck, explanation, writer)?;
    write_stuck_end(explanation, writer)
}

/// Writes the line of an object that has no order, with its explanation.
fn write_stuck<W: Write>(
    object: Object,
    stuck: &Stuck,
    explanation: &Explanation,
    writer: &mut W,
) -> Result<(), EdnError>
    ensures bytes { OnOk result (Appends (W.contents writer.old) (W.contents writer.new)
        (print (map_with_verdict Verdict.False (stuck_pairs object stuck.now explanation.now)))) }
    ensures error { IfErr result (λ e. e ≡ EdnError.Write) }
{
    match object {
        Object::Register => write_stuck_register(stuck, explanation, writer),
        Object::Mutex => write_stuck_mutex(stuck, explanation, writer),
    }
}

/// Writes a verdict alone.
fn write_alone<W: Write>(verdict: Verdict, writer: &mut W) -> Result<(), EdnError>
    ensures bytes { OnOk result
        (Appends (W.contents writer.old) (W.contents writer.new)
        (print (map_with_verdict verdict []))) }
    ensures error { IfErr result (λ e. e ≡ EdnError.Write) }
{
    write_verdict(verdict, writer)?;
    put(b"}", writer)
}

/// Writes the line of an object that has no order.
fn write_invalid<W: Write>(
    object: Object,
    stuck: &Stuck,
    explanation: &Option<Explanation>,
    writer: &mut W,
) -> Result<(), EdnError>
    ensures bytes { OnOk result (Appends (W.contents writer.old) (W.contents writer.new)
        (print (map_with_verdict Verdict.False
        (others_of object (LinVerdict.Invalid stuck.now) explanation.now)))) }
    ensures error { IfErr result (λ e. e ≡ EdnError.Write) }
{
    match explanation {
        Some(explanation) => write_stuck(object, stuck, explanation, writer),
        None => write_alone(Verdict::False, writer),
    }
}

/// Writes the line of a register or a mutex.
fn write_object<W: Write>(
    object: Object,
    judged: &LinVerdict,
    explanation: &Option<Explanation>,
    writer: &mut W,
) -> Result<(), EdnError>
    ensures bytes { OnOk result (Appends (W.contents writer.old) (W.contents writer.new)
        (print (object_value object judged.now explanation.now))) }
    ensures error { IfErr result (λ e. e ≡ EdnError.Write) }
{
    match judged {
        LinVerdict::Valid(order) => write_valid(order, writer),
        LinVerdict::Invalid(stuck) => write_invalid(object, stuck, explanation, writer),
        LinVerdict::Unknown(_) => write_alone(Verdict::Unknown, writer),
    }
}

/// Writes the one line of a finding, without a line feed. That of a set, a counter and unique ids
/// is `jh_check`'s, that of a queue, a bank and a set over time of the crate of its name, that of
/// transactions `jh_txn_findings`'s, that of a first-in-first-out queue `jh_fifo_check`'s; that of a
/// register is
/// `{:valid? true, :order [..]}`, `{:valid? :unknown}` or `{:valid? false}`, which goes on where it
/// is explained:
/// `{:valid? false, :stuck {..}, :order [..], :value V, :pending [..]}`, with the completion at
/// which it is stuck, an order of what is before it, the value that this leads to, and what is
/// pending there. Where each value is written once, `, :because K, :named [..]` stands behind that:
/// `:no-origin`, `:replaced-twice` or `:out-of-order`, with the operations that show it
/// (`UniqueReason` says how). That of a mutex is the same without `:value` and a reason. Orders, what is
/// pending and what is named are the numbers of operations: their places among the pairs, and not in
/// the history.
///
/// Takes no memory. The writer may have taken a part of the line where it failed.
///
/// Errors: `Write` where the writer failed, and no other.
pub fn write_finding<W: Write>(finding: &Finding, writer: &mut W) -> Result<(), EdnError>
    ensures bytes { OnOk result
        (Appends (W.contents writer.old) (W.contents writer.new) (finding_line finding.now)) }
    ensures error { IfErr result (λ e. e ≡ EdnError.Write) }
{
    match finding {
        Finding::Set(found) => write_set(found, writer),
        Finding::Counter(found) => write_counter(found, writer),
        Finding::Ids(found) => write_ids(found, writer),
        Finding::Register {
            judged,
            explanation,
        } => write_object(Object::Register, judged, explanation, writer),
        Finding::ListAppend(found) => write_txn_finding(found, writer),
        Finding::TotalQueue(found) => write_total_queue(found, writer),
        Finding::Queue(found) => write_queue(found, writer),
        Finding::Bank(found) => write_bank(found, writer),
        Finding::SetFull(found) => write_set_full(found, writer),
        Finding::Mutex {
            judged,
            explanation,
        } => write_object(Object::Mutex, judged, explanation, writer),
        Finding::FifoQueue(found) => write_fifo(found, writer),
    }
}
