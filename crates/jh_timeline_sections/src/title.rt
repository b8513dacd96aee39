//! The title of a page. `specs/Titles.antt` has the rule.

ghost use Rattle.std.specs.Prelude.{◌≡◌, ◌++◌, IfOk, Some, codes, length, option_map, string_bytes};
ghost use Rattle.std.specs.List.{count_by};
ghost use Rattle.std.specs.Option.{option_copied};
ghost use Rattle.jh_independent.specs.Lines as independent;
ghost use Rattle.jh_check.specs.declared.verdict.Verdict.{Verdict};
ghost use Rattle.jh_linear.specs.declared.verdict.LinVerdict.TheVariants.{Invalid};
ghost use Rattle.jh_ops.specs.Operation.{operation};
ghost use Rattle.jh_timeline_sections.specs.KeySections as sections;
ghost use Rattle.jh_timeline_sections.specs.Titles as rule;

use crate::key_sections::rank_of_verdict;
use jh_bands::answered_text;
use jh_check::{SetFound, Verdict};
use jh_checkers::{Explanation, Finding};
use jh_fifo::{FifoReason, FifoVerdict};
use jh_independent::KeyFinding;
use jh_linear::{LinVerdict, Stuck};
use jh_ops::{Op, Process};
use jh_queue::QueueResult;
use jh_set_full::SetFullResult;
use jh_txn_findings::TxnFinding;
use std::alloc::{AllocError, Global};

/// What is said where a judge used up its budget.
const GAVE_UP: &[u8] = b": the judge gave up";

/// The word that a title begins with.
fn verdict_word(verdict: Verdict) -> &'static [u8]
    ensures { result.now ≡ rule.verdict_word verdict }
{
    match verdict {
        Verdict::True => b"Valid",
        Verdict::Unknown => b"Unknown",
        Verdict::False => b"Not valid",
    }
}

/// So many, and behind the number what is said of one, or of more.
fn counted(alloc: Global, number: usize, one: &str, more: &str) -> Result<String, AllocError>
    ensures { IfOk result
        (λ text. string_bytes text ≡ rule.counted_text number one.now more.now) }
{
    if number == 1 {
        format!(in alloc; "{number}{one}")
    } else {
        format!(in alloc; "{number}{more}")
    }
}

/// How many elements are lost, and how many unexpected.
fn wrong_elements(alloc: Global, lost: usize, unexpected: usize) -> Result<Vec<u8>, AllocError>
    ensures { IfOk result (λ text. text.items ≡ rule.wrong_elements_text lost unexpected) }
{
    let lost = counted(alloc, lost, " element is lost", " elements are lost")?;
    let unexpected = counted(alloc, unexpected, " is unexpected", " are unexpected")?;
    Ok(format!(in alloc; ": {lost}, {unexpected}")?.into_bytes())
}

/// What is said of a set.
fn set_reason(
    alloc: Global,
    verdict: Verdict,
    found: Option<&SetFound>,
) -> Result<Vec<u8>, AllocError>
    ensures { IfOk result
        (λ text. text.items ≡ rule.set_reason verdict (option_copied found.entry)) }
{
    match (verdict, found) {
        (Verdict::False, Some(found)) => {
            wrong_elements(alloc, found.lost.len(), found.unexpected.len())
        }
        (Verdict::Unknown, _) => Vec::from_slice(alloc, b": the set was never read"),
        _ => Ok(Vec::new(alloc)),
    }
}

/// What is said of a counter with so many wrong reads.
fn counter_reason(alloc: Global, verdict: Verdict, errors: usize) -> Result<Vec<u8>, AllocError>
    ensures { IfOk result (λ text. text.items ≡ rule.counter_reason verdict errors) }
{
    match verdict {
        Verdict::False => {
            let errors = counted(
                alloc,
                errors,
                " read is outside its bounds",
                " reads are outside their bounds",
            )?;
            Ok(format!(in alloc; ": {errors}")?.into_bytes())
        }
        _ => Ok(Vec::new(alloc)),
    }
}

/// What is said of ids, of which so many were given more than once.
fn ids_reason(alloc: Global, verdict: Verdict, duplicated: usize) -> Result<Vec<u8>, AllocError>
    ensures { IfOk result (λ text. text.items ≡ rule.ids_reason verdict duplicated) }
{
    match verdict {
        Verdict::False => {
            let duplicated = counted(
                alloc,
                duplicated,
                " id was given more than once",
                " ids were given more than once",
            )?;
            Ok(format!(in alloc; ": {duplicated}")?.into_bytes())
        }
        _ => Ok(Vec::new(alloc)),
    }
}

/// The process of a completion.
fn process_text(alloc: Global, process: Process) -> Result<String, AllocError>
    ensures { IfOk result (λ text. string_bytes text ≡ rule.process_text process) }
{
    match process {
        Process::Client(client) => format!(in alloc; "process {client}"),
        Process::Nemesis => format!(in alloc; "the nemesis"),
    }
}

/// Where a history is stuck.
fn stuck_text(alloc: Global, end: usize, completion: &Op) -> Result<Vec<u8>, AllocError>
    ensures { IfOk result
        (λ text. text.items ≡ rule.stuck_text end (operation completion.now)) }
{
    let process = process_text(alloc, completion.process)?;
    let said = answered_text(alloc, &completion.f, &completion.value)?;
    let mut text = format!(in alloc; ", stuck at record {end} ({process}: ")?.into_bytes();
    text.extend_from_slice(&said)?;
    text.push(b')')?;
    Ok(text)
}

/// Where a history is stuck, if that was explained.
fn explained_text(
    alloc: Global,
    end: usize,
    explanation: Option<&Explanation>,
) -> Result<Vec<u8>, AllocError>
    ensures { IfOk result
        (λ text. text.items ≡ rule.explained_text end (option_copied explanation.entry)) }
{
    match explanation {
        Some(explanation) => stuck_text(alloc, end, &explanation.completion),
        None => Ok(Vec::new(alloc)),
    }
}

/// That operations of a register or a mutex have no order, and where it ends, if that was explained.
fn no_order(
    alloc: Global,
    stuck: &Stuck,
    explanation: Option<&Explanation>,
) -> Result<Vec<u8>, AllocError>
    ensures { IfOk result (λ text. text.items
        ≡ rule.register_reason (Invalid stuck.now) (option_copied explanation.entry)) }
{
    let mut text = Vec::from_slice(alloc, b": no order of all operations")?;
    text.extend_from_slice(&explained_text(alloc, stuck.end, explanation)?)?;
    Ok(text)
}

/// How many operations have an order.
fn ordered(alloc: Global, operations: usize) -> Result<Vec<u8>, AllocError>
    ensures { IfOk result (λ text. text.items ≡ rule.ordered_text operations) }
{
    let counted = counted(
        alloc,
        operations,
        " operation has an order",
        " operations have an order",
    )?;
    Ok(format!(in alloc; ": {counted}")?.into_bytes())
}

/// What is said of a register or a mutex.
fn register_reason(
    alloc: Global,
    judged: &LinVerdict,
    explanation: Option<&Explanation>,
) -> Result<Vec<u8>, AllocError>
    ensures { IfOk result (λ text. text.items
        ≡ rule.register_reason judged.now (option_copied explanation.entry)) }
{
    match judged {
        LinVerdict::Valid(order) => ordered(alloc, order.as_slice().len()),
        LinVerdict::Invalid(stuck) => no_order(alloc, stuck, explanation),
        LinVerdict::Unknown(_) => Vec::from_slice(alloc, GAVE_UP),
    }
}

/// What is said of transactions.
fn transactions_reason(alloc: Global, found: &TxnFinding) -> Result<Vec<u8>, AllocError>
    ensures { IfOk result (λ text. text.items ≡ rule.transactions_reason found.now) }
{
    match found {
        TxnFinding::Valid { .. } => Ok(Vec::new(alloc)),
        TxnFinding::BadRead { place, .. } => bad_read_text(alloc, *place),
        TxnFinding::Cycle { steps, .. } => cycle_text(alloc, steps.len()),
        TxnFinding::Unknown => Vec::from_slice(alloc, GAVE_UP),
    }
}

/// That the transaction at a place has a bad read.
fn bad_read_text(alloc: Global, place: usize) -> Result<Vec<u8>, AllocError>
    ensures { IfOk result (λ text. text.items ≡ rule.bad_read_text place) }
{
    Ok(format!(in alloc; ": transaction {place} has a bad read")?.into_bytes())
}

/// How many steps a cycle has.
fn cycle_text(alloc: Global, steps: usize) -> Result<Vec<u8>, AllocError>
    ensures { IfOk result (λ text. text.items ≡ rule.cycle_text steps) }
{
    let counted = counted(alloc, steps, " step", " steps")?;
    Ok(format!(in alloc; ": a cycle of {counted}")?.into_bytes())
}

/// What is said of a queue, of which so many elements are lost and unexpected.
fn total_queue_reason(
    alloc: Global,
    verdict: Verdict,
    lost: usize,
    unexpected: usize,
) -> Result<Vec<u8>, AllocError>
    ensures { IfOk result
        (λ text. text.items ≡ rule.total_queue_reason verdict lost unexpected) }
{
    match verdict {
        Verdict::False => wrong_elements(alloc, lost, unexpected),
        _ => Ok(Vec::new(alloc)),
    }
}

/// What is said of a queue by its first dequeue that comes from no enqueue.
fn queue_reason(alloc: Global, found: &QueueResult) -> Result<Vec<u8>, AllocError>
    ensures { IfOk result (λ text. text.items ≡ rule.queue_reason found.now) }
{
    match found {
        QueueResult::Dequeued(_) => Ok(Vec::new(alloc)),
        QueueResult::First { place, .. } => {
            let text = format!(in alloc; ": the dequeue at index {place} comes from no enqueue")?;
            Ok(text.into_bytes())
        }
    }
}

/// What excludes every order of a first-in-first-out queue.
fn order_excluded(reason: FifoReason) -> &'static [u8]
    ensures { result.now ≡ rule.order_excluded_text reason }
{
    match reason {
        FifoReason::EndedBeforeInvoked(_) => b": an operation ended before it was invoked",
        FifoReason::NeverEnqueued(_) => b": a value is dequeued that was never enqueued",
        FifoReason::DequeuedTwice(..) => b": a value is dequeued twice",
        FifoReason::DequeuedBeforeEnqueued(..) => b": a value is dequeued before it is enqueued",
        FifoReason::OutOfOrder(..) => b": of two values each has to come before the other",
        FifoReason::NeverEmpty(_) => b": a dequeue found the queue empty, which it never was",
    }
}

/// What is said of a first-in-first-out queue.
fn fifo_reason(alloc: Global, verdict: &FifoVerdict) -> Result<Vec<u8>, AllocError>
    ensures { IfOk result (λ text. text.items ≡ rule.fifo_reason verdict.now) }
{
    match verdict {
        FifoVerdict::Valid(order) => ordered(alloc, order.len()),
        FifoVerdict::Invalid(reason) => Vec::from_slice(alloc, order_excluded(*reason)),
        FifoVerdict::EnqueuedTwice(..) => Vec::from_slice(alloc, b": a value is enqueued twice"),
        FifoVerdict::UnknownDequeue(_) => {
            Vec::from_slice(alloc, b": it is not known what a dequeue did")
        }
    }
}

/// What is said of a bank with so many wrong reads.
fn bank_reason(alloc: Global, verdict: Verdict, wrong: usize) -> Result<Vec<u8>, AllocError>
    ensures { IfOk result (λ text. text.items ≡ rule.bank_reason verdict wrong) }
{
    match verdict {
        Verdict::False => {
            let wrong = counted(
                alloc,
                wrong,
                " read has wrong balances",
                " reads have wrong balances",
            )?;
            Ok(format!(in alloc; ": {wrong}")?.into_bytes())
        }
        _ => Ok(Vec::new(alloc)),
    }
}

/// How many elements are lost, were stale, and are shown twice.
fn timed_elements(
    alloc: Global,
    lost: usize,
    stale: usize,
    duplicated: usize,
) -> Result<Vec<u8>, AllocError>
    ensures { IfOk result
        (λ text. text.items ≡ rule.timed_elements_text lost stale duplicated) }
{
    let lost = counted(alloc, lost, " element is lost", " elements are lost")?;
    let stale = counted(alloc, stale, " was stale", " were stale")?;
    let duplicated = counted(alloc, duplicated, " is shown twice", " are shown twice")?;
    Ok(format!(in alloc; ": {lost}, {stale}, {duplicated}")?.into_bytes())
}

/// What is said of a set over time.
fn set_full_reason(alloc: Global, found: &SetFullResult) -> Result<Vec<u8>, AllocError>
    ensures { IfOk result (λ text. text.items ≡ rule.set_full_reason found.now.verdict
        (length found.now.lost) (length found.now.stale) (length found.now.duplicated)) }
{
    match found.verdict {
        Verdict::False => timed_elements(
            alloc,
            found.lost.len(),
            found.stale.as_slice().len(),
            found.duplicated.as_slice().len(),
        ),
        Verdict::Unknown => Vec::from_slice(alloc, b": no element is stable"),
        Verdict::True => Ok(Vec::new(alloc)),
    }
}

/// What is said behind the verdict.
fn reason(alloc: Global, found: &Finding) -> Result<Vec<u8>, AllocError>
    ensures { IfOk result (λ text. text.items ≡ rule.reason found.now) }
{
    match found {
        Finding::Set(set) => set_reason(alloc, set.verdict, set.found.as_ref()),
        Finding::Counter(counter) => {
            counter_reason(alloc, counter.verdict, counter.errors.as_slice().len())
        }
        Finding::Ids(ids) => ids_reason(alloc, ids.verdict, ids.duplicated.as_slice().len()),
        Finding::Register {
            judged,
            explanation,
        } => register_reason(alloc, judged, explanation.as_ref()),
        Finding::ListAppend(transactions) => transactions_reason(alloc, transactions),
        Finding::TotalQueue(queue) => total_queue_reason(
            alloc,
            queue.verdict,
            queue.lost.as_slice().len(),
            queue.unexpected.as_slice().len(),
        ),
        Finding::Queue(queue) => queue_reason(alloc, queue),
        Finding::Bank(bank) => bank_reason(alloc, bank.verdict, bank.wrong.len()),
        Finding::SetFull(set) => set_full_reason(alloc, set),
        Finding::Mutex {
            judged,
            explanation,
        } => register_reason(alloc, judged, explanation.as_ref()),
        Finding::FifoQueue(queue) => fifo_reason(alloc, &queue.verdict),
    }
}

/// A verdict, with what is said behind it.
fn joined(alloc: Global, verdict: Verdict, said: &[u8]) -> Result<Vec<u8>, AllocError>
    ensures { IfOk result (λ text. text.items ≡ rule.verdict_word verdict ++ said.now) }
{
    let mut text = Vec::from_slice(alloc, verdict_word(verdict))?;
    text.extend_from_slice(said)?;
    Ok(text)
}

/// The title of a page of one history: the verdict and what was found in one sentence, or, where
/// nothing was judged, that it is a history.
///
/// Errors: out of memory.
pub fn title_of(alloc: Global, found: Option<&Finding>) -> Result<Vec<u8>, AllocError>
    ensures { IfOk result
        (λ title. title.items ≡ rule.history_title (option_copied found.entry)) }
{
    match found {
        Some(found) => joined(alloc, found.verdict(), &reason(alloc, found)?),
        None => Vec::from_slice(alloc, b"A history"),
    }
}

/// Whether the verdict on a key is this one.
fn is_of_verdict(verdict: Verdict, one: &KeyFinding) -> bool
    ensures { result ≡ rule.is_of_verdict verdict one.now }
{
    rank_of_verdict(one.finding.verdict()) == rank_of_verdict(verdict)
}

/// How many keys are of a verdict.
fn count_of(verdict: Verdict, findings: &[KeyFinding]) -> usize
    ensures { result ≡ count_by (rule.is_of_verdict verdict) findings.now }
{
    let mut count = 0;
    for one in findings {
        if is_of_verdict(verdict, one) {
            count += 1;
        }
    }
    count
}

/// So many keys.
fn all_keys(alloc: Global, total: usize) -> Result<Vec<u8>, AllocError>
    ensures { IfOk result (λ text. text.items ≡ codes ": " ++ rule.keys_text total) }
{
    let keys = counted(alloc, total, " key", " keys")?;
    Ok(format!(in alloc; ": {keys}")?.into_bytes())
}

/// So many of so many keys.
fn some_keys(alloc: Global, count: usize, total: usize) -> Result<Vec<u8>, AllocError>
    ensures { IfOk result (λ text. text.items ≡ rule.some_keys_text count total) }
{
    let keys = counted(alloc, total, " key", " keys")?;
    Ok(format!(in alloc; ": {count} of {keys}")?.into_bytes())
}

/// How many keys there are, where all are valid; else how many of them have the verdict of all.
fn keys_reason(
    alloc: Global,
    verdict: Verdict,
    findings: &[KeyFinding],
) -> Result<Vec<u8>, AllocError>
    ensures { IfOk result (λ text. text.items ≡ rule.keys_reason verdict findings.now) }
{
    match verdict {
        Verdict::True => all_keys(alloc, findings.len()),
        _ => some_keys(alloc, count_of(verdict, findings), findings.len()),
    }
}

/// The title of a page of independent keys that were judged: the verdict on them all, and how many
/// have it.
///
/// Errors: out of memory.
pub fn title_of_keys(
    alloc: Global,
    verdict: Verdict,
    findings: &[KeyFinding],
) -> Result<Vec<u8>, AllocError>
    requires { verdict ≡ independent.verdict_of_all findings.now }
    ensures { IfOk result (λ title. title.items ≡ rule.keys_title (Some findings.now)) }
{
    joined(alloc, verdict, &keys_reason(alloc, verdict, findings)?)
}
