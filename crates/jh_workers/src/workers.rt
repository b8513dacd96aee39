//! What the threads of a run do: client threads make calls, one more thread applies the schedule.
//! Each call and each step stands between two records.

ghost use Rattle.std.specs.Prelude.{◌≡◌, ℕ, ◌+◌, ◌*◌, ◌<◌, ◌≤◌, ◌^◌, if◌then◌else◌, min, OnOk};
ghost use Rattle.std.specs.Prelude.{IfOk};
ghost use Rattle.jh_nemesis.specs.declared.steps.StepAnswer.{StepAnswer};
ghost use Rattle.jh_ops.specs.Operation.{operation};
ghost use Rattle.jh_simnode.specs.declared.replicas.Reply.{Reply};
ghost use Rattle.jh_simnode.specs.Histories as rule;
ghost use Rattle.jh_simnode.specs.Running as running;
ghost use Rattle.jh_simnode.specs.Runs.{ticks_at};
ghost use Rattle.jh_slots.specs.Sizes.{max_claimed, row_words};
ghost use Rattle.jh_workers.specs.RecordsInside as records;
ghost use Rattle.jh_workers.specs.RecordsInside.{HoldsWords, Publishes, PublishesBoth};
ghost use Rattle.jh_ops.specs.declared.operation.Op.{Op};

use crate::log_seat::{LogSeat, OfLog};
use crate::monitor::{Assignment, Monitor, RunError};
use crate::ports::{Count, Port};
use crate::records::MAX_WORDS;
use jh_env::Node;
use jh_gen::Ended;
use jh_nemesis::StepAnswer;
use jh_ops::{Op, Request};
use jh_simnode::{
    Entry, Got, Plan, Reply, completion, entry_completion, entry_invocation, invocation, node_of,
    reply_ending, ticks_at,
};
use jh_slots::{Claim, ROW_WORDS, Slots};
use rand_core::utils::NextWord;
use rand_pcg::Lcg128Xsl64;
use std::alloc::{AllocError, Global};
use std::marker::PhantomData;
use std::sync::Wait;

/// The stream of the random numbers of thread 0. The next thread has the next one, and so on; a
/// serial run has stream 0.
const FIRST_THREAD_STREAM: u128 = 1;

/// How many words a record has before its integers.
const HEADING_WORDS: usize = 3;

/// How many integers the longest record has: those for which a claim has room.
const MAX_INTEGERS: usize = MAX_WORDS - HEADING_WORDS;

/// What all threads of a run share beside their monitor.
#[derive(Drop)]
pub(crate) struct Shared<'a, B: OfLog, P: Port> {
    pub(crate) port: &'a P,
    pub(crate) slots: &'a Slots,
    pub(crate) plan: &'a Plan,
    pub(crate) alloc: Global,
    pub(crate) of: PhantomData<B>,
    pub(crate) ghost own: { slots.now.table ≡ B.table },
}

/// What one thread works with, and gives back when it has ended.
#[derive(Drop)]
pub(crate) struct Worker<B: OfLog, S> {
    pub(crate) log_seat: LogSeat<B>,
    pub(crate) share: S,
}

/// How many integers the completion of a request has at most.
fn integers_written(request: Request, reply: &Reply) -> usize
    ensures { result ≡ records.integers_written request reply.now }
{
    match (request, reply) {
        (_, Reply::Ok(Got::Many(numbers))) => numbers.as_slice().len(),
        (Request::Cas(_, _), _) => 2,
        _ => 1,
    }
}

/// How many rows the completion of a request takes. For a record that is longer than a claim, as many
/// rows as a claim may have are claimed, and it is refused when it is written.
fn rows_written(request: Request, reply: &Reply) -> u32
    ensures within { (1 ≤ result) × (result ≤ max_claimed) }
    ensures enough { min (3 + records.integers_written request reply.now) (max_claimed * row_words)
        ≤ row_words * result }
    ensures least { row_words * result
        < min (3 + records.integers_written request reply.now) (max_claimed * row_words) + row_words }
{
    let words = HEADING_WORDS + integers_written(request, reply).min(MAX_INTEGERS);
    words.div_ceil(ROW_WORDS) as u32
}

/// Publishes the operation that was made for claimed rows. Where memory did not suffice to make it,
/// the rows are voided.
fn publish<B: OfLog, P: Port>(
    shared: &Shared<'_, B, P>,
    log_seat: &mut LogSeat<B>,
    claim: Claim,
    rows: u32,
    made: Result<Op, AllocError>,
) -> Result<(), RunError>
    requires holds { HoldsWords log_seat.old.seat.knows claim.first claim.rows × (claim.rows ≡ rows) }
    requires rows { rows ≤ max_claimed }
    ensures { OnOk result ((op : Op) × (made ≡ Ok op)
        × Publishes log_seat.old.seat.knows.seen (operation op) log_seat.new.seat.knows.seen) }
{
    let Ok(op) = made else {
        log_seat.void(shared.slots, claim);
        return Err(RunError::OutOfMemory);
    };
    let Ok(()) = log_seat.publish(shared.slots, claim, rows, &op) else {
        return Err(RunError::Mismatch);
    };
    Ok(())
}

/// Records the invocation of a client's process.
fn record_invocation<B: OfLog, P: Port>(
    shared: &Shared<'_, B, P>,
    log_seat: &mut LogSeat<B>,
    process: u64,
    request: Request,
) -> Result<(), RunError>
    ensures { OnOk result
        (Publishes log_seat.old.seat.knows.seen
        (rule.invocation process request) log_seat.new.seat.knows.seen) }
{
    let claim = log_seat.claim(shared.slots, 1)?;
    let made = invocation(shared.alloc, process, request);
    publish(shared, log_seat, claim, 1, made)
}

/// Records the completion of a call, in as many rows as it takes.
fn record_completion<B: OfLog, P: Port>(
    shared: &Shared<'_, B, P>,
    log_seat: &mut LogSeat<B>,
    event_number: u64,
    process: u64,
    request: Request,
    reply: &Reply,
) -> Result<(), RunError>
    requires { event_number < 2 ^ 63 }
    ensures { OnOk result (Publishes log_seat.old.seat.knows.seen
        (rule.completion event_number process request reply.now) log_seat.new.seat.knows.seen) }
{
    let rows = rows_written(request, reply);
    let claim = log_seat.claim(shared.slots, rows)?;
    let made = completion(shared.alloc, event_number, process, request, reply);
    publish(shared, log_seat, claim, rows, made)
}

/// Records that an entry of the schedule begins.
fn record_begin<B: OfLog, P: Port>(
    shared: &Shared<'_, B, P>,
    log_seat: &mut LogSeat<B>,
    entry_place: u64,
) -> Result<(), RunError>
    requires { entry_place < 2 ^ 63 }
    ensures { OnOk result
        (Publishes log_seat.old.seat.knows.seen (rule.entry_invocation entry_place)
        log_seat.new.seat.knows.seen) }
{
    let claim = log_seat.claim(shared.slots, 1)?;
    let made = entry_invocation(shared.alloc, entry_place);
    publish(shared, log_seat, claim, 1, made)
}

/// Records that an entry of the schedule has ended.
fn record_end<B: OfLog, P: Port>(
    shared: &Shared<'_, B, P>,
    log_seat: &mut LogSeat<B>,
    event_number: u64,
    entry_place: u64,
    answer: StepAnswer,
) -> Result<(), RunError>
    requires event { event_number < 2 ^ 63 }
    requires entry { entry_place < 2 ^ 63 }
    ensures { OnOk result (Publishes log_seat.old.seat.knows.seen
        (rule.entry_completion event_number entry_place answer) log_seat.new.seat.knows.seen) }
{
    let claim = log_seat.claim(shared.slots, 1)?;
    let made = entry_completion(shared.alloc, event_number, entry_place, answer);
    publish(shared, log_seat, claim, 1, made)
}

/// A call that a client thread makes.
#[derive(Clone, Copy)]
struct ClientCall {
    process: u64,
    node: Node,
    request: Request,
    draw: u64,
}

/// Makes a client's call, between its two records, and says how it ended.
fn serve<B: OfLog, P: Port, R: Wait>(
    rt: &R,
    shared: &Shared<'_, B, P>,
    monitor: &Monitor,
    worker: &mut Worker<B, P::Share>,
    asked: ClientCall,
) -> Result<Ended, RunError>
    ensures called { OnOk result (P.Share.total worker.new.share ≡ P.Share.total worker.old.share + 1) }
    ensures recorded { IfOk result
        (λ ended. (reply : Reply) × (number : ℕ) × (ended ≡ running.reply_ending reply)
        × PublishesBoth worker.old.log_seat.seat.knows.seen (rule.invocation asked.process asked.request)
        (rule.completion number asked.process asked.request reply) worker.new.log_seat.seat.knows.seen) }
{
    let ClientCall {
        process,
        node,
        request,
        draw,
    } = asked;
    record_invocation(shared, &mut worker.log_seat, process, request)?;
    let (number, reply) = shared
        .port
        .call(rt, &mut worker.share, process, node, request, draw)?;
    monitor.count_answer(rt);
    record_completion(
        shared,
        &mut worker.log_seat,
        number,
        process,
        request,
        &reply,
    )?;
    Ok(reply_ending(&reply))
}

/// Applies an entry of the schedule: takes its step, between its two records.
fn apply_entry<B: OfLog, P: Port, R: Wait>(
    rt: &R,
    shared: &Shared<'_, B, P>,
    worker: &mut Worker<B, P::Share>,
    entry_place: u64,
    entry: &Entry,
) -> Result<(), RunError>
    requires { entry_place < 2 ^ 63 }
    ensures called { OnOk result (P.Share.total worker.new.share ≡ P.Share.total worker.old.share + 1) }
    ensures recorded { OnOk result ((answer : StepAnswer) × (event : ℕ)
        × PublishesBoth worker.old.log_seat.seat.knows.seen (rule.entry_invocation entry_place)
        (rule.entry_completion event entry_place answer) worker.new.log_seat.seat.knows.seen) }
{
    let step = entry.step.copy(shared.alloc)?;
    record_begin(shared, &mut worker.log_seat, entry_place)?;
    let (event, answer) = shared.port.step(rt, &mut worker.share, step)?;
    record_end(shared, &mut worker.log_seat, event, entry_place, answer)?;
    Ok(())
}

/// Makes a tick where the plan has one after so many calls of a thread.
fn tick_if_due<B: OfLog, P: Port, R: Wait>(
    rt: &R,
    shared: &Shared<'_, B, P>,
    worker: &mut Worker<B, P::Share>,
    calls: u32,
) -> Result<(), RunError>
    ensures ticked { OnOk result (P.Share.total worker.new.share
        ≡ P.Share.total worker.old.share + (if ticks_at shared.now.plan.now calls then 1 else 0)) }
{
    if ticks_at(shared.plan, calls) {
        shared.port.tick(rt, &mut worker.share)?;
    }
    Ok(())
}

/// Works as a client thread until there is nothing more for any thread, or the run is stopped.
fn work_as_client<B: OfLog, P: Port, R: Wait>(
    rt: &R,
    shared: &Shared<'_, B, P>,
    monitor: &Monitor,
    thread: u32,
    worker: &mut Worker<B, P::Share>,
) -> Result<(), RunError> {
    let stream = u128::from(thread) + FIRST_THREAD_STREAM;
    let mut numbers = Lcg128Xsl64::new(u128::from(shared.plan.seed()), stream);
    let mut calls: u32 = 0;
    monitor.enter(rt);
    for _ in rt.forever() {
        match monitor.next_assignment(rt, thread, &mut numbers) {
            // `next_assignment` never gives `Waits`.
            Assignment::Ends | Assignment::Waits => return Ok(()),
            Assignment::Calls(process, request) => {
                let asked = ClientCall {
                    process,
                    node: node_of(shared.plan, thread),
                    request,
                    draw: numbers.next_word(),
                };
                let ended = serve(rt, shared, monitor, worker, asked)?;
                monitor.complete(rt, thread, ended);
                calls = calls.saturating_add(1);
                tick_if_due(rt, shared, worker, calls)?;
            }
        }
    }
    Ok(())
}

/// Works as the thread of the schedule: applies its entries in order, each once it is due, until the
/// run is stopped.
fn work_on_schedule<B: OfLog, P: Port, R: Wait>(
    rt: &R,
    shared: &Shared<'_, B, P>,
    monitor: &Monitor,
    worker: &mut Worker<B, P::Share>,
) -> Result<(), RunError> {
    for (place, entry) in shared.plan.schedule().entries().iter().enumerate() {
        if !monitor.wait_until_due(rt, entry.at) {
            break;
        }
        apply_entry(rt, shared, worker, place as u64, entry)?;
    }
    monitor.end_schedule(rt);
    Ok(())
}

/// What the thread of this number does until it ends. The threads below the number of clients are
/// clients, and the one after them applies the schedule.
pub(crate) fn work<B: OfLog, P: Port, R: Wait>(
    rt: &R,
    shared: &Shared<'_, B, P>,
    monitor: &Monitor,
    thread: u32,
    mut worker: Worker<B, P::Share>,
) -> Worker<B, P::Share> {
    let done = if thread < shared.plan.clients() {
        work_as_client(rt, shared, monitor, thread, &mut worker)
    } else {
        work_on_schedule(rt, shared, monitor, &mut worker)
    };
    if let Err(error) = done {
        monitor.stop(rt, error);
    }
    worker
}
