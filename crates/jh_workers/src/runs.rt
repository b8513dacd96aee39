//! Runs of a plan over a port. All that an outcome promises is checked once its threads have ended.

ghost use Rattle.std.specs.Prelude.{◌≡◌, All, IfOk, IfSome, length, sum_by};
ghost use Rattle.std.specs.Thread.{IsSend, IsSync};
ghost use Rattle.jh_ops.specs.Operation.{operations};
ghost use Rattle.jh_ops.specs.OperationWritten.{IsWritable};
ghost use Rattle.jh_slots.specs.Seats.{Marks};
ghost use Rattle.jh_audit.specs.Audit.{IsAudited};
ghost use Rattle.jh_audit.specs.Plans.{FollowsPlan};
ghost use Rattle.jh_workers.specs.Gather.{IsGathered};

use crate::log_seat::{LogSeat, OfLog};
use crate::monitor::Monitor;
pub use crate::monitor::RunError;
use crate::ports::{Count, Port};
use crate::records::GatherError;
use crate::workers::{Shared, Worker, work};
use jh_audit::{audit, follows_plan};
use jh_ops::Op;
use jh_simnode::{Event, Plan, driver_of};
use jh_slots::{Seat, Slots};
use std::alloc::Global;
use std::marker::{Brand, PhantomData};
use std::sync::Wait;
use std::thread;
use std::thread::Threads;

/// What a run gave: the history that its threads recorded, the port's journal, and the threads'
/// shares of it.
#[derive(Drop)]
pub struct Outcome<S> {
    pub history: Vec<Op>,
    pub journal: Vec<Event>,
    pub shares: Vec<S>,
}

/// The sum of the counts of all shares, where it fits.
fn sum_of<S: Count>(shares: &Vec<S>) -> Option<u64>
    ensures { IfSome result (λ sum. sum ≡ sum_by S.total shares.now.items) }
{
    let mut sum: u64 = 0;
    for share in shares {
        sum = sum.checked_add(share.count())?;
    }
    Some(sum)
}

/// The outcome of these parts, where they agree and the plan was kept.
fn audited_outcome<S: Count + Drop>(
    plan: &Plan,
    history: Vec<Op>,
    journal: Vec<Event>,
    shares: Vec<S>,
) -> Result<Outcome<S>, RunError>
    ensures same { IfOk result
        (λ o. (o.history ≡ history) × (o.journal ≡ journal) × (o.shares ≡ shares)) }
    ensures audited { IfOk result (λ o. IsAudited o.journal.items (operations o.history.items)) }
    ensures planned { IfOk result
        (λ o. FollowsPlan plan.now o.journal.items (operations o.history.items)) }
    ensures counted { IfOk result (λ o. sum_by S.total o.shares.items ≡ length o.journal.items) }
{
    let Some(sum) = sum_of(&shares) else {
        return Err(RunError::Mismatch);
    };
    if sum != journal.len() as u64 {
        return Err(RunError::Mismatch);
    }
    let Ok(()) = audit(journal.as_slice(), history.as_slice()) else {
        return Err(RunError::Mismatch);
    };
    if !follows_plan(plan, journal.as_slice(), history.as_slice()) {
        return Err(RunError::Mismatch);
    }
    Ok(Outcome {
        history,
        journal,
        shares,
    })
}

/// Makes so many workers, each with a seat and a share of its own, and keeps a seat for the run itself.
fn make_workers<B: OfLog, P: Port, R: Wait>(
    rt: &R,
    alloc: Global,
    port: &P,
    slots: &Slots,
    log_seat: LogSeat<B>,
    count: u32,
) -> Result<(LogSeat<B>, Vec<Worker<B, P::Share>>), RunError>
where
    P::Share: Drop,
    requires { slots.now.table ≡ B.table }
{
    let mut own = log_seat;
    let mut workers = Vec::new(alloc);
    for _ in 0..count {
        let Some((one, other)) = own.split(slots) else {
            return Err(RunError::Thread);
        };
        own = one;
        let Some(share) = port.share(rt) else {
            return Err(RunError::Thread);
        };
        let Ok(()) = workers.push(Worker {
            log_seat: other,
            share,
        }) else {
            return Err(RunError::OutOfMemory);
        };
    }
    Ok((own, workers))
}

/// What several threads share beside a monitor, and what each does with a worker of its own. The monitor
/// is a type parameter, so that it and the rest are each shown by themselves to be safe to share.
trait Work<M, W> {
    /// What the thread of this number does, and what it gives back.
    fn work_at<R: Wait>(&self, rt: &R, monitor: &M, thread: u32, worker: W) -> W;

    /// Lets the work begin, once all threads are there, or ends it with an error where one could
    /// not be had.
    fn begin<R: Wait>(&self, rt: &R, monitor: &M, error: Option<RunError>);
}

impl<B: OfLog, P: Port> Work<Monitor, Worker<B, P::Share>> for Shared<'_, B, P> {
    fn work_at<R: Wait>(
        &self,
        rt: &R,
        monitor: &Monitor,
        thread: u32,
        worker: Worker<B, P::Share>,
    ) -> Worker<B, P::Share> {
        work(rt, self, monitor, thread, worker)
    }

    fn begin<R: Wait>(&self, rt: &R, monitor: &Monitor, error: Option<RunError>) {
        if let Some(error) = error {
            monitor.stop(rt, error);
        }
        monitor.open(rt);
    }
}

/// Runs each worker on a thread of its own, and gives the workers back once all threads have ended.
/// Where a thread could not be had, no more are started, and `Work::begin` is given the error.
///
/// Error: `OutOfMemory` where a worker could not be given back.
fn work_on_threads<S: Work<M, W> + Sync, M: Sync, W: Send + Drop, R: Threads + Wait + Sync>(
    rt: &R,
    alloc: Global,
    shared: &S,
    monitor: &M,
    workers: Vec<W>,
) -> Result<Vec<W>, RunError> {
    let mut back = Vec::new(alloc);
    let mut lost = None;
    thread::scope(
        thread::scope_env(),
        rt,
        |scope|
            requires { IsSync R.row × IsSync S.row × IsSync M.row × IsSend W.row }
        {
            let mut handles = Vec::new(alloc);
            let mut error = None;
            for (place, worker) in workers.into_iter().enumerate() {
                let thread = place.min(u32::MAX as usize) as u32;
                let Ok(handle) = scope.spawn(move || shared.work_at(rt, monitor, thread, worker))
                else {
                    error = Some(RunError::Thread);
                    break;
                };
                if handles.push(handle).is_err() {
                    error = Some(RunError::OutOfMemory);
                    break;
                }
            }
            shared.begin(rt, monitor, error);
            for handle in handles {
                if back.push(handle.join(rt)).is_err() {
                    lost = Some(RunError::OutOfMemory);
                }
            }
        },
    );
    match lost {
        Some(error) => Err(error),
        None => Ok(back),
    }
}

/// Joins the seats of all workers to the run's own: one seat that has seen what any of them saw, and
/// the workers' shares.
fn gather_workers<B: OfLog, S: Drop>(
    alloc: Global,
    slots: &Slots,
    own: LogSeat<B>,
    workers: Vec<Worker<B, S>>,
) -> Result<(LogSeat<B>, Vec<S>), RunError>
    requires { slots.now.table ≡ B.table }
{
    let mut log_seat = own;
    let mut shares = Vec::new(alloc);
    for worker in workers {
        let Worker {
            log_seat: other,
            share,
        } = worker;
        log_seat = log_seat.join(slots, other);
        let Ok(()) = shares.push(share) else {
            return Err(RunError::OutOfMemory);
        };
    }
    Ok((log_seat, shares))
}

/// At how many answered calls the first entry of the schedule is due, if there is one.
fn first_due(plan: &Plan) -> Option<u32> {
    let entry = plan.schedule().entries().first()?;
    Some(entry.at)
}

/// Makes a worker for each client and one for the schedule, and runs them on threads. Gives a seat that
/// has seen what any of theirs saw in the log, and their shares.
fn run_workers<B: OfLog + Send + Sync, P: Port + Sync, R: Threads + Wait + Sync>(
    rt: &R,
    alloc: Global,
    plan: &Plan,
    port: &P,
    slots: &Slots,
    log_seat: LogSeat<B>,
) -> Result<(LogSeat<B>, Vec<P::Share>), RunError>
where
    P::Share: Send + Drop,
    requires { slots.now.table ≡ B.table }
{
    let (own, workers) = make_workers(rt, alloc, port, slots, log_seat, plan.clients() + 1)?;
    let Ok(driver) = driver_of(alloc, plan) else {
        return Err(RunError::OutOfMemory);
    };
    let monitor = Monitor::new(driver, plan.clients(), first_due(plan));
    let shared = Shared::<'_, B, P> {
        port,
        slots,
        plan,
        alloc,
        of: PhantomData,
    };
    let workers = work_on_threads::<Shared<'_, B, P>, Monitor, Worker<B, P::Share>, R>(
        rt, alloc, &shared, &monitor, workers,
    );
    if let Some(error) = monitor.into_error() {
        return Err(error);
    }
    gather_workers(alloc, slots, own, workers?)
}

/// Runs a plan over a port as `run` does, on a log without records.
fn run_on_log<B: OfLog + Send + Sync, P: Port + Sync, R: Threads + Wait + Sync>(
    rt: &R,
    alloc: Global,
    plan: &Plan,
    port: &P,
    slots: &Slots,
    seat: Seat,
) -> Result<Outcome<P::Share>, RunError>
where
    P::Share: Send + Drop,
    requires slots { slots.now.table ≡ B.table }
    requires seat { seat.table ≡ B.table }
    ensures audited { IfOk result (λ o. IsAudited o.journal.items (operations o.history.items)) }
    ensures planned { IfOk result
        (λ o. FollowsPlan plan.now o.journal.items (operations o.history.items)) }
    ensures counted { IfOk result
        (λ o. sum_by P.Share.total o.shares.items ≡ length o.journal.items) }
    ensures shown { IfOk result (λ o. P.shows port.now o.journal.items) }
    ensures gathered { IfOk result
        (λ o. (seen : Marks) × IsGathered seen plan.now.rows (operations o.history.items)) }
    ensures writable { IfOk result
        (λ o. All (λ op. IsWritable op.process) (operations o.history.items)) }
{
    let own = LogSeat::<B>::new(seat);
    let (mut log_seat, shares) = run_workers::<B, P, R>(rt, alloc, plan, port, slots, own)?;
    let history = match log_seat.gather(alloc, slots, plan.rows() as usize) {
        Ok(history) => history,
        Err(GatherError::BadWords(_)) => return Err(RunError::Mismatch),
        Err(GatherError::OutOfMemory) => return Err(RunError::OutOfMemory),
    };
    let journal = port.events(rt, alloc)?;
    audited_outcome(plan, history, journal, shares)
}

/// Runs a plan over a port, each client and the schedule on a thread of its own. All threads have
/// ended when it returns.
///
/// An outcome is given only where its history and its journal tell the same (`audit`), the shares
/// of the threads together count the journal, and the plan was kept (`follows_plan`). The history
/// is that of `gather`, and the journal one that the port may show. The same plan may give another
/// history each time. It is not promised that the calls of the clients are a whole trace of the
/// generator, nor that threads run at once, which a test shows.
///
/// May wait, and promises only if it returns. A thread that has nothing to do sleeps. The events of a
/// run that failed stay in the port's journal.
///
/// Errors: `Mismatch` where the journal was not empty at the start; `Thread` where a seat, a share
/// or a thread could not be had; then the first of the threads' errors: `HistoryFull` where the log
/// has too few rows, `World` where the port refused a call, a step or a tick, `Mismatch` where what
/// it replied can't be recorded, `OutOfMemory`; at last `Mismatch` where what the threads did does
/// not agree. `OutOfMemory` may come at any moment.
pub fn run<P: Port + Sync, R: Threads + Wait + Sync>(
    rt: &R,
    alloc: Global,
    plan: &Plan,
    port: &P,
) -> Result<Outcome<P::Share>, RunError>
where
    P::Share: Send + Drop,
    ensures audited { IfOk result (λ o. IsAudited o.journal.items (operations o.history.items)) }
    ensures planned { IfOk result
        (λ o. FollowsPlan plan.now o.journal.items (operations o.history.items)) }
    ensures counted { IfOk result
        (λ o. sum_by P.Share.total o.shares.items ≡ length o.journal.items) }
    ensures shown { IfOk result (λ o. P.shows port.now o.journal.items) }
    ensures gathered { IfOk result
        (λ o. (seen : Marks) × IsGathered seen plan.now.rows (operations o.history.items)) }
    ensures writable { IfOk result
        (λ o. All (λ op. IsWritable op.process) (operations o.history.items)) }
{
    if !port.events(rt, alloc)?.is_empty() {
        return Err(RunError::Mismatch);
    }
    // A plan has from 1 to as many rows as a log may have, so memory alone can be refused here.
    let Ok((slots, seat)) = Slots::new(alloc, plan.rows()) else {
        return Err(RunError::OutOfMemory);
    };
    run_on_log::<Brand, P, R>(rt, alloc, plan, port, &slots, seat)
}
