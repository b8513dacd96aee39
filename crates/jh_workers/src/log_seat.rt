//! The seats of a run's log, each known to be of that log. `specs/RecordsInside.antt` says what a
//! seat has seen once it published a record.

ghost use Rattle.std.specs.Prelude.{◌≡◌, ◌+◌, ◌*◌, ◌<◌, ◌≤◌, All, IfOk, IfErr, OnOk, length};
ghost use Rattle.jh_slots.specs.Seats.{HoldsClaim};
ghost use Rattle.jh_slots.specs.Sizes.{max_claimed};
ghost use Rattle.jh_ops.specs.Operation.{operation, operations};
ghost use Rattle.jh_ops.specs.OperationWritten.{IsWritable};
ghost use Rattle.jh_workers.specs.Gather.{IsGathered};
ghost use Rattle.jh_workers.specs.RecordsInside.{HoldsWords, Publishes, PublishesWords};
ghost use Rattle.atomic_table.specs.Seated.{TableId};

use crate::records::{GatherError, MAX_WORDS, gather};
use jh_ops::{Op, WordsError, to_words};
use jh_slots::{Claim, Full, ROW_WORDS, Seat, Slots};
use std::alloc::Global;
use std::marker::{Brand, PhantomData};

/// The log that a run writes into, as a name in the types for the prover alone: `Brand` makes a new
/// one for each run, so that a seat of one log is never taken for a seat of another.
pub trait OfLog {
    /// The table of the log.
    ghost table: { TableId };
}

// A call that passes `Brand` picks the table of its own log in place of this one.
impl OfLog for Brand {
    ghost use Rattle.jh_workers.specs.TablesInside.{no_table};

    ghost table = { no_table };
}

/// A seat of the run's log.
#[derive(Drop)]
pub struct LogSeat<B: OfLog> {
    seat: Seat,
    of: PhantomData<B>,
    ghost own: { seat.table ≡ B.table },
}

impl<B: OfLog> LogSeat<B> {
    /// This seat, as one of the run's log.
    pub fn new(seat: Seat) -> Self
        requires { seat.table ≡ B.table }
        ensures { result.seat ≡ seat }
    {
        LogSeat {
            seat,
            of: PhantomData,
        }
    }

    /// Two seats of one, or `None` where the seat is not split.
    pub fn split(self, slots: &Slots) -> Option<(LogSeat<B>, LogSeat<B>)>
        requires { slots.now.table ≡ B.table }
    {
        let LogSeat { seat, of: _ } = self;
        let (one, other) = slots.split(seat).ok()?;
        Some((LogSeat::new(one), LogSeat::new(other)))
    }

    /// One seat that has seen what either had.
    pub fn join(self, slots: &Slots, other: LogSeat<B>) -> LogSeat<B>
        requires { slots.now.table ≡ B.table }
    {
        let LogSeat { seat, of: _ } = self;
        let LogSeat {
            seat: second,
            of: _,
        } = other;
        LogSeat::new(slots.join(seat, second))
    }

    /// Claims rows for a record that is made later.
    ///
    /// Error: fewer rows are left.
    pub fn claim(&mut self, slots: &Slots, rows: u32) -> Result<Claim, Full>
        requires table { slots.now.table ≡ B.table }
        requires rows { (1 ≤ rows) × (rows ≤ max_claimed) }
        ensures held { IfOk result
            (λ claim. HoldsWords self.new.seat.knows claim.first claim.rows × (claim.rows ≡ rows)) }
        ensures seen { self.new.seat.knows.seen ≡ self.old.seat.knows.seen }
        ensures full { IfErr result (λ _. slots.now.rows < self.new.seat.knows.low + rows) }
    {
        let claim = slots.claim(&mut self.seat, rows)?;
        Ok(claim)
    }

    /// Publishes an operation in claimed rows, or voids the rows where they can't hold it.
    ///
    /// Errors: `NotRecordable`; `TooSmall` where its words are more than those of the rows.
    pub fn publish(
        &mut self,
        slots: &Slots,
        claim: Claim,
        rows: u32,
        op: &Op,
    ) -> Result<(), WordsError>
        requires table { slots.now.table ≡ B.table }
        requires holds { HoldsWords self.old.seat.knows claim.first claim.rows
            × (claim.rows ≡ rows) }
        requires rows { rows ≤ max_claimed }
        ensures { OnOk result
            (Publishes self.old.seat.knows.seen (operation op.now) self.new.seat.knows.seen) }
    {
        let mut words = [0; MAX_WORDS];
        let room = ROW_WORDS * rows as usize;
        match to_words(op, &mut words[..room]) {
            Ok(len) => {
                self.publish_words(slots, claim, &words[..len]);
                Ok(())
            }
            Err(error) => {
                self.void(slots, claim);
                Err(error)
            }
        }
    }

    /// Writes words into claimed rows and publishes them.
    fn publish_words(&mut self, slots: &Slots, claim: Claim, words: &[u64])
        requires table { slots.now.table ≡ B.table }
        requires holds { HoldsWords self.old.seat.knows claim.first claim.rows }
        requires fits { (1 ≤ length words.now) × (length words.now ≤ 5 * claim.rows) }
        ensures { PublishesWords self.old.seat.knows.seen words.now self.new.seat.knows.seen }
    {
        let mut claim = claim;
        for place in 0..words.len() {
            slots.write(&mut self.seat, &mut claim, place, words[place]);
        }
        slots.publish(&mut self.seat, claim, words.len());
    }

    /// Leaves claimed rows with no record.
    pub fn void(&mut self, slots: &Slots, claim: Claim)
        requires table { slots.now.table ≡ B.table }
        requires holds { HoldsClaim self.old.seat.knows claim.first claim.rows }
    {
        slots.void(&mut self.seat, claim);
    }

    /// The history that the seat has then seen in the rows (`gather`).
    pub fn gather(
        &mut self,
        alloc: Global,
        slots: &Slots,
        rows: usize,
    ) -> Result<Vec<Op>, GatherError>
        requires { slots.now.table ≡ B.table }
        ensures gathered { IfOk result
            (λ history. IsGathered self.new.seat.knows.seen rows (operations history.items)) }
        ensures writable { IfOk result
            (λ history. All (λ op. IsWritable op.process) (operations history.items)) }
    {
        gather(alloc, slots, &mut self.seat, rows)
    }
}
