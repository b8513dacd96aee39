//! Seats of one log, each with at most one claim at a time.

ghost use Rattle.std.specs.Prelude.{◌≡◌, ◌*◌, ◌≤◌, IfSome};
ghost use Rattle.std.proofs.Props.{props};
ghost use Rattle.jh_slots.specs.Seats.{claim_at};

use jh_slots::{Claim, MAX_CLAIMED, ROW_WORDS, Read, Receipt, Seat, Slots};
use std::marker::{Brand, PhantomData};

/// Which log a seat is of. Each run picks its own.
pub(crate) trait OfLog {
    ghost use Rattle.atomic_table.specs.Seated.{TableId};

    /// The table of the log.
    ghost table: { TableId };
}

impl OfLog for Brand {
    ghost use Rattle.std.specs.Prelude.{[]};

    ghost table = { record { words = 0; slots = 0; views_name = 0; atom = 0; block = 0; offset = 0; slot_names = [] } };
}

/// A seat with its claim, if it has one. It voids the claim where it is dropped.
pub(crate) struct Player<'a, B: OfLog> {
    slots: &'a Slots,
    seat: Seat,
    claim: Option<Claim>,
    /// How many rows the claim has.
    rows: u32,
    of: PhantomData<B>,
    ghost log: { slots.now.table ≡ B.table },
    ghost own: { seat.table ≡ B.table },
    ghost holds: { IfSome claim (λ c. (c.rows ≡ rows) × (1 ≤ c.rows) × ((claim_at seat.knows c.first).rows ≡ c.rows)) } by { Prim.hlevel props },
}

impl<'a, B: OfLog> Player<'a, B> {
    /// A seat of a log, with no claim.
    pub(crate) fn new(slots: &'a Slots, seat: Seat) -> Self
        requires log { slots.now.table ≡ B.table }
        requires own { seat.table ≡ B.table }
    {
        Player {
            slots,
            seat,
            claim: None,
            rows: 0,
            of: PhantomData,
        }
    }

    pub(crate) fn has_claim(&self) -> bool {
        self.claim.is_some()
    }

    /// Claims so many rows, where it has no claim. Whether it did.
    pub(crate) fn claim(&mut self, rows: u32) -> bool {
        if self.claim.is_some() || rows == 0 || rows > MAX_CLAIMED {
            return false;
        }
        let Ok(claim) = self.slots.claim(&mut self.seat, rows) else {
            return false;
        };
        self.rows = rows;
        if let Some(old) = self.claim.replace(claim) {
            self.slots.void(&mut self.seat, old);
        }
        true
    }

    /// Writes a word of its claim.
    #[tactic(auto, using(crate::proofs::HoldLemmas::holds_if))]
    pub(crate) fn write(&mut self, place: usize, value: u64) {
        if place >= ROW_WORDS * self.rows as usize {
            return;
        }
        if let Some(claim) = self.claim.as_mut() {
            self.slots.write(&mut self.seat, claim, place, value);
        }
    }

    /// Publishes the first words of its claim.
    #[tactic(auto, using(crate::proofs::HoldLemmas::holds_if))]
    pub(crate) fn publish(&mut self, len: usize) -> Option<Receipt> {
        if len == 0 || len > ROW_WORDS * self.rows as usize {
            return None;
        }
        let claim = self.claim.take()?;
        Some(self.slots.publish(&mut self.seat, claim, len))
    }

    /// Ends its claim with nothing.
    #[tactic(auto, using(crate::proofs::HoldLemmas::holds_if))]
    pub(crate) fn void(&mut self) {
        if let Some(claim) = self.claim.take() {
            self.slots.void(&mut self.seat, claim);
        }
    }

    pub(crate) fn read(&mut self, row: u32, buffer: &mut [u64]) -> Read {
        self.slots.read(&mut self.seat, row, buffer)
    }

    /// Two of one, where the seat is split.
    pub(crate) fn split(self) -> (Self, Option<Self>) {
        let Player {
            slots,
            seat,
            claim,
            rows,
            of,
        } = self;
        match slots.split(seat) {
            Ok((seat, other)) => (
                Player {
                    slots,
                    seat,
                    claim,
                    rows,
                    of,
                },
                Some(Player::new(slots, other)),
            ),
            Err(seat) => (
                Player {
                    slots,
                    seat,
                    claim,
                    rows,
                    of,
                },
                None,
            ),
        }
    }

    /// One of two, with the claim of the first. The other's is voided before.
    pub(crate) fn join(self, other: Self) -> Self {
        let Player {
            slots,
            seat,
            claim,
            rows,
            of,
        } = self;
        let seat = slots.join(seat, other.into_seat());
        Player {
            slots,
            seat,
            claim,
            rows,
            of,
        }
    }

    #[tactic(auto, using(crate::proofs::HoldLemmas::holds_if))]
    fn into_seat(self) -> Seat
        ensures { result.table ≡ B.table }
    {
        let Player {
            slots,
            seat,
            claim,
            rows: _,
            of: _,
        } = self;
        let mut seat = seat;
        if let Some(claim) = claim {
            slots.void(&mut seat, claim);
        }
        seat
    }
}

impl<B: OfLog> Drop for Player<'_, B> {
    fn drop(self) {
        let _ = self.into_seat();
    }
}
