//! A log of rows, its seats and their calls. `specs/Seats.antt` says what each call makes of what a
//! seat knows, `specs/States.antt` what is true of the log and all its seats at every moment.
//!
//! The words of a log of R rows, which are counted from 0:
//!
//! | Words | Hold |
//! |---|---|
//! | 0 | the number of the next free row |
//! | 1 to 5R | the data of the rows, five words each |
//! | 5R+1 to 6R | the status of each row: 0 open, 1 void, n+1 published with n words |
//!
//! Of the rows of a claim only the first one gets a status; it stays 0 in the others.

ghost use Rattle.std.specs.Prelude.{◌≡◌, ◌+◌, ◌*◌, ◌<◌, ◌≤◌, ◌==◌, IfOk, IfErr, MatchBool};
ghost use Rattle.std.specs.Prelude.{MatchResult, [], take, replicate, Some};
ghost use Rattle.jh_slots.specs.Seats.{newcomer, knowledge_after_look, knowledge_after_claim};
ghost use Rattle.jh_slots.specs.Seats.{knowledge_after_write, knowledge_after_publish};
ghost use Rattle.jh_slots.specs.Seats.{knowledge_after_void, knowledge_after_split};
ghost use Rattle.jh_slots.specs.Seats.{knowledge_after_join, Agree, HoldsClaim, AreClaimsApart};
ghost use Rattle.jh_slots.specs.Seats.{BeginsAbove, Mark, claim_at, knowledge_after_end};
ghost use Rattle.jh_slots.specs.Reading.{ReadsRow};
ghost use Rattle.jh_slots.specs.Stored.{mark_of};
ghost use Rattle.jh_slots.specs.Sizes.{IsSize, RefusesSize, max_claimed};

use crate::answers::{Full, MAX_ROWS, ROW_WORDS, Read, Receipt, SlotsError};
use crate::steps::{Copy, End, Gather, Law, Look, Peek, Recall, Take, Unite, View, Write};
use atomic_table::Table;
use std::alloc::{AllocError, Global};
use std::marker::Model;

/// A log of rows, each published or voided at most once: its slots are these rows. Threads share it
/// by reference, and each has a seat of its own. A contract sees which table it is and the number
/// of its rows.
#[derive(Drop)]
pub struct Slots {
    table: Table<u8, View, usize, Law, Global>,
    rows: usize,
}

impl Model for Slots {
    ghost use Rattle.std.specs.Prelude.{◌≡◌, ◌+◌, ◌*◌, ◌≤◌};
    ghost use Rattle.jh_slots.specs.Seats.{Log};
    ghost use Rattle.jh_slots.specs.Sizes.{max_log_rows};
    ghost use Rattle.jh_slots.specs.Codes.{log_code};

    ghost Value = { Log };

    ghost coded = { log_code };

    ghost view = { λ s. record { table = s.table.shared.table_id; rows = s.rows } };

    ghost invariant = { λ s. (s.table.shared.key ≡ s.rows)
        × (s.table.shared.table_id.words ≡ 1 + 6 * s.rows)
        × (s.rows ≤ max_log_rows) };
}

/// One thread's place at a log. A contract sees the log's table and what the seat knows: the marks
/// of rows that it has seen, a number of rows that it knows to be taken, and its claims. A claim of
/// a seat that is dropped stays claimed.
#[derive(Drop)]
pub struct Seat {
    inner: atomic_table::Seat<u8, View>,
}

impl Model for Seat {
    ghost use Rattle.std.specs.Prelude.{◌≡◌, []};
    ghost use Rattle.jh_slots.specs.Seats.{SeatValue};
    ghost use Rattle.jh_slots.specs.Codes.{seated_code};

    ghost Value = { SeatValue };

    ghost coded = { seated_code };

    ghost use Rattle.jh_slots.specs.Stored.{IsSeat};

    ghost view = { λ s. record { table = s.inner.table_id; knows = s.inner.me.0.knows } };

    ghost invariant = { λ s. (s.inner.me.1 ≡ []) × IsSeat s.inner.table_id.words s.inner.me.0 };
}

/// Rows that a seat has claimed, one after the other. It can't be dropped: it ends in
/// [`Slots::publish`] or [`Slots::void`]. A contract sees the first row and the number of rows.
pub struct Claim {
    first: u32,
    rows: u32,
}

impl Model for Claim {
    ghost use Rattle.jh_slots.specs.Seats.{ClaimValue};
    ghost use Rattle.jh_slots.specs.Codes.{claimed_code};

    ghost Value = { ClaimValue };

    ghost coded = { claimed_code };

    ghost view = { λ c. record { first = c.first; rows = c.rows } };
}

/// So many words, each 0.
fn zeros(alloc: Global, count: usize) -> Result<Vec<u64>, AllocError>
    ensures { IfOk result (λ words. words.items ≡ replicate count 0) }
{
    let mut words = Vec::with_capacity(alloc, count)?;
    for _ in 0..count {
        words.push(0)?;
    }
    Ok(words)
}

impl Slots {
    /// A log of rows that are all free, and its first seat, which knows nothing yet. `rows` is from
    /// 1 to [`MAX_ROWS`].
    ///
    /// Errors: `BadSize`; `OutOfMemory`.
    pub fn new(alloc: Global, rows: u32) -> Result<(Slots, Seat), SlotsError>
        ensures { MatchResult result
            (λ r. IsSize rows × (r.0.rows ≡ rows) × (r.1.table ≡ r.0.table)
            × (r.1.knows ≡ newcomer))
            (RefusesSize rows) }
    {
        if rows == 0 || rows > MAX_ROWS {
            return Err(SlotsError::BadSize);
        }
        let rows = rows as usize;
        let words = zeros(alloc, 1 + (ROW_WORDS + 1) * rows)?;
        let (table, inner) = Table::of_words(alloc, &words, &rows)?;
        Ok((Slots { table, rows }, Seat { inner }))
    }

    /// Two seats of one: the second has seen what the first has, and the claims stay with the
    /// first. It always succeeds so far; a split that fails hands the seat back as it was.
    pub fn split(&self, seat: Seat) -> Result<(Seat, Seat), Seat>
        requires { seat.table ≡ self.now.table }
        ensures split { IfOk result (λ r. (r.0 ≡ seat) × (r.1.table ≡ seat.table)
            × (r.1.knows ≡ knowledge_after_split seat.knows)) }
        ensures kept { IfErr result (λ s. s ≡ seat) }
    {
        let Seat { mut inner } = seat;
        let other = self.table.shared.split_seat::<Copy>(&mut inner);
        Ok((Seat { inner }, Seat { inner: other }))
    }

    /// One seat of two: it has seen what either had and has the claims of both. On every row that
    /// both have seen they agree, and their claims have no row in common.
    pub fn join(&self, seat: Seat, other: Seat) -> Seat
        requires { (seat.table ≡ self.now.table) × (other.table ≡ self.now.table) }
        ensures table { result.table ≡ seat.table }
        ensures joint { result.knows ≡ knowledge_after_join seat.knows other.knows }
        ensures agree { Agree seat.knows other.knows }
    {
        let Seat { mut inner } = seat;
        let Seat { inner: other } = other;
        self.table.shared.join_seat::<Unite>(&mut inner, other);
        self.table.shared.load::<Recall>(&mut inner, 0);
        Seat { inner }
    }

    /// The next free row.
    fn look(&self, seat: &mut Seat) -> u32
        requires { seat.old.table ≡ self.now.table }
        ensures table { seat.new.table ≡ seat.old.table }
        ensures low { seat.new.knows ≡ knowledge_after_look result seat.old.knows }
        ensures range { (seat.old.knows.low ≤ result) × (result ≤ self.now.rows) }
    {
        self.table.shared.load::<Look>(&mut seat.inner, 0) as u32
    }

    /// The next free row as it was. If it was `first`, the rows are now claimed.
    fn take(&self, seat: &mut Seat, first: u32, rows: u32) -> u32
        requires own { seat.old.table ≡ self.now.table }
        requires fits { (1 ≤ rows) × (first + rows ≤ self.now.rows) }
        ensures table { seat.new.table ≡ seat.old.table }
        ensures range { (seat.old.knows.low ≤ result) × (result ≤ self.now.rows) }
        ensures taken { MatchBool (result == first)
            ((seat.new.knows ≡ knowledge_after_claim result rows seat.old.knows)
            × BeginsAbove seat.old.knows result × AreClaimsApart seat.new.knows)
            (seat.new.knows ≡ knowledge_after_look result seat.old.knows) }
    {
        self.table.shared.compare_exchange::<Take>(
            &mut seat.inner,
            0,
            first as u64,
            first as u64 + rows as u64,
        ) as u32
    }

    /// Claims consecutive rows, 1 to [`MAX_CLAIMED`](crate::MAX_CLAIMED) of them, whose words are 0
    /// until they are written. They lie above all rows that the seat has seen or claimed.
    ///
    /// Error: `Full` where fewer rows are left. The seat may then know more of the rows that are
    /// taken.
    pub fn claim(&self, seat: &mut Seat, rows: u32) -> Result<Claim, Full>
        requires own { seat.old.table ≡ self.now.table }
        requires rows { (1 ≤ rows) × (rows ≤ max_claimed) }
        ensures table { seat.new.table ≡ seat.old.table }
        ensures claimed { IfOk result
            (λ c. seat.new.knows ≡ knowledge_after_claim c.first rows seat.old.knows) }
        ensures rows { IfOk result (λ c. (c.rows ≡ rows) × (c.first + rows ≤ self.now.rows)) }
        ensures held { IfOk result (λ c. HoldsClaim seat.new.knows c.first c.rows) }
        ensures above { IfOk result (λ c. BeginsAbove seat.old.knows c.first) }
        ensures apart { IfOk result (λ _. AreClaimsApart seat.new.knows) }
        ensures full { IfErr result (λ _. self.now.rows < seat.new.knows.low + rows) }
        ensures looked { IfErr result
            (λ _. seat.new.knows ≡ knowledge_after_look seat.new.knows.low seat.old.knows) }
        ensures rises { seat.old.knows.low ≤ seat.new.knows.low }
        ensures within { seat.new.knows.low ≤ self.now.rows }
    {
        let mut first = self.look(seat);
        while first as usize + rows as usize <= self.rows {
            let found = self.take(seat, first, rows);
            if found == first {
                return Ok(Claim { first, rows });
            }
            first = found;
        }
        Err(Full)
    }

    /// Writes one word of a claim, at a place below five times its rows. No seat sees it before the
    /// claim is published.
    pub fn write(&self, seat: &mut Seat, claim: &mut Claim, place: usize, value: u64)
        requires own { seat.old.table ≡ self.now.table }
        requires holds { HoldsClaim seat.old.knows claim.old.first claim.old.rows }
        requires place { place < 5 * claim.old.rows }
        ensures table { seat.new.table ≡ seat.old.table }
        ensures claim { claim.new ≡ claim.old }
        ensures held { HoldsClaim seat.new.knows claim.new.first claim.new.rows }
        ensures written { seat.new.knows
            ≡ knowledge_after_write claim.old.first place value seat.old.knows }
    {
        self.table.shared.store::<Write>(
            &mut seat.inner,
            1 + (ROW_WORDS * claim.first as usize + place),
            value,
        );
    }

    /// Ends a claim with a status of its first row: 1 for no record, else one more than the number
    /// of the record's words.
    fn end(&self, seat: &mut Seat, claim: Claim, status: u64)
        requires own { seat.old.table ≡ self.now.table }
        requires holds { HoldsClaim seat.old.knows claim.first claim.rows }
        requires status { (1 ≤ status) × (status ≤ 5 * claim.rows + 1) }
        ensures table { seat.new.table ≡ seat.old.table }
        ensures ended { (mark : Mark)
            → mark_of status (claim_at seat.old.knows claim.first).words ≡ Some mark
            → seat.new.knows ≡ knowledge_after_end claim.first mark seat.old.knows }
    {
        let Claim { first, rows: _ } = claim;
        self.table.shared.store::<End>(
            &mut seat.inner,
            1 + (ROW_WORDS * self.rows + first as usize),
            status,
        );
    }

    /// Publishes the first `len` words of a claim at its first row, and ends it. `len` is from 1 to
    /// five times the claim's rows; words that were not written are 0. The claim's other rows are
    /// never free again.
    pub fn publish(&self, seat: &mut Seat, claim: Claim, len: usize) -> Receipt
        requires own { seat.old.table ≡ self.now.table }
        requires holds { HoldsClaim seat.old.knows claim.first claim.rows }
        requires len { (1 ≤ len) × (len ≤ 5 * claim.rows) }
        ensures table { seat.new.table ≡ seat.old.table }
        ensures published { seat.new.knows
            ≡ knowledge_after_publish claim.first len seat.old.knows }
        ensures receipt { (result.row ≡ claim.first) × (result.len ≡ len) }
    {
        let row = claim.first;
        self.end(seat, claim, len as u64 + 1);
        Receipt { row, len }
    }

    /// Ends a claim with nothing published. Its rows are never free again.
    pub fn void(&self, seat: &mut Seat, claim: Claim)
        requires own { seat.old.table ≡ self.now.table }
        requires holds { HoldsClaim seat.old.knows claim.first claim.rows }
        ensures table { seat.new.table ≡ seat.old.table }
        ensures voided { seat.new.knows ≡ knowledge_after_void claim.first seat.old.knows }
    {
        self.end(seat, claim, 1);
    }

    /// Reads the record of a row into a buffer, whose further places stay as they are. A row that
    /// the seat has seen is answered with the same mark again. `TooSmall` and `Absent` change
    /// neither the buffer nor what the seat has seen.
    pub fn read(&self, seat: &mut Seat, row: u32, buffer: &mut [u64]) -> Read
        requires { seat.old.table ≡ self.now.table }
        ensures table { seat.new.table ≡ seat.old.table }
        ensures read { ReadsRow seat.old.knows buffer.old row result seat.new.knows buffer.new }
    {
        let _ = &seat.inner;
        let row = row as usize;
        if row >= self.rows {
            return Read::Absent;
        }
        let status = self
            .table
            .shared
            .load::<Peek>(&mut seat.inner, 1 + (ROW_WORDS * self.rows + row));
        if status == 0 {
            return Read::Absent;
        }
        if status == 1 {
            return Read::Void;
        }
        let len = (status - 1) as usize;
        if len > buffer.len() {
            return Read::TooSmall(len);
        }
        for place in 0..len {
            buffer[place] = self
                .table
                .shared
                .load::<Gather>(&mut seat.inner, 1 + (ROW_WORDS * row + place));
        }
        Read::Words(len)
    }
}
