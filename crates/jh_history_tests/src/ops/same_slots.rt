//! Random events of up to four seats of one log, each compared with what the plain log answers.
//!
//! None or false is answered where two answers differ, or memory was refused.

ghost use Rattle.std.specs.Prelude.{◌≡◌, ◌≤◌};

use crate::ops::players::{OfLog, Player};
use crate::plain_slots::{PlainClaim, PlainSlots};
use jh_slots::{Read, Seat, Slots};
use jh_test_kit::Dice;
use std::alloc::Global;
use std::marker::Brand;

/// How often a claim was refused, and made; how often what was read was absent, void, a record, and too long.
type Counts = [u32; 6];

fn count(counts: &mut Counts, place: usize, more: u32) {
    if let Some(count) = counts.get_mut(place) {
        *count = count.saturating_add(more);
    }
}

/// A seat, and what the plain log has of its claim.
#[derive(Drop)]
struct Both<'a, B: OfLog> {
    player: Player<'a, B>,
    plain: Option<PlainClaim>,
    /// How many words its claim has.
    room: u64,
}

/// A log, and all its seats.
#[derive(Drop)]
struct Game<'a, B: OfLog> {
    rows: u32,
    log: PlainSlots,
    seats: Vec<Both<'a, B>>,
    counts: Counts,
}

fn random_rows(dice: &mut Dice) -> u32 {
    match dice.below(12) {
        0 => 255,
        1 => dice.below(30) as u32 + 1,
        _ => dice.below(4) as u32 + 1,
    }
}

fn random_word(dice: &mut Dice) -> u64 {
    match dice.below(6) {
        0 => u64::MAX,
        _ => dice.below(1 << 31),
    }
}

impl<'a, B: OfLog> Both<'a, B> {
    /// A seat with no claim.
    fn new(player: Player<'a, B>) -> Self {
        Both {
            player,
            plain: None,
            room: 0,
        }
    }

    /// Two of one, where the seat is split. The first has the claim.
    fn split(self) -> (Self, Option<Self>) {
        let Both {
            player,
            plain,
            room,
        } = self;
        let (player, other) = player.split();
        let first = Both {
            player,
            plain,
            room,
        };
        match other {
            Some(other) => (first, Some(Both::new(other))),
            None => (first, None),
        }
    }

    /// One of two, with the claim of the first.
    fn join(self, other: Self) -> Self {
        let Both {
            player,
            plain,
            room,
        } = self;
        Both {
            player: player.join(other.player),
            plain,
            room,
        }
    }

    fn claim(
        &mut self,
        alloc: Global,
        log: &mut PlainSlots,
        counts: &mut Counts,
        rows: u32,
    ) -> bool {
        let Ok(plain) = log.claim(alloc, rows) else {
            return false;
        };
        self.room = 5 * u64::from(rows);
        self.plain = plain;
        let is_claimed = self.player.claim(rows);
        count(counts, usize::from(is_claimed), 1);
        is_claimed == self.plain.is_some()
    }

    fn write(&mut self, place: u64, value: u64) {
        self.player.write(place as usize, value);
        if let Some(claim) = self.plain.as_mut() {
            claim.write(place as usize, value);
        }
    }

    fn publish(&mut self, log: &mut PlainSlots, len: u64) -> bool {
        let receipt = self.player.publish(len as usize);
        match self.plain.take() {
            Some(claim) => receipt == Some(log.publish(claim, len as usize)),
            None => false,
        }
    }

    fn void(&mut self, log: &mut PlainSlots) {
        self.player.void();
        if let Some(claim) = self.plain.take() {
            log.void(claim);
        }
    }

    /// Reads a row into a buffer with so many places.
    fn read(&mut self, log: &PlainSlots, counts: &mut Counts, row: u32, len: usize) -> bool
        requires { len ≤ 24 }
    {
        let mut found = [7u64; 24];
        let mut expected = [7u64; 24];
        let answer = self.player.read(row, &mut found[..len]);
        let place = match answer {
            Read::Absent => 2,
            Read::Void => 3,
            Read::Words(_) => 4,
            Read::TooSmall(_) => 5,
        };
        count(counts, place, 1);
        answer == log.read(row, &mut expected[..len]) && found == expected
    }

    /// Reads all rows, and one beyond.
    fn reads_all(&mut self, log: &PlainSlots, counts: &mut Counts, rows: u32) -> bool {
        for row in 0..=rows {
            if !self.read(log, counts, row, 24) {
                return false;
            }
        }
        true
    }
}

impl<'a, B: OfLog> Game<'a, B> {
    /// Takes a seat out.
    fn take(&mut self, dice: &mut Dice) -> Option<Both<'a, B>> {
        let place = dice.below((self.seats.len() as u64).max(1)) as usize;
        if place < self.seats.len() {
            Some(self.seats.swap_remove(place))
        } else {
            None
        }
    }

    /// Puts a seat back. Whether memory sufficed.
    fn put(&mut self, seat: Both<'a, B>) -> bool {
        self.seats.push(seat).is_ok()
    }

    /// Makes two seats of one.
    fn split(&mut self, one: Both<'a, B>) -> bool {
        let (one, other) = one.split();
        match other {
            Some(other) => self.put(one) && self.put(other),
            None => false,
        }
    }

    /// Makes one seat of two. Where both have a claim, one of these is voided.
    fn join(&mut self, one: Both<'a, B>, other: Both<'a, B>) -> bool {
        let (first, mut second) = match other.player.has_claim() {
            true => (other, one),
            false => (one, other),
        };
        second.void(&mut self.log);
        self.put(first.join(second))
    }

    /// Reads any row into a buffer of any length.
    fn read(&mut self, dice: &mut Dice, seat: &mut Both<'a, B>) -> bool {
        let row = dice.below(u64::from(self.rows) + 1) as u32;
        let len = dice.below(25) as usize;
        seat.read(&self.log, &mut self.counts, row, len)
    }

    /// Lets a seat do something by itself.
    fn act(&mut self, alloc: Global, dice: &mut Dice, seat: &mut Both<'a, B>) -> bool {
        match (dice.below(8), seat.player.has_claim()) {
            (0..=2, false) => {
                let rows = random_rows(dice);
                seat.claim(alloc, &mut self.log, &mut self.counts, rows)
            }
            (0..=1, true) => {
                seat.write(dice.below(seat.room.max(1)), random_word(dice));
                true
            }
            (2, true) => {
                let len = dice.below(seat.room.max(1)) + 1;
                seat.publish(&mut self.log, len)
            }
            (3, true) if dice.below(2) == 0 => {
                seat.void(&mut self.log);
                true
            }
            _ => self.read(dice, seat),
        }
    }

    /// Joins a seat with any other.
    fn join_any(&mut self, dice: &mut Dice, seat: Both<'a, B>) -> bool {
        match self.take(dice) {
            Some(other) => self.join(seat, other),
            None => false,
        }
    }

    /// Lets a seat do something, and puts it back.
    fn act_with(&mut self, alloc: Global, dice: &mut Dice, seat: Both<'a, B>) -> bool {
        let mut seat = seat;
        self.act(alloc, dice, &mut seat) && self.put(seat)
    }

    /// One event, of any seat.
    fn event(&mut self, alloc: Global, dice: &mut Dice) -> bool {
        let Some(seat) = self.take(dice) else {
            return false;
        };
        match dice.below(12) {
            0 if self.seats.len() < 3 => self.split(seat),
            1 if !self.seats.is_empty() => self.join_any(dice, seat),
            _ => self.act_with(alloc, dice, seat),
        }
    }

    /// So many events.
    fn events(&mut self, alloc: Global, dice: &mut Dice, count: u64) -> bool {
        for _ in 0..count {
            if !self.event(alloc, dice) {
                return false;
            }
        }
        true
    }

    /// Lets each seat read all rows.
    fn reads_all(&mut self) -> bool {
        for seat in self.seats.iter_mut() {
            if !seat.reads_all(&self.log, &mut self.counts, self.rows) {
                return false;
            }
        }
        true
    }
}

/// How often each answer was given in random events of a log's seats, and when all seats read all rows after them.
fn run<B: OfLog>(
    alloc: Global,
    slots: &Slots,
    seat: Seat,
    rows: u32,
    dice: &mut Dice,
) -> Option<Counts>
    requires log { slots.now.table ≡ B.table }
    requires own { seat.table ≡ B.table }
{
    let mut game = Game {
        rows,
        log: PlainSlots::new(alloc, rows as usize),
        seats: Vec::new(alloc),
        counts: [0; 6],
    };
    let count = dice.below(31) + 30;
    if game.put(Both::new(Player::<B>::new(slots, seat)))
        && game.events(alloc, dice, count)
        && game.reads_all()
    {
        Some(game.counts)
    } else {
        None
    }
}

fn counts_of(alloc: Global, seed: u64) -> Option<Counts> {
    let mut dice = Dice::new(seed);
    let rows = match dice.below(8) {
        0 => 300,
        _ => dice.below(40) as u32 + 1,
    };
    let (slots, seat) = Slots::new(alloc, rows).ok()?;
    run::<Brand>(alloc, &slots, seat, rows, &mut dice)
}

/// How often each answer was given in all lists of events, or the first seed at which one differs.
fn all_counts(alloc: Global) -> Result<Counts, u64> {
    let mut all = [0; 6];
    for seed in 0..600 {
        let counts = match counts_of(alloc, seed) {
            None => counts_of(alloc, seed),
            counts => counts,
        };
        for (place, more) in counts.ok_or(seed)?.iter().enumerate() {
            count(&mut all, place, *more);
        }
    }
    Ok(all)
}

/// Whether each answer was given often, so that the comparison says something.
fn are_often(counts: Result<Counts, u64>) -> bool {
    match counts {
        Ok(counts) => counts.iter().all(|count| *count > 200),
        Err(_) => false,
    }
}

#[test]
fn logs_agree(rt: HostRuntime) {
    let counts = all_counts(rt.alloc());
    assert!(rt; are_often(counts), "{counts:?}");
}
