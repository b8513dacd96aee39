//! A world behind a lock. Each thread that calls it counts its accepted calls in a share, and all
//! shares together count the journal.
//!
//! The ledger of std has parts, which it calls `Share`. A share here (`WorldShare`) is such a part
//! with its count.

ghost use Rattle.std.specs.Prelude.{◌≡◌, ◌+◌, ◌<◌, [], length, sum_by, IfOk, IfSome, OnOk, OnErr};
ghost use Rattle.std.specs.Prelude.{◌≤◌, MatchResult, IsSome, ⊤};
ghost use Rattle.jh_nemesis.specs.Steps.{FitsNodes};
ghost use Rattle.jh_simnode.specs.Limits.{max_events};
ghost use Rattle.jh_simnode.specs.Events.{AddsEvent, Refuses};
ghost use Rattle.jh_simnode.specs.declared.events.Event.TheVariants as Event;
ghost use Rattle.jh_workers.specs.Shown.{IsJournal, world_parts};

use crate::ports::{Count, Port};
use jh_env::Node;
use jh_nemesis::{Step, StepAnswer};
use jh_ops::Request;
use jh_simnode::{Event, Reply, World, WorldError};
use std::alloc::{AllocError, Global};
use std::sync::ledger::{Blank, Book, Ledger, Share};
use std::sync::{Mutex, Wait};

/// The parts of a world's ledger, one for each share: 17 are needed, for the most client threads,
/// 16, and the thread that applies the schedule.
pub(crate) const PARTS: u64 = 32;

/// How many calls of a locked world were accepted from one thread. All shares together count the
/// journal.
#[derive(Drop)]
pub struct WorldShare<L: Ledger> {
    count: u64,
    part: Share<L>,
    ghost tied: { part.amount ≡ count },
    ghost one: { part.parts ≡ 1 },
}

impl<L: Ledger> Count for WorldShare<L> {
    ghost total = { λ share. share.count };

    fn count(&self) -> u64 {
        self.count
    }
}

/// Counts one more accepted call, in the book and in a share of it.
fn count_one<L: Ledger>(book: &mut Book<L>, mine: &mut WorldShare<L>)
    requires { book.old.total < max_events }
    ensures total { book.new.total ≡ book.old.total + 1 }
    ensures counted { mine.new.count ≡ mine.old.count + 1 }
{
    let WorldShare { count, part } = mine;
    // A part is at most the book's total, so there is room for one more.
    book.audit(part);
    book.add(part, 1);
    *count += 1;
}

/// A world with the book of all shares, whose total is the length of the journal.
#[derive(Drop)]
struct CountedWorld<L: Ledger> {
    world: World,
    book: Book<L>,
    rest: Share<L>,
    left: u64,
    ghost counted: { length world.journal ≡ book.total },
    ghost parts: { rest.parts ≡ left },
    ghost empty: { rest.amount ≡ 0 },
}

impl<L: Ledger> CountedWorld<L> {
    /// A share of count 0, unless none is left.
    fn share(&mut self) -> Option<WorldShare<L>>
        ensures world { self.new.world ≡ self.old.world }
        ensures fresh { IfSome result (λ mine. mine.count ≡ 0) }
        ensures left { IfSome result (λ mine. self.new.left + 1 ≡ self.old.left) }
        ensures none { result ≡ None → self.old.left ≡ 0 }
    {
        if self.left == 0 {
            return None;
        }
        let part = self.rest.split_off(1, 0);
        self.left -= 1;
        Some(WorldShare { count: 0, part })
    }

    /// `World::call`, counted in a share.
    fn call(
        &mut self,
        mine: &mut WorldShare<L>,
        process: u64,
        node: Node,
        request: Request,
        draw: u64,
    ) -> Result<(u64, Reply), WorldError>
        ensures added { MatchResult result
            (λ given. AddsEvent self.old.world
            (Event.Call process node request draw given.1) given.0 self.new.world)
            (λ e. (self.new.world ≡ self.old.world)
            × Refuses (node < length self.old.world.setup.names) self.old.world.journal e) }
        ensures accepted { OnOk result (mine.new.count ≡ mine.old.count + 1) }
        ensures refused { OnErr result (mine.new.count ≡ mine.old.count) }
        ensures numbered { IfOk result (λ given. given.0 < max_events) }
    {
        let CountedWorld {
            world,
            book,
            rest: _,
            left: _,
        } = self;
        let given = world.call(process, node, request, draw)?;
        // The book's total is the length of the journal, which is bounded.
        let _events = world.journal();
        count_one(book, mine);
        Ok(given)
    }

    /// `World::step`, counted in a share.
    fn step(
        &mut self,
        mine: &mut WorldShare<L>,
        step: Step,
    ) -> Result<(u64, StepAnswer), WorldError>
        ensures added { MatchResult result
            (λ given. AddsEvent self.old.world (Event.Step step given.1) given.0 self.new.world)
            (λ e. (self.new.world ≡ self.old.world)
            × Refuses (FitsNodes (length self.old.world.setup.names) step)
            self.old.world.journal e) }
        ensures accepted { OnOk result (mine.new.count ≡ mine.old.count + 1) }
        ensures refused { OnErr result (mine.new.count ≡ mine.old.count) }
        ensures numbered { IfOk result (λ given. given.0 < max_events) }
    {
        let CountedWorld {
            world,
            book,
            rest: _,
            left: _,
        } = self;
        let given = world.step(step)?;
        // The book's total is the length of the journal, which is bounded.
        let _events = world.journal();
        count_one(book, mine);
        Ok(given)
    }

    /// `World::tick`, counted in a share.
    fn tick(&mut self, mine: &mut WorldShare<L>) -> Result<u64, WorldError>
        ensures added { MatchResult result
            (λ given. AddsEvent self.old.world Event.Tick given self.new.world)
            (λ e. (self.new.world ≡ self.old.world) × Refuses ⊤ self.old.world.journal e) }
        ensures accepted { OnOk result (mine.new.count ≡ mine.old.count + 1) }
        ensures refused { OnErr result (mine.new.count ≡ mine.old.count) }
    {
        let CountedWorld {
            world,
            book,
            rest: _,
            left: _,
        } = self;
        let given = world.tick()?;
        // The book's total is the length of the journal, which is bounded.
        let _events = world.journal();
        count_one(book, mine);
        Ok(given)
    }

    /// The world, once all shares are back.
    fn settle(self, shares: Vec<WorldShare<L>>) -> Option<World>
        requires { L.parts ≡ world_parts }
        ensures counted { IfSome result
            (λ world. length world.journal ≡ sum_by (λ share. share.count) shares.items) }
        ensures world { IfSome result (λ world. world ≡ self.world) }
        ensures back { self.left + length shares.items ≡ world_parts → IsSome result }
        ensures whole { length shares.items ≡ world_parts → IsSome result }
    {
        let CountedWorld {
            world,
            book,
            rest,
            left,
        } = self;
        let back = left.saturating_add(shares.len() as u64);
        let mut book = book;
        let mut all = merged(rest, shares);
        if back != PARTS {
            return None;
        }
        // All parts in one have the book's total.
        book.audit(&mut all);
        Some(world)
    }

    /// A copy of the journal.
    fn events(&self, alloc: Global) -> Result<Vec<Event>, AllocError>
        ensures copy { IfOk result (λ journal. journal.items ≡ self.now.world.journal) }
        ensures legal { IfOk result (λ journal. IsJournal journal.items) }
    {
        copy_of(alloc, self.world.journal())
    }
}

/// The rest and the parts of all these shares in one.
fn merged<L: Ledger>(rest: Share<L>, shares: Vec<WorldShare<L>>) -> Share<L>
    ensures parts { result.parts ≡ rest.parts + length shares.items }
    ensures few { 0 < length shares.items → result.parts ≤ L.parts }
    ensures amount { result.amount ≡ rest.amount + sum_by (λ share. share.count) shares.items }
{
    let mut all = rest;
    for share in shares {
        let WorldShare { count: _, part } = share;
        all.merge(part);
    }
    all
}

/// The same events again.
fn copy_of(alloc: Global, events: &[Event]) -> Result<Vec<Event>, AllocError>
    ensures { IfOk result (λ copy. copy.items ≡ events.now) }
{
    let mut copy = Vec::new(alloc);
    for event in events {
        copy.push(event.copy(alloc)?)?;
    }
    Ok(copy)
}

/// A world behind a lock. Whenever the lock is free, the world's journal is legal for its database,
/// and as long as all shares together have counted.
#[derive(Drop)]
pub struct LockedWorld<L: Ledger> {
    inside: Mutex<CountedWorld<L>>,
}

impl<L: Ledger> LockedWorld<L> {
    /// Puts a world in which nothing has happened behind a lock. The blank has `PARTS` parts, so there
    /// are as many shares.
    pub fn new(world: World, blank: Blank) -> Self
        requires empty { world.journal ≡ [] }
        requires name { blank.name ≡ L.name }
        requires parts { blank.parts ≡ L.parts }
        requires number { blank.parts ≡ world_parts }
    {
        let (book, rest) = blank.open::<L>();
        LockedWorld {
            inside: Mutex::new(CountedWorld {
                world,
                book,
                rest,
                left: PARTS,
            }),
        }
    }

    /// Gives the world back for all shares that were handed out: their counts sum to the length of
    /// its journal. `None` where one of them is missing. Where `PARTS` shares come back, none is missing.
    pub fn settle(self, shares: Vec<WorldShare<L>>) -> Option<World>
        requires { L.parts ≡ world_parts }
        ensures counted { IfSome result
            (λ world. length world.journal ≡ sum_by ⟦<WorldShare<L> as Count>⟧.total shares.items) }
        ensures whole { length shares.items ≡ world_parts → IsSome result }
    {
        let LockedWorld { inside } = self;
        inside.into_inner().settle(shares)
    }
}

impl<L: Ledger> Port for LockedWorld<L> {
    type Share = WorldShare<L>;

    ghost shows = { λ _ journal. IsJournal journal };

    fn share<R: Wait>(&self, rt: &R) -> Option<WorldShare<L>> {
        self.inside.lock(rt).share()
    }

    fn call<R: Wait>(
        &self,
        rt: &R,
        mine: &mut WorldShare<L>,
        process: u64,
        node: Node,
        request: Request,
        draw: u64,
    ) -> Result<(u64, Reply), WorldError> {
        self.inside
            .lock(rt)
            .call(mine, process, node, request, draw)
    }

    fn step<R: Wait>(
        &self,
        rt: &R,
        mine: &mut WorldShare<L>,
        step: Step,
    ) -> Result<(u64, StepAnswer), WorldError> {
        self.inside.lock(rt).step(mine, step)
    }

    fn tick<R: Wait>(&self, rt: &R, mine: &mut WorldShare<L>) -> Result<u64, WorldError> {
        self.inside.lock(rt).tick(mine)
    }

    fn events<R: Wait>(&self, rt: &R, alloc: Global) -> Result<Vec<Event>, AllocError> {
        self.inside.lock(rt).events(alloc)
    }
}
