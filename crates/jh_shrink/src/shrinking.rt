//! Takes entries out of a schedule that fails, as long as it fails still. `specs/Shrunk.antt` says
//! what is left.

ghost use Rattle.std.specs.Prelude.{◌≡◌, ◌≤◌, ◌<◌, ◌+◌, ◌-◌, ◌^◌, ℕ, Bool, List, Option, Some, false};
ghost use Rattle.std.specs.Prelude.{true, length, IfErr, IfOk, MatchResult, OnOk};
ghost use Rattle.std.specs.List.{remove_range};
ghost use Rattle.std.specs.Fn.{FnReturnsAt};
ghost use Rattle.jh_simnode.specs.Limits.{max_entries};
ghost use Rattle.jh_simnode.specs.declared.schedule.Entry.{Entry};
ghost use Rattle.jh_shrink.specs.Shrunk.{IsBudget, IsFailing, IsShrunk, NeedsEach, RefusesShrink};
ghost use Rattle.jh_shrink.specs.ShrinkingInside.{AskedSince, HaltsWork};
ghost use Rattle.jh_shrink.specs.declared.shrinking.Halt.TheVariants as Halt;

use jh_simnode::Schedule;
use std::alloc::{AllocError, Global};
use thiserror::Error;

/// What a schedule was made of.
#[derive(Debug, Drop)]
pub enum Shrunk {
    /// It fails, and passes without any one of its entries.
    Minimal(Schedule),
    /// The smallest one that fails, when the judge had been asked as often as it might; or the
    /// given one.
    Budget(Schedule),
    /// The given one, which passes.
    NotFailing(Schedule),
}

/// Why a schedule is not made small.
#[derive(Clone, Copy, Debug, PartialEq, Eq, Error)]
pub enum ShrinkError {
    /// The judge had no answer.
    #[error("the judge had no answer")]
    Judge,
    #[error("out of memory")]
    OutOfMemory,
}

/// Who says of a schedule whether it fails. What was answered once stays answered, so an answer may
/// come from outside, as that of a system which runs.
pub trait ScheduleJudge {
    /// It can be asked.
    ghost is_ready: { Self → Type 0 };

    /// It has answered so of a schedule: that it fails, that it passes, or nothing.
    ghost has_answered: { Self → List Entry → Option Bool → Type 0 };

    /// How often it was asked.
    ghost asked: { Self → ℕ };

    /// The second is what the first becomes by being asked.
    ghost becomes: { Self → Self → Type 0 };

    /// Whether a schedule fails, or nothing where that can't be said. One that does not fail
    /// passes, also where it is not known to be good.
    fn judge(&mut self, schedule: &Schedule) -> Option<bool>
        requires ready { is_ready self.old }
        requires room { asked self.old + 1 < 2 ^ 64 }
        ensures ready { is_ready self.new }
        ensures answered { has_answered self.new schedule.now result }
        ensures counted { asked self.new ≡ asked self.old + 1 }
        ensures later { becomes self.old self.new };

    /// One that is not asked stays what it is.
    ghost stays: { (one : Self) → becomes one one };

    /// One that is asked again goes on from where it was.
    ghost goes_on: { (one next last : Self) → becomes one next → becomes next last
        → becomes one last };

    /// What was answered once stays answered.
    ghost keeps: { (one next : Self) (schedule : List Entry) (answer : Option Bool)
        → becomes one next → has_answered one schedule answer
        → has_answered next schedule answer };
}

/// Who is told how far the work is.
pub trait ShrinkObserver {
    /// The judge is asked next: `asked` is how often that makes, counted from 1. The smallest schedule that
    /// failed so far, which at first is the given one, has so many entries.
    fn see(&mut self, entries: usize, asked: u64);
}

/// A judge that is a function, with how often it was asked.
#[derive(Drop)]
struct Counted<F> {
    judge: F,
    times_asked: u64,
}

impl<F: Fn(&Schedule) -> Option<bool>> ScheduleJudge for Counted<F> {
    ghost use Rattle.std.proofs.Common.{refl, ◌∙◌};

    ghost is_ready = { λ c. F.IsAlwaysCallable c.judge };

    ghost has_answered = { λ c. FnReturnsAt F.Fn c.judge };

    ghost asked = { λ c. c.times_asked };

    ghost becomes = { λ one next. next.judge ≡ one.judge };

    ghost stays = { λ one. refl };

    ghost goes_on = { λ one next last first then. then ∙ first };

    ghost keeps = { λ one next schedule answer later said. rw later said };

    fn judge(&mut self, schedule: &Schedule) -> Option<bool> {
        self.times_asked += 1;
        (self.judge)(schedule)
    }
}

/// Why the work ends.
#[derive(Clone, Copy)]
enum Halt {
    /// The judge was asked as often as it may be.
    Budget,
    /// The judge had no answer.
    Judge,
    OutOfMemory,
}

impl From<AllocError> for Halt {
    ghost use Rattle.std.specs.Prelude.{◌≡◌};
    ghost use Rattle.jh_shrink.specs.declared.shrinking.Halt.TheVariants.{OutOfMemory};

    ghost from_gives = { λ _ e. e ≡ OutOfMemory };

    fn from(_error: AllocError) -> Halt {
        Halt::OutOfMemory
    }
}

/// How often the judge may be asked, in all and from now on, and who is told.
#[derive(Drop)]
struct Meter<'a, O> {
    budget: u64,
    left: u64,
    observer: &'a mut O,
}

/// Whether a schedule fails, where so many entries are left of the smallest one that does.
fn ask<J: ScheduleJudge, O: ShrinkObserver>(
    judge: &mut J,
    meter: &mut Meter<'_, O>,
    schedule: &Schedule,
    entries: usize,
) -> Result<bool, Halt>
    requires ready { J.is_ready judge.old }
    requires room { J.asked judge.old + meter.old.left < 2 ^ 64 }
    ensures answer { MatchResult result
        (λ fails. J.has_answered judge.new schedule.now (Some fails))
        (HaltsWork (J.has_answered judge.new) schedule.now meter.new.left) }
    ensures asked { OnOk result (meter.new.left + 1 ≡ meter.old.left) }
    ensures used_up { IfErr result (λ halt. halt ≡ Halt.Budget → meter.old.left ≡ 0) }
    ensures went_on { AskedSince J.is_ready J.becomes J.asked
        judge.old meter.old.left judge.new meter.new.left }
{
    if meter.left == 0 {
        return Err(Halt::Budget);
    }
    meter.left -= 1;
    meter
        .observer
        .see(entries, meter.budget.saturating_sub(meter.left));
    match judge.judge(schedule) {
        Some(fails) => Ok(fails),
        None => Err(Halt::Judge),
    }
}

/// Takes out the entries from a place on and below another, if the schedule fails without them.
/// Says whether it did.
fn spare<J: ScheduleJudge, O: ShrinkObserver>(
    alloc: Global,
    judge: &mut J,
    meter: &mut Meter<'_, O>,
    schedule: &mut Schedule,
    from: usize,
    to: usize,
) -> Result<bool, Halt>
    requires ready { J.is_ready judge.old }
    requires room { J.asked judge.old + meter.old.left < 2 ^ 64 }
    requires part { (from < to) × (to ≤ length schedule.old) }
    requires failing { J.has_answered judge.old schedule.old (Some true) }
    ensures failing { IsFailing (J.has_answered judge.new) schedule.old schedule.new }
    ensures spared { IfOk result
        (λ spared. spared ≡ true → length schedule.new + (to - from) ≡ length schedule.old) }
    ensures needed { IfOk result (λ spared. spared ≡ false → (schedule.new ≡ schedule.old)
        × J.has_answered judge.new (remove_range schedule.old from to) (Some false)) }
    ensures asked { OnOk result (meter.new.left + 1 ≡ meter.old.left) }
    ensures halted { IfErr result
        (HaltsWork (J.has_answered judge.new) schedule.old meter.new.left) }
    ensures went_on { AskedSince J.is_ready J.becomes J.asked
        judge.old meter.old.left judge.new meter.new.left }
{
    let rest = schedule.copy_without(alloc, from, to)?;
    if !ask(judge, meter, &rest, schedule.entries().len())? {
        return Ok(false);
    }
    *schedule = rest;
    Ok(true)
}

/// Takes out each part of so many entries without which the schedule fails, from the first part on.
/// Says whether it took one out.
fn pass<J: ScheduleJudge, O: ShrinkObserver>(
    alloc: Global,
    judge: &mut J,
    meter: &mut Meter<'_, O>,
    schedule: &mut Schedule,
    size: usize,
) -> Result<bool, Halt>
    requires ready { J.is_ready judge.old }
    requires room { J.asked judge.old + meter.old.left < 2 ^ 64 }
    requires size { (1 ≤ size) × (size ≤ max_entries) }
    requires failing { J.has_answered judge.old schedule.old (Some true) }
    ensures failing { IsFailing (J.has_answered judge.new) schedule.old schedule.new }
    ensures fewer { IfOk result
        (λ spared. spared ≡ true → length schedule.new < length schedule.old) }
    ensures same { IfOk result (λ spared. spared ≡ false → schedule.new ≡ schedule.old) }
    ensures needed { IfOk result
        (λ spared. spared ≡ false → size ≡ 1
        → NeedsEach (J.has_answered judge.new) schedule.new) }
    ensures asked { IfOk result (λ spared. spared ≡ false → size ≡ 1
        → meter.new.left + length schedule.new ≤ meter.old.left) }
    ensures halted { IfErr result
        (HaltsWork (J.has_answered judge.new) schedule.old meter.new.left) }
    ensures went_on { AskedSince J.is_ready J.becomes J.asked
        judge.old meter.old.left judge.new meter.new.left }
{
    let mut place = 0;
    let mut spared = false;
    while place < schedule.entries().len() {
        let end = schedule.entries().len().min(place + size);
        if spare(alloc, judge, meter, schedule, place, end)? {
            spared = true;
        } else {
            place = end;
        }
    }
    Ok(spared)
}

/// Takes entries out, large parts first, until the schedule passes without any one of them.
fn reduce<J: ScheduleJudge, O: ShrinkObserver>(
    alloc: Global,
    judge: &mut J,
    meter: &mut Meter<'_, O>,
    schedule: &mut Schedule,
) -> Result<(), Halt>
    requires ready { J.is_ready judge.old }
    requires room { J.asked judge.old + meter.old.left < 2 ^ 64 }
    requires failing { J.has_answered judge.old schedule.old (Some true) }
    ensures failing { IsFailing (J.has_answered judge.new) schedule.old schedule.new }
    ensures minimal { OnOk result (NeedsEach (J.has_answered judge.new) schedule.new) }
    ensures asked { OnOk result (meter.new.left + length schedule.new ≤ meter.old.left) }
    ensures halted { IfErr result
        (HaltsWork (J.has_answered judge.new) schedule.old meter.new.left) }
    ensures went_on { AskedSince J.is_ready J.becomes J.asked
        judge.old meter.old.left judge.new meter.new.left }
{
    let mut size = schedule.entries().len().div_ceil(2).max(1);
    while pass(alloc, judge, meter, schedule, size)? || size > 1 {
        size = (size / 2).max(1);
    }
    Ok(())
}

/// Makes a schedule that fails small by any judge, and tells an observer how far it is.
///
/// It takes out halves of the entries, then quarters, and so on to single entries, as long as what
/// is left fails still, and ends once the judge said of each single entry that the schedule passes
/// without it. So it asks about twice the number of entries that matter for each halving, and no
/// more than about the square of the number of entries. Fewer entries than those of `Minimal` may fail
/// where several are taken out at once.
///
/// The judge is asked `budget` times at most, and `Budget` is answered only where it was asked so
/// often.
///
/// Errors: `Judge` where the judge had no answer; `OutOfMemory`.
pub fn shrink_by<J: ScheduleJudge, O: ShrinkObserver>(
    alloc: Global,
    schedule: Schedule,
    judge: &mut J,
    budget: u64,
    observer: &mut O,
) -> Result<Shrunk, ShrinkError>
    requires ready { J.is_ready judge.old }
    requires room { J.asked judge.old + budget < 2 ^ 64 }
    ensures shrunk { MatchResult result
        (IsShrunk (J.has_answered judge.new) budget schedule)
        (RefusesShrink (J.has_answered judge.new) schedule) }
    ensures within { J.asked judge.new ≤ J.asked judge.old + budget }
    ensures used_up { IfOk result (λ shrunk. IsBudget shrunk
        → J.asked judge.new ≡ J.asked judge.old + budget) }
    ensures later { J.becomes judge.old judge.new }
{
    let mut meter = Meter {
        budget,
        left: budget,
        observer,
    };
    match ask(judge, &mut meter, &schedule, schedule.entries().len()) {
        Ok(true) => {}
        Ok(false) => return Ok(Shrunk::NotFailing(schedule)),
        Err(Halt::Budget) => return Ok(Shrunk::Budget(schedule)),
        Err(Halt::Judge) => return Err(ShrinkError::Judge),
        Err(Halt::OutOfMemory) => return Err(ShrinkError::OutOfMemory),
    }
    let mut smallest = schedule;
    match reduce(alloc, judge, &mut meter, &mut smallest) {
        Ok(()) => Ok(Shrunk::Minimal(smallest)),
        Err(Halt::Budget) => Ok(Shrunk::Budget(smallest)),
        Err(Halt::Judge) => Err(ShrinkError::Judge),
        Err(Halt::OutOfMemory) => Err(ShrinkError::OutOfMemory),
    }
}

/// Makes a schedule that fails small: [`shrink_by`] with a judge that is a function.
///
/// Errors: `Judge` where the judge had no answer; `OutOfMemory`.
pub fn shrink<F: Fn(&Schedule) -> Option<bool>, O: ShrinkObserver>(
    alloc: Global,
    schedule: Schedule,
    judge: F,
    budget: u64,
    observer: &mut O,
) -> Result<Shrunk, ShrinkError>
    requires { F.IsAlwaysCallable judge }
    ensures { MatchResult result
        (IsShrunk (FnReturnsAt F.Fn judge) budget schedule)
        (RefusesShrink (FnReturnsAt F.Fn judge) schedule) }
{
    let mut counted = Counted {
        judge,
        times_asked: 0,
    };
    shrink_by(alloc, schedule, &mut counted, budget, observer)
}
