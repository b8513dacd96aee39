//! Whether a journal has the ticks that follow its calls. `specs/Plans.antt` has the rule
//! (`ticks_owed`).

ghost use Rattle.std.specs.Prelude.{◌≡◌, ◌<◌, ◌↔◌, IsTrue};
ghost use Rattle.std.specs.List.{count_by};
ghost use Rattle.jh_simnode.specs.Counts as count;
ghost use Rattle.jh_audit.specs.Plans as rule;

use jh_simnode::{Event, Plan};

/// Whether it is a tick.
fn is_tick(event: &Event) -> bool
    ensures { result ≡ rule.is_tick event.now }
{
    matches!(event, Event::Tick)
}

/// Whether it is a call of this client thread, of so many.
fn is_call_by(clients: u64, thread: u32, event: &Event) -> bool
    requires { 0 < clients }
    ensures { result ≡ count.is_call_by clients thread event.now }
{
    match event {
        Event::Call { process, .. } => *process % clients == u64::from(thread),
        Event::Step { .. } | Event::Tick => false,
    }
}

/// How many ticks there are.
fn ticks_in(journal: &[Event]) -> usize
    ensures { result ≡ count_by rule.is_tick journal.now }
{
    let mut ticks = 0;
    for event in journal {
        if is_tick(event) {
            ticks += 1;
        }
    }
    ticks
}

/// How many calls a client thread made, of so many threads.
fn calls_by(clients: u64, thread: u32, journal: &[Event]) -> usize
    requires { 0 < clients }
    ensures { result ≡ count.calls_by clients thread journal.now }
{
    let mut calls = 0;
    for event in journal {
        if is_call_by(clients, thread, event) {
            calls += 1;
        }
    }
    calls
}

/// How many ticks follow the calls of a thread.
fn ticks_of(plan: &Plan, journal: &[Event], thread: u32) -> u64
    ensures { result ≡ rule.ticks_of plan.now journal.now thread }
{
    let calls = calls_by(u64::from(plan.clients()), thread, journal) as u64;
    match plan.tick_every() {
        0 => 0,
        every => calls / u64::from(every),
    }
}

/// How many ticks follow the calls of all threads.
fn ticks_owed(plan: &Plan, journal: &[Event]) -> u128
    ensures { result ≡ rule.ticks_owed plan.now journal.now }
{
    let mut owed: u128 = 0;
    for thread in 0..plan.clients() {
        owed += u128::from(ticks_of(plan, journal, thread));
    }
    owed
}

/// Whether the journal has as many ticks as follow its calls.
pub(crate) fn has_its_ticks(plan: &Plan, journal: &[Event]) -> bool
    ensures { IsTrue result
        ↔ (count_by rule.is_tick journal.now ≡ rule.ticks_owed plan.now journal.now) }
{
    ticks_in(journal) as u128 == ticks_owed(plan, journal)
}
