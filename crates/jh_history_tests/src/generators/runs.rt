//! Random runs of a driver and of the plain slow one, side by side. A seed gives the generator, the number of clients,
//! and who asks or ends when.

ghost use Rattle.std.specs.Prelude.{◌<◌};

use crate::plain_generators::{PlainDriver, random_source};
use jh_gen::{Driver, DriverError, Ended, Thread};
use jh_test_kit::Dice;
use std::alloc::{AllocError, Global};
use std::test::Fail;

/// The thread of a number: 0 is the nemesis, n + 1 is client n.
fn thread_of(thread: u32) -> Thread {
    match thread {
        0 => Thread::Nemesis,
        _ => Thread::Client(thread - 1),
    }
}

/// Whether both give a thread the same answer.
fn is_same_answer(
    driver: &mut Driver,
    plain: &mut PlainDriver,
    thread: u32,
    draw: u64,
) -> Result<bool, AllocError> {
    let expected = plain.ask(thread as usize, draw)?;
    Ok(driver.ask(thread_of(thread), draw) == Ok(expected))
}

/// Ends a thread's operation in both.
fn end(driver: &mut Driver, plain: &mut PlainDriver, thread: u32, is_lost: bool) -> bool {
    plain.complete(thread as usize, is_lost);
    let ended = if is_lost { Ended::Info } else { Ended::Ok };
    driver.complete(thread_of(thread), ended).is_ok()
}

/// Whether both give the same answers in a random run of twelve turns: a busy thread ends its operation, another asks.
fn is_same_run(
    driver: &mut Driver,
    plain: &mut PlainDriver,
    dice: &mut Dice,
    threads: u32,
) -> Result<bool, AllocError>
    requires { 0 < threads }
{
    for _ in 0..12u32 {
        let thread = dice.below(u64::from(threads)) as u32;
        let draw = dice.below(1_000_000);
        let is_same = if plain.is_busy(thread as usize) {
            end(driver, plain, thread, draw < 300_000)
        } else {
            is_same_answer(driver, plain, thread, draw)?
        };
        if !is_same {
            return Ok(false);
        }
    }
    Ok(true)
}

/// How many calls a random generator gave in a random run, if driver and definition gave the same answers.
fn calls_in_a_run(alloc: Global, seed: u64) -> Result<Option<usize>, DriverError> {
    let mut dice = Dice::new(seed);
    let mut again = dice;
    let source = random_source(alloc, &mut dice, 3)?;
    let clients = 1 + dice.below(3) as u32;
    let mut plain = PlainDriver::new(alloc, source, clients)?;
    let source = random_source(alloc, &mut again, 3)?;
    let mut driver = match Driver::new(alloc, source, clients) {
        Err(DriverError::BadReserve) => return Ok(Some(0)),
        answer => answer?,
    };
    let is_same = is_same_run(&mut driver, &mut plain, &mut dice, clients + 1)?;
    Ok(is_same.then_some(plain.given()))
}

/// The number of calls of all runs, each made once more where memory was refused.
fn calls_in_runs(alloc: Global, runs: u64) -> Result<Option<usize>, DriverError> {
    let mut calls = 0usize;
    for seed in 0..runs {
        let run = match calls_in_a_run(alloc, seed) {
            Err(_) => calls_in_a_run(alloc, seed)?,
            Ok(run) => run,
        };
        let Some(more) = run else {
            return Ok(None);
        };
        calls = calls.saturating_add(more);
    }
    Ok(Some(calls))
}

/// The runs give thousands of calls, so that they say something.
#[test]
fn random_runs_follow_the_definition(rt: HostRuntime) -> Result<(), Fail> {
    let calls = calls_in_runs(rt.alloc(), 4_000)?;
    assert!(rt; matches!(calls, Some(4_000..)));
    Ok(())
}
