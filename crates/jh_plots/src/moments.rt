//! When each record was made. `specs/Times.antt` has the rule.

ghost use Rattle.std.specs.Prelude.{◌≡◌, ◌<◌, ◌^◌, IfOk, MatchOption};
ghost use Rattle.jh_ops.specs.Operation.{operations};
ghost use Rattle.jh_plots.specs.MomentsInside.{AreTimesOf};
ghost use Rattle.jh_plots.specs.Times as rule;
ghost use Rattle.jh_plots.specs.Times.{HaveTimes, IsFirstTimeless};

use jh_ops::Op;
use std::alloc::{AllocError, Global};

/// When the records of a history were made, in nanoseconds.
#[derive(Drop)]
pub(crate) struct Times {
    /// One for each record; none is below the one before it.
    pub(crate) moments: Vec<u64>,
    /// Where the axis of time ends.
    pub(crate) end: u64,
}

/// The index of the first record that has no time.
pub(crate) fn first_timeless(history: &[Op]) -> Option<usize>
    ensures { MatchOption result (HaveTimes (operations history.now))
        (IsFirstTimeless (operations history.now)) }
{
    for (index, op) in history.iter().enumerate() {
        if op.time.is_none() {
            return Some(index);
        }
    }
    None
}

/// The nanoseconds of a time.
fn nanoseconds(time: Option<i64>) -> u64
    ensures value { result ≡ rule.nanoseconds time }
    ensures bound { result < 2 ^ 63 }
{
    match time {
        Some(time) => u64::try_from(time).unwrap_or(0),
        None => 0,
    }
}

/// When each record was made, and where the time ends.
pub(crate) fn times_of(alloc: Global, history: &[Op]) -> Result<Times, AllocError>
    ensures { IfOk result (λ times. AreTimesOf (operations history.now) times) }
{
    let mut moments = Vec::new(alloc);
    let mut latest: u64 = 0;
    for op in history {
        latest = latest.max(nanoseconds(op.time));
        moments.push(latest)?;
    }
    let end = latest.max(1);
    Ok(Times { moments, end })
}
