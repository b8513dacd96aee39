//! The cells that are read off tallies. `specs/Tallies.antt` says which.

ghost use Rattle.std.specs.Prelude.{◌≡◌, ◌<◌, ◌+◌, ◌^◌};
ghost use Rattle.jh_tables.specs.Limits.{max_loss};
ghost use Rattle.jh_tables.specs.Tallies.{delay_fixed, greatest_level, level_held, link_now};
ghost use Rattle.jh_tables.specs.Tallies.{node_now};
ghost use Rattle.jh_tables.specs.Standing.{IsWithin};

use crate::cells::{Life, Link, NodeCell};
use crate::counted::{FixedDelay, LEVELS, LinkTally, NodeTally};

/// The level at this place among the counts, where its count is not 0, and 0 otherwise.
fn level_held(losses: &[u16; LEVELS], place: usize) -> u8
    requires { place < max_loss }
    ensures { result ≡ level_held losses.now place }
{
    if losses[place] > 0 {
        place as u8 + 1
    } else {
        0
    }
}

/// The greatest level of loss that is held, or else the one of the start.
fn greatest_level(losses: &[u16; LEVELS], start: u8) -> u8
    ensures { result ≡ greatest_level losses.now start }
{
    let mut greatest = start;
    for place in 0..LEVELS {
        greatest = greatest.max(level_held(losses, place));
    }
    greatest
}

/// The link that is read off a tally and the latest fix.
pub(crate) fn link_now(tally: &LinkTally, fix: Option<FixedDelay>) -> Link
    requires { delay_fixed fix tally.now.start.delay + tally.now.slowed_ms < 2 ^ 64 }
    ensures { result ≡ link_now tally.now fix }
{
    let delay = match fix {
        Some(fixed) => fixed.ms,
        None => tally.start.delay,
    };
    Link {
        cut: tally.start.cut || tally.cuts > 0,
        delay: delay + tally.slowed_ms,
        loss: greatest_level(&tally.losses, tally.start.loss),
    }
}

/// What the process does that is read off a tally.
fn life_now(tally: &NodeTally) -> Life
    ensures { result ≡ (node_now tally.now).process }
{
    if tally.start.process == Life::Killed || tally.kills > 0 {
        Life::Killed
    } else if tally.start.process == Life::Paused || tally.pauses > 0 {
        Life::Paused
    } else {
        Life::Running
    }
}

/// The node that is read off a tally.
pub(crate) fn node_now(tally: &NodeTally) -> NodeCell
    requires { IsWithin (2 ^ 61) tally.now.start.clock × IsWithin (2 ^ 61) tally.now.bumped_ms }
    ensures { result ≡ node_now tally.now }
{
    NodeCell {
        process: life_now(tally),
        clock: tally.start.clock + tally.bumped_ms,
    }
}
