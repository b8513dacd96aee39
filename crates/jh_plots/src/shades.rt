//! The times at which faults were active. `specs/Shades.antt` has the rule.

ghost use Rattle.std.specs.Prelude.{◌≡◌, ◌≤◌, IfOk};
ghost use Rattle.jh_ops.specs.Operation.{operations};
ghost use Rattle.jh_plots.specs.MomentsInside.{AreTimesOf};
ghost use Rattle.jh_plots.specs.Shades.{AreShadesOf, IsShadeOf};
ghost use Rattle.jh_plots.specs.Times as rule;

use crate::moments::Times;
use crate::plot::Shade;
use crate::scale::time_pixel;
use jh_bands::Band;
use jh_ops::Op;
use std::alloc::{AllocError, Global};

/// The time of the record at an index, and the end for one that the history does not have.
fn moment_or_end(history: &[Op], times: &Times, index: usize) -> u64
    requires { AreTimesOf (operations history.now) times.now }
    ensures moment { result ≡ rule.moment_or_end (operations history.now) index }
    ensures within { result ≤ times.now.end }
{
    if index < times.moments.len() {
        times.moments[index]
    } else {
        times.end
    }
}

/// The shade of a fault.
fn shade_of(alloc: Global, history: &[Op], times: &Times, band: &Band) -> Result<Shade, AllocError>
    requires { AreTimesOf (operations history.now) times.now }
    ensures { IfOk result (IsShadeOf (operations history.now) band.now) }
{
    let to = match band.to {
        Some(index) => moment_or_end(history, times, index),
        None => times.end,
    };
    let label = band.label.clone()?;
    Ok(Shade {
        from: time_pixel(times.end, moment_or_end(history, times, band.from)),
        to: time_pixel(times.end, to),
        label,
    })
}

/// The shades of faults, in their order.
pub(crate) fn shades_of(
    alloc: Global,
    history: &[Op],
    times: &Times,
    bands: &[Band],
) -> Result<Vec<Shade>, AllocError>
    requires { AreTimesOf (operations history.now) times.now }
    ensures { IfOk result
        (λ shades. AreShadesOf (operations history.now) bands.now shades.items) }
{
    let mut shades = Vec::new(alloc);
    for band in bands {
        shades.push(shade_of(alloc, history, times, band)?)?;
    }
    Ok(shades)
}
