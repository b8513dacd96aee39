//! How far the axes of a plot go.

ghost use Rattle.std.specs.Prelude.{◌≡◌, ◌≤◌, ◌<◌};
ghost use Rattle.jh_plots.specs.Times as rule;

use crate::axes::pixel;

/// How far the axes go, which all panels share.
#[derive(Clone, Copy, Debug)]
pub(crate) struct Scale {
    /// The end of the axis of time, in nanoseconds.
    pub(crate) end: u64,
    /// The decades of the axis of latencies.
    pub(crate) decades: u32,
    /// The end of the axis of rates, in calls a second.
    pub(crate) top: u64,
}

/// The pixel of a time.
pub(crate) fn time_pixel(end: u64, time: u64) -> u16
    requires some { 0 < end }
    requires within { time ≤ end }
    ensures pixel { result ≡ rule.time_pixel end time }
    ensures within { result ≤ 899 }
{
    pixel(899, u128::from(time), u128::from(end))
}
