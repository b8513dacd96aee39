//! The plot of a history. `specs/Plots.antt` has the rule.

ghost use Rattle.std.specs.Prelude.{◌≡◌, ◌≤◌, ◌<◌, ◌^◌, All, IfOk, MatchResult, length, map};
ghost use Rattle.jh_ops.specs.Operation.{operations};
ghost use Rattle.jh_ops.specs.Pairing.{IsPairWithin, IsWellFormed, history_pairs};
ghost use Rattle.jh_plots.specs.Calls.{latency};
ghost use Rattle.jh_plots.specs.CallsInside.{AreCallsWithin};
ghost use Rattle.jh_plots.specs.PanelsInside.{AreGroupsOf, IsGroupPlotted};
ghost use Rattle.jh_plots.specs.Plots.{IsPlotOf, IsScaleOf, HasNoPlot};
ghost use Rattle.jh_plots.specs.Rates as rates;
ghost use Rattle.jh_plots.specs.RatesInside.{AreSmallCounts};
ghost use Rattle.jh_plots.specs.ScaleInside.{IsPlotted, IsScale};
ghost use Rattle.jh_plots.specs.Times.{HaveTimes, greatest};

use crate::calls::{TimedCall, calls_of};
use crate::error::PlotError;
use crate::latency::decades_of;
use crate::moments::{first_timeless, times_of};
use crate::panels::{Group, groups_of, panels_of};
use crate::plot::Plot;
use crate::points::latency_of;
use crate::rates::{most_of, rate_axis_top, width_of};
use crate::scale::Scale;
use crate::shades::shades_of;
use crate::ticks::{latency_ticks, rate_ticks, time_ticks};
use jh_bands::Band;
use jh_ops::{Op, Pair, pair};
use std::alloc::{AllocError, Global};

/// The greatest latency of calls.
fn greatest_latency(end: u64, calls: &[TimedCall]) -> u64
    ensures { result ≡ greatest (map (latency end) calls.now) }
{
    let mut most: u64 = 0;
    for call in calls {
        most = most.max(latency_of(end, call));
    }
    most
}

/// The greatest count of a window of any group.
fn most_in(groups: &[Group]) -> usize
    ensures { result ≡ greatest (map (λ group. rates.most_of group.counts.items) groups.now) }
{
    let mut most: usize = 0;
    for group in groups {
        most = most.max(most_of(&group.counts));
    }
    most
}

/// How far the axes go.
fn scale_of(end: u64, calls: &[TimedCall], groups: &[Group]) -> Scale
    requires some { 1 ≤ end }
    requires fits { end < 2 ^ 63 }
    requires calls { AreCallsWithin end calls.now }
    requires groups { AreGroupsOf end calls.now (length groups.now) groups.now }
    requires few { All (λ group. All AreSmallCounts group.counts.items) groups.now }
    ensures scale { IsScaleOf end calls.now (length groups.now) result }
    ensures good { IsScale result }
    ensures calls { All (IsPlotted result) calls.now }
    ensures groups { All (IsGroupPlotted result) groups.now }
{
    Scale {
        end,
        decades: decades_of(greatest_latency(end, calls)),
        top: rate_axis_top(width_of(100, end), most_in(groups)),
    }
}

/// The plot of a history by its pairs.
fn plot_of_pairs(
    alloc: Global,
    history: &[Op],
    bands: &[Band],
    pairs: &[Pair],
) -> Result<Plot, AllocError>
    requires pairs { pairs.now ≡ history_pairs (operations history.now) }
    requires within { All (IsPairWithin (length history.now)) pairs.now }
    ensures { IfOk result (IsPlotOf (operations history.now) bands.now) }
{
    let times = times_of(alloc, history)?;
    let found = calls_of(alloc, history, &times, pairs)?;
    let groups = groups_of(alloc, times.end, &found.calls, found.functions.len())?;
    let scale = scale_of(times.end, &found.calls, &groups);
    let panels = panels_of(alloc, &scale, &found.functions, &groups)?;
    let shades = shades_of(alloc, history, &times, bands)?;
    Ok(Plot {
        times: time_ticks(alloc, scale.end)?,
        latencies: latency_ticks(alloc, scale.decades)?,
        rates: rate_ticks(alloc, scale.top)?,
        shades,
        panels,
    })
}

/// The plot of a history: the latency of each call over time, percentiles of latencies, and how many calls a
/// second ended, as Jepsen's `checker/perf` draws them. Each function of clients' calls has a panel; the eighth
/// panel has all further functions. Each band has a shade; an index of a band outside the history counts as the
/// end of the history.
///
/// Times are nanoseconds. One that goes back counts as the one before it, and one below 0 as 0.
///
/// Errors: `TimeMissing` with the index of the first record that has no time; then those of `jh_ops::pair`, as `Pair`;
/// then `OutOfMemory`.
///
/// Takes O(n log n) for n records, and memory as its pairs do.
pub fn plot_of(alloc: Global, history: &[Op], bands: &[Band]) -> Result<Plot, PlotError>
    ensures { MatchResult result
        (λ plot. HaveTimes (operations history.now) × IsWellFormed (operations history.now)
        × IsPlotOf (operations history.now) bands.now plot)
        (HasNoPlot (operations history.now)) }
{
    if let Some(index) = first_timeless(history) {
        return Err(PlotError::TimeMissing { index });
    }
    let pairs = pair(alloc, history)?;
    Ok(plot_of_pairs(alloc, history, bands, &pairs)?)
}
