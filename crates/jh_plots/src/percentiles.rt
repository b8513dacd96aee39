//! Percentiles of latencies in each window of time. `specs/Percentiles.antt` has the rule.

ghost use Rattle.std.specs.Prelude.{◌≡◌, ◌≤◌, ◌<◌, All, IfOk, length};
ghost use Rattle.std.specs.List.Sorted.{IsNonDecreasing};
ghost use Rattle.jh_plots.specs.Latencies.{IsLatencyPixel};
ghost use Rattle.jh_plots.specs.Percentiles as rule;
ghost use Rattle.jh_plots.specs.Percentiles.{ArePercentilesOf, IsRowOf};
ghost use Rattle.jh_plots.specs.PercentilesInside.{AreRowsOnAxis};
ghost use Rattle.jh_plots.specs.ScaleInside.{IsPlotted, IsScale};

use crate::calls::TimedCall;
use crate::latency::latency_pixel;
use crate::plot::Percentiles;
use crate::rates::{middle_pixel, width_of};
use crate::scale::Scale;
use std::alloc::{AllocError, Global};

/// How long a call took, if it was completed.
fn known_latency(call: &TimedCall) -> Option<u64>
    ensures { result ≡ rule.known_latency call.now }
{
    match call.ended {
        Some(ended) => Some(ended.saturating_sub(call.asked)),
        None => None,
    }
}

/// How long a call took, if it was asked for in the window and completed.
fn latency_within(width: u64, window: u64, call: &TimedCall) -> Option<u64>
    requires { 1 ≤ width }
    ensures { result ≡ rule.latency_within width window call.now }
{
    if call.asked / width == window {
        known_latency(call)
    } else {
        None
    }
}

/// The latencies of the completed calls that were asked for in the window.
fn latencies_in(
    alloc: Global,
    width: u64,
    window: u64,
    calls: &[TimedCall],
) -> Result<Vec<u64>, AllocError>
    requires { 1 ≤ width }
    ensures { IfOk result (λ found. found.items ≡ rule.latencies_in width calls.now window) }
{
    let mut latencies = Vec::new(alloc);
    for call in calls {
        if let Some(latency) = latency_within(width, window, call) {
            latencies.push(latency)?;
        }
    }
    Ok(latencies)
}

/// The pixel of a percentile of sorted latencies.
fn percentile(percent: usize, scale: &Scale, sorted: &[u64]) -> u16
    requires scale { IsScale scale.now }
    requires latencies { AreRowsOnAxis scale.now sorted.now }
    requires some { 0 < length sorted.now }
    requires percent { percent ≤ 100 }
    ensures { IsLatencyPixel scale.now.decades (rule.nearest_rank percent sorted.now) result }
{
    let rank = (percent as u128 * sorted.len() as u128).div_ceil(100) as usize;
    latency_pixel(sorted[rank.saturating_sub(1)], scale.decades)
}

/// The row of a window that has these latencies.
fn row_of(width: u64, scale: &Scale, window: u64, latencies: Vec<u64>) -> Percentiles
    requires scale { IsScale scale.now }
    requires latencies { AreRowsOnAxis scale.now latencies.items }
    requires some { 0 < length latencies.items }
    ensures { IsRowOf width scale.now window latencies.items result }
{
    let mut sorted = latencies;
    sorted.sort_unstable();
    Percentiles {
        x: middle_pixel(width, scale.end, window),
        p50: percentile(50, scale, &sorted),
        p95: percentile(95, scale, &sorted),
        p99: percentile(99, scale, &sorted),
        greatest: percentile(100, scale, &sorted),
    }
}

/// A row for each window with a latency, in order.
pub(crate) fn percentiles_of(
    alloc: Global,
    scale: &Scale,
    calls: &[TimedCall],
) -> Result<Vec<Percentiles>, AllocError>
    requires scale { IsScale scale.now }
    requires plotted { All (IsPlotted scale.now) calls.now }
    ensures { IfOk result (λ rows. ArePercentilesOf scale.now calls.now rows.items) }
{
    let width = width_of(30, scale.end);
    let mut rows = Vec::new(alloc);
    for window in 0..scale.end / width + 1 {
        let latencies = latencies_in(alloc, width, window, calls)?;
        if !latencies.is_empty() {
            rows.push(row_of(width, scale, window, latencies))?;
        }
    }
    Ok(rows)
}
