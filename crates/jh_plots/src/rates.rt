//! How many calls ended in each window of time, and how many a second. `specs/Rates.antt` has the rule.

ghost use Rattle.std.specs.Prelude.{◌≡◌, ◌≤◌, ◌<◌, ◌*◌, ◌^◌, IfOk, All, length};
ghost use Rattle.jh_plots.specs.CallsInside.{AreCallsWithin};
ghost use Rattle.jh_plots.specs.Rates as rule;
ghost use Rattle.jh_plots.specs.RatesInside as inside;
ghost use Rattle.jh_plots.specs.RatesInside.{AreAllOnAxis, AreSmallCounts, AreOnAxis, IsEndedBefore};
ghost use Rattle.jh_plots.specs.ScaleInside.{IsScale};

use crate::axes::{pixel, round_up};
use crate::calls::TimedCall;
use crate::plot::Rate;
use crate::scale::{Scale, time_pixel};
use jh_ops::Kind;
use std::alloc::{AllocError, Global};

/// How many calls ended in a window of time, by how they ended.
#[derive(Clone, Copy, Debug)]
pub(crate) struct Counts {
    pub(crate) ok: usize,
    pub(crate) fail: usize,
    pub(crate) info: usize,
}

/// How long each of so many windows is that reach the end, in nanoseconds; at least a second.
pub(crate) fn width_of(windows: u64, end: u64) -> u64
    requires { 1 ≤ windows }
    ensures width { result ≡ rule.width_of windows end }
    ensures long { 10 ^ 9 ≤ result }
{
    end.div_ceil(windows).max(1_000_000_000)
}

/// The pixel of the middle of a window.
pub(crate) fn middle_pixel(width: u64, end: u64, window: u64) -> u16
    requires some { 1 ≤ end }
    ensures { result ≡ rule.middle_pixel width end window }
{
    let middle = u128::from(window) * u128::from(width) + u128::from(width / 2);
    time_pixel(end, middle.min(u128::from(end)) as u64)
}

/// The counts with one more call of a kind.
fn with_one(counts: Counts, kind: Kind) -> Counts
    requires { AreSmallCounts counts }
    ensures { result ≡ inside.with_one counts kind }
{
    let Counts { ok, fail, info } = counts;
    match kind {
        Kind::Ok => Counts {
            ok: ok + 1,
            fail,
            info,
        },
        Kind::Fail => Counts {
            ok,
            fail: fail + 1,
            info,
        },
        Kind::Info => Counts {
            ok,
            fail,
            info: info + 1,
        },
        Kind::Invoke => counts,
    }
}

/// Counts a call in the window in which it ended.
fn count_call(width: u64, rows: &mut [Counts], call: &TimedCall)
    requires some { 1 ≤ width }
    requires within { IsEndedBefore width (length rows.old) call.now }
    requires few { All AreSmallCounts rows.old }
    ensures { rows.new ≡ inside.counted_call width rows.old call.now }
{
    if let Some(ended) = call.ended {
        let window = (ended / width) as usize;
        rows[window] = with_one(rows[window], call.kind);
    }
}

/// The counts of each window.
pub(crate) fn counts_of(
    alloc: Global,
    end: u64,
    calls: &[TimedCall],
) -> Result<Vec<Counts>, AllocError>
    requires { AreCallsWithin end calls.now }
    ensures counts { IfOk result (λ rows. rows.items ≡ rule.counts_of end calls.now) }
    ensures few { IfOk result (λ rows. All AreSmallCounts rows.items) }
{
    let width = width_of(100, end);
    let none = Counts {
        ok: 0,
        fail: 0,
        info: 0,
    };
    let mut rows = vec![in alloc; none; (end / width) as usize + 1]?;
    for call in calls {
        count_call(width, &mut rows, call);
    }
    Ok(rows)
}

/// The greatest of counts.
pub(crate) fn most_of(rows: &[Counts]) -> usize
    ensures { result ≡ rule.most_of rows.now }
{
    let mut most = 0;
    for row in rows {
        most = most.max(row.ok).max(row.fail).max(row.info);
    }
    most
}

/// Where the axis of rates ends that has room for a count.
pub(crate) fn rate_axis_top(width: u64, most: usize) -> u64
    requires long { 10 ^ 9 ≤ width }
    requires few { most < 2 ^ 63 }
    ensures top { result ≡ rule.rate_axis_top width most }
    ensures some { 1 ≤ result }
    ensures enough { most * 10 ^ 9 ≤ width * result }
{
    let rate = (most as u128 * 1_000_000_000).div_ceil(u128::from(width));
    round_up(rate as u64)
}

/// The pixel of a count.
fn rate_pixel(width: u64, top: u64, count: usize) -> u16
    requires some { 1 ≤ width * top }
    requires enough { count * 10 ^ 9 ≤ width * top }
    ensures { result ≡ rule.rate_pixel width top count }
{
    let part = count as u128 * 1_000_000_000;
    pixel(299, part, u128::from(width) * u128::from(top))
}

/// The row of a window.
fn rate_row(width: u64, scale: &Scale, window: u64, counts: &Counts) -> Rate
    requires scale { IsScale scale.now }
    requires some { 1 ≤ width }
    requires on_axis { AreOnAxis width scale.now counts.now }
    ensures { result ≡ rule.rate_row width scale.now window counts.now }
{
    Rate {
        x: middle_pixel(width, scale.end, window),
        ok: rate_pixel(width, scale.top, counts.ok),
        fail: rate_pixel(width, scale.top, counts.fail),
        info: rate_pixel(width, scale.top, counts.info),
    }
}

/// A row for each window, by its counts.
pub(crate) fn rates_of(
    alloc: Global,
    scale: &Scale,
    counts: &[Counts],
) -> Result<Vec<Rate>, AllocError>
    requires scale { IsScale scale.now }
    requires on_axis { AreAllOnAxis scale.now counts.now }
    ensures { IfOk result (λ rates. rates.items ≡ inside.rows_of scale.now counts.now) }
{
    let width = width_of(100, scale.end);
    let mut rates = Vec::new(alloc);
    for (window, row) in counts.iter().enumerate() {
        rates.push(rate_row(width, scale, window as u64, row))?;
    }
    Ok(rates)
}
