//! The logarithmic axis of latencies. `specs/Latencies.antt` has the rule.

ghost use Rattle.std.specs.Prelude.{◌≡◌, ◌<◌, ◌≤◌, ◌+◌, ◌*◌, ◌^◌, ℕ, slice_index};
ghost use Rattle.jh_plots.specs.Latencies.{AreDecades, IsHundredths, IsLatencyPixel};
ghost use Rattle.jh_plots.specs.Latencies.{last_latency};

use crate::axes::pixel;
use crate::thresholds::THRESHOLDS;

/// How many of the thresholds are below a number of 19 digits.
fn thresholds_below(number: u64) -> usize
    ensures within { result ≤ 99 }
    ensures before { (k : ℕ) → k < result → slice_index THRESHOLDS k < number }
    ensures behind { (k : ℕ) → result ≤ k → k < 99 → number ≤ slice_index THRESHOLDS k }
{
    THRESHOLDS.partition_point(|threshold| *threshold < number)
}

/// A hundred times the decimal logarithm of a number.
fn hundredths(number: u64) -> u32
    requires some { 0 < number }
    requires fits { number < 10 ^ 19 }
    ensures { IsHundredths number result }
{
    let digits = number.ilog10();
    let scaled = number * 10u64.pow(18 - digits);
    digits * 100 + thresholds_below(scaled) as u32
}

/// The pixel of a latency on an axis of so many decades.
pub(crate) fn latency_pixel(latency: u64, decades: u32) -> u16
    requires some { 1 ≤ decades }
    requires few { decades ≤ 14 }
    requires within { latency ≤ last_latency decades }
    requires fits { latency < 2 ^ 63 }
    ensures pixel { IsLatencyPixel decades latency result }
    ensures within { result ≤ 299 }
{
    let position = hundredths(latency.max(100_000)) - 500;
    pixel(299, u128::from(position), 100 * u128::from(decades))
}

/// The decades of an axis up to a latency.
pub(crate) fn decades_of(greatest: u64) -> u32
    requires { greatest < 2 ^ 63 }
    ensures decades { AreDecades greatest result }
    ensures few { result ≤ 14 }
{
    let mut decades = 1;
    let mut last: u128 = 1_000_000;
    while last < u128::from(greatest) {
        last *= 10;
        decades += 1;
    }
    decades
}
