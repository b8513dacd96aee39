//! The numbers beside the axes. `specs/Ticks.antt` has the rule.

ghost use Rattle.std.specs.Prelude.{◌≡◌, ◌≤◌, ◌<◌, ◌*◌, ◌/◌, ◌^◌, IfOk};
ghost use Rattle.jh_plots.specs.Ticks as rule;

use crate::axes::{pixel, round_up};
use crate::plot::Tick;
use crate::scale::time_pixel;
use std::alloc::{AllocError, Global};

const NS_PER_MS: u64 = 1_000_000;

/// From one number of the axis of time to the next, in milliseconds.
fn time_step_ms(end: u64) -> u64
    requires { end < 2 ^ 63 }
    ensures step { result ≡ rule.time_step_ms end }
    ensures some { 1 ≤ result }
{
    round_up(end / (11 * NS_PER_MS) + 1)
}

/// The number at so many steps.
fn time_tick(end: u64, step: u64, number: u64) -> Tick
    requires some { 1 ≤ end }
    requires within { number * step * 1000000 ≤ end }
    ensures { result ≡ rule.time_tick end step number }
{
    let value = number * step;
    Tick {
        pixel: time_pixel(end, value * NS_PER_MS),
        value,
    }
}

/// How many steps reach no further than the end.
fn steps_within(end: u64, step: u64) -> u64
    requires { 1 ≤ step }
    ensures { result ≡ end / (step * 1000000) }
{
    (u128::from(end) / (u128::from(step) * u128::from(NS_PER_MS))) as u64
}

/// The numbers of the axis of time: every step from 0 on, up to the end.
pub(crate) fn time_ticks(alloc: Global, end: u64) -> Result<Vec<Tick>, AllocError>
    requires some { 1 ≤ end }
    requires fits { end < 2 ^ 63 }
    ensures { IfOk result (λ ticks. ticks.items ≡ rule.time_ticks end) }
{
    let step = time_step_ms(end);
    let mut ticks = Vec::new(alloc);
    for number in 0..steps_within(end, step) + 1 {
        ticks.push(time_tick(end, step, number))?;
    }
    Ok(ticks)
}

/// The number at so many decades.
fn latency_tick(decades: u32, decade: u32) -> Tick
    requires some { 1 ≤ decades }
    requires few { decades ≤ 14 }
    requires within { decade ≤ decades }
    ensures { result ≡ rule.latency_tick decades decade }
{
    Tick {
        pixel: pixel(299, u128::from(decade), u128::from(decades)),
        value: 10u64.pow(5 + decade),
    }
}

/// The numbers of the axis of latencies: each power of ten.
pub(crate) fn latency_ticks(alloc: Global, decades: u32) -> Result<Vec<Tick>, AllocError>
    requires some { 1 ≤ decades }
    requires few { decades ≤ 14 }
    ensures { IfOk result (λ ticks. ticks.items ≡ rule.latency_ticks decades) }
{
    let mut ticks = Vec::new(alloc);
    for decade in 0..decades + 1 {
        ticks.push(latency_tick(decades, decade))?;
    }
    Ok(ticks)
}

/// Into how many equal parts the axis of rates is divided.
fn parts_of(top: u64) -> u64
    ensures parts { result ≡ rule.parts_of top }
    ensures some { 1 ≤ result }
    ensures few { result ≤ 5 }
{
    if top % 5 == 0 {
        5
    } else if top % 2 == 0 {
        2
    } else {
        1
    }
}

/// The number at so many parts.
fn rate_tick(top: u64, parts: u64, part: u64) -> Tick
    requires some { 1 ≤ parts }
    requires within { part ≤ parts }
    ensures { result ≡ rule.rate_tick top parts part }
{
    Tick {
        pixel: pixel(299, u128::from(part), u128::from(parts)),
        value: part * (top / parts),
    }
}

/// The numbers of the axis of rates: where each part begins, and the end of the last.
pub(crate) fn rate_ticks(alloc: Global, top: u64) -> Result<Vec<Tick>, AllocError>
    ensures { IfOk result (λ ticks. ticks.items ≡ rule.rate_ticks top) }
{
    let parts = parts_of(top);
    let mut ticks = Vec::new(alloc);
    for part in 0..parts + 1 {
        ticks.push(rate_tick(top, parts, part))?;
    }
    Ok(ticks)
}
