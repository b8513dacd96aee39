//! When random faults begin and end. `specs/Times.antt` has the rules, which know a span alone: of calls, or
//! of milliseconds.

ghost use Rattle.std.specs.Prelude.{◌≡◌, ◌<◌, ◌≤◌};
ghost use Rattle.jh_random_faults.specs.Times as rule;

use crate::draws::Draw;

/// Whether a candidate with this first random number heals, which is to withdraw all faults that are
/// active then: two candidates in three do.
pub fn heals(first_number: u64) -> bool
    ensures { result ≡ rule.heals first_number }
{
    first_number % 3 != 0
}

/// When a candidate heals in a span of calls or milliseconds: when a quarter of it is left.
pub fn heal_within(span: u32) -> u32
    requires { 1 ≤ span }
    ensures heal { result ≡ rule.heal_within span }
    ensures within { (1 ≤ result) × (result ≤ span) }
{
    span - span / 4
}

/// When the fault of a draw begins in a span of calls or milliseconds: before a quarter of it is left.
pub fn begin_within(span: u32, draw: Draw) -> u32
    requires { 1 ≤ span }
    ensures begin { result ≡ rule.begin_within span draw }
    ensures within { result < span }
{
    (draw.begin % u64::from(heal_within(span))) as u32
}

/// When the fault of a draw is withdrawn in a span of calls or milliseconds, where it is: behind its
/// begin, and at the latest when the span is over.
pub fn end_within(span: u32, draw: Draw) -> u32
    requires { 1 ≤ span }
    ensures end { result ≡ rule.end_within span draw }
    ensures within { (rule.begin_within span draw < result) × (result ≤ span) }
{
    let begin = begin_within(span, draw);
    begin + 1 + (draw.length % u64::from(span - begin)) as u32
}

/// Whether the fault of a draw stays to the end, as one in four does.
pub fn stays(draw: Draw) -> bool
    ensures { result ≡ rule.stays draw }
{
    draw.stay % 4 == 0
}
