//! Points of calls, each once. `specs/Points.antt` has the rule.

ghost use Rattle.std.specs.Prelude.{◌≡◌, ◌≤◌, All, IfOk};
ghost use Rattle.jh_plots.specs.Calls as rule;
ghost use Rattle.jh_plots.specs.Points.{ArePointsOf, IsPointOfCall};
ghost use Rattle.jh_plots.specs.PointsInside as inside;
ghost use Rattle.jh_plots.specs.PointsInside.{IsInPanel};
ghost use Rattle.jh_plots.specs.ScaleInside.{IsPlotted, IsScale};

use crate::calls::TimedCall;
use crate::latency::latency_pixel;
use crate::plot::Point;
use crate::scale::{Scale, time_pixel};
use jh_ops::Kind;
use std::alloc::{AllocError, Global};
use std::collections::BTreeSet;

/// How long a call took: without a completion, up to the end of the time.
pub(crate) fn latency_of(end: u64, call: &TimedCall) -> u64
    ensures { result ≡ rule.latency end call.now }
{
    call.ended.unwrap_or(end).saturating_sub(call.asked)
}

/// The point of a call.
fn point_of(scale: &Scale, call: &TimedCall) -> Point
    requires scale { IsScale scale.now }
    requires plotted { IsPlotted scale.now call.now }
    ensures point { IsPointOfCall scale.now call.now result }
    ensures within { IsInPanel result }
{
    Point {
        x: time_pixel(scale.end, call.asked),
        y: latency_pixel(latency_of(scale.end, call), scale.decades),
        kind: call.kind,
    }
}

/// A number for each kind.
fn ending_number(kind: Kind) -> u64
    ensures value { result ≡ inside.ending_number kind }
    ensures bound { result ≤ 3 }
{
    match kind {
        Kind::Invoke => 0,
        Kind::Ok => 1,
        Kind::Fail => 2,
        Kind::Info => 3,
    }
}

/// A number for each point.
fn point_number(point: Point) -> u64
    ensures { result ≡ inside.point_number point }
{
    (ending_number(point.kind) * 65536 + u64::from(point.x)) * 65536 + u64::from(point.y)
}

/// The points of calls, each once, in the order of their first calls.
pub(crate) fn points_of(
    alloc: Global,
    scale: &Scale,
    calls: &[TimedCall],
) -> Result<Vec<Point>, AllocError>
    requires scale { IsScale scale.now }
    requires plotted { All (IsPlotted scale.now) calls.now }
    ensures { IfOk result (λ points. ArePointsOf scale.now calls.now points.items) }
{
    let mut seen = BTreeSet::new(alloc);
    let mut points = Vec::new(alloc);
    for call in calls {
        let point = point_of(scale, call);
        if seen.insert(point_number(point))? {
            points.push(point)?;
        }
    }
    Ok(points)
}
