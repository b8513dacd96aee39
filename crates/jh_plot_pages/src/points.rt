//! The points of calls. `specs/Points.antt` has the rule.

ghost use Rattle.std.specs.Prelude.{◌≡◌, IfErr, OnOk};
ghost use Rattle.std.specs.Io.KnownBytes.{Appends};
ghost use Rattle.std.specs.List.{flat_map};
ghost use Rattle.jh_plot_pages.specs.Points as rule;
ghost use Rattle.jh_plot_pages.specs.Points.{point_of_kind, points_text};

use crate::markup::put;
use jh_ops::Kind;
use jh_plots::Point;
use jh_timeline_pages::PageError;
use std::io::Write;

/// The class of what ended so in the style.
pub(crate) fn kind_class(kind: Kind) -> &'static str
    ensures { result.now ≡ rule.kind_class kind }
{
    match kind {
        Kind::Ok => "ok",
        Kind::Fail => "fail",
        _ => "info",
    }
}

/// Writes a point if it ended so.
fn write_point<W: Write>(kind: Kind, point: &Point, writer: &mut W) -> Result<(), PageError>
    ensures bytes { OnOk result
        (Appends (W.contents writer.old) (W.contents writer.new) (point_of_kind kind point.now)) }
    ensures error { IfErr result (λ e. e ≡ PageError.Write) }
{
    if !point.kind.is(kind) {
        return Ok(());
    }
    let x = point.x;
    let y = point.y;
    write!(writer, "M{x}-{y}h0").map_err(|_| PageError::Write)
}

/// Writes the places of all points that ended so.
fn write_each_point<W: Write>(kind: Kind, points: &[Point], writer: &mut W) -> Result<(), PageError>
    ensures bytes { OnOk result (Appends (W.contents writer.old) (W.contents writer.new)
        (flat_map (point_of_kind kind) points.now)) }
    ensures error { IfErr result (λ e. e ≡ PageError.Write) }
{
    for point in points {
        write_point(kind, point, writer)?;
    }
    Ok(())
}

/// Writes the points that ended so.
pub(crate) fn write_points<W: Write>(
    points: &[Point],
    kind: Kind,
    writer: &mut W,
) -> Result<(), PageError>
    ensures bytes { OnOk result
        (Appends (W.contents writer.old) (W.contents writer.new) (points_text points.now kind)) }
    ensures error { IfErr result (λ e. e ≡ PageError.Write) }
{
    put(b"<path class=\"", writer)?;
    put(kind_class(kind).as_bytes(), writer)?;
    put(b"\" d=\"", writer)?;
    write_each_point(kind, points, writer)?;
    put(b"\"/>\n", writer)
}
