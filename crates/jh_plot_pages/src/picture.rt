//! The three pictures of a panel. `specs/Pictures.antt` has the rule; the legends here can be changed alone.

ghost use Rattle.std.specs.Prelude.{OnOk};
ghost use Rattle.std.specs.Io.KnownBytes.{Appends};
ghost use Rattle.jh_plot_pages.specs.Pictures.{back_text, latencies_text, latency_back_text};
ghost use Rattle.jh_plot_pages.specs.Pictures.{percentiles_text, rate_back_text, rates_text};

use crate::axes::{Axis, write_axis, write_shades};
use crate::lines::{Quantile, write_quantile, write_rate_line};
use crate::markup::put;
use crate::points::write_points;
use jh_ops::Kind;
use jh_plots::{Panel, Plot};
use jh_timeline_pages::PageError;
use std::alloc::Global;
use std::io::Write;

/// The opening of a picture. It counts from the lower left pixel of its panel, and has a margin at each side: for the
/// numbers at the left and below, and for the legend above.
const PICTURE: &[u8] = b"<div class=\"picture\">\n\
    <svg xmlns=\"http://www.w3.org/2000/svg\" width=\"1000\" height=\"370\" viewBox=\"-80 -340 1000 370\">\n\
    <path class=\"frame\" d=\"M0 0V-299H899V0z\"/>\n";

/// What the picture of latencies is called, and what its signs mean.
const LATENCIES: &[u8] = b"<g class=\"points\">\n<text class=\"name\" y=\"-318\">Latencies</text>\n\
    <path class=\"ok\" d=\"M150-322h0\"/><text x=\"160\" y=\"-318\">:ok</text>\n\
    <path class=\"fail\" d=\"M210-322h0\"/><text x=\"220\" y=\"-318\">:fail</text>\n\
    <path class=\"info\" d=\"M280-322h0\"/><text x=\"290\" y=\"-318\">:info</text>\n";

/// What the picture of percentiles is called, and what its lines mean.
const PERCENTILES: &[u8] =
    b"<g class=\"lines\">\n<text class=\"name\" y=\"-318\">Percentiles</text>\n\
    <path class=\"p50\" d=\"M150-322h30\"/><text x=\"186\" y=\"-318\">50 %</text>\n\
    <path class=\"p95\" d=\"M240-322h30\"/><text x=\"276\" y=\"-318\">95 %</text>\n\
    <path class=\"p99\" d=\"M330-322h30\"/><text x=\"366\" y=\"-318\">99 %</text>\n\
    <path class=\"greatest\" d=\"M420-322h30\"/><text x=\"456\" y=\"-318\">greatest</text>\n";

/// What the picture of rates is called, and what its lines mean.
const RATES: &[u8] = b"<g class=\"lines\">\n<text class=\"name\" y=\"-318\">Rates</text>\n\
    <path class=\"ok\" d=\"M150-322h30\"/><text x=\"186\" y=\"-318\">:ok</text>\n\
    <path class=\"fail\" d=\"M240-322h30\"/><text x=\"276\" y=\"-318\">:fail</text>\n\
    <path class=\"info\" d=\"M330-322h30\"/><text x=\"366\" y=\"-318\">:info</text>\n";

/// The end of a picture.
const END: &[u8] = b"</g>\n</svg>\n</div>\n";

/// Writes what all pictures have behind their data.
fn write_back<W: Write>(alloc: Global, plot: &Plot, writer: &mut W) -> Result<(), PageError>
    ensures { OnOk result
        (Appends (W.contents writer.old) (W.contents writer.new) (back_text plot.now)) }
{
    put(PICTURE, writer)?;
    write_shades(alloc, plot.shades.as_slice(), writer)?;
    write_axis(plot.times.as_slice(), Axis::Times, writer)
}

/// Writes what pictures of latencies have behind their data.
fn write_latency_back<W: Write>(alloc: Global, plot: &Plot, writer: &mut W) -> Result<(), PageError>
    ensures { OnOk result
        (Appends (W.contents writer.old) (W.contents writer.new) (latency_back_text plot.now)) }
{
    write_back(alloc, plot, writer)?;
    write_axis(plot.latencies.as_slice(), Axis::Latencies, writer)
}

/// Writes what pictures of rates have behind their data.
fn write_rate_back<W: Write>(alloc: Global, plot: &Plot, writer: &mut W) -> Result<(), PageError>
    ensures { OnOk result
        (Appends (W.contents writer.old) (W.contents writer.new) (rate_back_text plot.now)) }
{
    write_back(alloc, plot, writer)?;
    write_axis(plot.rates.as_slice(), Axis::Rates, writer)
}

/// Writes the latencies of calls.
pub(crate) fn write_latencies<W: Write>(
    alloc: Global,
    plot: &Plot,
    panel: &Panel,
    writer: &mut W,
) -> Result<(), PageError>
    ensures { OnOk result
        (Appends (W.contents writer.old) (W.contents writer.new)
        (latencies_text plot.now panel.now)) }
{
    let points = panel.points.as_slice();
    write_latency_back(alloc, plot, writer)?;
    put(LATENCIES, writer)?;
    write_points(points, Kind::Ok, writer)?;
    write_points(points, Kind::Fail, writer)?;
    write_points(points, Kind::Info, writer)?;
    put(END, writer)
}

/// Writes percentiles of latencies.
pub(crate) fn write_percentiles<W: Write>(
    alloc: Global,
    plot: &Plot,
    panel: &Panel,
    writer: &mut W,
) -> Result<(), PageError>
    ensures { OnOk result
        (Appends (W.contents writer.old) (W.contents writer.new)
        (percentiles_text plot.now panel.now)) }
{
    let rows = panel.percentiles.as_slice();
    write_latency_back(alloc, plot, writer)?;
    put(PERCENTILES, writer)?;
    write_quantile(rows, Quantile::P50, writer)?;
    write_quantile(rows, Quantile::P95, writer)?;
    write_quantile(rows, Quantile::P99, writer)?;
    write_quantile(rows, Quantile::Greatest, writer)?;
    put(END, writer)
}

/// Writes how many calls a second ended, by how they ended.
pub(crate) fn write_rates<W: Write>(
    alloc: Global,
    plot: &Plot,
    panel: &Panel,
    writer: &mut W,
) -> Result<(), PageError>
    ensures { OnOk result
        (Appends (W.contents writer.old) (W.contents writer.new) (rates_text plot.now panel.now)) }
{
    let rows = panel.rates.as_slice();
    write_rate_back(alloc, plot, writer)?;
    put(RATES, writer)?;
    write_rate_line(rows, Kind::Ok, writer)?;
    write_rate_line(rows, Kind::Fail, writer)?;
    write_rate_line(rows, Kind::Info, writer)?;
    put(END, writer)
}
