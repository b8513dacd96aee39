//! The lines of percentiles and of rates. `specs/Lines.antt` has the rule.

ghost use Rattle.std.specs.Prelude.{◌≡◌, IfErr, OnOk};
ghost use Rattle.std.specs.Io.KnownBytes.{Appends};
ghost use Rattle.std.specs.List.{flat_map};
ghost use Rattle.jh_plot_pages.specs.Lines as rule;
ghost use Rattle.jh_plot_pages.specs.Lines.{polyline_opening, vertex_text, quantile_vertex, quantile_text};
ghost use Rattle.jh_plot_pages.specs.Lines.{rate_line_text, rate_vertex};

use crate::markup::put;
use crate::points::kind_class;
use jh_ops::Kind;
use jh_plots::{Percentiles, Rate};
use jh_timeline_pages::PageError;
use std::io::Write;

/// What share of the calls is not above a line.
#[derive(Clone, Copy)]
pub(crate) enum Quantile {
    P50,
    P95,
    P99,
    Greatest,
}

/// Writes a vertex of a line.
fn write_vertex<W: Write>(x: u16, y: u16, writer: &mut W) -> Result<(), PageError>
    ensures bytes { OnOk result
        (Appends (W.contents writer.old) (W.contents writer.new) (vertex_text x y)) }
    ensures error { IfErr result (λ e. e ≡ PageError.Write) }
{
    write!(writer, "{x}-{y} ").map_err(|_| PageError::Write)
}

/// Writes the opening of a line of a class in the style.
fn write_opening<W: Write>(class: &str, writer: &mut W) -> Result<(), PageError>
    ensures bytes { OnOk result
        (Appends (W.contents writer.old) (W.contents writer.new) (polyline_opening class.now)) }
    ensures error { IfErr result (λ e. e ≡ PageError.Write) }
{
    write!(writer, "<path class=\"{class}\" d=\"M").map_err(|_| PageError::Write)
}

/// The class of the line of a percentile in the style.
fn quantile_class(quantile: Quantile) -> &'static str
    ensures { result.now ≡ rule.quantile_class quantile }
{
    match quantile {
        Quantile::P50 => "p50",
        Quantile::P95 => "p95",
        Quantile::P99 => "p99",
        Quantile::Greatest => "greatest",
    }
}

/// How high a percentile stands in a row.
fn quantile_height(quantile: Quantile, row: &Percentiles) -> u16
    ensures { result ≡ rule.quantile_height quantile row.now }
{
    match quantile {
        Quantile::P50 => row.p50,
        Quantile::P95 => row.p95,
        Quantile::P99 => row.p99,
        Quantile::Greatest => row.greatest,
    }
}

/// Writes the vertex of a percentile that a row has.
fn write_quantile_vertex<W: Write>(
    quantile: Quantile,
    row: &Percentiles,
    writer: &mut W,
) -> Result<(), PageError>
    ensures bytes { OnOk result
        (Appends (W.contents writer.old) (W.contents writer.new) (quantile_vertex quantile row.now)) }
    ensures error { IfErr result (λ e. e ≡ PageError.Write) }
{
    let height = quantile_height(quantile, row);
    write_vertex(row.x, height, writer)
}

/// Writes the vertices of a percentile.
fn write_quantile_vertices<W: Write>(
    rows: &[Percentiles],
    quantile: Quantile,
    writer: &mut W,
) -> Result<(), PageError>
    ensures bytes { OnOk result (Appends (W.contents writer.old) (W.contents writer.new)
        (flat_map (quantile_vertex quantile) rows.now)) }
    ensures error { IfErr result (λ e. e ≡ PageError.Write) }
{
    for row in rows {
        write_quantile_vertex(quantile, row, writer)?;
    }
    Ok(())
}

/// Writes the line of a percentile.
pub(crate) fn write_quantile<W: Write>(
    rows: &[Percentiles],
    quantile: Quantile,
    writer: &mut W,
) -> Result<(), PageError>
    ensures bytes { OnOk result
        (Appends (W.contents writer.old) (W.contents writer.new)
        (quantile_text rows.now quantile)) }
    ensures error { IfErr result (λ e. e ≡ PageError.Write) }
{
    if rows.is_empty() {
        return Ok(());
    }
    write_opening(quantile_class(quantile), writer)?;
    write_quantile_vertices(rows, quantile, writer)?;
    put(b"h0\"/>\n", writer)
}

/// How high the rate of calls that ended so stands in a row.
fn rate_height(kind: Kind, row: &Rate) -> u16
    ensures { result ≡ rule.rate_height kind row.now }
{
    match kind {
        Kind::Ok => row.ok,
        Kind::Fail => row.fail,
        _ => row.info,
    }
}

/// Writes the vertex of the rate of calls that ended so that a row has.
fn write_rate_vertex<W: Write>(kind: Kind, row: &Rate, writer: &mut W) -> Result<(), PageError>
    ensures bytes { OnOk result
        (Appends (W.contents writer.old) (W.contents writer.new) (rate_vertex kind row.now)) }
    ensures error { IfErr result (λ e. e ≡ PageError.Write) }
{
    let height = rate_height(kind, row);
    write_vertex(row.x, height, writer)
}

/// Writes the vertices of the rate of calls that ended so.
fn write_rate_vertices<W: Write>(rows: &[Rate], kind: Kind, writer: &mut W) -> Result<(), PageError>
    ensures bytes { OnOk result (Appends (W.contents writer.old) (W.contents writer.new)
        (flat_map (rate_vertex kind) rows.now)) }
    ensures error { IfErr result (λ e. e ≡ PageError.Write) }
{
    for row in rows {
        write_rate_vertex(kind, row, writer)?;
    }
    Ok(())
}

/// Writes the line of the rate of calls that ended so.
pub(crate) fn write_rate_line<W: Write>(
    rows: &[Rate],
    kind: Kind,
    writer: &mut W,
) -> Result<(), PageError>
    ensures bytes { OnOk result
        (Appends (W.contents writer.old) (W.contents writer.new) (rate_line_text rows.now kind)) }
    ensures error { IfErr result (λ e. e ≡ PageError.Write) }
{
    if rows.is_empty() {
        return Ok(());
    }
    write_opening(kind_class(kind), writer)?;
    write_rate_vertices(rows, kind, writer)?;
    put(b"h0\"/>\n", writer)
}
