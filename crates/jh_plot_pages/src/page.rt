//! The page of a plot. `specs/Page.antt` has the rule; the head with its style can be changed alone.

ghost use Rattle.std.specs.Prelude.{◌≡◌, IfErr, OnOk};
ghost use Rattle.std.specs.Io.KnownBytes.{Appends};
ghost use Rattle.std.specs.List.{flat_map};
ghost use Rattle.jh_plot_pages.specs.Page.{calls_text, panel_text, panels_text, plot_page_text};

use crate::markup::{put, write_escaped_bytes};
use crate::picture::{write_latencies, write_percentiles, write_rates};
use jh_plots::{Panel, Plot};
use jh_timeline_pages::PageError;
use std::alloc::Global;
use std::io::Write;

/// The page up to its panels. Its colours are for light and dark, and on paper a picture is as wide as the paper at most.
const HEAD: &[u8] =
    b"<!DOCTYPE html>\n<html xmlns=\"http://www.w3.org/1999/xhtml\" lang=\"en\">\n<head>\n\
    <meta charset=\"utf-8\"/>\n<title>Plot</title>\n<style>\n\
    :root { color-scheme: light dark; --ink: #1a1a1a; --paper: #ffffff; --grid: #dddddd; \
    --ok: #2a78c4; --fail: #c8283c; --info: #b37400; --fault: #7a4fbf; \
    --p50: #2a78c4; --p95: #1a8a5a; --p99: #b37400; --greatest: #c8283c }\n\
    @media screen and (prefers-color-scheme: dark) { :root { --ink: #e6e6e6; --paper: #161616; --grid: #3a3a3a; \
    --ok: #6fb1f2; --fail: #ff7085; --info: #f0b445; --fault: #b497f0; \
    --p50: #6fb1f2; --p95: #5fd0a0; --p99: #f0b445; --greatest: #ff7085 } }\n\
    body { margin: 1em; font: 12px sans-serif; color: var(--ink); background: var(--paper) }\n\
    h1 { font-size: 18px }\nh2 { font: bold 14px monospace; margin-top: 2em; overflow-wrap: anywhere }\n\
    .picture { overflow-x: auto }\nsvg { display: block }\nsvg text { font: 11px sans-serif; fill: var(--ink) }\n\
    .name { font-weight: bold }\n.frame { fill: none; stroke: var(--grid) }\n\
    .times path, .levels path { stroke: var(--grid) }\n.times text { text-anchor: middle }\n\
    .levels text { text-anchor: end; dominant-baseline: central }\n\
    .shades path { fill: var(--fault); fill-opacity: 0.15; stroke: var(--fault); stroke-opacity: 0.4 }\n\
    .points path, .lines path { fill: none; pointer-events: none; stroke-linecap: round }\n\
    .points .ok { stroke: var(--ok); stroke-width: 3 }\n.points .fail { marker: url(#cross) }\n\
    .points .info { marker: url(#triangle) }\n#cross path { stroke: var(--fail); stroke-width: 1.5 }\n\
    #triangle path { fill: none; stroke: var(--info); stroke-width: 1.5 }\n.lines path { stroke-width: 2; stroke-linejoin: round }\n\
    .lines .ok { stroke: var(--ok) }\n.lines .fail { stroke: var(--fail); stroke-dasharray: 8 4 }\n\
    .lines .info { stroke: var(--info); stroke-dasharray: 2 4 }\n.lines .p50 { stroke: var(--p50) }\n\
    .lines .p95 { stroke: var(--p95); stroke-dasharray: 12 4 }\n\
    .lines .p99 { stroke: var(--p99); stroke-dasharray: 6 4 }\n\
    .lines .greatest { stroke: var(--greatest); stroke-dasharray: 2 4 }\n\
    @media print { :root { color-scheme: light }\n.picture { overflow: visible }\n.picture > svg { max-width: 100%; height: auto; break-inside: avoid } }\n\
    </style>\n</head>\n<body>\n<h1>Latencies and rates</h1>\n\
    <p>For each function: the latency of each call over the time at which it was asked for (a dot: it \
    happened, <code>:ok</code>; a cross: it did not, <code>:fail</code>; a triangle: it is not known, \
    <code>:info</code>), percentiles of these latencies, and how many calls a second ended so. \
    A fault was active where the pictures are shaded: point there to see which.</p>\n\
    <svg xmlns=\"http://www.w3.org/2000/svg\" width=\"0\" height=\"0\">\n<defs>\n\
    <marker id=\"cross\" markerUnits=\"userSpaceOnUse\" viewBox=\"-4 -4 8 8\" markerWidth=\"8\" markerHeight=\"8\">\
    <path d=\"M-3-3l6 6m0-6l-6 6\"/></marker>\n\
    <marker id=\"triangle\" markerUnits=\"userSpaceOnUse\" viewBox=\"-4 -4 8 8\" markerWidth=\"8\" markerHeight=\"8\">\
    <path d=\"M0-3l3 5h-6z\"/></marker>\n</defs>\n</svg>\n";

/// What a page says that has no panel.
const NOTHING: &[u8] = b"<p>The history has no call, so there is nothing to draw.</p>\n";

/// Writes how many calls a panel has.
fn write_calls<W: Write>(calls: usize, writer: &mut W) -> Result<(), PageError>
    ensures bytes { OnOk result
        (Appends (W.contents writer.old) (W.contents writer.new) (calls_text calls)) }
    ensures error { IfErr result (λ e. e ≡ PageError.Write) }
{
    write!(writer, ", calls: {calls}</h2>\n").map_err(|_| PageError::Write)
}

/// Writes a panel.
fn write_panel<W: Write>(
    alloc: Global,
    plot: &Plot,
    panel: &Panel,
    writer: &mut W,
) -> Result<(), PageError>
    ensures { OnOk result
        (Appends (W.contents writer.old) (W.contents writer.new) (panel_text plot.now panel.now)) }
{
    put(b"<section>\n<h2>", writer)?;
    write_escaped_bytes(alloc, panel.heading.as_slice(), writer)?;
    write_calls(panel.calls, writer)?;
    write_latencies(alloc, plot, panel, writer)?;
    write_percentiles(alloc, plot, panel, writer)?;
    write_rates(alloc, plot, panel, writer)?;
    put(b"</section>\n", writer)
}

/// Writes all panels, one below another.
fn write_each_panel<W: Write>(alloc: Global, plot: &Plot, writer: &mut W) -> Result<(), PageError>
    ensures { OnOk result (Appends (W.contents writer.old) (W.contents writer.new)
        (flat_map (panel_text plot.now) plot.now.panels.items)) }
{
    for panel in &plot.panels {
        write_panel(alloc, plot, panel, writer)?;
    }
    Ok(())
}

/// Writes all panels, or that there is none.
fn write_panels<W: Write>(alloc: Global, plot: &Plot, writer: &mut W) -> Result<(), PageError>
    ensures { OnOk result
        (Appends (W.contents writer.old) (W.contents writer.new) (panels_text plot.now)) }
{
    if plot.panels.is_empty() {
        return put(NOTHING, writer);
    }
    write_each_panel(alloc, plot, writer)
}

/// Writes the page of a plot: a heading, how the page is read, and for each panel its functions, the number of its calls, and
/// three pictures with the times of faults behind them: latencies, percentiles of these, and rates.
///
/// Each plot has a page. What a plot has outside its panels of pixels is drawn outside, or not seen.
///
/// The writer may have taken a part of the page where this failed.
///
/// Errors:
/// - `Write`: the writer failed;
/// - `OutOfMemory`.
pub fn write_plot_page<W: Write>(
    alloc: Global,
    plot: &Plot,
    writer: &mut W,
) -> Result<(), PageError>
    ensures { OnOk result
        (Appends (W.contents writer.old) (W.contents writer.new) (plot_page_text plot.now)) }
{
    put(HEAD, writer)?;
    write_panels(alloc, plot, writer)?;
    put(b"</body>\n</html>\n", writer)
}
