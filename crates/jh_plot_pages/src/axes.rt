//! What lies behind the data of a picture: the times of faults, and the axes. `specs/Axes.antt` has the rule.

ghost use Rattle.std.specs.Prelude.{◌≡◌, IfErr, OnOk};
ghost use Rattle.std.specs.Io.KnownBytes.{Appends};
ghost use Rattle.std.specs.List.{flat_map};
ghost use Rattle.jh_plot_pages.specs.Axes as rule;
ghost use Rattle.jh_plot_pages.specs.Axes.{across_text, area_text, axis_text, axis_number_text};
ghost use Rattle.jh_plot_pages.specs.Axes.{rightward_text, shade_text, shades_text, tick_text};
ghost use Rattle.jh_plot_pages.specs.Axes.{upward_text};

use crate::labels::{write_latency, write_rate, write_time};
use crate::markup::{put, write_escaped_bytes};
use jh_plots::{Shade, Tick};
use jh_timeline_pages::PageError;
use std::alloc::Global;
use std::io::Write;

/// An axis of a picture.
#[derive(Clone, Copy)]
pub(crate) enum Axis {
    /// That of time, from left to right, in milliseconds.
    Times,
    /// That of latencies, upwards, in nanoseconds.
    Latencies,
    /// That of rates, upwards, in calls a second.
    Rates,
}

/// Writes the area of a shade.
fn write_area<W: Write>(from: u16, to: u16, writer: &mut W) -> Result<(), PageError>
    ensures bytes { OnOk result
        (Appends (W.contents writer.old) (W.contents writer.new) (area_text from to)) }
    ensures error { IfErr result (λ e. e ≡ PageError.Write) }
{
    write!(writer, "<path d=\"M{from} 0V-299H{to}V0z\"><title>").map_err(|_| PageError::Write)
}

/// Writes the time that a fault was active.
fn write_shade<W: Write>(alloc: Global, shade: &Shade, writer: &mut W) -> Result<(), PageError>
    ensures { OnOk result
        (Appends (W.contents writer.old) (W.contents writer.new) (shade_text shade.now)) }
{
    write_area(shade.from, shade.to, writer)?;
    write_escaped_bytes(alloc, shade.label.as_slice(), writer)?;
    put(b"</title></path>\n", writer)
}

/// Writes the times of all faults, one after another.
fn write_each_shade<W: Write>(
    alloc: Global,
    shades: &[Shade],
    writer: &mut W,
) -> Result<(), PageError>
    ensures { OnOk result
        (Appends (W.contents writer.old) (W.contents writer.new) (flat_map shade_text shades.now)) }
{
    for shade in shades {
        write_shade(alloc, shade, writer)?;
    }
    Ok(())
}

/// Writes the times of all faults.
pub(crate) fn write_shades<W: Write>(
    alloc: Global,
    shades: &[Shade],
    writer: &mut W,
) -> Result<(), PageError>
    ensures { OnOk result
        (Appends (W.contents writer.old) (W.contents writer.new) (shades_text shades.now)) }
{
    put(b"<g class=\"shades\">\n", writer)?;
    write_each_shade(alloc, shades, writer)?;
    put(b"</g>\n", writer)
}

/// Writes a line upwards from a pixel, and where its number stands.
fn write_upward<W: Write>(pixel: u16, writer: &mut W) -> Result<(), PageError>
    ensures bytes { OnOk result
        (Appends (W.contents writer.old) (W.contents writer.new) (upward_text pixel)) }
    ensures error { IfErr result (λ e. e ≡ PageError.Write) }
{
    write!(
        writer,
        "<path d=\"M{pixel} 0v-299\"/><text x=\"{pixel}\" y=\"18\">"
    )
    .map_err(|_| PageError::Write)
}

/// Writes a line to the right from a pixel, and where its number stands.
fn write_rightward<W: Write>(pixel: u16, writer: &mut W) -> Result<(), PageError>
    ensures bytes { OnOk result
        (Appends (W.contents writer.old) (W.contents writer.new) (rightward_text pixel)) }
    ensures error { IfErr result (λ e. e ≡ PageError.Write) }
{
    write!(
        writer,
        "<path d=\"M0-{pixel}h899\"/><text x=\"-8\" y=\"-{pixel}\">"
    )
    .map_err(|_| PageError::Write)
}

/// Writes a line across the picture from a pixel of an axis, and where its number stands.
fn write_across<W: Write>(axis: Axis, pixel: u16, writer: &mut W) -> Result<(), PageError>
    ensures bytes { OnOk result
        (Appends (W.contents writer.old) (W.contents writer.new) (across_text axis pixel)) }
    ensures error { IfErr result (λ e. e ≡ PageError.Write) }
{
    match axis {
        Axis::Times => write_upward(pixel, writer),
        _ => write_rightward(pixel, writer),
    }
}

/// Writes a number of an axis, with its unit.
fn write_number<W: Write>(axis: Axis, value: u64, writer: &mut W) -> Result<(), PageError>
    ensures bytes { OnOk result
        (Appends (W.contents writer.old) (W.contents writer.new) (axis_number_text axis value)) }
    ensures error { IfErr result (λ e. e ≡ PageError.Write) }
{
    match axis {
        Axis::Times => write_time(value, writer),
        Axis::Latencies => write_latency(value, writer),
        Axis::Rates => write_rate(value, writer),
    }
}

/// Writes a number of an axis, with a line across the picture.
fn write_tick<W: Write>(axis: Axis, tick: &Tick, writer: &mut W) -> Result<(), PageError>
    ensures bytes { OnOk result
        (Appends (W.contents writer.old) (W.contents writer.new) (tick_text axis tick.now)) }
    ensures error { IfErr result (λ e. e ≡ PageError.Write) }
{
    write_across(axis, tick.pixel, writer)?;
    write_number(axis, tick.value, writer)?;
    put(b"</text>\n", writer)
}

/// Writes all numbers of an axis.
fn write_ticks<W: Write>(axis: Axis, ticks: &[Tick], writer: &mut W) -> Result<(), PageError>
    ensures bytes { OnOk result (Appends (W.contents writer.old) (W.contents writer.new)
        (flat_map (tick_text axis) ticks.now)) }
    ensures error { IfErr result (λ e. e ≡ PageError.Write) }
{
    for tick in ticks {
        write_tick(axis, tick, writer)?;
    }
    Ok(())
}

/// The class of an axis in the style.
fn axis_class(axis: Axis) -> &'static str
    ensures { result.now ≡ rule.axis_class axis }
{
    match axis {
        Axis::Times => "times",
        _ => "levels",
    }
}

/// Writes an axis.
pub(crate) fn write_axis<W: Write>(
    ticks: &[Tick],
    axis: Axis,
    writer: &mut W,
) -> Result<(), PageError>
    ensures bytes { OnOk result
        (Appends (W.contents writer.old) (W.contents writer.new) (axis_text ticks.now axis)) }
    ensures error { IfErr result (λ e. e ≡ PageError.Write) }
{
    put(b"<g class=\"", writer)?;
    put(axis_class(axis).as_bytes(), writer)?;
    put(b"\">\n", writer)?;
    write_ticks(axis, ticks, writer)?;
    put(b"</g>\n", writer)
}
