//! The command `plot`: reads a history, or all that `run` or `drive` printed, and writes a page with its
//! latencies and rates. What is written stands in `specs/PlotText.antt`, why an input is refused in
//! `specs/PlotRefusals.antt`; what is drawn where is said by `jh_plots`.

ghost use Rattle.std.specs.Prelude.{◌≡◌, ◌≢◌, IfErr, IfOk, MatchResult};
ghost use Rattle.jh_ops.specs.Operation.{operations};
ghost use Rattle.jh_plot_pages.specs.Page.{plot_page_text};
ghost use Rattle.jh_cli.specs.Outputs.{OnInput, WritesOutput};
ghost use Rattle.jh_cli.specs.PlotRefusals.{RefusesPlot, RefusesPlotting};
ghost use Rattle.jh_cli.specs.PlotText.{IsPlotPage, IsPlotTextOf};

use crate::error::CliError;
use crate::history_input::read_history_input;
use crate::output::finish;
use jh_bands::bands_of;
use jh_ops::Op;
use jh_plot_pages::write_plot_page;
use jh_plots::{Plot, plot_of};
use jh_reports::{DONE, Output};
use std::alloc::{AllocError, Global};
use std::io::{Read, Write};

/// Reads a history as `jh_histories::read_history_and_below` does, also out of what `run` or
/// `drive` printed, without its unread keys where `skips_unread` asks for that, and writes a page in
/// HTML with the latency of each call, percentiles of the latencies and rates over time, as
/// `jh_plots::plot_of` places them. The times of faults are there where the records of the nemesis
/// have their steps, as those of `drive` do. The answer is the exit status, 0. All is read, and the
/// page made, before the first byte is written.
///
/// Takes O(n log n) for n records, and memory for the text, the history and the page.
///
/// Errors: an error of reading, then of the text (`Input`), `History`; `TimeMissing` where an operation
/// has no time; `Check` where the operations do not pair; `OutOfMemory`; `Write`. Nothing is written
/// before any of them but `Write`.
pub fn plot_run<R: Read, W: Write>(
    alloc: Global,
    reader: &mut R,
    writer: &mut W,
    skips_unread: bool,
) -> Result<u8, CliError>
    ensures status { IfOk result (λ status. status ≡ 0) }
    ensures written { IfOk result (λ status. WritesOutput (R.remaining reader.old)
        (IsPlotTextOf skips_unread) status (W.contents writer.old) (W.contents writer.new)) }
    ensures refused { IfErr result (λ e. OnInput (R.remaining reader.old)
        (λ input. RefusesPlot skips_unread input e)) }
    ensures unwritten { IfErr result (λ e. e ≢ CliError.Write → writer.new ≡ writer.old) }
{
    let parts = read_history_input(alloc, reader, skips_unread)?;
    let text = plot_text(alloc, &parts.history)?;
    finish(Output { status: DONE, text }, writer)
}

/// The page of a history.
fn plot_text(alloc: Global, history: &[Op]) -> Result<Vec<u8>, CliError>
    ensures { MatchResult result
        (λ output. IsPlotPage (operations history.now) output.items)
        (RefusesPlotting (operations history.now)) }
{
    let bands = bands_of(alloc, &[], history)?;
    let plot = plot_of(alloc, history, &bands)?;
    Ok(page_of_plot(alloc, &plot)?)
}

/// The bytes of the page of a plot.
fn page_of_plot(alloc: Global, plot: &Plot) -> Result<Vec<u8>, AllocError>
    ensures { IfOk result (λ page. page.items ≡ plot_page_text plot.now) }
{
    let mut page = Vec::new(alloc);
    match write_plot_page(alloc, plot, &mut page) {
        Ok(()) => Ok(page),
        Err(_) => Err(AllocError),
    }
}
