//! A short history, where everything of its plot is, and why others have none.

use jh_bands::Band;
use jh_histories::history_in;
use jh_ops::{Kind, Op};
use jh_plots::{Panel, Percentiles, Plot, PlotError, Point, Rate, Shade, Tick, plot_of};
use std::alloc::Global;

/// Two reads, of which one takes 1 ms and one fails after 1 s, and a write that nobody saw end.
const CALLS: &str = "
    {:type :invoke, :process 0, :f :read, :value nil, :time 0}
    {:type :ok, :process 0, :f :read, :value 1, :time 1000000}
    {:type :invoke, :process 1, :f :write, :value 2, :time 500000000}
    {:type :invoke, :process 0, :f :read, :value nil, :time 1000000000}
    {:type :fail, :process 0, :f :read, :value nil, :time 2000000000}";

/// The second record has no time.
const TIMELESS: &str = "
    {:type :invoke, :process 0, :f :read, :value nil, :time 0}
    {:type :ok, :process 0, :f :read, :value 1}";

/// A completion of nothing.
const UNPAIRED: &str = "
    {:type :ok, :process 0, :f :read, :value 1, :time 0}";

/// The operations of a text.
fn operations_of(alloc: Global, text: &str) -> Option<Vec<Op>> {
    history_in(alloc, text).ok()
}

/// The plot of a history without faults.
fn plot_without_faults(alloc: Global, history: &[Op]) -> Option<Plot> {
    plot_of(alloc, history, &[]).ok()
}

/// The plot of the calls. None: memory was refused.
fn plot_of_calls(alloc: Global) -> Option<Plot> {
    let history = operations_of(alloc, CALLS)?;
    plot_without_faults(alloc, &history)
}

/// Whether the points and the rates of the reads are where they have to be.
fn are_reads(panel: &Panel) -> bool {
    let points = [
        Point {
            x: 0,
            y: 59,
            kind: Kind::Ok,
        },
        Point {
            x: 449,
            y: 239,
            kind: Kind::Fail,
        },
    ];
    let first = Rate {
        x: 224,
        ok: 299,
        fail: 0,
        info: 0,
    };
    panel.points.as_slice() == points.as_slice() && panel.rates.first() == Some(&first)
}

#[test]
fn calls_have_their_points(rt: HostRuntime) {
    let alloc = rt.alloc();
    let plot = plot_of_calls(alloc).or_else(|| plot_of_calls(alloc));
    assert!(rt; plot.is_some_and(|plot| plot.panels.first().is_some_and(are_reads)));
}

/// Whether the latencies of the reads are one of 1 ms in the first second, and one of 1 s in the second.
fn are_percentiles(panel: &Panel) -> bool {
    let rows = [
        Percentiles {
            x: 224,
            p50: 59,
            p95: 59,
            p99: 59,
            greatest: 59,
        },
        Percentiles {
            x: 674,
            p50: 239,
            p95: 239,
            p99: 239,
            greatest: 239,
        },
    ];
    panel.percentiles.as_slice() == rows.as_slice()
}

#[test]
fn calls_have_their_percentiles(rt: HostRuntime) {
    let alloc = rt.alloc();
    let plot = plot_of_calls(alloc).or_else(|| plot_of_calls(alloc));
    assert!(rt; plot.is_some_and(|plot| plot.panels.first().is_some_and(are_percentiles)));
}

/// A fault from the third record to the fourth. None: memory was refused.
fn fault(alloc: Global, to: Option<usize>) -> Option<Band> {
    let label = Vec::from_slice(alloc, b"1: kill n1").ok()?;
    Some(Band { from: 2, to, label })
}

/// The shade that a plot of the calls has for a fault. None: memory was refused.
fn shade_of(alloc: Global, to: Option<usize>) -> Option<Shade> {
    let history = operations_of(alloc, CALLS)?;
    let plot = plot_of(alloc, &history, &[fault(alloc, to)?]).ok()?;
    let mut shades = plot.shades;
    shades.pop()
}

/// From half a second on to a whole one, and to the end at two seconds.
#[test]
fn faults_have_their_shades(rt: HostRuntime) {
    let alloc = rt.alloc();
    for (to, pixel) in [(Some(3), 449), (None, 899)] {
        let shade = shade_of(alloc, to).or_else(|| shade_of(alloc, to));
        assert!(rt;
            shade.is_some_and(|shade| shade.from == 224
                && shade.to == pixel
                && shade.label.as_slice() == b"1: kill n1".as_slice())
        );
    }
}

/// Whether the numbers of the axes are those of two seconds, five decades and one call a second.
fn are_numbers(plot: &Plot) -> bool {
    let second = Tick {
        pixel: 89,
        value: 200,
    };
    let last = Tick {
        pixel: 299,
        value: 10_000_000_000,
    };
    let top = Tick {
        pixel: 299,
        value: 1,
    };
    plot.times.get(1) == Some(&second)
        && plot.latencies.get(5) == Some(&last)
        && plot.rates.get(1) == Some(&top)
}

#[test]
fn axes_have_their_numbers(rt: HostRuntime) {
    let alloc = rt.alloc();
    let plot = plot_of_calls(alloc).or_else(|| plot_of_calls(alloc));
    assert!(rt; plot.is_some_and(|plot| are_numbers(&plot)));
}

/// Why the history of a text has no plot. None: it has one, or memory was refused.
fn refusal_of(alloc: Global, text: &str) -> Option<PlotError> {
    let history = operations_of(alloc, text)?;
    match plot_of(alloc, &history, &[]) {
        Ok(_) | Err(PlotError::OutOfMemory) => None,
        Err(error) => Some(error),
    }
}

/// The message of the refusal.
fn message_of(alloc: Global, text: &str) -> Option<String> {
    format!(in alloc; "{}", refusal_of(alloc, text)?).ok()
}

#[test]
fn refusals_say_where(rt: HostRuntime) {
    let alloc = rt.alloc();
    let rows = [
        (TIMELESS, "operation 1: time missing"),
        (UNPAIRED, "operation 0: no invocation"),
    ];
    for (text, said) in rows {
        let message = message_of(alloc, text).or_else(|| message_of(alloc, text));
        assert!(rt; message.is_some_and(|message| message.as_str() == said));
    }
}
