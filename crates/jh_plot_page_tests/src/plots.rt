//! The plots that are drawn, and their pages.

use jh_ops::Kind;
use jh_plot_pages::{PageError, write_plot_page};
use jh_plots::{Panel, Percentiles, Plot, Point, Rate, Shade, Tick};
use std::alloc::Global;
use std::io::Write;

/// More bytes than any page here has.
const ROOM: usize = 20_000;

const TIMES: [Tick; 4] = [
    Tick { pixel: 0, value: 0 },
    Tick {
        pixel: 300,
        value: 11_500,
    },
    Tick {
        pixel: 600,
        value: 22_050,
    },
    Tick {
        pixel: 899,
        value: 33_007,
    },
];

const LATENCIES: [Tick; 4] = [
    Tick { pixel: 0, value: 1 },
    Tick {
        pixel: 100,
        value: 10_000,
    },
    Tick {
        pixel: 200,
        value: 100_000_000,
    },
    Tick {
        pixel: 299,
        value: 1_000_000_000,
    },
];

const RATES: [Tick; 2] = [
    Tick { pixel: 0, value: 0 },
    Tick {
        pixel: 149,
        value: 50,
    },
];

const POINTS: [Point; 5] = [
    Point {
        x: 0,
        y: 0,
        kind: Kind::Ok,
    },
    Point {
        x: 7,
        y: 80,
        kind: Kind::Info,
    },
    Point {
        x: 7,
        y: 80,
        kind: Kind::Fail,
    },
    Point {
        x: 899,
        y: 299,
        kind: Kind::Ok,
    },
    Point {
        x: 5,
        y: 1,
        kind: Kind::Fail,
    },
];

const PERCENTILES: [Percentiles; 2] = [
    Percentiles {
        x: 10,
        p50: 1,
        p95: 22,
        p99: 33,
        greatest: 299,
    },
    Percentiles {
        x: 30,
        p50: 2,
        p95: 23,
        p99: 34,
        greatest: 298,
    },
];

const RATE: [Rate; 1] = [Rate {
    x: 450,
    ok: 120,
    fail: 6,
    info: 0,
}];

/// A plot that is drawn.
#[derive(Clone, Copy)]
pub(crate) enum Drawn {
    /// It has no panel.
    Empty,
    /// A panel with a call of each kind, and one with none.
    Full,
}

/// The time that a fault was active.
fn shade_of(alloc: Global, from: u16, to: u16, label: &[u8]) -> Result<Shade, PageError> {
    Ok(Shade {
        from,
        to,
        label: Vec::from_slice(alloc, label)?,
    })
}

/// Two times of faults. The label of the second is no UTF-8.
fn shades_of(alloc: Global) -> Result<Vec<Shade>, PageError> {
    let mut shades = Vec::new(alloc);
    shades.push(shade_of(alloc, 5, 120, b":kill <\"n1\">")?)?;
    shades.push(shade_of(alloc, 300, 300, b"\xff\n&")?)?;
    Ok(shades)
}

/// A panel with calls.
fn full_panel(alloc: Global) -> Result<Panel, PageError> {
    Ok(Panel {
        heading: Vec::from_slice(alloc, b"read & write")?,
        calls: 1234,
        points: Vec::from_slice(alloc, &POINTS)?,
        percentiles: Vec::from_slice(alloc, &PERCENTILES)?,
        rates: Vec::from_slice(alloc, &RATE)?,
    })
}

/// A panel with none.
fn empty_panel(alloc: Global) -> Panel {
    Panel {
        heading: Vec::new(alloc),
        calls: 0,
        points: Vec::new(alloc),
        percentiles: Vec::new(alloc),
        rates: Vec::new(alloc),
    }
}

/// The panels of a plot.
fn panels_of(alloc: Global, drawn: Drawn) -> Result<Vec<Panel>, PageError> {
    let mut panels = Vec::new(alloc);
    if let Drawn::Full = drawn {
        panels.push(full_panel(alloc)?)?;
        panels.push(empty_panel(alloc))?;
    }
    Ok(panels)
}

/// The plot itself.
fn plot_of(alloc: Global, drawn: Drawn) -> Result<Plot, PageError> {
    Ok(Plot {
        times: Vec::from_slice(alloc, &TIMES)?,
        latencies: Vec::from_slice(alloc, &LATENCIES)?,
        rates: Vec::from_slice(alloc, &RATES)?,
        shades: shades_of(alloc)?,
        panels: panels_of(alloc, drawn)?,
    })
}

/// Writes the page of a plot.
pub(crate) fn write_drawn<W: Write>(
    alloc: Global,
    drawn: Drawn,
    writer: &mut W,
) -> Result<(), PageError> {
    let plot = plot_of(alloc, drawn)?;
    write_plot_page(alloc, &plot, writer)
}

/// The page of a plot. It has room from the start, so no writer fails.
fn page_of(alloc: Global, drawn: Drawn) -> Result<Vec<u8>, PageError> {
    let mut page = Vec::with_capacity(alloc, ROOM)?;
    write_drawn(alloc, drawn, &mut page)?;
    Ok(page)
}

/// The same, asked once more where memory was refused. None: it failed otherwise.
pub(crate) fn asked(alloc: Global, drawn: Drawn) -> Option<Vec<u8>> {
    match page_of(alloc, drawn) {
        Err(PageError::OutOfMemory) => page_of(alloc, drawn).ok(),
        page => page.ok(),
    }
}
