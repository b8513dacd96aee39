//! What a plot has where, in pixels. A page draws it and computes nothing.
//!
//! Each panel is `WIDTH` pixels wide and `HEIGHT` high. Pixels are counted from the left, 0 to 899, and from
//! below, 0 to 299.

use jh_ops::Kind;

/// A number beside an axis.
#[derive(Clone, Copy, Debug, PartialEq, Eq)]
pub struct Tick {
    /// The pixel at which it stands, from the left or from below.
    pub pixel: u16,
    /// The number: milliseconds on the axis of time, nanoseconds on that of latencies, calls a second on that of rates.
    pub value: u64,
}

/// The time that a fault was active, from one pixel to another.
#[derive(Debug, Drop)]
pub struct Shade {
    pub from: u16,
    pub to: u16,
    /// What names the fault for a person, in UTF-8.
    pub label: Vec<u8>,
}

/// A call, or several that fall on one pixel and ended the same way.
#[derive(Clone, Copy, Debug, PartialEq, Eq)]
pub struct Point {
    /// When it was asked for.
    pub x: u16,
    /// How long it took.
    pub y: u16,
    /// How it ended: `Ok`, `Fail` or `Info`.
    pub kind: Kind,
}

/// Percentiles of the latencies of the calls that were asked for in one window of time.
#[derive(Clone, Copy, Debug, PartialEq, Eq)]
pub struct Percentiles {
    /// The middle of the window.
    pub x: u16,
    pub p50: u16,
    pub p95: u16,
    pub p99: u16,
    pub greatest: u16,
}

/// How many calls a second ended in one window of time, by how they ended.
#[derive(Clone, Copy, Debug, PartialEq, Eq)]
pub struct Rate {
    /// The middle of the window.
    pub x: u16,
    pub ok: u16,
    pub fail: u16,
    pub info: u16,
}

/// The calls of one function, or of several.
#[derive(Debug, Drop)]
pub struct Panel {
    /// The names of its functions, as they are printed, in UTF-8.
    pub heading: Vec<u8>,
    /// How many calls it has.
    pub calls: usize,
    /// One point for each pixel and ending that a call has.
    pub points: Vec<Point>,
    /// A row for each window of time with a call, from the left.
    pub percentiles: Vec<Percentiles>,
    /// A row for each window of time, from the left.
    pub rates: Vec<Rate>,
}

/// The plot of a history.
#[derive(Debug, Drop)]
pub struct Plot {
    /// The numbers of the axis of time, which all panels share, from the left.
    pub times: Vec<Tick>,
    /// Those of the logarithmic axis of latencies, from below.
    pub latencies: Vec<Tick>,
    /// Those of the axis of rates, from below.
    pub rates: Vec<Tick>,
    pub shades: Vec<Shade>,
    pub panels: Vec<Panel>,
}
