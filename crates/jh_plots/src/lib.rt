//! The latencies and the rates of a history, as points and lines in panels of pixels.
#![tactic(auto)]

mod axes;
mod calls;
mod error;
mod latency;
mod laws;
mod moments;
mod panels;
mod percentiles;
mod plot;
mod plotted;
mod points;
mod rates;
mod scale;
mod shades;
mod thresholds;
mod ticks;

pub use error::PlotError;
pub use laws::count_laws;
pub use plot::{Panel, Percentiles, Plot, Point, Rate, Shade, Tick};
pub use plotted::plot_of;
