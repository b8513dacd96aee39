//! A page that shows the latencies and the rates of a history: for each function its calls as points, percentiles of their
//! latencies and rates of their endings as lines, and the times of faults as shades behind them.
#![tactic(auto)]

mod axes;
mod labels;
mod lines;
mod markup;
mod page;
mod picture;
mod points;

pub use jh_timeline_pages::PageError;
pub use page::write_plot_page;
