//! A page that shows histories: operations as bars in lanes, records of the nemesis as lines across them,
//! faults as bands behind them, and marks at bars.
#![tactic(auto)]

mod bands;
mod bars;
mod endings;
mod error;
mod lines;
mod marks;
mod markup;
mod page;
mod picture;
mod pixels;
mod record;
mod section;
mod shown;
mod tails;
mod times;
mod top;
mod whereabouts;

pub use error::PageError;
pub use marks::first_pointer;
pub use markup::{escaped_text_is_inert, write_escaped};
pub use page::write_page;
pub use pixels::{LANE_WIDTH, ROW_HEIGHT};
pub use section::Section;
pub use top::Top;
