//! Tests of `jh_plot_pages`, through its public call alone: what no clause says. `pages` compares whole pages, but for their
//! style sheet, with texts that were written by hand from the definition; `writing` has a writer that fails.
//!
//! Each test passes, too, where one allocation is refused: what answers so is asked again.
#![tactic(auto)]

#[cfg(test)]
mod narrow;
#[cfg(test)]
mod pages;
#[cfg(test)]
mod plots;
#[cfg(test)]
mod writing;
