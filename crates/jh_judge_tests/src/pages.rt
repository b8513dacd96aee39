//! Tests of `jh_timeline_pages` and `jh_timeline`, through their public calls alone: what no clause says. A
//! row of `pages` has histories and their whole page, but for the style sheet.
//!
//! Each test passes, too, where one allocation is refused: what answers so is asked again.

mod pages;
mod rows;
mod writing;
