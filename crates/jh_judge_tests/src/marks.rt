//! Tests of `jh_timeline_marks`, through its public call alone: what no clause says. A row is a history with
//! the marks of what is found in it.
//!
//! Each test passes, too, where one allocation is refused: what answers so is asked again.

mod marks;
mod queues;
mod rows;
