//! An observer of commands that does nothing with what it is told.

use jh_cli::{HistoryCounts, HistoryObserver};
use jh_search::SearchObserver;
use jh_shrink::ShrinkObserver;

/// Nobody is told.
#[derive(Drop)]
pub(crate) struct Nobody;

impl ShrinkObserver for Nobody {
    fn see(&mut self, _entries: usize, _asked: u64) {}
}

impl SearchObserver for Nobody {
    fn see_tried(&mut self, _tried: u64, _unknown: u64) {}
}

impl HistoryObserver for Nobody {
    fn see_history(&mut self, _counts: HistoryCounts) {}
}
