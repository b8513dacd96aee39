//! Schedules whose entries are told apart by when they are due.
//!
//! None is answered where memory was refused.

use crate::first::entry;
use jh_simnode::{Entry, Schedule};
use std::alloc::Global;

/// A schedule of entries that are due at the numbers below this one.
pub(crate) fn schedule(alloc: Global, count: u32) -> Option<Schedule> {
    let mut entries = Vec::new(alloc);
    for at in 0..count {
        entries.push(entry(at)).ok()?;
    }
    Schedule::of(entries).ok()
}

/// When entries are due.
pub(crate) fn dues(alloc: Global, entries: &[Entry]) -> Option<Vec<u32>> {
    entries.iter().map(|entry| entry.at).collect(alloc).ok()
}
