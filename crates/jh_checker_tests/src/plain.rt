//! The definitions of the checkers as plain slow programs, of which nothing is claimed, and random histories. A row is a history,
//! an arrow, and the line that the plain program says.

mod banks;
mod events;
mod queues;
mod total_queues;

pub(crate) use banks::PlainBank;
pub(crate) use queues::PlainQueue;
use std::alloc::{AllocError, Global};
pub(crate) use total_queues::PlainTotalQueue;

/// A plain program with its random histories.
pub(crate) trait Plain {
    /// The row of the random history of a seed.
    fn row_of(&self, alloc: Global, seed: u64) -> Result<String, AllocError>;
}

/// Adds an item to a list, behind a comma if it is not the first.
fn add_item(list: &mut String, item: &str) -> Result<(), AllocError> {
    if !list.is_empty() {
        list.push_str(", ")?;
    }
    list.push_str(item)
}

/// A row.
fn row(alloc: Global, history: &str, line: &str) -> Result<String, AllocError> {
    format!(in alloc; "{history} → {line}")
}

/// One more where something is so.
fn counted(count: usize, is_so: bool) -> usize {
    if is_so {
        count.saturating_add(1)
    } else {
        count
    }
}
