//! The answer to a history of keys, put together from the answers to each. None is answered where
//! memory was refused.

use crate::plain_independent::parts::Part;
use std::alloc::Global;

/// How many operations of the same part stand before a place.
pub(crate) fn count_before(turns: &[usize], place: usize) -> usize {
    let mut count = 0usize;
    for (earlier, part) in turns.iter().enumerate() {
        if earlier < place && turns.get(place) == Some(part) {
            count = count.saturating_add(1);
        }
    }
    count
}

/// The place of an operation of a part, known by how many of that part stand before it.
fn place_of(turns: &[usize], part: usize, count: usize) -> Option<usize> {
    for (place, other) in turns.iter().enumerate() {
        if *other == part && count_before(turns, place) == count {
            return Some(place);
        }
    }
    None
}

/// The message of an error in the history of a part, reported at the place in the whole one.
fn given(alloc: Global, turns: &[usize], part: usize, error: &str) -> Option<String> {
    let (count, message) = error.split_once(": ")?;
    let place = place_of(turns, part, count.parse::<usize>().ok()?)?;
    format!(in alloc; "operation {place}: {message}").ok()
}

/// Whether a client did something.
fn has_client(history: &str) -> bool {
    for op in history.split_terminator("; ") {
        if !op.starts_with(":nemesis") {
            return true;
        }
    }
    false
}

/// The verdict on all keys whose answers stand in a list.
fn verdict_of(list: &str) -> &'static str {
    if list.contains("{:valid? false") {
        "false"
    } else if list.contains("{:valid? :unknown") {
        ":unknown"
    } else {
        "true"
    }
}

/// The answer to all parts in one history: the first error in the order of the keys, or one line.
/// `turns` has the number of the part whose operation stands at each place.
pub(crate) fn answer_of(alloc: Global, parts: &[Part], turns: &[usize]) -> Option<String> {
    let mut list = String::new(alloc);
    for (number, part) in parts.iter().enumerate() {
        if !has_client(&part.case.history) {
            continue;
        }
        if let Some(error) = part.case.answer.strip_prefix("operation ") {
            return given(alloc, turns, number, error);
        }
        let separator = if list.is_empty() { "" } else { " " };
        let item = format!(in alloc; "{separator}[{} {}]", part.key, part.case.answer).ok()?;
        list.push_str(&item).ok()?;
    }
    format!(in alloc; "{{:valid? {}, :keys [{list}]}}", verdict_of(&list)).ok()
}
