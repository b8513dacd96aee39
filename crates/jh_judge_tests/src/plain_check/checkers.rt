//! The definitions of the checkers as plain, slow programs, and random histories with their
//! answers.

use crate::plain_check::events::{Event, add_item, any_events, listed, paired_events, text_of};
use jh_ops::Workload;
use jh_test_kit::Dice;
use std::alloc::{AllocError, Global};

/// The row of bits of the values of the adds of a kind.
fn added(events: &[Event], kind: &str) -> u64 {
    let mut bits = 0;
    for event in events {
        if let Some(place @ 0..=4) = event.value {
            if event.is(kind, ":add") {
                bits |= 1 << place;
            }
        }
    }
    bits
}

/// What was read last, as a row of bits.
fn last_read(events: &[Event]) -> Option<u64> {
    let last = events.iter().rev().find(|event| event.is(":ok", ":read"))?;
    Some(last.value.unwrap_or(0).unsigned_abs())
}

/// The line of the set checker.
fn set_answer(alloc: Global, events: &[Event]) -> Result<String, AllocError> {
    let Some(read) = last_read(events) else {
        return "{:valid? :unknown, :error \"Set was never read\"}".to_string(alloc);
    };
    let attempts = added(events, ":invoke");
    let acknowledged = added(events, ":ok");
    let digits = "0 1 2 3 4";
    let ok = listed(alloc, read & attempts, digits)?;
    let lost = listed(alloc, acknowledged & !read, digits)?;
    let unexpected = listed(alloc, read & !attempts, digits)?;
    let recovered = listed(alloc, read & attempts & !acknowledged, digits)?;
    let is_valid = lost.is_empty() && unexpected.is_empty();
    format!(in alloc;
        "{{:valid? {is_valid}, :ok [{ok}], :lost [{lost}], :unexpected [{unexpected}], :recovered [{recovered}]}}"
    )
}

/// How the operation ended that began at a place, and where.
fn outcome(events: &[Event], place: usize) -> Option<(usize, &'static str)> {
    let process = events.get(place)?.process;
    for (later, event) in events.iter().enumerate() {
        if later > place && event.process == process {
            return Some((later, event.kind));
        }
    }
    None
}

/// The function of the last operation before a place by the same process, with its place.
fn asked(events: &[Event], place: usize) -> Option<(usize, &'static str)> {
    let process = events.get(place)?.process;
    let mut found = None;
    for (earlier, event) in events.iter().enumerate() {
        if earlier < place && event.process == process {
            found = Some((earlier, event.f));
        }
    }
    found
}

/// The sum of the adds that had completed ok before a read began, and of those that were invoked
/// before it ended and do not fail.
fn bounds(events: &[Event], began: usize, ended: usize) -> (i64, i64) {
    let (mut lower, mut upper) = (0i64, 0i64);
    for (add, event) in events.iter().enumerate() {
        if event.is(":invoke", ":add") {
            let amount = event.value.unwrap_or(0);
            let (end, kind) = outcome(events, add).unwrap_or((events.len(), ":info"));
            if kind == ":ok" && end < began {
                lower = lower.saturating_add(amount);
            }
            if kind != ":fail" && add < ended {
                upper = upper.saturating_add(amount);
            }
        }
    }
    (lower, upper)
}

/// The place where the read began that ended at a place.
fn began(events: &[Event], place: usize) -> Option<usize> {
    let event = events.get(place)?;
    match asked(events, place)? {
        (began, ":read") if event.is_by_client() && event.kind == ":ok" => Some(began),
        _ => None,
    }
}

/// The message of the error at a place.
fn error_at(events: &[Event], place: usize) -> Option<&'static str> {
    let event = events.get(place)?;
    let is_add = event.is(":invoke", ":add");
    match event.value {
        None if is_add || began(events, place).is_some() => Some("bad value"),
        Some(amount) if is_add && amount < 0 => Some("negative add"),
        _ => None,
    }
}

/// The reads with their bounds, and those that are outside of them.
fn reads_of(alloc: Global, events: &[Event]) -> Result<(String, String), AllocError> {
    let mut reads = String::new(alloc);
    let mut errors = String::new(alloc);
    for (place, event) in events.iter().enumerate() {
        if let Some(began) = began(events, place) {
            let (lower, upper) = bounds(events, began, place);
            let value = event.value.unwrap_or(0);
            let read = format!(in alloc; "[{lower} {value} {upper}]")?;
            add_item(&mut reads, &read)?;
            if value < lower || upper < value {
                add_item(&mut errors, &read)?;
            }
        }
    }
    Ok((reads, errors))
}

/// The line of the counter checker, or the message of the first error.
fn counter_answer(alloc: Global, events: &[Event]) -> Result<String, AllocError> {
    for place in 0..events.len() {
        if let Some(error) = error_at(events, place) {
            return format!(in alloc; "operation {place}: {error}");
        }
    }
    let (reads, errors) = reads_of(alloc, events)?;
    let is_valid = errors.is_empty();
    format!(in alloc; "{{:valid? {is_valid}, :reads [{reads}], :errors [{errors}]}}")
}

/// How often this was done, with any value where none is given.
fn count(events: &[Event], kind: &str, value: Option<i64>) -> usize {
    let mut count = 0usize;
    for event in events {
        if event.is(kind, ":generate") && (value.is_none() || event.value == value) {
            count = count.saturating_add(1);
        }
    }
    count
}

/// The line of the checker of unique ids.
fn ids_answer(alloc: Global, events: &[Event]) -> Result<String, AllocError> {
    let mut duplicated = String::new(alloc);
    for id in -1..9i64 {
        let times = count(events, ":ok", Some(id));
        if times > 1 {
            add_item(&mut duplicated, &format!(in alloc; "[{id} {times}]")?)?;
        }
    }
    format!(in alloc;
        "{{:valid? {}, :attempted {}, :acknowledged {}, :duplicated [{duplicated}]}}",
        duplicated.is_empty(),
        count(events, ":invoke", None),
        count(events, ":ok", None)
    )
}

/// A history, and what is answered: a checker's line, or the message of its error.
#[derive(Drop)]
pub struct Case {
    pub history: String,
    pub answer: String,
}

/// A random history for a checker of sets, of counters, or else of ids.
pub fn random_case(alloc: Global, workload: Workload, seed: u64) -> Result<Case, AllocError> {
    let mut dice = Dice::new(seed);
    let events = match workload {
        Workload::Set => any_events(alloc, &mut dice, ":add", ":read")?,
        Workload::Counter => paired_events(alloc, &mut dice)?,
        _ => any_events(alloc, &mut dice, ":generate", ":add")?,
    };
    let answer = match workload {
        Workload::Set => set_answer(alloc, &events)?,
        Workload::Counter => counter_answer(alloc, &events)?,
        _ => ids_answer(alloc, &events)?,
    };
    Ok(Case {
        history: text_of(alloc, workload, &events)?,
        answer,
    })
}
