//! Queues as a whole: each value is counted in the whole history, for each number anew.

use crate::plain::events::{Event, any_events, count, count_with, normal, text_of};
use crate::plain::{Plain, add_item, counted, row};
use jh_test_kit::Dice;
use std::alloc::{AllocError, Global};

/// The values that there are, in normal form and in normal order.
const VALUES: &str = "nil|1|2|\"a\"|[1]";

/// The elements of a list or a vector, with commas between them.
fn elements(value: &str) -> Option<&str> {
    match value.strip_prefix("[") {
        Some(rest) => rest.strip_suffix("]"),
        None => value.strip_prefix("(")?.strip_suffix(")"),
    }
}

/// Whether it is a drain whose value is none that it can have.
fn is_bad_drain(event: Event) -> bool {
    if event.is(":ok", ":drain") {
        return elements(event.value).is_none();
    }
    (event.is(":fail", ":drain") || event.is(":info", ":drain")) && event.value != "nil"
}

/// The place of the first such drain.
fn bad_drain(events: &[Event]) -> Option<usize> {
    for (place, event) in events.iter().enumerate() {
        if is_bad_drain(*event) {
            return Some(place);
        }
    }
    None
}

/// How often a value is among these elements.
fn count_among(elements: &str, value: &str) -> usize {
    let mut times = 0;
    for element in elements.split(',') {
        times = counted(times, normal(element) == value);
    }
    times
}

/// How often drains took a value out.
fn drained(events: &[Event], value: &str) -> usize {
    let mut times = 0usize;
    for event in events {
        if event.is(":ok", ":drain") {
            let elements = elements(event.value).unwrap_or("");
            times = times.saturating_add(count_among(elements, value));
        }
    }
    times
}

/// How often a value came out.
fn dequeued(events: &[Event], value: &str) -> usize {
    count_with(events, ":ok", ":dequeue", value).saturating_add(drained(events, value))
}

/// How often clients tried to put a value in.
fn attempted(events: &[Event], value: &str) -> usize {
    count_with(events, ":invoke", ":enqueue", value)
}

/// How often a value is known to have been put in.
fn enqueued(events: &[Event], value: &str) -> usize {
    count_with(events, ":ok", ":enqueue", value)
}

/// How often a value came out as clients tried to put it in.
fn ok(events: &[Event], value: &str) -> usize {
    dequeued(events, value).min(attempted(events, value))
}

/// How often a value came out that nobody tried to put in.
fn unexpected(events: &[Event], value: &str) -> usize {
    if attempted(events, value) == 0 {
        dequeued(events, value)
    } else {
        0
    }
}

/// How often a value came out beyond that.
fn duplicated(events: &[Event], value: &str) -> usize {
    let more = dequeued(events, value).saturating_sub(attempted(events, value));
    more.saturating_sub(unexpected(events, value))
}

/// A part of the result.
#[derive(Clone, Copy)]
enum Part {
    Lost,
    Unexpected,
    Duplicated,
    Recovered,
}

/// How often a value is in a part.
fn times_in(events: &[Event], part: Part, value: &str) -> usize {
    match part {
        Part::Lost => enqueued(events, value).saturating_sub(dequeued(events, value)),
        Part::Unexpected => unexpected(events, value),
        Part::Duplicated => duplicated(events, value),
        Part::Recovered => ok(events, value).saturating_sub(enqueued(events, value)),
    }
}

/// The values of a part, each with how often it is there.
fn tally(alloc: Global, events: &[Event], part: Part) -> Result<String, AllocError> {
    let mut tally = String::new(alloc);
    for value in VALUES.split('|') {
        let times = times_in(events, part, value);
        if times > 0 {
            add_item(&mut tally, &format!(in alloc; "{value} {times}")?)?;
        }
    }
    Ok(tally)
}

/// Whether no value is in a part.
fn is_none(events: &[Event], part: Part) -> bool {
    for value in VALUES.split('|') {
        if times_in(events, part, value) > 0 {
            return false;
        }
    }
    true
}

/// How many values came out as clients tried to put them in.
fn ok_count(events: &[Event]) -> usize {
    let mut times = 0usize;
    for value in VALUES.split('|') {
        times = times.saturating_add(ok(events, value));
    }
    times
}

/// The first half of the line.
fn numbers(alloc: Global, events: &[Event]) -> Result<String, AllocError> {
    let is_valid = is_none(events, Part::Lost) && is_none(events, Part::Unexpected);
    let attempted = count(events, ":invoke", ":enqueue");
    let acknowledged = count(events, ":ok", ":enqueue");
    let ok = ok_count(events);
    format!(in alloc;
        ":valid? {is_valid}, :attempted {attempted}, :acknowledged {acknowledged}, :ok {ok}"
    )
}

/// The third quarter.
fn wrong(alloc: Global, events: &[Event]) -> Result<String, AllocError> {
    let lost = tally(alloc, events, Part::Lost)?;
    let unexpected = tally(alloc, events, Part::Unexpected)?;
    format!(in alloc; ":lost {{{lost}}}, :unexpected {{{unexpected}}}")
}

/// The last quarter.
fn allowed(alloc: Global, events: &[Event]) -> Result<String, AllocError> {
    let duplicated = tally(alloc, events, Part::Duplicated)?;
    let recovered = tally(alloc, events, Part::Recovered)?;
    format!(in alloc; ":duplicated {{{duplicated}}}, :recovered {{{recovered}}}")
}

/// The line, where no drain is bad.
fn whole_line(alloc: Global, events: &[Event]) -> Result<String, AllocError> {
    let numbers = numbers(alloc, events)?;
    let wrong = wrong(alloc, events)?;
    let allowed = allowed(alloc, events)?;
    format!(in alloc; "{{{numbers}, {wrong}, {allowed}}}")
}

/// The line, or the message of the refusal.
fn line(alloc: Global, events: &[Event]) -> Result<String, AllocError> {
    match bad_drain(events) {
        Some(place) => format!(in alloc; "operation {place}: bad value"),
        None => whole_line(alloc, events),
    }
}

/// The plain checker of queues as a whole.
#[derive(Clone, Copy)]
pub(crate) struct PlainTotalQueue;

impl Plain for PlainTotalQueue {
    fn row_of(&self, alloc: Global, seed: u64) -> Result<String, AllocError> {
        let mut dice = Dice::new(seed);
        let events = any_events(alloc, &mut dice)?;
        let line = line(alloc, &events)?;
        row(alloc, &text_of(alloc, &events)?, &line)
    }
}
