//! Queues whose dequeues each come from somewhere: one pass over the history, with the values that are in the queue.

use crate::plain::events::{Event, normal, paired_events, text_of};
use crate::plain::{Plain, row};
use jh_test_kit::Dice;
use std::alloc::{AllocError, Global};

/// How the operation ended that a process began at a place, if it did.
fn outcome(events: &[Event], place: usize, process: u64) -> Option<&'static str> {
    for (later, event) in events.iter().enumerate() {
        if later > place && event.process == process {
            return Some(event.kind);
        }
    }
    None
}

/// The function of what a process did last before a place.
fn asked(events: &[Event], place: usize, process: u64) -> Option<&'static str> {
    let mut found = None;
    for (earlier, event) in events.iter().enumerate() {
        if earlier < place && event.process == process {
            found = Some(event.f);
        }
    }
    found
}

/// Whether an enqueue that may happen begins at a place.
fn goes_in(events: &[Event], place: usize, event: Event) -> bool {
    event.is(":invoke", ":enqueue") && outcome(events, place, event.process) != Some(":fail")
}

/// Whether a dequeue that happened ends at a place.
fn comes_out(events: &[Event], place: usize, event: Event) -> bool {
    event.is_by_client()
        && event.kind == ":ok"
        && asked(events, place, event.process) == Some(":dequeue")
}

/// Takes one such value out, if there is one.
fn take(held: &mut Vec<&'static str>, value: &str) -> bool {
    for at in 0..held.len() {
        if held[at] == value {
            held.remove(at);
            return true;
        }
    }
    false
}

/// How many dequeues there are, or the first that comes from nowhere.
fn judged(alloc: Global, events: &[Event]) -> Result<Result<usize, Event>, AllocError> {
    let mut held = Vec::new(alloc);
    let mut taken = 0usize;
    for (place, event) in events.iter().enumerate() {
        if goes_in(events, place, *event) {
            held.push(normal(event.value))?;
        }
        if comes_out(events, place, *event) {
            if !take(&mut held, normal(event.value)) {
                return Ok(Err(*event));
            }
            taken = taken.saturating_add(1);
        }
    }
    Ok(Ok(taken))
}

/// The line where the first dequeue that comes from nowhere is this one.
fn first_line(alloc: Global, event: Event) -> Result<String, AllocError> {
    let text = event.text(alloc)?;
    format!(in alloc; "{{:valid? false, :first {text}}}")
}

/// The line.
fn line(alloc: Global, events: &[Event]) -> Result<String, AllocError> {
    match judged(alloc, events)? {
        Ok(taken) => format!(in alloc; "{{:valid? true, :dequeued {taken}}}"),
        Err(event) => first_line(alloc, event),
    }
}

/// The plain checker of queues whose dequeues each come from somewhere.
#[derive(Clone, Copy)]
pub(crate) struct PlainQueue;

impl Plain for PlainQueue {
    fn row_of(&self, alloc: Global, seed: u64) -> Result<String, AllocError> {
        let mut dice = Dice::new(seed);
        let events = paired_events(alloc, &mut dice)?;
        let line = line(alloc, &events)?;
        row(alloc, &text_of(alloc, &events)?, &line)
    }
}
