//! The audit, by looking at all lines for each question.
//!
//! None is answered where memory was refused.

use crate::plain_audit::completions::is_completed;
use crate::plain_audit::forms::{has_form, pair_in};
use crate::plain_audit::lines::Line;
use jh_simnode::Event;
use std::alloc::Global;

/// The line of its process just before a place.
fn before<'a>(lines: &'a [Line<'a>], place: usize) -> Option<usize> {
    let process = lines.get(place)?.process;
    let earlier = lines.get(..place)?;
    earlier.iter().rposition(|line| line.process == process)
}

/// What a client asked for, and with what where that is in its completion too.
fn request_in<'a>(line: &Line<'a>) -> (&'a str, &'a str) {
    match line.f {
        "read" | "generate" => (line.f, ""),
        _ => (line.f, line.value),
    }
}

/// Whether one line asks what the other answers, or begins the entry that it ends.
fn is_asked_by(answer: &Line<'_>, ask: &Line<'_>) -> bool {
    if ask.event.is_some() {
        return false;
    }
    if answer.is_nemesis() {
        pair_in(answer.value).is_some_and(|(entry, _)| entry == ask.value)
    } else {
        request_in(answer) == request_in(ask)
    }
}

/// Whether its process may ask again after a line.
fn is_over(line: &Line<'_>) -> bool {
    line.event.is_some() && (line.is_nemesis() || line.kind != "info")
}

/// Whether a completion answers the line of its process just before it. An invocation needs a later
/// line of its process, and just before it none, or one after which the process may ask again.
fn is_paired(lines: &[Line<'_>], place: usize) -> Option<bool> {
    let line = lines.get(place)?;
    let earlier = before(lines, place).and_then(|place| lines.get(place));
    if line.event.is_some() {
        return Some(earlier.is_some_and(|ask| is_asked_by(line, ask)));
    }
    let mut later = lines.get(place..)?.iter().skip(1);
    let goes_on = later.any(|other| other.process == line.process);
    Some(goes_on && earlier.is_none_or(is_over))
}

/// Whether the event of a line comes after all that were named before its invocation.
fn is_in_order(lines: &[Line<'_>], place: usize) -> Option<bool> {
    let event = lines.get(place)?.event;
    let Some(asked) = before(lines, place) else {
        return Some(true);
    };
    let mut earlier = lines.get(..asked)?.iter();
    Some(earlier.all(|line| line.event.is_none() || line.event < event))
}

/// What is wrong with the event of a completion.
fn wrong_event(
    alloc: Global,
    journal: &[Event],
    lines: &[Line<'_>],
    place: usize,
    number: usize,
) -> Option<&'static str> {
    let line = lines.get(place)?;
    let Some(event) = journal.get(number) else {
        return Some("no such event");
    };
    if !is_completed(alloc, event, line)? {
        return Some("wrong event");
    }
    if lines
        .get(..place)?
        .iter()
        .any(|line| line.event == Some(number))
    {
        return Some("repeated event");
    }
    Some("")
}

/// What is wrong at a place; an empty text where nothing is.
fn wrong_at(
    alloc: Global,
    journal: &[Event],
    lines: &[Line<'_>],
    place: usize,
) -> Option<&'static str> {
    let line = lines.get(place)?;
    if !has_form(line, place) {
        return Some("bad operation");
    }
    if let Some(number) = line.event {
        let wrong = wrong_event(alloc, journal, lines, place, number)?;
        if wrong != "" {
            return Some(wrong);
        }
    }
    if !is_paired(lines, place)? {
        return Some("unpaired");
    }
    if line.event.is_some() && !is_in_order(lines, place)? {
        return Some("wrong order");
    }
    Some("")
}

/// The first event that must be named and is not.
fn first_unnamed(journal: &[Event], lines: &[Line<'_>]) -> Option<usize> {
    for (number, event) in journal.iter().enumerate() {
        let is_tick = matches!(event, Event::Tick);
        if !is_tick && lines.iter().all(|line| line.event != Some(number)) {
            return Some(number);
        }
    }
    None
}

/// The message of the first fault, or `ok`.
pub fn audited_slowly(alloc: Global, journal: &[Event], lines: &[Line<'_>]) -> Option<String> {
    for place in 0..lines.len() {
        let wrong = wrong_at(alloc, journal, lines, place)?;
        if wrong != "" {
            return format!(in alloc; "operation {place}: {wrong}").ok();
        }
    }
    match first_unnamed(journal, lines) {
        Some(number) => format!(in alloc; "event {number}: not named").ok(),
        None => String::from_str(alloc, "ok").ok(),
    }
}
