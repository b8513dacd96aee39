//! The operations that the plain checkers judge, and random ones. A value is a small number; where
//! a set is read, it is a row of bits, one for each element from 0 to 4.

use jh_ops::Workload;
use jh_test_kit::Dice;
use std::alloc::{AllocError, Global};

/// Processes below this one are clients, and this one is the nemesis.
const NEMESIS: u64 = 3;

/// An operation of a history, as the history writes it.
#[derive(Clone, Copy)]
pub(crate) struct Event {
    pub(crate) process: u64,
    pub(crate) kind: &'static str,
    pub(crate) f: &'static str,
    /// Nothing for nil.
    pub(crate) value: Option<i64>,
}

impl Event {
    /// Whether it is a client's operation.
    pub(crate) fn is_by_client(self) -> bool {
        self.process != NEMESIS
    }

    /// Whether a client did this.
    pub(crate) fn is(self, kind: &str, f: &str) -> bool {
        self.is_by_client() && self.kind == kind && self.f == f
    }
}

/// Adds an item to a list, behind a space if it is not the first.
pub(crate) fn add_item(list: &mut String, item: &str) -> Result<(), AllocError> {
    if !list.is_empty() {
        list.push(' ')?;
    }
    list.push_str(item)
}

/// Those of these digits whose bit is set.
pub(crate) fn listed(alloc: Global, bits: u64, digits: &str) -> Result<String, AllocError> {
    let mut list = String::new(alloc);
    for digit in digits.split(' ') {
        let place = digit.parse::<u32>().unwrap_or(63);
        if bits.wrapping_shr(place) & 1 == 1 {
            add_item(&mut list, digit)?;
        }
    }
    Ok(list)
}

/// The value of an event. The elements of a set stand there twice, and in no order.
fn value(alloc: Global, workload: Workload, event: Event) -> Result<String, AllocError> {
    match event.value {
        Some(bits) if workload == Workload::Set && event.f == ":read" => {
            let list = listed(alloc, bits.unsigned_abs(), "4 1 3 0 2 4 3 2 1 0")?;
            format!(in alloc; "[{list}]")
        }
        Some(number) => number.to_string(alloc),
        None => "nil".to_string(alloc),
    }
}

/// The text of a history.
pub(crate) fn text_of(
    alloc: Global,
    workload: Workload,
    events: &[Event],
) -> Result<String, AllocError> {
    let mut text = String::new(alloc);
    for event in events {
        let process = match event.process {
            0 => "0",
            1 => "1",
            2 => "2",
            _ => ":nemesis",
        };
        let Event { kind, f, .. } = *event;
        let value = value(alloc, workload, *event)?;
        text.push_str(&format!(in alloc; "{process} {kind} {f} {value}; ")?)?;
    }
    Ok(text)
}

/// A random kind, `:ok` twice as often as any other.
fn random_kind(dice: &mut Dice) -> &'static str {
    match dice.below(5) {
        0 => ":fail",
        1 => ":info",
        2 | 3 => ":ok",
        _ => ":invoke",
    }
}

/// Any operations at all: with the first function three times out of four, else with the second.
pub(crate) fn any_events(
    alloc: Global,
    dice: &mut Dice,
    often: &'static str,
    seldom: &'static str,
) -> Result<Vec<Event>, AllocError> {
    let mut events = Vec::new(alloc);
    for _ in 0..dice.below(12) {
        let f = if dice.below(4) == 0 { seldom } else { often };
        let limit = if f == ":read" { 32 } else { 5 };
        events.push(Event {
            process: dice.below(4),
            kind: random_kind(dice),
            f,
            value: i64::try_from(dice.below(limit)).ok(),
        })?;
    }
    Ok(events)
}

/// One that does operations, one after another.
#[derive(Clone, Copy)]
struct Worker {
    /// The function of the operation that is not done.
    waiting: Option<&'static str>,
    has_crashed: bool,
}

impl Worker {
    /// What it does next, if anything. What ends an operation may have another function.
    fn next(&mut self, dice: &mut Dice, process: u64) -> Option<Event> {
        if self.has_crashed {
            return None;
        }
        let value = match dice.below(24) {
            0 => None,
            1 => Some(-1),
            value => i64::try_from(value % 6).ok(),
        };
        let (kind, f) = match self.waiting {
            None if dice.below(2) == 0 => (":invoke", ":add"),
            None => (":invoke", ":read"),
            Some(f) if dice.below(6) > 0 => (random_kind(dice), f),
            Some(_) => (random_kind(dice), ":generate"),
        };
        let is_invoked = kind == ":invoke";
        if self.waiting.is_some() && is_invoked {
            return None;
        }
        self.waiting = is_invoked.then_some(f);
        self.has_crashed = kind == ":info";
        Some(Event {
            process,
            kind,
            f,
            value,
        })
    }
}

/// Operations of three clients that pair, and of the nemesis.
pub(crate) fn paired_events(alloc: Global, dice: &mut Dice) -> Result<Vec<Event>, AllocError> {
    let mut workers = [Worker {
        waiting: None,
        has_crashed: false,
    }; 4];
    let mut events = Vec::new(alloc);
    for _ in 0..dice.below(14) {
        let process = dice.below(4);
        if let Some(event) = workers[process as usize].next(dice, process) {
            events.push(event)?;
        }
    }
    Ok(events)
}
