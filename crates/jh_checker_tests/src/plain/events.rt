//! The operations of queues, and random ones.

use crate::plain::counted;
use jh_test_kit::Dice;
use std::alloc::{AllocError, Global};

/// The nemesis. All others are clients.
const NEMESIS: u64 = 3;

/// An operation, as the history writes it.
#[derive(Clone, Copy)]
pub(crate) struct Event {
    pub(crate) process: u64,
    pub(crate) kind: &'static str,
    pub(crate) f: &'static str,
    pub(crate) value: &'static str,
}

impl Event {
    /// Whether it is a client's operation.
    pub(crate) fn is_by_client(self) -> bool {
        self.process != NEMESIS
    }

    /// Whether a client did this.
    pub(crate) fn is(self, kind: &str, f: &str) -> bool {
        self.is_by_client() && self.kind == kind && self.f == f
    }

    /// The same with this value, equal as EDN says.
    pub(crate) fn has(self, value: &str) -> bool {
        normal(self.value) == value
    }

    /// Its text.
    pub(crate) fn text(self, alloc: Global) -> Result<String, AllocError> {
        let Event {
            process,
            kind,
            f,
            value,
        } = self;
        if process == NEMESIS {
            return format!(in alloc; "{{:type {kind}, :process :nemesis, :f {f}, :value {value}}}");
        }
        format!(in alloc; "{{:type {kind}, :process {process}, :f {f}, :value {value}}}")
    }
}

/// The normal form of a value: a list is a vector.
pub(crate) fn normal(value: &str) -> &str {
    if value == "(1)" { "[1]" } else { value }
}

/// The text of a history.
pub(crate) fn text_of(alloc: Global, events: &[Event]) -> Result<String, AllocError> {
    let mut text = String::new(alloc);
    for event in events {
        text.push_str(&event.text(alloc)?)?;
        text.push('\n')?;
    }
    Ok(text)
}

/// How often clients did this.
pub(crate) fn count(events: &[Event], kind: &str, f: &str) -> usize {
    let mut times = 0;
    for event in events {
        times = counted(times, event.is(kind, f));
    }
    times
}

/// How often clients did this with a value.
pub(crate) fn count_with(events: &[Event], kind: &str, f: &str, value: &str) -> usize {
    let mut times = 0;
    for event in events {
        times = counted(times, event.is(kind, f) && event.has(value));
    }
    times
}

/// A random value, often the same one.
fn random_value(dice: &mut Dice) -> &'static str {
    dice.one_of("1|1|1|1|1|2|\"a\"|[1]|(1)|nil", "|")
}

/// How long a history is, more often long than short.
fn random_length(dice: &mut Dice) -> u64 {
    dice.below(13).max(dice.below(13))
}

/// What a drain shows, seldom nothing that a drain of this kind can show.
fn random_drain(dice: &mut Dice, kind: &str) -> &'static str {
    let is_known = kind == ":invoke" || kind == ":ok";
    if dice.below(5) == 0 {
        dice.one_of("nil|7|[]|\"a\"|{}|#{1}", "|")
    } else if is_known {
        dice.one_of("[]|[1]|(2,1)|[\"a\",\"a\"]|((1),nil,1)|[2,[1],2,(1)]", "|")
    } else {
        "nil"
    }
}

/// Any operation on a queue.
fn random_event(dice: &mut Dice) -> Event {
    let process = dice.below(4);
    let kind = dice.one_of(":invoke|:invoke|:ok|:ok|:fail|:info", "|");
    let f = dice.one_of(":enqueue|:enqueue|:enqueue|:dequeue|:dequeue|:drain", "|");
    let value = if f == ":drain" {
        random_drain(dice, kind)
    } else {
        random_value(dice)
    };
    Event {
        process,
        kind,
        f,
        value,
    }
}

/// Any operations on a queue.
pub(crate) fn any_events(alloc: Global, dice: &mut Dice) -> Result<Vec<Event>, AllocError> {
    let mut events = Vec::new(alloc);
    for _ in 0..random_length(dice) {
        events.push(random_event(dice))?;
    }
    Ok(events)
}

/// One that does operations, one after another.
#[derive(Clone, Copy)]
struct Client {
    process: u64,
    /// The function of the operation that is not done.
    waiting: Option<&'static str>,
}

impl Client {
    /// What it invokes next.
    fn invoke(&mut self, dice: &mut Dice) -> Event {
        let f = dice.one_of(":enqueue|:enqueue|:dequeue", "|");
        self.waiting = Some(f);
        Event {
            process: self.process,
            kind: ":invoke",
            f,
            value: random_value(dice),
        }
    }

    /// How its operation ends. What ends it may have another function.
    fn end(&mut self, dice: &mut Dice, waiting: &'static str) -> Event {
        let kind = dice.one_of(":ok|:ok|:ok|:fail|:info", "|");
        let other = dice.one_of(":enqueue|:dequeue", "|");
        let ended = Event {
            process: self.process,
            kind,
            f: if dice.below(8) == 0 { other } else { waiting },
            value: random_value(dice),
        };
        self.waiting = None;
        if kind == ":info" {
            self.process = self.process.saturating_add(4);
        }
        ended
    }

    /// What it does next.
    fn next(&mut self, dice: &mut Dice) -> Event {
        match self.waiting {
            Some(f) => self.end(dice, f),
            None => self.invoke(dice),
        }
    }
}

/// Operations of three clients that pair, and of the nemesis.
pub(crate) fn paired_events(alloc: Global, dice: &mut Dice) -> Result<Vec<Event>, AllocError> {
    let mut clients = [0, 1, 2].map(|process| Client {
        process,
        waiting: None,
    });
    let mut events = Vec::new(alloc);
    for _ in 0..random_length(dice) {
        let event = match clients.get_mut(dice.below(4) as usize) {
            Some(client) => client.next(dice),
            None => Event {
                process: NEMESIS,
                ..random_event(dice)
            },
        };
        events.push(event)?;
    }
    Ok(events)
}
