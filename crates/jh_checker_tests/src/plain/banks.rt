//! Banks: each error is looked for in all reads, and each sum is added up anew.

use crate::plain::{Plain, add_item, counted, row};
use jh_test_kit::Dice;
use std::alloc::{AllocError, Global};

/// The total of the bank.
const TOTAL: i128 = 100;

/// The errors of reads, in the order in which a read is asked for them.
const ERRORS: &str = "unexpected-key|nil-balance|wrong-total|negative-value";

/// What a read may show of a key: a balance, or nothing.
#[derive(Clone, Copy)]
struct Balance {
    key: &'static str,
    /// An integer or nil, or an empty text where it is not shown.
    amount: &'static str,
}

/// What an operation has as its value.
#[derive(Clone, Copy)]
struct Shown {
    /// What stands in place of a map of balances, if something does.
    other: Option<&'static str>,
    /// The balances of the map.
    balances: [Balance; 4],
}

/// An operation.
#[derive(Clone, Copy)]
struct Event {
    /// With a colon the nemesis.
    process: &'static str,
    kind: &'static str,
    f: &'static str,
    shown: Shown,
}

impl Balance {
    /// Whether it is there.
    fn is_shown(self) -> bool {
        !self.amount.is_empty()
    }

    /// Its number, 0 where it is none.
    fn number(self) -> i128 {
        i128::from(self.amount.parse::<i64>().unwrap_or(0))
    }
}

/// The text of a map.
fn map_text(alloc: Global, balances: &[Balance]) -> Result<String, AllocError> {
    let mut text = String::new(alloc);
    for balance in balances {
        if balance.is_shown() {
            let Balance { key, amount } = *balance;
            add_item(&mut text, &format!(in alloc; "{key} {amount}")?)?;
        }
    }
    format!(in alloc; "{{{text}}}")
}

impl Event {
    /// The text of its value.
    fn value_text(&self, alloc: Global) -> Result<String, AllocError> {
        match self.shown.other {
            Some(text) => text.to_string(alloc),
            None => map_text(alloc, self.balances()),
        }
    }

    /// Its text.
    fn text(&self, alloc: Global) -> Result<String, AllocError> {
        let value = self.value_text(alloc)?;
        let (process, kind, f) = (self.process, self.kind, self.f);
        format!(in alloc; "{{:type {kind}, :process {process}, :f {f}, :value {value}}}")
    }

    /// Whether it is a read that happened.
    fn is_ok_read(&self) -> bool {
        self.process != ":nemesis" && self.kind == ":ok" && self.f == ":read"
    }

    /// Its balances.
    fn balances(&self) -> &[Balance] {
        self.shown.balances.as_slice()
    }

    /// Whether it is a read that shows no balances.
    fn is_bad(&self) -> bool {
        self.is_ok_read() && self.shown.other.is_some()
    }
}

/// Whether there is a balance under a key that is no account.
fn has_unexpected_key(balances: &[Balance]) -> bool {
    balances
        .iter()
        .any(|balance| balance.is_shown() && balance.key == "7")
}

/// Whether a balance is nil.
fn has_nil(balances: &[Balance]) -> bool {
    balances.iter().any(|balance| balance.amount == "nil")
}

/// Whether a balance is negative.
fn has_negative(balances: &[Balance]) -> bool {
    balances.iter().any(|balance| balance.number() < 0)
}

/// The sum of balances.
fn sum(balances: &[Balance]) -> i128 {
    let mut sum = 0i128;
    for balance in balances {
        sum = sum.saturating_add(balance.number());
    }
    sum
}

/// How far the sum is from the total.
fn distance(event: &Event) -> u128 {
    sum(event.balances()).abs_diff(TOTAL)
}

/// The first error of balances.
fn error_of(balances: &[Balance], may_be_negative: bool) -> Option<&'static str> {
    if has_unexpected_key(balances) {
        Some("unexpected-key")
    } else if has_nil(balances) {
        Some("nil-balance")
    } else if sum(balances) != TOTAL {
        Some("wrong-total")
    } else if has_negative(balances) && !may_be_negative {
        Some("negative-value")
    } else {
        None
    }
}

/// Whether it is a read with this error.
fn has_error(event: &Event, may_be_negative: bool, error: &str) -> bool {
    event.is_ok_read() && error_of(event.balances(), may_be_negative) == Some(error)
}

/// How many reads happened.
fn count_reads(events: &[Event]) -> usize {
    let mut count = 0;
    for event in events {
        count = counted(count, event.is_ok_read());
    }
    count
}

/// How many reads have an error.
fn count_errors(events: &[Event], may_be_negative: bool, error: &str) -> usize {
    let mut count = 0;
    for event in events {
        count = counted(count, has_error(event, may_be_negative, error));
    }
    count
}

/// The text of the first read with an error, or an empty one where none has it.
fn first_text(
    alloc: Global,
    events: &[Event],
    may_be_negative: bool,
    error: &str,
) -> Result<String, AllocError> {
    for event in events {
        if has_error(event, may_be_negative, error) {
            return event.text(alloc);
        }
    }
    Ok(String::new(alloc))
}

/// The pairs of the errors that there are.
fn errors_text(
    alloc: Global,
    events: &[Event],
    may_be_negative: bool,
) -> Result<String, AllocError> {
    let mut text = String::new(alloc);
    for error in ERRORS.split('|') {
        let count = count_errors(events, may_be_negative, error);
        if count > 0 {
            let first = first_text(alloc, events, may_be_negative, error)?;
            let pair = format!(in alloc; ":{error} {{:count {count}, :first {first}}}")?;
            add_item(&mut text, &pair)?;
        }
    }
    Ok(text)
}

/// Whether a read with a wrong total is nearer than another at most, and no such read in front of it is as far.
fn is_farthest(events: &[Event], at: usize, event: &Event, may_be_negative: bool) -> bool {
    for (place, other) in events.iter().enumerate() {
        let is_wrong = has_error(other, may_be_negative, "wrong-total");
        let is_farther = distance(other) > distance(event);
        let is_as_far = distance(other) == distance(event) && place < at;
        if is_wrong && (is_farther || is_as_far) {
            return false;
        }
    }
    true
}

/// The pair of the worst read, behind a comma, if there is one.
fn worst_text(
    alloc: Global,
    events: &[Event],
    may_be_negative: bool,
) -> Result<String, AllocError> {
    for (at, event) in events.iter().enumerate() {
        let is_wrong = has_error(event, may_be_negative, "wrong-total");
        if is_wrong && is_farthest(events, at, event, may_be_negative) {
            let text = event.text(alloc)?;
            return format!(in alloc; ", :worst {text}");
        }
    }
    Ok(String::new(alloc))
}

/// The place of the first read that shows no balances.
fn bad_read(events: &[Event]) -> Option<usize> {
    for (place, event) in events.iter().enumerate() {
        if event.is_bad() {
            return Some(place);
        }
    }
    None
}

/// The line, where all reads show balances.
fn whole_line(
    alloc: Global,
    events: &[Event],
    may_be_negative: bool,
) -> Result<String, AllocError> {
    let errors = errors_text(alloc, events, may_be_negative)?;
    let worst = worst_text(alloc, events, may_be_negative)?;
    let (is_valid, reads) = (errors.is_empty(), count_reads(events));
    format!(in alloc; "{{:valid? {is_valid}, :reads {reads}, :errors {{{errors}}}{worst}}}")
}

/// The line, or the message of the refusal.
fn line(alloc: Global, events: &[Event], may_be_negative: bool) -> Result<String, AllocError> {
    match bad_read(events) {
        Some(place) => format!(in alloc; "operation {place}: bad value"),
        None => whole_line(alloc, events, may_be_negative),
    }
}

/// The text of a history.
fn text_of(alloc: Global, events: &[Event]) -> Result<String, AllocError> {
    let mut text = String::new(alloc);
    for event in events {
        text.push_str(&event.text(alloc)?)?;
        text.push('\n')?;
    }
    Ok(text)
}

/// What is shown of one of these keys.
fn random_balance(dice: &mut Dice, keys: &'static str) -> Balance {
    Balance {
        key: dice.one_of(keys, "|"),
        amount: dice.one_of("||||40|60|100|105|-5|nil|9223372036854775807", "|"),
    }
}

/// What is shown of a key that is no account, seldom anything.
fn random_other(dice: &mut Dice) -> Balance {
    Balance {
        key: "7",
        amount: dice.one_of("||||||||40|nil", "|"),
    }
}

/// A map of balances, with few keys or with all.
fn random_map(dice: &mut Dice) -> [Balance; 4] {
    let first = random_balance(dice, "0");
    let second = random_balance(dice, "1|\"c\"");
    let third = random_balance(dice, "(2)|[2]");
    [first, second, third, random_other(dice)]
}

/// Balances by which the bank has its total, maybe with one that is negative.
fn random_right(dice: &mut Dice) -> [Balance; 4] {
    let (one, other) = match dice.below(4) {
        0 => ("-5", "105"),
        1 => ("100", ""),
        2 => ("60", "40"),
        _ => ("40", "60"),
    };
    ["1", "\"c\"", "0", "(2)"].map(|key| Balance {
        key,
        amount: match key {
            "1" => one,
            "0" => other,
            _ => "",
        },
    })
}

/// The value of an operation, seldom one that shows no balances.
fn random_shown(dice: &mut Dice) -> Shown {
    let odd = dice.one_of("nil|5|[0 100]|{0 \"x\"}|{nil 100, 1 :a}", "|");
    let is_right = dice.below(3) > 0;
    Shown {
        other: if dice.below(24) == 0 { Some(odd) } else { None },
        balances: if is_right {
            random_right(dice)
        } else {
            random_map(dice)
        },
    }
}

/// Any operation on a bank.
fn random_event(dice: &mut Dice) -> Event {
    Event {
        process: dice.one_of("0|1|2|3|:nemesis", "|"),
        kind: dice.one_of(":ok|:ok|:ok|:invoke|:fail|:info", "|"),
        f: dice.one_of(":read|:read|:read|:read|:transfer", "|"),
        shown: random_shown(dice),
    }
}

/// Any operations on a bank.
fn any_events(alloc: Global, dice: &mut Dice) -> Result<Vec<Event>, AllocError> {
    let mut events = Vec::new(alloc);
    for _ in 0..dice.below(13) {
        events.push(random_event(dice))?;
    }
    Ok(events)
}

/// The plain checker of a bank in which balances may be negative, or may not.
#[derive(Clone, Copy)]
pub(crate) struct PlainBank {
    pub(crate) may_be_negative: bool,
}

impl Plain for PlainBank {
    fn row_of(&self, alloc: Global, seed: u64) -> Result<String, AllocError> {
        let mut dice = Dice::new(seed);
        let events = any_events(alloc, &mut dice)?;
        let line = line(alloc, &events, self.may_be_negative)?;
        row(alloc, &text_of(alloc, &events)?, &line)
    }
}
