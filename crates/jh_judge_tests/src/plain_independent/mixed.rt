//! The histories of several keys in one. None is answered where memory was refused.

use crate::plain_check::Case;
use crate::plain_independent::answers::{answer_of, count_before};
use crate::plain_independent::parts::{Part, random_parts};
use jh_ops::Workload;
use jh_test_kit::Dice;
use std::alloc::Global;

/// Puts the number of a part at as many random places as it has operations.
fn deal(dice: &mut Dice, turns: &mut Vec<usize>, number: usize, part: &Part) -> Option<()> {
    for _ in part.case.history.split_terminator("; ") {
        let place = dice.below(turns.len() as u64 + 1) as usize;
        turns.insert(place, number).ok()?;
    }
    Some(())
}

/// The number of the part whose operation stands at each place.
fn random_turns(alloc: Global, dice: &mut Dice, parts: &[Part]) -> Option<Vec<usize>> {
    let mut turns = Vec::new(alloc);
    for (number, part) in parts.iter().enumerate() {
        deal(dice, &mut turns, number, part)?;
    }
    Some(turns)
}

/// A key and a value in one.
fn tuple(alloc: Global, dice: &mut Dice, part: &Part, value: &str) -> Option<String> {
    let Part { key, other, .. } = part;
    match dice.below(3) {
        0 => format!(in alloc; "({key} {value})").ok(),
        1 => format!(in alloc; "[{other} {value}]").ok(),
        _ => format!(in alloc; "[{key} {value}]").ok(),
    }
}

/// What is no tuple, though it holds a key.
fn no_tuple(alloc: Global, dice: &mut Dice, part: &Part, value: &str) -> Option<String> {
    let key = part.key;
    match dice.below(6) {
        0 => "nil".to_string(alloc).ok(),
        1 => format!(in alloc; "[{key}]").ok(),
        2 => format!(in alloc; "({key} {value} {value})").ok(),
        3 => format!(in alloc; "{{{key} {value}}}").ok(),
        4 => format!(in alloc; "#{{[{key} {value}]}}").ok(),
        _ => format!(in alloc; "#tuple [{key} {value}]").ok(),
    }
}

/// An operation of a part with its key, or with no tuple where it is spoiled.
fn keyed(
    alloc: Global,
    dice: &mut Dice,
    part: &Part,
    op: &str,
    is_spoiled: bool,
) -> Option<String> {
    let mut pieces = op.splitn(4, ' ');
    let (process, kind, f) = (pieces.next()?, pieces.next()?, pieces.next()?);
    let value = pieces.next()?;
    let value = match is_spoiled {
        true => no_tuple(alloc, dice, part, value)?,
        false => tuple(alloc, dice, part, value)?,
    };
    format!(in alloc; "{process} {kind} {f} {value}; ").ok()
}

/// The text of a mixed history.
#[derive(Drop)]
struct Mixed {
    text: String,
    /// The place of the first operation of a client that has no tuple.
    bad: Option<usize>,
}

impl Mixed {
    /// Adds an operation of a part at a place.
    fn add(
        &mut self,
        alloc: Global,
        dice: &mut Dice,
        place: usize,
        part: &Part,
        op: &str,
        is_spoiled: bool,
    ) -> Option<()> {
        if is_spoiled && self.bad.is_none() && !op.starts_with(":nemesis") {
            self.bad = Some(place);
        }
        let text = keyed(alloc, dice, part, op, is_spoiled)?;
        self.text.push_str(&text).ok()
    }
}

/// The parts in one, each operation at the place of its turn. Some may be spoiled.
fn mix(
    alloc: Global,
    dice: &mut Dice,
    parts: &[Part],
    turns: &[usize],
    may_spoil: bool,
) -> Option<Mixed> {
    let mut mixed = Mixed {
        text: String::new(alloc),
        bad: None,
    };
    for (place, number) in turns.iter().enumerate() {
        let part = parts.get(*number)?;
        let count = count_before(turns, place);
        let op = part.case.history.split_terminator("; ").nth(count)?;
        let is_spoiled = may_spoil && dice.below(24) == 0;
        mixed.add(alloc, dice, place, part, op, is_spoiled)?;
    }
    Some(mixed)
}

/// A random history of up to forty keys, and what is answered. A register holds 0 at first, and is
/// judged within this budget. One history in four may have values without a key.
pub fn random_keys(alloc: Global, workload: Workload, budget: u64, seed: u64) -> Option<Case> {
    let mut dice = Dice::new(seed);
    let parts = random_parts(alloc, &mut dice, workload, budget)?;
    let turns = random_turns(alloc, &mut dice, &parts)?;
    let may_spoil = dice.below(4) == 0;
    let Mixed { text, bad } = mix(alloc, &mut dice, &parts, &turns, may_spoil)?;
    let answer = match bad {
        Some(place) => format!(in alloc; "operation {place}: bad value").ok()?,
        None => answer_of(alloc, &parts, &turns)?,
    };
    Some(Case {
        history: text,
        answer,
    })
}
