//! Texts that look random.

use crate::plain_edn::pieces::{NESTS, ODDITIES, ROWS, SETS, SHAPES, SPOILS, pieces_of};
use jh_test_kit::Dice;
use std::alloc::{AllocError, Global};

/// Puts one of the pieces behind a text, with other pieces for its letters, at most so many inside
/// one another.
fn put(
    text: &mut String,
    dice: &mut Dice,
    pieces: &'static str,
    depth: u32,
) -> Result<(), AllocError> {
    for c in dice.one_of(pieces, "|").chars() {
        match (pieces_of(c, depth), depth.checked_sub(1)) {
            (Some(inner), Some(below)) => put(text, dice, inner, below)?,
            _ => text.push(c)?,
        }
    }
    Ok(())
}

/// Some elements, of which some are refused.
fn put_whole(text: &mut String, dice: &mut Dice) -> Result<(), AllocError> {
    let (pieces, depth) = match dice.below(8) {
        0 => (ROWS, 1),
        1 => (NESTS, 63 + dice.below(4) as u32),
        2 | 3 => (SETS, 1),
        4 | 5 => (ODDITIES, 4),
        _ => (SHAPES, 5),
    };
    put(text, dice, pieces, depth)?;
    put(text, dice, " |\n|\n(1)", 0)
}

/// A text with a piece at a place, from where on nothing, one character or all of it is left out.
fn spoiled(alloc: Global, text: &str, dice: &mut Dice) -> Result<String, AllocError> {
    let place = dice.below((text.len() as u64).max(1)) as usize;
    let front = text.get(..place).unwrap_or(text);
    let back = text.get(place..).unwrap_or("");
    let mut spoiled = String::from_str(alloc, front)?;
    put(&mut spoiled, dice, SPOILS, 1)?;
    match dice.below(4) {
        0 => spoiled.push_str(back)?,
        1 => spoiled.push_str(back.get(1..).unwrap_or(back))?,
        _ => {}
    }
    Ok(spoiled)
}

/// A text that is read or refused.
pub fn random_text(alloc: Global, seed: u64) -> Result<String, AllocError> {
    let mut dice = Dice::new(seed);
    let mut text = String::new(alloc);
    for _ in 0..=dice.below(2) {
        put_whole(&mut text, &mut dice)?;
    }
    match dice.below(3) {
        0 => spoiled(alloc, &text, &mut dice),
        _ => Ok(text),
    }
}
