//! Generators that look random: the same ones for the same seed.

use jh_gen::{Gen, Gens, Inner, Rise, Shares};
use jh_ops::{Call, Request};
use jh_test_kit::Dice;
use std::alloc::{AllocError, Global};

/// A random call.
fn random_call(dice: &mut Dice) -> Call {
    match dice.below(3) {
        0 => Call::Client(Request::Read),
        1 => Call::Client(Request::Generate),
        _ => Call::Step(7),
    }
}

/// A generator with at most so many others around its innermost.
#[cycle(random)]
pub fn random_source(alloc: Global, dice: &mut Dice, depth: u32) -> Result<Gen, AllocError> {
    if depth == 0 {
        return Ok(random_leaf(dice));
    }
    let kind = dice.below(10);
    Ok(match kind {
        0 => Gen::Seq(random_members(alloc, dice, depth - 1)?),
        1 => Gen::Mix(random_members(alloc, dice, depth - 1)?),
        2 => Gen::Phases(random_members(alloc, dice, depth - 1)?),
        3 => {
            let most = dice.below(4) as u32;
            Gen::Limit(most, random_inner(alloc, dice, depth - 1)?)
        }
        4 => {
            let shares = random_shares(alloc, dice, depth - 1)?;
            Gen::Reserve(shares, random_inner(alloc, dice, depth - 1)?)
        }
        5 => Gen::EachThread(random_inner(alloc, dice, depth - 1)?),
        6 => Gen::Clients(random_inner(alloc, dice, depth - 1)?),
        7 => Gen::NemesisOnly(random_inner(alloc, dice, depth - 1)?),
        _ => random_leaf(dice),
    })
}

/// A random generator with no other inside.
fn random_leaf(dice: &mut Dice) -> Gen {
    match dice.below(7) {
        0 => Gen::Nil,
        1 => Gen::Rising(Rise::Adds, i64::MAX - 1),
        2 => Gen::Rising(Rise::Writes, i64::MAX - 1),
        3 => Gen::Forever(random_call(dice)),
        _ => Gen::Once(random_call(dice)),
    }
}

/// A random generator to be held by another, with at most so many others around its innermost.
#[cycle(random)]
fn random_inner(alloc: Global, dice: &mut Dice, depth: u32) -> Result<Inner, AllocError> {
    let source = random_source(alloc, dice, depth)?;
    Inner::of(alloc, source)
}

/// Up to three random generators, each with at most so many others around its innermost.
#[cycle(random)]
fn random_members(alloc: Global, dice: &mut Dice, depth: u32) -> Result<Gens, AllocError> {
    let mut members = Vec::new(alloc);
    let count = dice.below(4);
    for _ in 0..count {
        members.push(random_source(alloc, dice, depth)?)?;
    }
    Ok(Gens::of(members))
}

/// Up to two random shares, each of at most two threads.
#[cycle(random)]
fn random_shares(alloc: Global, dice: &mut Dice, depth: u32) -> Result<Shares, AllocError> {
    let mut shares = Vec::new(alloc);
    let count = dice.below(3);
    for _ in 0..count {
        let threads = dice.below(3) as u32;
        shares.push((threads, random_source(alloc, dice, depth)?))?;
    }
    Ok(Shares::of(shares))
}
