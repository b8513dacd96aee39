//! Sums of a counter's adds up to each place of a history, in one pass each.
//!
//! `specs/CounterResults.antt` says which sums a read is bound by; `specs/CounterInside.antt` what
//! is kept here of them.

ghost use Rattle.std.specs.Prelude.{◌≡◌, ℕ, ◌+◌, ◌^◌, ◌<◌, ◌≤◌, length, slice_index, sum, take};
ghost use Rattle.std.specs.Prelude.{vec_len};
ghost use Rattle.std.specs.Prelude.{All, IfOk, IfSome};
ghost use Rattle.jh_ops.specs.Operation.{operations};
ghost use Rattle.jh_ops.specs.Pairing.{IsPairWithin};
ghost use Rattle.jh_check.specs.CounterInside as inside;
ghost use Rattle.jh_check.specs.CounterInside.{AreBounds, bound_before, increase_before};
ghost use Rattle.std.specs.Option.{ForSome};

use crate::pairs::{amount, end_of, is_surely_added, may_be_added};
use jh_ops::{Op, Pair};
use std::alloc::{AllocError, Global};

/// A bound of what a read may give.
#[derive(Clone, Copy, Debug)]
pub(crate) enum Bound {
    /// What was surely added before the read was invoked.
    Lower,
    /// What may have been added before it completed.
    Upper,
}

/// An amount that is added at a place.
#[derive(Clone, Copy, Debug)]
pub(crate) struct Increase {
    pub(crate) place: usize,
    pub(crate) amount: u64,
}

/// What an operation adds to a bound, and from which place on.
fn increase_of(side: Bound, history: &[Op], pair: Pair) -> Option<Increase>
    requires { IsPairWithin (length history.now) pair }
    ensures increase { result ≡ inside.increase_of side (operations history.now) pair }
    ensures bound { IfSome result (λ increase. increase.amount < 2 ^ 63) }
    ensures there { IfSome result (λ increase. increase.place < length history.now) }
{
    match side {
        Bound::Lower if is_surely_added(history, pair) => Some(Increase {
            place: end_of(pair),
            amount: amount(history, pair),
        }),
        Bound::Upper if may_be_added(history, pair) => Some(Increase {
            place: pair.invoke,
            amount: amount(history, pair),
        }),
        _ => None,
    }
}

/// Puts the amount, where there is one, to that of its place.
fn add_at(amounts: &mut Vec<u128>, increase: Option<Increase>)
    requires there { ForSome increase (λ x. x.place < vec_len amounts.old) }
    requires amount { ForSome increase (λ x. x.amount < 2 ^ 63) }
    requires fits { sum amounts.old.items < 2 ^ 127 }
    ensures long { vec_len amounts.new ≡ vec_len amounts.old }
    ensures sums { (place : ℕ) → sum (take place amounts.new.items)
        ≡ sum (take place amounts.old.items) + increase_before place increase }
    ensures whole { sum amounts.new.items ≤ sum amounts.old.items + 2 ^ 63 }
{
    if let Some(increase) = increase {
        amounts[increase.place] += u128::from(increase.amount);
    }
}

/// What operations add to a bound at each place.
fn amounts_of(
    alloc: Global,
    side: Bound,
    history: &[Op],
    pairs: &[Pair],
) -> Result<Vec<u128>, AllocError>
    requires { All (IsPairWithin (length history.now)) pairs.now }
    ensures long { IfOk result (λ amounts. vec_len amounts ≡ length history.now) }
    ensures sums { IfOk result
        (λ amounts. (place : ℕ) → place ≤ length history.now
        → sum (take place amounts.items)
        ≡ bound_before side (operations history.now) pairs.now place) }
    ensures fits { IfOk result (λ amounts. sum amounts.items < 2 ^ 127) }
{
    let mut amounts = vec![in alloc; 0u128; history.len()]?;
    for pair in pairs {
        add_at(&mut amounts, increase_of(side, history, *pair));
    }
    Ok(amounts)
}

/// The sum of the amounts before each place, and of all of them.
fn sums_before(alloc: Global, amounts: &[u128]) -> Result<Vec<u128>, AllocError>
    requires { sum amounts.now < 2 ^ 127 }
    ensures long { IfOk result (λ sums. vec_len sums ≡ length amounts.now + 1) }
    ensures sums { IfOk result (λ sums. (place : ℕ) → place ≤ length amounts.now
        → slice_index sums.items place ≡ sum (take place amounts.now)) }
{
    let mut sums = Vec::new(alloc);
    let mut total = 0;
    for amount in amounts {
        sums.push(total)?;
        total += *amount;
    }
    sums.push(total)?;
    Ok(sums)
}

/// A bound at each place of the history and behind it.
pub(crate) fn bounds(
    alloc: Global,
    side: Bound,
    history: &[Op],
    pairs: &[Pair],
) -> Result<Vec<u128>, AllocError>
    requires { All (IsPairWithin (length history.now)) pairs.now }
    ensures { IfOk result
        (λ totals. AreBounds side (operations history.now) pairs.now totals.items) }
{
    let amounts = amounts_of(alloc, side, history, pairs)?;
    sums_before(alloc, &amounts)
}
