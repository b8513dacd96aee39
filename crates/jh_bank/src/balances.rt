//! The balances of one read. `specs/Banks.antt` has the rule.

ghost use Rattle.std.specs.Prelude.{◌≡◌, ◌&&◌, ◌+ℤ◌, IfOk, fold, not, option_map, pos};
ghost use Rattle.std.specs.List.{list_all, list_any};
ghost use Rattle.std.specs.Ordering.{int_eq};
ghost use Rattle.jh_edn.specs.Edn.{is_nil, map_pairs};
ghost use Rattle.jh_edn.specs.View.{view, view_pairs};
ghost use Rattle.jh_bank.specs.Banks as rule;
ghost use Rattle.jh_bank.specs.Banks.{is_account};

use crate::bank::{Accounts, Bank};
use crate::errors::{BankError, first_error};
use jh_edn::Value;
use std::alloc::{AllocError, Global};

/// The pairs of a map, if the value is one.
pub(crate) fn pairs_of(value: &Value) -> Option<&[(Value, Value)]>
    ensures { option_map (λ pairs. view_pairs pairs.now) result ≡ map_pairs (view value.now) }
{
    match value {
        Value::Map(pairs) => Some(pairs.as_slice()),
        _ => None,
    }
}

/// Whether the value is a balance: an integer or nil.
fn is_balance(value: &Value) -> bool
    ensures { result ≡ rule.is_balance (view value.now) }
{
    match value {
        Value::Nil => true,
        Value::Int(_) => true,
        _ => false,
    }
}

/// Whether each pair has a balance.
fn are_balances(pairs: &[(Value, Value)]) -> bool
    ensures { result ≡ list_all (λ pair. rule.is_balance (view pair.1)) pairs.now }
{
    pairs.iter().all(|pair| is_balance(&pair.1))
}

/// Whether the value is a map from keys to balances.
pub(crate) fn shows_balances(value: &Value) -> bool
    ensures { result ≡ rule.shows_balances (view value.now) }
{
    match pairs_of(value) {
        Some(pairs) => are_balances(pairs),
        None => false,
    }
}

/// Whether a balance is nil.
fn has_nil(pairs: &[(Value, Value)]) -> bool
    ensures { result ≡ list_any (λ pair. is_nil (view pair.1)) pairs.now }
{
    pairs.iter().any(|pair| pair.1.is_nil())
}

/// Whether the balance is below 0.
fn is_negative(value: &Value) -> bool
    ensures { result ≡ rule.is_negative_balance (view value.now) }
{
    match value {
        Value::Int(number) => *number < 0,
        _ => false,
    }
}

/// Whether a balance is below 0.
fn has_negative(pairs: &[(Value, Value)]) -> bool
    ensures { result ≡ list_any (λ pair. rule.is_negative_balance (view pair.1)) pairs.now }
{
    pairs.iter().any(|pair| is_negative(&pair.1))
}

/// Whether a balance is below 0, and none may be.
fn has_forbidden(bank: &Bank, pairs: &[(Value, Value)]) -> bool
    ensures { result ≡ (not bank.now.negative_balances
        && list_any (λ pair. rule.is_negative_balance (view pair.1)) pairs.now) }
{
    !bank.negative_balances && has_negative(pairs)
}

/// Whether a key is none of the accounts.
fn has_unexpected(
    alloc: Global,
    accounts: &Accounts,
    pairs: &[(Value, Value)],
) -> Result<bool, AllocError>
    ensures { IfOk result (λ found. found
        ≡ list_any (λ pair. not (is_account accounts.now (view pair.0))) pairs.now) }
{
    for pair in pairs {
        if !accounts.has(alloc, &pair.0)? {
            return Ok(true);
        }
    }
    Ok(false)
}

/// The integer that a balance is, and 0 for any other.
fn amount_of(value: &Value) -> i64
    ensures { result ≡ rule.amount_of (view value.now) }
{
    match value {
        Value::Int(number) => *number,
        _ => 0,
    }
}

/// The sum of the balances.
fn total_of(pairs: &[(Value, Value)]) -> i128
    ensures { result
        ≡ fold (λ total pair. total +ℤ rule.amount_of (view pair.1)) (pos 0) pairs.now }
{
    let mut total = 0;
    for pair in pairs {
        total += i128::from(amount_of(&pair.1));
    }
    total
}

/// Whether the sum of the balances is not the bank's total.
fn has_wrong_total(bank: &Bank, pairs: &[(Value, Value)]) -> bool
    ensures { result ≡ not (int_eq
        (fold (λ total pair. total +ℤ rule.amount_of (view pair.1)) (pos 0) pairs.now)
        bank.now.total) }
{
    !bank.has_total(total_of(pairs))
}

/// How far the sum of the balances is from the bank's total.
pub(crate) fn distance(bank: &Bank, pairs: &[(Value, Value)]) -> u128
    ensures { result ≡ rule.distance bank.now (view_pairs pairs.now) }
{
    total_of(pairs).abs_diff(i128::from(bank.total))
}

/// The error of a read of these pairs, if it has one.
pub(crate) fn bank_error(
    alloc: Global,
    bank: &Bank,
    pairs: &[(Value, Value)],
) -> Result<Option<BankError>, AllocError>
    ensures { IfOk result
        (λ error. error ≡ rule.bank_error bank.now (view_pairs pairs.now)) }
{
    let unexpected = has_unexpected(alloc, &bank.accounts, pairs)?;
    let nil = has_nil(pairs);
    let wrong = has_wrong_total(bank, pairs);
    let negative = has_forbidden(bank, pairs);
    Ok(first_error(unexpected, nil, wrong, negative))
}
