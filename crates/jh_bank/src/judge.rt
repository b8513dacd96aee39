//! The checker of a bank. `specs/Banks.antt` has the rule.

ghost use Rattle.std.specs.Prelude.{◌≡◌, ◌==◌, IfOk, MatchResult, length, option_and_then};
ghost use Rattle.std.specs.Prelude.{option_map, slice_get};
ghost use Rattle.jh_ops.specs.Operation.{operation, operations};
ghost use Rattle.jh_check.specs.Verdicts as verdicts;
ghost use Rattle.jh_bank.specs.BankInside.{AreErrorsFrom, erring_reads, errors_from};
ghost use Rattle.jh_bank.specs.Banks.{IsBankHistory, IsBankResult, RefusesBank, shown_errors};

use crate::bank::Bank;
use crate::erring::{
    ErringRead, count_with, erring_reads, first_place, place_of, places_of, worst_of,
};
use crate::errors::BankError;
use crate::reads::{bad_read_place, count_reads};
use jh_check::{CheckError, Verdict, op_at};
use jh_ops::Op;
use std::alloc::{AllocError, Global};

/// The reads of a history that have one error.
#[derive(Debug, Drop)]
pub struct ReadErrors {
    /// How many there are, at least one.
    pub count: usize,
    /// The first of them, as the history has it.
    pub first: Op,
}

/// The reads of a history that have each error, or nothing where none has it.
#[derive(Debug, Drop)]
pub struct BankErrors {
    /// Those that show a balance under a key that is no account.
    pub unexpected_key: Option<ReadErrors>,
    /// Those of the others with a balance that is nil.
    pub nil_balance: Option<ReadErrors>,
    /// Those of the others whose sum is not the bank's total.
    pub wrong_total: Option<ReadErrors>,
    /// Those of the others with a balance below 0, where none may be.
    pub negative_value: Option<ReadErrors>,
}

/// What the checker of a bank says of a history.
#[derive(Debug, Drop)]
pub struct BankResult {
    /// `True` where no read has an error, else `False`.
    pub verdict: Verdict,
    /// How many reads happened.
    pub reads: usize,
    /// The reads that have an error.
    pub errors: BankErrors,
    /// Of the reads with a wrong total the one whose sum is farthest from the bank's, and of equals the
    /// first.
    pub worst: Option<Op>,
    /// The places in the history of all reads that have an error, ascending.
    pub wrong: Vec<usize>,
}

/// The verdict where so many reads have an error.
fn verdict_of(wrong: usize) -> Verdict
    ensures { result ≡ verdicts.verdict_of (wrong == 0) }
{
    if wrong == 0 {
        Verdict::True
    } else {
        Verdict::False
    }
}

/// A copy of the operation at a place, if there is one.
fn copy_at(alloc: Global, history: &[Op], place: usize) -> Result<Option<Op>, AllocError>
    ensures { IfOk result
        (λ copy. option_map operation copy ≡ slice_get (operations history.now) place) }
{
    match op_at(history, place) {
        Some(op) => Ok(Some(op.copy(alloc)?)),
        None => Ok(None),
    }
}

/// A copy of the operation at a place, where there is a place.
fn copied(alloc: Global, history: &[Op], place: Option<usize>) -> Result<Option<Op>, AllocError>
    ensures { IfOk result (λ copy. option_map operation copy
        ≡ option_and_then (slice_get (operations history.now)) place) }
{
    match place {
        Some(place) => copy_at(alloc, history, place),
        None => Ok(None),
    }
}

/// How many of the reads have this error, and the first of them.
fn errors_with(
    alloc: Global,
    history: &[Op],
    erring: &[ErringRead],
    error: BankError,
) -> Result<Option<ReadErrors>, AllocError>
    ensures { IfOk result (λ found. shown_errors found
        ≡ errors_from (operations history.now) erring.now error) }
{
    match copied(alloc, history, first_place(error, erring))? {
        Some(first) => Ok(Some(ReadErrors {
            count: count_with(error, erring),
            first,
        })),
        None => Ok(None),
    }
}

/// The same of each error.
fn errors_of(alloc: Global, history: &[Op], erring: &[ErringRead]) -> Result<BankErrors, AllocError>
    ensures { IfOk result (AreErrorsFrom (operations history.now) erring.now) }
{
    let unexpected_key = errors_with(alloc, history, erring, BankError::UnexpectedKey)?;
    let nil_balance = errors_with(alloc, history, erring, BankError::NilBalance)?;
    let wrong_total = errors_with(alloc, history, erring, BankError::WrongTotal)?;
    let negative_value = errors_with(alloc, history, erring, BankError::NegativeValue)?;
    Ok(BankErrors {
        unexpected_key,
        nil_balance,
        wrong_total,
        negative_value,
    })
}

/// The result of a history with these erring reads.
fn result_of(
    alloc: Global,
    bank: &Bank,
    history: &[Op],
    erring: &[ErringRead],
) -> Result<BankResult, AllocError>
    requires { erring.now ≡ erring_reads bank.now (operations history.now) }
    ensures { IfOk result (IsBankResult bank.now (operations history.now)) }
{
    let errors = errors_of(alloc, history, erring)?;
    let worst = copied(alloc, history, place_of(worst_of(erring)))?;
    let wrong = places_of(alloc, erring)?;
    Ok(BankResult {
        verdict: verdict_of(erring.len()),
        reads: count_reads(history),
        errors,
        worst,
        wrong,
    })
}

/// The result of a history.
fn judged(alloc: Global, bank: &Bank, history: &[Op]) -> Result<BankResult, AllocError>
    ensures { IfOk result (IsBankResult bank.now (operations history.now)) }
{
    let erring = erring_reads(alloc, bank, history)?;
    result_of(alloc, bank, history, erring.as_slice())
}

/// Judges the history of a bank, whose clients transfer amounts between accounts and `:read` the
/// balances of all, each as a map from accounts to balances (the checker of `jepsen.tests.bank`).
///
/// Operations of the nemesis are left out, and operations are not paired. A read that is `:ok` has the
/// first error that applies: a key that is none of the accounts, a balance that is nil, a sum that is not
/// the bank's total, a balance below 0 where none may be. It is no error that it does not show an account. Keys
/// are equal as EDN says, and sums are exact, also beyond 64 bits.
///
/// Errors: `BadValue` with the place of the first `:ok` read whose value is no map, or has a balance
/// that is neither an integer nor nil; then `OutOfMemory`, never where there is such a read.
///
/// Takes O(n log m) comparisons for n pairs read and m accounts.
pub fn check_bank(alloc: Global, history: &[Op], bank: &Bank) -> Result<BankResult, CheckError>
    ensures { MatchResult result
        (λ found. IsBankHistory (operations history.now)
        × IsBankResult bank.now (operations history.now) found)
        (RefusesBank (operations history.now)) }
{
    if let Some(place) = bad_read_place(history) {
        return Err(CheckError::BadValue(place));
    }
    Ok(judged(alloc, bank, history)?)
}
