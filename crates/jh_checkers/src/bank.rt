//! The checker of a bank with these accounts and this total. `specs/Findings.antt` has the rule.

ghost use Rattle.std.specs.Prelude.{◌≡◌, IfOk, MatchResult};
ghost use Rattle.jh_ops.specs.Operation.{operations};
ghost use Rattle.jh_bank.specs.Banks.{IsBankHistory, IsBankResult};
ghost use Rattle.jh_checkers.specs.Findings.{RefusesAccounts, judged_bank};

use crate::finding::Judging;
use jh_bank::{Bank, BankResult, check_bank};
use jh_check::CheckError;
use jh_edn::Value;
use jh_ops::Op;
use std::alloc::{AllocError, Global};

/// The bank that reads are judged by: of the accounts that are given, if they are, with the total that
/// is given, or 0.
fn bank_of(alloc: Global, judging: Judging<'_>) -> Result<Bank, AllocError>
    ensures { IfOk result (λ bank. bank ≡ judged_bank judging.entry) }
{
    let accounts: &[Value] = judging.accounts.unwrap_or(&[]);
    let total = judging.total.unwrap_or(0);
    Bank::of(alloc, accounts, total, judging.negative_balances)
}

/// What the checker of a bank finds.
///
/// Errors: `BadValue` at the first read that shows no balances; `OutOfMemory` may come before.
pub(crate) fn check_accounts(
    alloc: Global,
    history: &[Op],
    judging: Judging<'_>,
) -> Result<BankResult, CheckError>
    ensures { MatchResult result
        (λ found. IsBankHistory (operations history.now)
        × IsBankResult (judged_bank judging.entry) (operations history.now) found)
        (RefusesAccounts (operations history.now)) }
{
    let bank = bank_of(alloc, judging)?;
    check_bank(alloc, history, &bank)
}
