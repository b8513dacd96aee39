//! The options of a judgement, and which checker takes each. `specs/JudgingOptions.antt` has the rule.

ghost use Rattle.std.specs.Prelude.{◌≡◌, IfErr, IfOk, MatchResult, None, Some, find, option_copied};
ghost use Rattle.jh_checkers.specs.Checkers.{checker_name};
ghost use Rattle.jh_cli.specs.JudgingOptions as rule;
ghost use Rattle.jh_cli.specs.JudgingOptions.{RefusesJudgingOptions};
ghost use Rattle.jh_cli.specs.declared.error.CliError.{CliError as CliErrorData};

use crate::error::CliError;
use jh_checkers::{Checker, Judging};

/// An option that says something to one checker.
#[derive(Clone, Copy, Debug, PartialEq, Eq)]
pub enum JudgingOption {
    /// `--initial`: the value that a register has at first.
    Initial,
    /// `--model`: the consistency model of transactions.
    Model,
    /// `--accounts`: the accounts of a bank.
    Accounts,
    /// `--total`: the sum of the balances of a bank.
    Total,
    /// `--negative-balances`: balances of a bank may be below 0.
    NegativeBalances,
    /// `--linearizable`: a set over time has to be linearizable.
    Linearizable,
    /// `--locked`: a mutex is held at first.
    Locked,
}

/// All of them, in the order in which they are looked at.
static ALL: [JudgingOption; 7] = [
    JudgingOption::Initial,
    JudgingOption::Model,
    JudgingOption::Accounts,
    JudgingOption::Total,
    JudgingOption::NegativeBalances,
    JudgingOption::Linearizable,
    JudgingOption::Locked,
];

impl JudgingOption {
    /// The option as arguments have it.
    pub(crate) fn name(self) -> &'static str
        ensures { result.now ≡ rule.option_name self }
    {
        match self {
            JudgingOption::Initial => "--initial",
            JudgingOption::Model => "--model",
            JudgingOption::Accounts => "--accounts",
            JudgingOption::Total => "--total",
            JudgingOption::NegativeBalances => "--negative-balances",
            JudgingOption::Linearizable => "--linearizable",
            JudgingOption::Locked => "--locked",
        }
    }

    /// The name of the one workload that takes it.
    pub(crate) fn workload(self) -> &'static str
        ensures { result.now ≡ checker_name (rule.option_checker self) }
    {
        match self {
            JudgingOption::Initial => "register",
            JudgingOption::Model => "list-append",
            JudgingOption::Accounts | JudgingOption::Total | JudgingOption::NegativeBalances => {
                "bank"
            }
            JudgingOption::Linearizable => "set-full",
            JudgingOption::Locked => "mutex",
        }
    }

    /// The one checker that takes it.
    fn checker(self) -> Checker
        ensures { result ≡ rule.option_checker self }
    {
        match self {
            JudgingOption::Initial => Checker::Register,
            JudgingOption::Model => Checker::ListAppend,
            JudgingOption::Accounts | JudgingOption::Total | JudgingOption::NegativeBalances => {
                Checker::Bank
            }
            JudgingOption::Linearizable => Checker::SetFull,
            JudgingOption::Locked => Checker::Mutex,
        }
    }

    /// Whether this checker takes it.
    fn is_taken(self, checker: Checker) -> bool
        ensures { result ≡ rule.is_taken self checker }
    {
        self.checker() == checker
    }

    /// Whether this checker needs it.
    fn is_needed(self, checker: Checker) -> bool
        ensures { result ≡ rule.is_needed self checker }
    {
        matches!(
            (self, checker),
            (JudgingOption::Accounts, Checker::Bank) | (JudgingOption::Total, Checker::Bank)
        )
    }

    /// Whether it is given.
    fn is_given(self, judging: Judging<'_>) -> bool
        ensures { result ≡ rule.is_given self judging.entry }
    {
        match self {
            JudgingOption::Initial => judging.initial.is_some(),
            JudgingOption::Model => judging.model.is_some(),
            JudgingOption::Accounts => judging.accounts.is_some(),
            JudgingOption::Total => judging.total.is_some(),
            JudgingOption::NegativeBalances => judging.negative_balances,
            JudgingOption::Linearizable => judging.linearizable,
            JudgingOption::Locked => judging.locked,
        }
    }

    /// Whether it is given with a checker that does not take it.
    fn is_misplaced(self, judging: Judging<'_>) -> bool
        ensures { result ≡ rule.is_misplaced judging.entry self }
    {
        self.is_given(judging) && !self.is_taken(judging.checker)
    }

    /// Whether it is not given, and the checker needs it.
    fn is_missing(self, judging: Judging<'_>) -> bool
        ensures { result ≡ rule.is_missing_option judging.entry self }
    {
        self.is_needed(judging.checker) && !self.is_given(judging)
    }
}

/// The first of some options that is given with a checker that does not take it.
fn misplaced_of<'a>(options: &'a [JudgingOption], judging: Judging<'_>) -> Option<&'a JudgingOption>
    ensures { option_copied result ≡ find (rule.is_misplaced judging.entry) options.now }
{
    options.iter().find(|option| option.is_misplaced(judging))
}

/// The first of some options that the checker needs and that is not given.
fn missing_of<'a>(options: &'a [JudgingOption], judging: Judging<'_>) -> Option<&'a JudgingOption>
    ensures { option_copied result ≡ find (rule.is_missing_option judging.entry) options.now }
{
    options.iter().find(|option| option.is_missing(judging))
}

/// The first of all options that is given with a checker that does not take it.
fn first_misplaced(judging: Judging<'_>) -> Option<JudgingOption>
    ensures { result ≡ rule.first_misplaced judging.entry }
{
    misplaced_of(&ALL, judging).copied()
}

/// The first of all options that the checker needs and that is not given.
fn first_missing_option(judging: Judging<'_>) -> Option<JudgingOption>
    ensures { result ≡ rule.first_missing_option judging.entry }
{
    missing_of(&ALL, judging).copied()
}

/// Refuses options that do not go with the checker.
fn refuse_given(judging: Judging<'_>) -> Result<(), CliError>
    ensures { MatchResult result
        (λ _. (rule.first_misplaced judging.entry ≡ None) × (rule.first_missing_option judging.entry ≡ None))
        (RefusesJudgingOptions (Some judging.entry)) }
{
    if let Some(option) = first_misplaced(judging) {
        return Err(CliError::Misplaced(option));
    }
    if let Some(option) = first_missing_option(judging) {
        return Err(CliError::Missing(option));
    }
    Ok(())
}

/// Refuses options that do not go with the checker, where a history is judged.
///
/// Errors: `Misplaced` with the first that it does not take, then `Missing` with the first that it needs
/// and that is not given.
pub(crate) fn refuse_options(judging: Option<Judging<'_>>) -> Result<(), CliError>
    ensures refused { IfErr result (RefusesJudgingOptions judging.entry) }
    ensures taken { IfOk result
        (λ _. (e : CliErrorData) → RefusesJudgingOptions judging.entry e → ⊥) }
{
    match judging {
        Some(judging) => refuse_given(judging),
        None => Ok(()),
    }
}
