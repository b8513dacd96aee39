//! The accounts of a bank, as the text of `--accounts` writes them. `specs/Accounts.antt` has the rule.

ghost use Rattle.std.specs.Prelude.{◌≡◌, ◌∷◌, [], List, IfErr, IfOk, IfSome, IsNone, Some, option_map};
ghost use Rattle.jh_edn.specs.Edn.{Edn, elements_of};
ghost use Rattle.jh_edn.specs.View.{view, views};
ghost use Rattle.clap.specs.Words.{Text, subcommand_rows_of};
ghost use Rattle.jh_arguments.specs.Accounts.{RefusesAccountsText, WritesAccounts};
ghost use Rattle.jh_arguments.specs.Answers.{GivesAccounts};
ghost use Rattle.jh_arguments.specs.Commands.{SubcommandHasAccounts};

use crate::commands::accounts_text_of;
use clap::ArgMatches;
use jh_cli::CliError;
use jh_edn::{EdnError, Value, values_in_line};
use std::alloc::Global;

/// The only one of these values, if there is one and no other.
fn only_value(values: Vec<Value>) -> Option<Value>
    ensures only { IfSome result (λ value. views values.items ≡ view value ∷ []) }
    ensures none { IsNone result → (value : Edn) → views values.items ≡ value ∷ [] → ⊥ }
{
    let mut values = values;
    if values.len() != 1 {
        return None;
    }
    values.pop()
}

/// The elements of the only one of these values, if there is one and no other and it is a vector or a list.
fn only_sequence(values: Vec<Value>) -> Option<Vec<Value>>
    ensures only { IfSome result (λ items. (value : Edn)
        × (views values.items ≡ value ∷ []) × (elements_of value ≡ Some (views items.items))) }
    ensures none { IsNone result → (value : Edn) (elements : List Edn)
        → views values.items ≡ value ∷ [] → elements_of value ≡ Some elements → ⊥ }
{
    match only_value(values)?.into_elements() {
        Ok(elements) => Some(elements),
        Err(_) => None,
    }
}

/// The accounts that a text writes: the elements of its one value, a vector or a list.
///
/// Takes time as reading a history of the same text does.
///
/// Errors: `BadAccounts` where it writes none, `OutOfMemory`.
pub(crate) fn accounts_in(alloc: Global, text: &str) -> Result<Vec<Value>, CliError>
    ensures accounts { IfOk result (λ accounts. WritesAccounts text.now (views accounts.items)) }
    ensures refused { IfErr result (RefusesAccountsText text.now) }
{
    let values = match values_in_line(alloc, text) {
        Ok(values) => values,
        Err(EdnError::OutOfMemory) => return Err(CliError::OutOfMemory),
        Err(_) => return Err(CliError::BadAccounts),
    };
    match only_sequence(values) {
        Some(accounts) => Ok(accounts),
        None => Err(CliError::BadAccounts),
    }
}

/// The accounts that `check` or `timeline` is given, if it is given some.
///
/// Errors: those of `accounts_in`, and none where there is no text of accounts.
pub(crate) fn accounts_of(
    alloc: Global,
    matches: &ArgMatches<'_>,
) -> Result<Option<Vec<Value>>, CliError>
    ensures accounts { IfOk result (λ accounts. GivesAccounts (subcommand_rows_of matches.now)
        (option_map (λ accounts. views accounts.items) accounts)) }
    ensures refused { IfErr result (λ e. (text : Text)
        × SubcommandHasAccounts (subcommand_rows_of matches.now) text × RefusesAccountsText text e) }
{
    match accounts_text_of(matches) {
        Some(text) => Ok(Some(accounts_in(alloc, text)?)),
        None => Ok(None),
    }
}
