//! A bank, as it is described to the checker. `specs/Banks.antt` has the rule.

ghost use Rattle.std.specs.Prelude.{◌≡◌, IfOk};
ghost use Rattle.std.specs.Ordering.{int_eq};
ghost use Rattle.jh_edn.specs.View.{view, views};
ghost use Rattle.jh_bank.specs.Banks.{account_list, bank_of, is_account};

use jh_check::{is_among, sorted_normal};
use jh_edn::Value;
use std::alloc::{AllocError, Global};
use std::marker::Model;

/// The accounts of a bank. A contract sees a list: their normal forms in normal order.
#[derive(Debug, Drop)]
pub struct Accounts {
    items: Vec<Value>,
}

impl Model for Accounts {
    ghost use Rattle.std.specs.Prelude.{List};
    ghost use Rattle.std.specs.Coded.{coded_list};
    ghost use Rattle.jh_edn.specs.Edn.{Edn};
    ghost use Rattle.jh_edn.specs.Code.{edn_coded};
    ghost use Rattle.jh_edn.specs.View.{views};
    ghost use Rattle.jh_check.specs.Distinct.{Ascends};

    ghost Value = { List Edn };

    ghost coded = { coded_list edn_coded };

    ghost view = { λ a. views a.items.items };

    ghost invariant = { λ a. Ascends (views a.items.items) };
}

impl Accounts {
    /// These accounts.
    ///
    /// Errors: out of memory.
    ///
    /// Takes O(m log m) comparisons for m accounts.
    pub fn of(alloc: Global, accounts: &[Value]) -> Result<Accounts, AllocError>
        ensures { IfOk result (λ held. held ≡ account_list (views accounts.now)) }
    {
        let items = sorted_normal(alloc, accounts)?;
        Ok(Accounts { items })
    }

    /// Whether the key is one of the accounts, as values are equal in EDN.
    ///
    /// Errors: out of memory.
    ///
    /// Takes O(log m) comparisons for m accounts.
    pub fn has(&self, alloc: Global, key: &Value) -> Result<bool, AllocError>
        ensures { IfOk result (λ found. found ≡ is_account self.now (view key.now)) }
    {
        let key = key.normal(alloc)?;
        Ok(is_among(&self.items, &key))
    }
}

/// What the checker has to know of a bank.
#[derive(Debug, Drop)]
pub struct Bank {
    /// The accounts that a read may show.
    pub accounts: Accounts,
    /// The sum of the balances of all accounts, at any time.
    pub total: i64,
    /// Whether balances may be below 0.
    pub negative_balances: bool,
}

impl Bank {
    /// The bank of these accounts.
    ///
    /// Errors: out of memory.
    ///
    /// Takes O(m log m) comparisons for m accounts.
    pub fn of(
        alloc: Global,
        accounts: &[Value],
        total: i64,
        negative_balances: bool,
    ) -> Result<Bank, AllocError>
        ensures { IfOk result
            (λ bank. bank ≡ bank_of (views accounts.now) total negative_balances) }
    {
        let accounts = Accounts::of(alloc, accounts)?;
        Ok(Bank {
            accounts,
            total,
            negative_balances,
        })
    }

    /// Whether this is the bank's total.
    pub(crate) fn has_total(&self, total: i128) -> bool
        ensures { result ≡ int_eq total self.now.total }
    {
        total == i128::from(self.total)
    }
}
