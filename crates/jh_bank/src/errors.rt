//! What is wrong with a read of a bank. `specs/Banks.antt` has the rule.

ghost use Rattle.std.specs.Prelude.{◌≡◌};
ghost use Rattle.jh_bank.specs.Banks.{is_bank_error};
ghost use Rattle.jh_bank.specs.BankInside.{first_error_of};

/// What is wrong with a read of a bank: the first of these that applies.
#[derive(Clone, Copy, Debug, PartialEq, Eq)]
pub enum BankError {
    /// It shows a balance under a key that is none of the accounts (`:unexpected-key`).
    UnexpectedKey,
    /// A balance is nil (`:nil-balance`).
    NilBalance,
    /// The sum of its balances is not the bank's total (`:wrong-total`).
    WrongTotal,
    /// A balance is below 0, where none may be (`:negative-value`).
    NegativeValue,
}

impl BankError {
    /// Whether the two are one.
    pub fn is(self, other: BankError) -> bool
        ensures { result ≡ is_bank_error self other }
    {
        match (self, other) {
            (BankError::UnexpectedKey, BankError::UnexpectedKey) => true,
            (BankError::NilBalance, BankError::NilBalance) => true,
            (BankError::WrongTotal, BankError::WrongTotal) => true,
            (BankError::NegativeValue, BankError::NegativeValue) => true,
            _ => false,
        }
    }
}

/// The first of the errors that there are.
pub(crate) fn first_error(
    unexpected: bool,
    nil: bool,
    wrong: bool,
    negative: bool,
) -> Option<BankError>
    ensures { result ≡ first_error_of unexpected nil wrong negative }
{
    if unexpected {
        Some(BankError::UnexpectedKey)
    } else if nil {
        Some(BankError::NilBalance)
    } else if wrong {
        Some(BankError::WrongTotal)
    } else if negative {
        Some(BankError::NegativeValue)
    } else {
        None
    }
}
