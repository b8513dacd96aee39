//! The checker of a bank, whose clients transfer amounts between accounts: each read of all balances
//! has the same total.
#![tactic(auto)]

mod balances;
mod bank;
mod erring;
mod errors;
mod judge;
mod lines;
mod reads;

pub use bank::{Accounts, Bank};
pub use errors::BankError;
pub use judge::{BankErrors, BankResult, ReadErrors, check_bank};
pub use lines::write_bank;
