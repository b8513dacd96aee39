//! The transactions of a history of the workload list-append, with numbers in place of keys and elements, or why the history
//! is refused; and whether one transaction as it is written answers another.
#![tactic(auto)]

mod asked;
mod histories;
mod least;
mod numbered;
mod repeats;
mod tables;
mod written;

pub use histories::{TxnError, transactions};
pub use numbered::Transactions;
pub use written::{is_answered, is_equal};
