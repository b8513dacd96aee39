//! The parts of a test of a real database: what it is set to, what is recorded in it, and what a line
//! says that is read.
#![tactic(auto)]

mod calls;
mod changes;
mod complaints;
mod laws;
mod line;
mod named;
mod operations;
mod parts;
mod records;
mod test;
mod transactions;
mod values;
mod workload;

pub use calls::{Datum, ValuedCall};
pub use complaints::Complaint;
pub use laws::limits;
pub use line::{LineMeaning, kept_pairs, line_meaning};
pub use named::NamedCells;
pub use operations::{operation_of, operations_of};
pub use parts::{
    KeyShares, MAX_KEY_APPENDS, MAX_TRANSACTION_KEYS, MAX_TRANSACTION_OPS, TestEntry,
    TransactionShape, When,
};
pub use records::{ChangedCells, ChangedLink, ChangedNode, Recorded};
pub use test::{MAX_TEST_ENTRIES, Test, TestData, TestError};
pub use transactions::{Slot, TransactionSource};
pub use values::fits_call;
pub use workload::TestWorkload;
