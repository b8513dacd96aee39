//! The transactions of a history. `specs/Histories.antt` says what they are, and why a history is refused;
//! `specs/RefusalInside.antt` which of two places is reported.

ghost use Rattle.std.specs.Prelude.{◌≡◌, length, IfOk, MatchResult};
ghost use Rattle.std.specs.List.{All};
ghost use Rattle.jh_ops.specs.Operation.{operations};
ghost use Rattle.jh_ops.specs.Pairing.{IsPairWithin};
ghost use Rattle.jh_txn.specs.RealTime.{CompleteAfterInvocation};
ghost use Rattle.jh_txn_histories.specs.Histories.{AreTransactions, RefusesTransactions};
ghost use Rattle.jh_txn_histories.specs.RefusalInside.{txn_error_of};
ghost use Rattle.jh_txn_histories.specs.declared.histories.TxnError.TheVariants.{OutOfMemory};
ghost use Rattle.jh_txn_writers.specs.Numbers.{AreNumbersOf};

use crate::least::least_bad;
use crate::numbered::{Transactions, txns_of};
use crate::repeats::least_repeated;
use crate::tables::Tables;
use jh_ops::{Op, Pair};
use std::alloc::{AllocError, AllocFailed, Global};
use thiserror::Error;

/// Why the transactions of a history cannot be read. A place is that of an operation in the history, from 0.
#[derive(Clone, Copy, Debug, PartialEq, Eq, Error)]
pub enum TxnError {
    /// The value of this invocation spells no micro-operations, or that of this `:ok` completion does not answer its
    /// invocation.
    #[error("operation {0}: bad value")]
    BadValue(usize),
    /// The transaction that is invoked here appends an element to a key to which it, or one in front, appends an equal one.
    #[error("operation {0}: repeated append")]
    RepeatedAppend(usize),
    #[error("out of memory")]
    OutOfMemory,
}

impl From<AllocError> for TxnError {
    ghost from_gives = { λ _ e. e ≡ OutOfMemory };

    fn from(_error: AllocError) -> TxnError {
        TxnError::OutOfMemory
    }
}

impl<T: Drop> From<AllocFailed<T>> for TxnError {
    ghost from_gives = { λ _ e. e ≡ OutOfMemory };

    fn from(_error: AllocFailed<T>) -> TxnError {
        TxnError::OutOfMemory
    }
}

/// Why a history is refused whose least bad value and whose least repeated append stand at these places.
fn refusal(bad: Option<usize>, repeated: Option<usize>) -> Option<TxnError>
    ensures { result ≡ txn_error_of bad repeated }
{
    match (bad, repeated) {
        (Some(place), Some(other)) if other < place => Some(TxnError::RepeatedAppend(other)),
        (Some(place), _) => Some(TxnError::BadValue(place)),
        (None, Some(other)) => Some(TxnError::RepeatedAppend(other)),
        (None, None) => None,
    }
}

/// The transactions of the pairs of a history, those that `jh_ops::pair` gives for it: one for each pair, in order, so that
/// a place among the transactions is a place among the pairs.
///
/// A pair whose invocation has `:f :txn` is a transaction. It was invoked with a vector or a list of micro-operations, each
/// a vector or a list of three: `[:append k v]` and `[:r k _]`, where keys and elements are any values, equal as EDN says.
/// Its `:ok` completion has the same micro-operations in the same order, and third in each read what that saw: a vector or
/// a list of elements, or nil for the empty list. `:ok` is `Done`, `:fail` is `Failed`, and `:info` or no completion is
/// `Unsure`; the value of a completion that is not `:ok` is not looked at, and a read that is not `Done` has seen nothing.
/// A pair of anything else stands as a transaction that failed and does nothing.
///
/// The numbers are those that the crates above ask for: below the lengths of the tables, and no element is appended twice.
///
/// Takes time linear in what the pairs spell, but for looks into hash tables and for bringing values into normal form. Each
/// pair is read three times: for bad values, for repeated appends, and for its numbers.
///
/// Errors: that of the least place, and of one place `BadValue` first. `BadValue` at an invocation
/// that spells no micro-operations, and at an `:ok` completion that does not answer its invocation.
/// `RepeatedAppend` at an invocation that appends an element to a key to which it, or one of a pair
/// in front, appends an equal one, whether or not these happened. `OutOfMemory` where there is no
/// memory, whatever else is wrong.
pub fn transactions(alloc: Global, history: &[Op], pairs: &[Pair]) -> Result<Transactions, TxnError>
    requires within { All (IsPairWithin (length history.now)) pairs.now }
    ensures read { MatchResult result
        (AreTransactions (operations history.now) pairs.now)
        (RefusesTransactions (operations history.now) pairs.now) }
    ensures numbered { IfOk result
        (λ t. AreNumbersOf t.txns.items (length t.keys) (length t.elements)) }
    ensures ends { IfOk result (λ t. CompleteAfterInvocation t.txns.items) }
{
    let bad = least_bad(alloc, history, pairs)?;
    let repeated = least_repeated(alloc, history, pairs)?;
    if let Some(error) = refusal(bad, repeated) {
        return Err(error);
    }
    let mut tables = Tables::new(alloc);
    let txns = txns_of(alloc, &mut tables, history, pairs)?;
    // These calls do nothing: the proof cites their clauses.
    tables.keys.are_apart();
    tables.elements.are_apart();
    let Tables { keys, elements } = tables;
    Ok(Transactions {
        txns,
        keys,
        elements,
    })
}
