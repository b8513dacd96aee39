//! The first call that the README of `jh_txn_histories` shows.

use jh_edn::read_all;
use jh_ops::{Op, history_of, pair};
use jh_txn_histories::transactions;
use std::alloc::Global;

/// A transaction that appended, one that saw it, and one of which nobody knows.
const HISTORY: &str = "
    {:type :invoke, :process 0, :f :txn, :value [[:append :x 1] [:r :y nil]]}
    {:type :ok, :process 0, :f :txn, :value [[:append :x 1] [:r :y nil]]}
    {:type :invoke, :process 0, :f :txn, :value [[:r :x nil]]}
    {:type :ok, :process 0, :f :txn, :value [[:r :x [1]]]}
    {:type :invoke, :process 0, :f :txn, :value [[:append :y 1]]}";

/// The operations of a text. None: memory was refused.
fn operations_of(alloc: Global, text: &str) -> Option<Vec<Op>> {
    let values = read_all(alloc, &mut text.as_bytes(), 10).ok()?;
    history_of(alloc, values).ok()
}

/// How many transactions, keys and elements a history has. None: memory was refused.
fn sizes_of(alloc: Global, history: &[Op]) -> Option<(usize, usize, usize)> {
    let pairs = pair(alloc, history).ok()?;
    let read = transactions(alloc, history, &pairs).ok()?;
    Some((read.txns.len(), read.keys.len(), read.elements.len()))
}

#[test]
fn a_history_has_its_transactions(rt: HostRuntime) {
    let alloc = rt.alloc();
    let sizes = || sizes_of(alloc, &operations_of(alloc, HISTORY)?);
    assert!(rt; sizes().or_else(sizes) == Some((3, 2, 2)));
}
