//! The first call that the README of `jh_txn` shows.

use jh_txn::{Elements, MicroOp, MicroOps, Outcome, Txn, are_keys_below, check_order};
use std::alloc::{AllocError, Global};

/// A transaction that is done.
fn done(invoked: usize, completed: usize, ops: Vec<MicroOp>) -> Txn {
    Txn {
        invoked,
        completed: Some(completed),
        outcome: Outcome::Done,
        ops: MicroOps::of(ops),
    }
}

/// Whether a read of key 0 that saw the element 7 can have come after its append, in real time.
fn can_have_seen(alloc: Global) -> Result<bool, AllocError> {
    let write = MicroOp::Append { key: 0, element: 7 };
    let seen = Elements::of(vec![in alloc; 7]?);
    let read = MicroOp::Read { key: 0, seen };
    let txns = vec![in alloc;
        done(0, 1, vec![in alloc; write]?),
        done(2, 3, vec![in alloc; read]?),
    ]?;
    Ok(are_keys_below(&txns, 1) && check_order(alloc, &txns, 1, true, &[0, 1])?)
}

#[test]
fn a_read_can_have_seen_what_was_appended(rt: HostRuntime) {
    let can = match can_have_seen(rt.alloc()) {
        Err(_) => can_have_seen(rt.alloc()),
        can => can,
    };
    assert!(rt; can.is_ok_and(|can| can));
}
