//! Orders of transactions, with what `check_order` and `check_snapshot_order` say of them.

use crate::txn::rows::{Ask, ask_all, txns_of};
use jh_txn::{MicroOp, Txn, are_keys_below};
use std::alloc::Global;
use std::test::Fail;

#[test]
fn explains_reads(rt: HostRuntime) -> Result<(), Fail> {
    let rows = "
        ok 0 1 a1:1; ok 2 3 r1:1 | 0 1 => timely
        ok 0 1 a1:1; ok 2 3 r1:1 | 1 0 => none
        ok 0 1 a1:1; ok 2 3 r1: | 1 0 => free
        ok 0 1 a1:1; ok 2 3 r1: | 0 1 => none
        ok 0 3 a1:1; ok 1 2 r1: | 1 0 => timely
        ok 0 1 a1:1 a2:5 r1:1 r2:5 a1:2 r1:1,2 | 0 => timely
        ok 0 1 a1:1 r1: | 0 => none
        ok 0 1 r1: a1:1 | 0 => timely
        ok 0 5 a1:1; ok 1 6 a1:2; ok 2 7 r1:2,1 | 1 0 2 => timely
        ok 0 5 a1:1; ok 1 6 a1:2; ok 2 7 r1:2,1 | 0 1 2 => none
        ok 0 1 a1:7; ok 2 3 a2:7; ok 4 5 r1:7 r2:7 r3: | 0 1 2 => timely
        | => timely";
    ask_all(rt.alloc(), Ask::Serial, rows)
}

#[test]
fn finds_no_order_of_anomalies(rt: HostRuntime) -> Result<(), Fail> {
    let rows = "
        ok 0 2 r1: a2:1; ok 1 3 r2: a1:1; ok 4 5 r1:1 r2:1 | 0 1 2 => none
        ok 0 2 r1: a2:1; ok 1 3 r2: a1:1; ok 4 5 r1:1 r2:1 | 1 0 2 => none
        ok 0 2 r1: a1:1; ok 1 3 r1: a1:2; ok 4 5 r1:1,2 | 0 1 2 => none
        ok 0 2 r1: a1:1; ok 1 3 r1: a1:2; ok 4 5 r1:1,2 | 1 0 2 => none
        ok 0 2 r1: a1:1; ok 1 3 r1: a1:2 | 0 1 => none
        ok 0 1 a1:1 a1:2; ok 2 3 r1:1 | 0 1 => none
        ok 0 1 a1:1 a1:2; ok 2 3 r1:2,1 | 0 1 => none
        ok 0 1 a1:1; ok 2 3 r1:1,1 | 0 1 => none
        ok 0 1 r1:1 | 0 => none";
    ask_all(rt.alloc(), Ask::Serial, rows)
}

#[test]
fn counts_outcomes(rt: HostRuntime) -> Result<(), Fail> {
    let rows = "
        fail 0 1 a1:1; ok 2 3 r1:1 | 1 => none
        fail 0 1 a1:1; ok 2 3 r1:1 | 0 1 => none
        fail 0 1 a1:1; ok 2 3 r1: | 1 => timely
        info 0 - a1:1; ok 1 2 r1:1; ok 3 4 r1: | 2 0 1 => free
        info 0 - a1:1; ok 1 2 r1:1; ok 3 4 r1: | 0 1 2 => none
        info 0 - a1:1; ok 1 2 r1:; ok 3 4 r1:1 | 1 0 2 => timely
        info 0 - a1:1; ok 1 2 r1: | 1 => timely
        info 0 1 r1:9; ok 2 3 r1: | 1 0 => timely
        info 0 - r1:9 a1:1; ok 2 3 r1:1 | 0 1 => timely";
    ask_all(rt.alloc(), Ask::Serial, rows)
}

#[test]
fn refuses_other_places(rt: HostRuntime) -> Result<(), Fail> {
    let rows = "
        ok 0 1 a1:1; ok 2 3 r1:1 | 0 => none
        ok 0 1 a1:1; ok 2 3 r1:1 | 0 0 1 => none
        ok 0 1 a1:1; ok 2 3 r1:1 | 0 1 2 => none
        ok 0 1 a1:1; ok 2 3 r1:1 | 0 1 1 => none
        ok 0 1 a1:1; ok 2 3; ok 4 5 r1:1 | 0 2 1 => free
        ok 0 1 a1:1; ok 2 3; ok 4 5 r1:1 | 1 0 2 => free
        ok 0 1 a1:1; ok 2 3; ok 4 5 r1:1 | 0 1 2 => timely
        ok 1 0 | 0 => free";
    ask_all(rt.alloc(), Ask::Serial, rows)
}

#[test]
fn explains_reads_by_snapshots(rt: HostRuntime) -> Result<(), Fail> {
    let rows = "
        ok 0 1 a1:1; ok 2 3 r1:1 | s0 c0 s1 c1 => timely
        ok 0 1 a1:1; ok 2 3 r1: | s0 s1 c0 c1 => free
        ok 0 1 a1:1; ok 2 3 r1: | s1 c1 s0 c0 => free
        ok 0 1 a1:1; ok 2 3 r1:1 | s0 s1 c0 c1 => none
        ok 0 2 r1: a2:1; ok 1 3 r2: a1:1; ok 4 5 r1:1 r2:1 | s0 s1 c0 c1 s2 c2 => timely
        ok 0 2 r1: a2:1; ok 1 3 r2: a1:1; ok 4 5 r1:1 r2:1 | s0 c0 s1 c1 s2 c2 => none
        ok 0 3 a1:1 r1:1 a1:2 r1:1,2; ok 1 2 r1: | s0 s1 c0 c1 => timely
        ok 0 3 a1:1 r1: | s0 c0 => none
        info 0 - a1:1; ok 1 2 r1:1; ok 3 4 r1: | s2 c2 s0 c0 s1 c1 => free
        | => timely";
    ask_all(rt.alloc(), Ask::Snapshot, rows)
}

#[test]
fn keeps_writers_of_a_key_apart(rt: HostRuntime) -> Result<(), Fail> {
    let rows = "
        ok 0 2 r1: a1:1; ok 1 3 r1: a1:2; ok 4 5 r1:1,2 | s0 s1 c0 c1 s2 c2 => none
        ok 0 2 r1: a1:1; ok 1 3 r1: a1:2; ok 4 5 r1:1,2 | s0 c0 s1 c1 s2 c2 => none
        ok 0 2 r1: a1:1; ok 1 3 r1: a1:2 | s0 s1 c0 c1 => none
        ok 0 2 a1:1; ok 1 3 a1:2 | s0 s1 c0 c1 => none
        ok 0 2 a1:1; ok 1 3 a1:2 | s1 c1 s0 c0 => timely
        ok 0 2 a1:1; ok 1 3 a2:2 | s0 s1 c0 c1 => timely
        ok 0 2 a1:1 a1:3; ok 1 3 a1:2 | s0 c0 s1 c1 => timely
        ok 0 9 a1:1; ok 1 9 a1:2; ok 2 9 a1:3 | s0 c0 s1 s2 c1 c2 => none";
    ask_all(rt.alloc(), Ask::Snapshot, rows)
}

#[test]
fn refuses_other_points(rt: HostRuntime) -> Result<(), Fail> {
    let rows = "
        ok 0 1 a1:1 | s0 => none
        ok 0 1 a1:1 | c0 => none
        ok 0 1 a1:1 | c0 s0 => none
        ok 0 1 a1:1 | s0 c0 s0 c0 => none
        ok 0 1 a1:1 | s0 c0 c0 => none
        ok 0 1 a1:1 | s0 c0 s1 c1 => none
        ok 0 1 a1:1 | => none
        fail 0 1 a1:1 | s0 c0 => none
        fail 0 1 a1:1 | => timely
        info 0 - a1:1 | s0 c0 => timely
        info 0 - a1:1 | => timely";
    ask_all(rt.alloc(), Ask::Snapshot, rows)
}

/// Whether all keys are below a number. None: memory was refused.
fn have_keys_below(alloc: Global, text: &str, keys: usize) -> Option<bool> {
    Some(are_keys_below(&txns_of(alloc, text)?, keys))
}

#[test]
fn knows_large_keys(rt: HostRuntime) {
    let text = "ok 0 1 a1:9; ok 2 3 r3:1";
    let below = match have_keys_below(rt.alloc(), text, 4) {
        None => have_keys_below(rt.alloc(), text, 4),
        below => below,
    };
    assert_eq!(rt; below, Some(true));
    let below = match have_keys_below(rt.alloc(), text, 3) {
        None => have_keys_below(rt.alloc(), text, 3),
        below => below,
    };
    assert_eq!(rt; below, Some(false));
}

/// What the last read of the last transaction saw. None, too, where memory was refused.
fn last_seen(alloc: Global, text: &str) -> Option<Vec<usize>> {
    let Txn { ops, .. } = txns_of(alloc, text)?.pop()?;
    match ops.into_vec().pop()? {
        MicroOp::Read { seen, .. } => Some(seen.into_vec()),
        MicroOp::Append { .. } => None,
    }
}

#[test]
fn gives_what_was_seen(rt: HostRuntime) {
    let text = "ok 0 1 a1:1; ok 2 3 r2: r1:1,7";
    let seen = match last_seen(rt.alloc(), text) {
        None => last_seen(rt.alloc(), text),
        seen => seen,
    };
    assert!(rt; seen.is_some_and(|seen| seen.as_slice() == [1, 7].as_slice()));
}
