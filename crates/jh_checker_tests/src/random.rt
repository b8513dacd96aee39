//! Random histories, on each of which a checker is compared with a plain slow program of `plain`.

use crate::banks::Balances;
use crate::plain::{Plain, PlainBank, PlainQueue, PlainTotalQueue};
use crate::queues::{Queue, TotalQueue};
use crate::rows::{Judge, first_wrong};
use std::alloc::Global;

/// So many histories are compared.
const HISTORIES: u64 = 600;

/// The row of a seed. None: memory was refused twice.
fn row_of<P: Plain>(alloc: Global, plain: &P, seed: u64) -> Option<String> {
    match plain.row_of(alloc, seed) {
        Ok(row) => Some(row),
        Err(_) => plain.row_of(alloc, seed).ok(),
    }
}

/// Whether a checker says of a history what the plain program says.
fn agrees<J: Judge, P: Plain>(alloc: Global, judge: &J, plain: &P, seed: u64) -> bool {
    match row_of(alloc, plain, seed) {
        Some(row) => first_wrong(alloc, judge, &row).is_none(),
        None => false,
    }
}

/// The first of the random histories on which they differ.
fn first_different<J: Judge, P: Plain>(alloc: Global, judge: &J, plain: &P) -> Option<u64> {
    for seed in 0..HISTORIES {
        if !agrees(alloc, judge, plain, seed) {
            return Some(seed);
        }
    }
    None
}

/// In how many of the random histories the plain program says this.
fn count_with<P: Plain>(alloc: Global, plain: &P, said: &str) -> u64 {
    let mut count = 0u64;
    for seed in 0..HISTORIES {
        let row = row_of(alloc, plain, seed);
        if row.is_some_and(|row| row.contains(said)) {
            count = count.saturating_add(1);
        }
    }
    count
}

/// The first of these texts, which have a bar between two, that the plain program seldom says: of less than a hundredth of the
/// histories. There is none, so that the comparisons show something.
fn first_seldom<'a, P: Plain>(alloc: Global, plain: &P, texts: &'a str) -> Option<&'a str> {
    for said in texts.split('|') {
        if count_with(alloc, plain, said) < HISTORIES / 100 {
            return Some(said);
        }
    }
    None
}

#[test]
fn total_queues_agree(rt: HostRuntime) {
    assert_eq!(rt;
        first_different(rt.alloc(), &TotalQueue, &PlainTotalQueue),
        None
    );
}

#[test]
fn queues_agree(rt: HostRuntime) {
    assert_eq!(rt; first_different(rt.alloc(), &Queue, &PlainQueue), None);
}

#[test]
fn banks_agree(rt: HostRuntime) {
    let judge = Balances {
        may_be_negative: false,
    };
    let plain = PlainBank {
        may_be_negative: false,
    };
    assert_eq!(rt; first_different(rt.alloc(), &judge, &plain), None);
}

#[test]
fn banks_agree_on_negative_balances(rt: HostRuntime) {
    let judge = Balances {
        may_be_negative: true,
    };
    let plain = PlainBank {
        may_be_negative: true,
    };
    assert_eq!(rt; first_different(rt.alloc(), &judge, &plain), None);
}

#[test]
fn total_queues_differ(rt: HostRuntime) {
    let sorts = "{:valid? true|{:valid? false|:duplicated {1 |:recovered {1 |bad value";
    assert_eq!(rt; first_seldom(rt.alloc(), &PlainTotalQueue, sorts), None);
}

#[test]
fn queues_differ(rt: HostRuntime) {
    let sorts = "{:valid? false|:dequeued 0|:dequeued 1|:value (1)}}";
    assert_eq!(rt; first_seldom(rt.alloc(), &PlainQueue, sorts), None);
}

#[test]
fn banks_differ(rt: HostRuntime) {
    let sorts = "{:valid? true|:unexpected-key|:nil-balance|:wrong-total|:negative-value|bad value";
    let plain = PlainBank {
        may_be_negative: false,
    };
    assert_eq!(rt; first_seldom(rt.alloc(), &plain, sorts), None);
}
