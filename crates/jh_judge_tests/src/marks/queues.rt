//! Queues, banks, sets over time, mutexes and first-in-first-out queues, each with the marks that the definition gives.

use crate::checkers::rows::{by, explained};
use crate::marks::rows::ask_all;
use jh_checkers::Checker;
use std::test::Fail;

/// A drain is marked by what it took out.
#[test]
fn marks_queues(rt: HostRuntime) -> Result<(), Fail> {
    let rows = "
        0 :invoke :enqueue 1; 0 :ok :enqueue 1; 1 :invoke :enqueue 2; 1 :info :enqueue 2; 0 :invoke :dequeue; 0 :ok :dequeue 2 \
        => 0 lost; 1 recovered
        0 :invoke :enqueue 1; 0 :ok :enqueue 1; 0 :invoke :drain; 0 :ok :drain [1 1]; 1 :invoke :dequeue; 1 :ok :dequeue 3 \
        => 1 repeated; 2 unexpected";
    ask_all(rt.alloc(), by(Checker::TotalQueue), rows)?;
    let rows = "
        0 :invoke :enqueue 1; 0 :ok :enqueue 1; 0 :invoke :dequeue; 0 :ok :dequeue 1; 1 :invoke :dequeue; 1 :ok :dequeue 1 => 2 unexpected
        0 :invoke :enqueue 1; 0 :ok :enqueue 1; 0 :invoke :dequeue; 0 :ok :dequeue 1 =>";
    ask_all(rt.alloc(), by(Checker::Queue), rows)
}

/// Each wrong read of a bank, and what is stale, lost and shown twice of a set over time.
#[test]
fn marks_banks_and_sets_over_time(rt: HostRuntime) -> Result<(), Fail> {
    let rows = "
        0 :invoke :read; 0 :ok :read {7 0}; 0 :invoke :read; 0 :ok :read {}; 0 :invoke :read; 0 :ok :read {7 1} \
        => 0 wrong-balances; 2 wrong-balances";
    ask_all(rt.alloc(), by(Checker::Bank), rows)?;
    let rows = "
        0 :invoke :add 1; 0 :ok :add 1; 1 :invoke :read; 1 :ok :read []; 1 :invoke :read; 1 :ok :read [1] => 0 stale
        0 :invoke :add 1; 0 :ok :add 1; 1 :invoke :read; 1 :ok :read [] => 0 lost
        0 :invoke :add 1; 0 :ok :add 1; 1 :invoke :read; 1 :ok :read (1 1) => 1 repeated";
    ask_all(rt.alloc(), by(Checker::SetFull), rows)
}

/// An operation of a mutex says nothing of what it holds.
#[test]
fn marks_mutexes(rt: HostRuntime) -> Result<(), Fail> {
    let rows = "
        0 :invoke :acquire; 0 :ok :acquire; 1 :invoke :release; 1 :ok :release => 0 placed 0; 1 placed 1
        0 :invoke :acquire; 0 :ok :acquire; 1 :invoke :acquire; 1 :ok :acquire => 0 placed 0; 1 stuck";
    ask_all(rt.alloc(), explained(Checker::Mutex), rows)
}

/// The places of a yes, and what anything else names.
#[test]
fn marks_first_in_first_out_queues(rt: HostRuntime) -> Result<(), Fail> {
    let rows = "
        0 :invoke :enqueue 1; 0 :ok :enqueue 1; 1 :invoke :dequeue; 1 :ok :dequeue 1 => 0 placed 0; 1 placed 1
        0 :invoke :enqueue 1; 0 :fail :enqueue 1; 1 :invoke :dequeue; 1 :ok :dequeue 1 => 1 named
        0 :invoke :enqueue 1; 0 :ok :enqueue 1; 0 :invoke :enqueue 1 => 0 named; 1 named";
    ask_all(rt.alloc(), by(Checker::FifoQueue), rows)
}
