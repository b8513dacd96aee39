//! Histories of a register with what the judge says of each, and orders with what is wrong with them.

use crate::check::rows::{Ask, ask_all, calls_in};
use jh_linear::{LinVerdict, Linearization, OrderFault, Reached, RegOpsError, check, check_order};
use std::alloc::Global;
use std::test::Fail;

#[test]
fn judges_histories(rt: HostRuntime) -> Result<(), Fail> {
    let rows = "
        0 :invoke :write 1; 0 :info :write 1; 1 :invoke :read nil; 1 :ok :read 1; 1 :invoke :read nil; \
        1 :ok :read 0 => none at 5
        0 :invoke :write 1; 0 :info :write 1; 1 :invoke :read nil; 1 :ok :read 0; 1 :invoke :read nil; \
        1 :ok :read 1 => order 1 0 2
        0 :invoke :write 1; 1 :invoke :read nil; 0 :ok :write 1; 1 :ok :read 0 => order 1 0
        0 :invoke :cas [0 1]; 1 :invoke :cas [0 2]; 0 :ok :cas [0 1]; 1 :ok :cas [0 2] => none at 3
        0 :invoke :cas [0 1]; 1 :invoke :cas [0 2]; 2 :invoke :write 0; 0 :ok :cas nil; 1 :ok :cas nil; \
        2 :fail :write 0 => none at 4
        0 :invoke :write 1; 0 :info :write 1; 1 :invoke :read nil; 1 :ok :read 1; 1 :invoke :read nil; \
        1 :ok :read 0; 1 :invoke :read nil; 1 :ok :read nil => none at 5
        0 :invoke :read nil; 0 :ok :read 0 => order 0
        0 :invoke :read nil; 0 :ok :read 1 => none at 1
        0 :invoke :write 1; 0 :fail :write 1; 1 :invoke :read nil; 1 :ok :read 0 => order 1
        0 :invoke :read nil; 0 :info :read nil; 1 :invoke :write 2 => order
        :nemesis :info :add 1 => order";
    ask_all(rt.alloc(), Ask::Judge(100), rows)
}

#[test]
fn keeps_to_the_budget(rt: HostRuntime) -> Result<(), Fail> {
    let rows = "
        0 :invoke :write 1; 0 :info :write 1; 1 :invoke :read nil; 1 :ok :read 0; 1 :invoke :read nil; \
        1 :ok :read 1 => unknown 0
        0 :invoke :read nil; 0 :ok :read 1 => unknown 0";
    ask_all(rt.alloc(), Ask::Judge(0), rows)?;
    let rows = "
        0 :invoke :write 1; 1 :invoke :write 2; 2 :invoke :write 3; 0 :ok :write 1; 1 :ok :write 2; \
        2 :ok :write 3; 0 :invoke :read nil; 0 :ok :read 9 => unknown 2
        0 :invoke :write 1; 0 :info :write 1; 1 :invoke :read nil; 1 :ok :read 0; 1 :invoke :read nil; \
        1 :ok :read 1 => order 1 0 2
        0 :invoke :read nil; 0 :ok :read 1 => none at 1";
    ask_all(rt.alloc(), Ask::Judge(2), rows)?;
    let rows = "
        0 :invoke :write 1; 1 :invoke :write 2; 2 :invoke :write 3; 0 :ok :write 1; 1 :ok :write 2; \
        2 :ok :write 3; 0 :invoke :read nil; 0 :ok :read 9 => none at 7";
    ask_all(rt.alloc(), Ask::Judge(4), rows)
}

#[test]
fn names_bad_values(rt: HostRuntime) -> Result<(), Fail> {
    let rows = "
        0 :invoke :read nil; 0 :ok :read :a => operation 1: bad value
        0 :invoke :read :a; 0 :ok :read 0 => order 0
        0 :invoke :read nil; 0 :fail :read :a; 1 :invoke :read nil; 1 :info :read :a => order
        0 :invoke :write nil; 0 :ok :write 1 => operation 0: bad value
        0 :invoke :write 0; 0 :ok :write nil => order 0
        0 :invoke :cas [0 1]; 0 :ok :read nil => order 0
        0 :invoke :cas (0 1); 0 :ok :cas :a => order 0
        0 :invoke :cas [0 nil] => operation 0: bad value
        0 :invoke :cas [0 1 2] => operation 0: bad value
        0 :invoke :cas 0 => operation 0: bad value
        0 :invoke :add 1; 0 :fail :add 1 => operation 0: bad value
        0 :invoke :read nil; 1 :invoke :write nil; 0 :ok :read :a => operation 1: bad value
        0 :invoke :read nil; 1 :invoke :read nil; 1 :ok :read #{}; 0 :ok :read :a => operation 2: bad value
        :nemesis :info :add 1; 0 :invoke :read nil; :nemesis :info :read :a; 0 :ok :read 0 => order 0";
    ask_all(rt.alloc(), Ask::Judge(100), rows)
}

#[test]
fn refuses_orders(rt: HostRuntime) -> Result<(), Fail> {
    let history = "\
        0 :invoke :write 1; 0 :ok :write 1; 0 :invoke :read nil; 0 :ok :read 1; \
        0 :invoke :write 9; 0 :fail :write 9";
    let rows = "
        0 1 => order
        3 => no such operation
        0 0 1 => repeated operation
        0 2 1 => failed operation
        0 => missing operation
        1 0 => precedence
        0 3 3 => no such operation
        2 2 => repeated operation
        2 => failed operation";
    ask_all(rt.alloc(), Ask::Places(history), rows)
}

#[test]
fn refuses_what_a_register_does_not_do(rt: HostRuntime) -> Result<(), Fail> {
    let history = "\
        0 :invoke :write 1; 1 :invoke :read nil; 0 :ok :write 1; 1 :ok :read 0; \
        2 :invoke :cas [0 2]; 2 :info :cas nil";
    let rows = "
        0 1 => illegal
        1 0 => order
        1 0 2 => illegal
        1 2 0 => precedence
        2 1 0 => precedence
        2 2 => repeated operation
        1 0 2 1 => repeated operation";
    ask_all(rt.alloc(), Ask::Places(history), rows)
}

/// How many operations a history has, and how long the order is that the judge finds, if it is one. None, too, where
/// memory was refused.
pub(crate) fn found(alloc: Global, history: &str, budget: u64) -> Option<(usize, usize)> {
    let calls = calls_in(alloc, history)?.ok()?;
    match check(alloc, &calls, Some(0), budget).ok()? {
        LinVerdict::Valid(order) => {
            check_order(&calls, Some(0), order.as_slice()).ok()?;
            Some((calls.len(), order.as_slice().len()))
        }
        _ => None,
    }
}

#[test]
fn finds_an_order_of_two_swaps(rt: HostRuntime) {
    let history = "\
        0 :invoke :cas [0 1]; 1 :invoke :cas [0 2]; 2 :invoke :write 0; 0 :ok :cas nil; 1 :ok :cas nil; \
        2 :info :write 0";
    let lengths = match found(rt.alloc(), history, 100) {
        None => found(rt.alloc(), history, 100),
        lengths => lengths,
    };
    assert_eq!(rt; lengths, Some((3, 3)));
}

#[test]
fn errors_have_messages(rt: HostRuntime) -> Result<(), Fail> {
    let message = format!(in rt.alloc();
        "{}, {}, {}, {}, {}, {}; {}, {}",
        OrderFault::NoSuch,
        OrderFault::Repeat,
        OrderFault::Failed,
        OrderFault::Missing,
        OrderFault::Precedence,
        OrderFault::Illegal,
        RegOpsError::BadValue(3),
        RegOpsError::OutOfMemory
    );
    let expected =
        "no such operation, repeated operation, failed operation, missing operation, precedence, illegal; \
        operation 3: bad value, out of memory";
    // A refused growth leaves no text to compare.
    if let Ok(message) = message {
        assert_eq!(rt; message.as_str(), expected);
    }
    Ok(())
}

#[test]
fn gives_vectors_back(rt: HostRuntime) {
    let order = Linearization::of(Vec::new(rt.alloc()));
    assert_eq!(rt; order.as_slice().len(), 0);
    assert_eq!(rt; order.into_vec().len(), 0);
    let reached = Reached::of(Vec::new(rt.alloc()));
    assert_eq!(rt; reached.as_slice().len(), 0);
    assert_eq!(rt; reached.into_vec().len(), 0);
}
