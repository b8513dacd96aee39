//! First calls of `jh_histories`, `jh_ops`, `jh_check`, `jh_linear` and `jh_independent`, as their READMEs show them.

use jh_check::{Verdict, check_set};
use jh_checkers::{Checker, Judging};
use jh_histories::history_in;
use jh_independent::{check_keys_serial, verdict_of_all};
use jh_linear::{LinVerdict, Object, Outcome, RegCall, RegOp, check, op_end, reg_op, reg_ops};
use jh_ops::{Op, Pair, pair};
use std::alloc::Global;

/// A write that nobody saw end, and a read that shows it.
const REGISTER: &str = "
    {:type :invoke, :process 0, :f :write, :value 5}
    {:type :invoke, :process 1, :f :read, :value nil}
    {:type :ok, :process 1, :f :read, :value 5}";

/// A set that lost one of its elements.
const SET: &str = "
    {:type :invoke, :process 0, :f :add, :value 1}
    {:type :ok, :process 0, :f :add, :value 1}
    {:type :invoke, :process 0, :f :read, :value nil}
    {:type :ok, :process 0, :f :read, :value []}";

/// Writes of two keys, and a read of one that shows the value of the other.
const KEYS: &str = "
    {:type :invoke, :process 0, :f :write, :value [:a 1]}
    {:type :ok, :process 0, :f :write, :value [:a 1]}
    {:type :invoke, :process 0, :f :read, :value [:b nil]}
    {:type :ok, :process 0, :f :read, :value [:b 1]}";

/// The operations of a text.
fn operations_of(alloc: Global, text: &str) -> Option<Vec<Op>> {
    history_in(alloc, text).ok()
}

#[test]
fn a_history_has_its_operations(rt: HostRuntime) {
    let alloc = rt.alloc();
    let answer = operations_of(alloc, REGISTER).or_else(|| operations_of(alloc, REGISTER));
    assert!(rt; answer.is_some_and(|history| history.len() == 3));
}

/// Each invocation of a history, with the place of its completion.
fn pairs_of(alloc: Global, history: &[Op]) -> Option<Vec<Pair>> {
    pair(alloc, history).ok()
}

#[test]
fn an_open_operation_has_no_completion(rt: HostRuntime) {
    let alloc = rt.alloc();
    let pairs = || pairs_of(alloc, &operations_of(alloc, REGISTER)?);
    assert!(rt; pairs().or_else(pairs).is_some_and(|pairs| pairs.len() == 2));
}

/// How many elements of a set were lost; `None` also where it was never read.
fn lost_in(alloc: Global, history: &[Op]) -> Option<usize> {
    let result = check_set(alloc, history).ok()?;
    Some(result.found?.lost.len())
}

#[test]
fn an_element_is_lost(rt: HostRuntime) {
    let alloc = rt.alloc();
    let lost = || lost_in(alloc, &operations_of(alloc, SET)?);
    assert_eq!(rt; lost().or_else(lost), Some(1));
}

/// The verdict on a register that held 0 at first, by 1,000 configurations at most.
fn verdict_on(alloc: Global, history: &[Op]) -> Option<LinVerdict> {
    let pairs = pair(alloc, history).ok()?;
    let ops = reg_ops(alloc, Object::Register, history, &pairs).ok()?;
    check(alloc, &ops, Some(0), 1_000).ok()
}

#[test]
fn a_write_that_nobody_saw_end_may_have_happened(rt: HostRuntime) {
    let alloc = rt.alloc();
    let verdict = || verdict_on(alloc, &operations_of(alloc, REGISTER)?);
    assert!(rt; matches!(verdict().or_else(verdict), Some(LinVerdict::Valid(_))));
}

/// The operation of a register that a pair of a history stands for.
fn operation_of(alloc: Global, pair: Pair) -> Option<Option<RegOp>> {
    Some(reg_op(Object::Register, &operations_of(alloc, REGISTER)?, pair))
}

/// A read that answered 5, and a pair behind the end of the history.
#[test]
fn a_pair_stands_for_an_operation(rt: HostRuntime) {
    let alloc = rt.alloc();
    let read = || operation_of(
        alloc,
        Pair {
            invoke: 1,
            outcome: Some(2),
        },
    );
    let wanted = RegOp {
        invoked: 1,
        ended: Some(2),
        outcome: Outcome::Done,
        call: RegCall::Read(Some(5)),
    };
    assert_eq!(rt; read().or_else(read), Some(Some(wanted)));
    assert_eq!(rt; op_end(wanted), 2);
    let beyond = || operation_of(
        alloc,
        Pair {
            invoke: 3,
            outcome: None,
        },
    );
    assert_eq!(rt; beyond().or_else(beyond), Some(None));
}

/// The verdict on all keys of a history of registers.
fn verdict_by_keys(alloc: Global, history: &[Op]) -> Option<Verdict> {
    let judging = Judging::by(Checker::Register, 1_000);
    let found = check_keys_serial(alloc, history, judging).ok()?;
    verdict_of_all(alloc, &found).ok()
}

#[test]
fn a_key_shows_the_value_of_another(rt: HostRuntime) {
    let alloc = rt.alloc();
    let verdict = || verdict_by_keys(alloc, &operations_of(alloc, KEYS)?);
    assert_eq!(rt; verdict().or_else(verdict), Some(Verdict::False));
}
