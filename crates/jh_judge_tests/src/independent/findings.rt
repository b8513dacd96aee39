//! What is found of several keys: each by itself, with the whole budget, and the verdict on all.

use crate::checkers::rows::by;
use crate::independent::rows::ask_all;
use jh_checkers::{Checker, Judging};
use std::test::Fail;

#[test]
fn registers_are_judged_by_key(rt: HostRuntime) -> Result<(), Fail> {
    let rows = "
        => {:valid? true, :keys []}
        0 :invoke :write [2 5]; 0 :ok :write [2 5]; 1 :invoke :read [1 nil]; 1 :ok :read [1 9] \
        => {:valid? false, :keys [[1 {:valid? false}] [2 {:valid? true, :order [0]}]]}
        0 :invoke :write [1 5]; 0 :ok :write [1 5]; 0 :invoke :write [2 6]; 0 :ok :write [2 6]; \
        1 :invoke :read [1 nil]; 1 :ok :read [1 5]; 1 :invoke :read [2 nil]; 1 :ok :read [2 6] \
        => {:valid? true, :keys [[1 {:valid? true, :order [0 1]}] [2 {:valid? true, :order [0 1]}]]}
        0 :invoke :write [2 1]; 2 :invoke :write [1 7]; 0 :ok :write [2 1]; 0 :invoke :write [2 2]; \
        1 :invoke :read [2 nil]; 2 :ok :write [1 7]; 0 :ok :write [2 2]; 1 :ok :read [2 1] \
        => {:valid? true, :keys [[1 {:valid? true, :order [0]}] [2 {:valid? true, :order [0 2 1]}]]}
        0 :invoke :write [:a 0]; 0 :ok :write [:a 0]; 0 :invoke :cas [:a (0 1)]; 0 :ok :cas [:a nil] \
        => {:valid? true, :keys [[:a {:valid? true, :order [0 1]}]]}
        0 :invoke :write [:a 1]; 1 :invoke :write [:b 1]; 1 :fail :write [:b 1]; 0 :fail :write [:a 1] \
        => {:valid? true, :keys [[:a {:valid? true, :order []}] [:b {:valid? true, :order []}]]}";
    ask_all(&rt, rt.alloc(), by(Checker::Register), rows)
}

#[test]
fn each_key_has_the_initial_value(rt: HostRuntime) -> Result<(), Fail> {
    let judging = Judging {
        initial: Some(3),
        ..by(Checker::Register)
    };
    let rows = "
        0 :invoke :read [2 nil]; 0 :ok :read [2 3]; 0 :invoke :read [1 nil]; 0 :ok :read [1 0]; \
        0 :invoke :cas [3 [3 4]]; 0 :ok :cas [3 [3 4]] \
        => {:valid? false, :keys [[1 {:valid? false}] [2 {:valid? true, :order [0]}] \
        [3 {:valid? true, :order [0]}]]}";
    ask_all(&rt, rt.alloc(), judging, rows)
}

#[test]
fn no_budget_is_no_verdict(rt: HostRuntime) -> Result<(), Fail> {
    let judging = Judging {
        budget: 0,
        ..by(Checker::Register)
    };
    let rows = "
        => {:valid? true, :keys []}
        0 :invoke :write [2 5]; 0 :ok :write [2 5]; 1 :invoke :read [1 nil]; 1 :ok :read [1 9] \
        => {:valid? :unknown, :keys [[1 {:valid? :unknown}] [2 {:valid? :unknown}]]}";
    ask_all(&rt, rt.alloc(), judging, rows)
}

/// Three writes at once come to four configurations of each key, the empty one and one for each that comes first: a budget
/// of six lasts for each key and not for both together.
#[test]
fn each_key_has_the_whole_budget(rt: HostRuntime) -> Result<(), Fail> {
    let judging = Judging {
        budget: 6,
        ..by(Checker::Register)
    };
    let rows = "
        0 :invoke :write [1 5]; 1 :invoke :write [1 6]; 2 :invoke :write [1 7]; \
        0 :ok :write [1 5]; 1 :ok :write [1 6]; 2 :ok :write [1 7]; \
        0 :invoke :write [2 5]; 1 :invoke :write [2 6]; 2 :invoke :write [2 7]; \
        0 :ok :write [2 5]; 1 :ok :write [2 6]; 2 :ok :write [2 7]; \
        2 :invoke :read [1 nil]; 2 :ok :read [1 9]; 2 :invoke :read [2 nil]; 2 :ok :read [2 9] \
        => {:valid? false, :keys [[1 {:valid? false}] [2 {:valid? false}]]}";
    ask_all(&rt, rt.alloc(), judging, rows)
}

/// A place is that of the whole history, and an element may stand again under another key.
#[test]
fn transactions_are_judged_by_key(rt: HostRuntime) -> Result<(), Fail> {
    let rows = "
        0 :invoke :txn [2 [[:append 1 1]]]; 0 :ok :txn [2 [[:append 1 1]]]; 0 :invoke :txn [1 [[:append 1 1]]]; \
        0 :fail :txn [1 [[:append 1 1]]]; 1 :invoke :txn [1 [[:r 1 nil]]]; 1 :ok :txn [1 [[:r 1 [1]]]] \
        => {:valid? false, :keys [[1 {:valid? false, :anomaly :G1a, :place 1, :op 0}] [2 {:valid? true, :order [0]}]]}
        0 :invoke :txn [2 [[:append 1 1]]]; 1 :invoke :txn [1 [[:append 1 1]]]; 2 :invoke :txn [2 [[:append 1 1]]] \
        => operation 2: repeated append
        0 :invoke :txn [2 [[:append 1 1]]]; 1 :invoke :txn [1 [[:w 1 1]]]; 2 :invoke :txn [2 [[:append 1 1]]] \
        => operation 1: bad value";
    ask_all(&rt, rt.alloc(), by(Checker::ListAppend), rows)
}

#[test]
fn sets_are_judged_by_key(rt: HostRuntime) -> Result<(), Fail> {
    let rows = "
        0 :invoke :add [1 5]; 0 :ok :add [1 5]; 0 :invoke :add [2 6]; 0 :ok :add [2 6]; 0 :invoke :add [2 7]; \
        0 :info :add [2 7]; 1 :invoke :read [1 nil]; 1 :ok :read [1 (5)]; 1 :invoke :read [2 nil]; \
        1 :ok :read [2 #{7 5}] \
        => {:valid? false, :keys [[1 {:valid? true, :ok [5], :lost [], :unexpected [], :recovered []}] \
        [2 {:valid? false, :ok [7], :lost [6], :unexpected [5], :recovered [7]}]]}
        1 :ok :read [2 []]; 0 :ok :add [1 5] \
        => {:valid? :unknown, :keys [[1 {:valid? :unknown, :error \"Set was never read\"}] \
        [2 {:valid? true, :ok [], :lost [], :unexpected [], :recovered []}]]}
        1 :ok :read [2 [3]]; 0 :ok :add [1 5]; 1 :ok :read [0 []] \
        => {:valid? false, :keys [[0 {:valid? true, :ok [], :lost [], :unexpected [], :recovered []}] \
        [1 {:valid? :unknown, :error \"Set was never read\"}] \
        [2 {:valid? false, :ok [], :lost [], :unexpected [3], :recovered []}]]}";
    ask_all(&rt, rt.alloc(), by(Checker::Set), rows)
}

#[test]
fn counters_are_judged_by_key(rt: HostRuntime) -> Result<(), Fail> {
    let rows = "
        0 :invoke :add [:b 2]; 0 :ok :add [:b 2]; 1 :invoke :read [:a nil]; 1 :ok :read [:a 2]; \
        0 :invoke :read [:b nil]; 0 :ok :read [:b 2] \
        => {:valid? false, :keys [[:a {:valid? false, :reads [[0 2 0]], :errors [[0 2 0]]}] \
        [:b {:valid? true, :reads [[2 2 2]], :errors []}]]}
        0 :invoke :add [1 1]; 0 :info :add [1 1]; 0 :invoke :read [2 nil]; 0 :ok :read [2 0] \
        => {:valid? true, :keys [[1 {:valid? true, :reads [], :errors []}] \
        [2 {:valid? true, :reads [[0 0 0]], :errors []}]]}";
    ask_all(&rt, rt.alloc(), by(Checker::Counter), rows)
}
