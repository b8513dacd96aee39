//! Queues, banks, sets over time, mutexes and first-in-first-out queues, by rows whose lines follow from the definitions.

use crate::checkers::rows::{by, explained, judge_all};
use jh_checkers::{Checker, Judging};
use jh_edn::Value;
use std::test::Fail;

/// What was acknowledged and did not come out is lost; what came out and was not acknowledged is recovered.
#[test]
fn queues_are_judged(rt: HostRuntime) -> Result<(), Fail> {
    let rows = "
        0 :invoke :enqueue 1; 0 :ok :enqueue 1; 1 :invoke :enqueue 2; 1 :info :enqueue 2; 0 :invoke :dequeue; 0 :ok :dequeue 2 \
        => {:valid? false, :attempted 2, :acknowledged 1, :ok 1, :lost {1 1}, :unexpected {}, :duplicated {}, :recovered {2 1}}
        0 :ok :drain 7 => operation 0: bad value";
    judge_all(rt.alloc(), by(Checker::TotalQueue), rows)?;
    let rows = "
        0 :invoke :enqueue 1; 0 :ok :enqueue 1; 0 :invoke :dequeue; 0 :ok :dequeue 1 => {:valid? true, :dequeued 1}
        0 :invoke :enqueue 1; 0 :ok :enqueue 1; 0 :invoke :dequeue; 0 :ok :dequeue 1; 1 :invoke :dequeue; 1 :ok :dequeue 1 \
        => {:valid? false, :first {:type :ok, :process 1, :f :dequeue, :value 1}}
        0 :ok :dequeue 1 => operation 0: no invocation";
    judge_all(rt.alloc(), by(Checker::Queue), rows)
}

/// A bank without accounts and total has none and 0.
#[test]
fn banks_are_judged(rt: HostRuntime) -> Result<(), Fail> {
    let accounts = [Value::Int(0), Value::Int(1)];
    let judging = Judging {
        accounts: Some(accounts.as_slice()),
        total: Some(10),
        ..by(Checker::Bank)
    };
    let rows = "
        0 :ok :read {0 4 1 6}; 0 :ok :read {0 4 1 5} \
        => {:valid? false, :reads 2, :errors {:wrong-total {:count 1, :first {:type :ok, :process 0, :f :read, :value {0 4, 1 5}}}}, \
        :worst {:type :ok, :process 0, :f :read, :value {0 4, 1 5}}}
        0 :ok :read 1 => operation 0: bad value";
    judge_all(rt.alloc(), judging, rows)?;
    let rows = "
        0 :ok :read {} => {:valid? true, :reads 1, :errors {}}
        0 :ok :read {0 0} => {:valid? false, :reads 1, :errors {:unexpected-key {:count 1, :first {:type :ok, :process 0, :f :read, :value {0 0}}}}}";
    judge_all(rt.alloc(), by(Checker::Bank), rows)
}

/// An element that a read lacks when it is known, and a later one has, is stale.
#[test]
fn sets_over_time_are_judged(rt: HostRuntime) -> Result<(), Fail> {
    let judging = Judging {
        linearizable: true,
        ..by(Checker::SetFull)
    };
    let rows = "
        0 :invoke :add 1; 0 :ok :add 1; 1 :invoke :read; 1 :ok :read []; 1 :invoke :read; 1 :ok :read [1] \
        => {:valid? false, :attempted 1, :stable 1, :lost [], :never-read [], :stale [[1 nil]], :duplicated {}}";
    judge_all(rt.alloc(), judging, rows)?;
    let rows = "
        0 :invoke :add 1; 0 :ok :add 1; 1 :invoke :read; 1 :ok :read []; 1 :invoke :read; 1 :ok :read [1] \
        => {:valid? true, :attempted 1, :stable 1, :lost [], :never-read [], :stale [[1 nil]], :duplicated {}}
        => {:valid? :unknown, :attempted 0, :stable 0, :lost [], :never-read [], :stale [], :duplicated {}}";
    judge_all(rt.alloc(), by(Checker::SetFull), rows)
}

/// A mutex that is held at first is not acquired before it is released. Values are not looked at.
#[test]
fn mutexes_are_judged(rt: HostRuntime) -> Result<(), Fail> {
    let rows = "
        0 :invoke :acquire; 0 :ok :acquire x; 1 :invoke :release; 1 :ok :release => {:valid? true, :order [0 1]}
        0 :invoke :acquire; 0 :ok :acquire; 1 :invoke :acquire; 1 :ok :acquire \
        => {:valid? false, :stuck {:type :ok, :process 1, :f :acquire, :value nil}, :order [0], :pending [1]}
        0 :invoke :read; 0 :ok :read => operation 0: bad value";
    judge_all(rt.alloc(), explained(Checker::Mutex), rows)?;
    let judging = Judging {
        locked: true,
        ..by(Checker::Mutex)
    };
    let rows = "
        0 :invoke :acquire; 0 :ok :acquire => {:valid? false}
        0 :invoke :release; 0 :ok :release => {:valid? true, :order [0]}";
    judge_all(rt.alloc(), judging, rows)
}

/// Each reason, and each cause why none is sought. Numbers count operations that failed, too.
#[test]
fn first_in_first_out_queues_are_judged(rt: HostRuntime) -> Result<(), Fail> {
    let rows = "
        0 :invoke :enqueue 1; 0 :ok :enqueue 1; 0 :invoke :dequeue; 0 :ok :dequeue 1; 0 :invoke :dequeue; 0 :ok :dequeue nil => {:valid? true, :order [0 1 2]}
        0 :invoke :enqueue 5; 0 :fail :enqueue 5; 1 :invoke :dequeue; 1 :ok :dequeue 5 => {:valid? false, :because :never-enqueued, :named [1]}
        0 :invoke :dequeue; 0 :ok :dequeue 1; 1 :invoke :enqueue 1 => {:valid? false, :because :dequeued-before-enqueued, :named [0 1]}
        0 :invoke :enqueue 1; 1 :invoke :dequeue; 1 :ok :dequeue 1; 1 :invoke :dequeue; 1 :ok :dequeue 1 => {:valid? false, :because :dequeued-twice, :named [1 2]} or {:valid? false, :because :dequeued-twice, :named [2 1]}
        0 :invoke :enqueue 1; 0 :ok :enqueue 1; 0 :invoke :enqueue 2; 0 :ok :enqueue 2; 0 :invoke :dequeue; 0 :ok :dequeue 2 \
        => {:valid? false, :because :out-of-order, :named [0 1]} or {:valid? false, :because :out-of-order, :named [1 0]}
        0 :invoke :enqueue 1; 0 :ok :enqueue 1; 0 :invoke :dequeue; 0 :ok :dequeue nil => {:valid? false, :because :never-empty, :named [1]}
        0 :invoke :enqueue [1]; 0 :ok :enqueue [1]; 1 :invoke :enqueue (1) => {:valid? :unknown, :because :enqueued-twice, :named [0 1]} or {:valid? :unknown, :because :enqueued-twice, :named [1 0]}
        0 :invoke :drain; 0 :ok :drain [] => operation 0: bad value
        0 :invoke :dequeue; 1 :invoke :enqueue nil => operation 1: bad value";
    judge_all(rt.alloc(), by(Checker::FifoQueue), rows)?;
    let rows = "
        0 :invoke :dequeue; 0 :ok :dequeue 7 \
        => {:valid? false, :because :never-enqueued, :named [0], :operations [{:type :ok, :process 0, :f :dequeue, :value 7}]}
        0 :invoke :dequeue => {:valid? :unknown, :because :unknown-dequeue, :named [0], :operations [{:type :invoke, :process 0, :f :dequeue, :value nil}]}
        => {:valid? true, :order []}";
    judge_all(rt.alloc(), explained(Checker::FifoQueue), rows)
}
