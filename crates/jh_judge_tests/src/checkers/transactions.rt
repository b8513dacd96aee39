//! Histories of transactions. What is expected follows from the definitions: which orders there are, the one cycle that there is, which may
//! begin with any of its steps, and what is refused.

use crate::checkers::rows::{by, explained, judge_all};
use jh_checkers::{Checker, Judging};
use jh_txn::ConsistencyModel;
use std::test::Fail;

/// By this model.
fn under(model: ConsistencyModel) -> Judging<'static> {
    Judging {
        model: Some(model),
        ..by(Checker::ListAppend)
    }
}

/// What was appended before a read was invoked is there for it.
#[test]
fn transactions_keep_real_time(rt: HostRuntime) -> Result<(), Fail> {
    let rows = "
        => {:valid? true, :order []}
        0 :invoke :txn [[:append 1 1]]; 0 :ok :txn [[:append 1 1]]; 0 :invoke :txn [[:r 1 nil]]; 0 :ok :txn [[:r 1 [1]]] \
        => {:valid? true, :order [0 1]}
        0 :invoke :txn [[:append 1 1]]; 0 :ok :txn [[:append 1 1]]; 0 :invoke :txn [[:r 1 nil]]; 0 :ok :txn [[:r 1 nil]] \
        => {:valid? false, :anomaly :G-single-realtime, :cycle [[1 :rw 1 1] [0 :rt]]} \
        or {:valid? false, :anomaly :G-single-realtime, :cycle [[0 :rt] [1 :rw 1 1]]}
        0 :invoke :txn [[:append :x 7]]; 0 :fail :txn [[:append :x 7]]; 0 :invoke :txn [[:r :x nil]]; 0 :ok :txn [[:r :x [7]]] \
        => {:valid? false, :anomaly :G1a, :place 1, :op 0}";
    judge_all(rt.alloc(), by(Checker::ListAppend), rows)
}

/// Where real time is not asked for, the read may come first.
#[test]
fn a_serial_order_need_not_keep_real_time(rt: HostRuntime) -> Result<(), Fail> {
    let rows = "
        0 :invoke :txn [[:append 1 1]]; 0 :ok :txn [[:append 1 1]]; 0 :invoke :txn [[:r 1 nil]]; 0 :ok :txn [[:r 1 nil]] \
        => {:valid? true, :order [1 0]}";
    judge_all(rt.alloc(), under(ConsistencyModel::Serializable), rows)
}

/// Each of two reads what the other one appends, without it: no serial order has this.
#[test]
fn serial_orders_have_no_write_skew(rt: HostRuntime) -> Result<(), Fail> {
    let rows = "
        0 :invoke :txn [[:r :x nil] [:append :y 1]]; 1 :invoke :txn [[:r :y nil] [:append :x 2]]; \
        0 :ok :txn [[:r :x nil] [:append :y 1]]; 1 :ok :txn [[:r :y nil] [:append :x 2]] \
        => {:valid? false, :anomaly :G2-item, :cycle [[0 :rw :x 2] [1 :rw :y 1]]} \
        or {:valid? false, :anomaly :G2-item, :cycle [[1 :rw :y 1] [0 :rw :x 2]]}";
    judge_all(rt.alloc(), by(Checker::ListAppend), rows)
}

/// Behind a no stand the operations that it names.
#[test]
fn a_no_is_explained_by_its_operations(rt: HostRuntime) -> Result<(), Fail> {
    let rows = "
        0 :invoke :txn [[:append :x 7]]; 0 :fail :txn [[:append :x 7]]; 0 :invoke :txn [[:r :x nil]]; 0 :ok :txn [[:r :x [7]]] \
        => {:valid? false, :anomaly :G1a, :place 1, :op 0, :operations [{:type :ok, :process 0, :f :txn, :value [[:r :x [7]]]}]}
        0 :invoke :txn [[:append 1 1]]; 0 :ok :txn [[:append 1 1]] => {:valid? true, :order [0]}";
    judge_all(rt.alloc(), explained(Checker::ListAppend), rows)
}

/// Pairs come first, then the least place.
#[test]
fn histories_of_transactions_are_refused(rt: HostRuntime) -> Result<(), Fail> {
    let rows = "
        0 :invoke :txn [[:append 1 1]]; 0 :ok :txn [[:append 1 1]]; 1 :invoke :txn [[:append 1 1]] => operation 2: repeated append
        0 :invoke :txn [[:append 1 1] [:append 1 1]] => operation 0: repeated append
        0 :invoke :txn [[:w 1 1]] => operation 0: bad value
        0 :invoke :txn [[:r 1 nil]]; 0 :ok :txn [[:r 2 []]] => operation 1: bad value
        0 :invoke :txn [[:append 1 1]]; 1 :invoke :txn [[:append 1 1]]; 2 :invoke :txn [[:w 1 1]] => operation 1: repeated append
        0 :invoke :txn [[:append 1 1]]; 1 :invoke :txn [[:w 1 1]]; 2 :invoke :txn [[:append 1 1]] => operation 1: bad value
        0 :invoke :txn [[:w 1 1]]; 1 :ok :txn [] => operation 1: no invocation";
    judge_all(rt.alloc(), by(Checker::ListAppend), rows)
}
