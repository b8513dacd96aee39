//! Where registers that are not valid are stuck, and what is pending there. What is expected follows from the definitions, and each
//! history has only one order up to where it is stuck.

use crate::checkers::rows::{by, explained, judge_all};
use jh_checkers::{Checker, Judging};
use std::test::Fail;

/// Where each value is written once, the line says why. A write that fails, before or later, is not pending at the read that saw its value, nor is one that comes later. A compare and
/// set that crashed is pending for ever.
#[test]
fn registers_say_where_they_are_stuck(rt: HostRuntime) -> Result<(), Fail> {
    let rows = "
        0 :invoke :write 5; 1 :invoke :read; 1 :ok :read 5; 0 :fail :write 5 \
        => {:valid? false, :stuck {:type :ok, :process 1, :f :read, :value 5}, :order [], :value 0, :pending [1], :because :no-origin, :named [1]}
        0 :invoke :write 1; 0 :ok :write 1; 1 :invoke :read; 1 :ok :read 0 \
        => {:valid? false, :stuck {:type :ok, :process 1, :f :read, :value 0}, :order [0], :value 1, :pending [1], \
        :because :out-of-order, :named [1 0]}
        0 :invoke :write 1; 0 :ok :write 1; 0 :invoke :cas [1 2]; 1 :invoke :cas [1 3]; 1 :ok :cas [1 3]; 0 :ok :cas [1 2] \
        => {:valid? false, :stuck {:type :ok, :process 0, :f :cas, :value [1 2]}, :order [0 2], :value 3, :pending [1], \
        :because :replaced-twice, :named [1 2]} or {:valid? false, :stuck {:type :ok, :process 0, :f :cas, :value [1 2]}, :order [0 2], \
        :value 3, :pending [1], :because :replaced-twice, :named [2 1]}
        0 :invoke :write 1; 0 :ok :write 1; 0 :invoke :write 1; 0 :ok :write 1; 1 :invoke :read; 1 :ok :read 0 \
        => {:valid? false, :stuck {:type :ok, :process 1, :f :read, :value 0}, :order [0 1], :value 1, :pending [2]}
        0 :invoke :cas [7 8]; 0 :info :cas [7 8]; 1 :invoke :read; 1 :ok :read 4 \
        => {:valid? false, :stuck {:type :ok, :process 1, :f :read, :value 4}, :order [], :value 0, :pending [0 1], :because :no-origin, :named [1]}
        0 :invoke :cas [7 8]; 1 :invoke :cas [8 9]; 1 :fail :cas [8 9]; 2 :invoke :read; 2 :ok :read 1; 3 :invoke :read; \
        3 :ok :read 0; 0 :fail :cas [7 8] \
        => {:valid? false, :stuck {:type :ok, :process 2, :f :read, :value 1}, :order [], :value 0, :pending [2], :because :no-origin, :named [2]}
        0 :invoke :write 3; 0 :ok :write 3; :nemesis :info :start 4; 1 :invoke :cas (4 5); 1 :ok :cas (4 5) \
        => {:valid? false, :stuck {:type :ok, :process 1, :f :cas, :value (4 5)}, :order [0], :value 3, :pending [1], \
        :because :no-origin, :named [1]}
        0 :invoke :read; 0 :ok :read 0 => {:valid? true, :order [0]}
        0 :ok :read 0 => operation 0: no invocation";
    judge_all(rt.alloc(), explained(Checker::Register), rows)
}

#[test]
fn a_register_that_is_stuck_may_hold_nil(rt: HostRuntime) -> Result<(), Fail> {
    let judging = Judging {
        explain: true,
        ..by(Checker::Register)
    };
    let rows = "
        0 :invoke :read; 0 :ok :read 1 \
        => {:valid? false, :stuck {:type :ok, :process 0, :f :read, :value 1}, :order [], :value nil, :pending [0], :because :no-origin, :named [0]}";
    judge_all(rt.alloc(), judging, rows)
}

/// They say themselves what is wrong.
#[test]
fn other_checkers_explain_nothing(rt: HostRuntime) -> Result<(), Fail> {
    let rows = "
        0 :ok :add 5; 1 :ok :read [3] => {:valid? false, :ok [], :lost [5], :unexpected [3], :recovered []}";
    judge_all(rt.alloc(), explained(Checker::Set), rows)?;
    let rows = "
        1 :invoke :read; 1 :ok :read 2 => {:valid? false, :reads [[0 2 0]], :errors [[0 2 0]]}";
    judge_all(rt.alloc(), explained(Checker::Counter), rows)?;
    let rows = "
        0 :ok :generate 8; 0 :ok :generate 8 => {:valid? false, :attempted 0, :acknowledged 2, :duplicated [[8 2]]}";
    judge_all(rt.alloc(), explained(Checker::Ids), rows)
}
