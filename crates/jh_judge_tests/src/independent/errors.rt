//! Errors of one key or of several, reported at the place in the whole history.

use crate::checkers::rows::by;
use crate::independent::rows::ask_all;
use jh_checkers::Checker;
use std::test::Fail;

#[test]
fn errors_have_places_in_the_whole_history(rt: HostRuntime) -> Result<(), Fail> {
    let rows = "
        0 :invoke :add [1 5]; 0 :ok :add [1 5]; 1 :invoke :add [2 1]; 0 :invoke :read [1 nil]; \
        1 :invoke :add [2 1]; 0 :ok :read [1 5] => operation 4: double invoke
        0 :invoke :add [\"a\" 1]; 0 :ok :add [\"b\" 1] => operation 1: no invocation
        0 :invoke :add [1 1]; 0 :info :add [1 1]; 0 :invoke :add [2 1]; 0 :ok :add [2 1]; :nemesis :info :add 4; \
        0 :invoke :add [1 2] => operation 5: after crash
        :nemesis :info :cut nil; 0 :invoke :add [1 5]; 0 :invoke :add [2 -1] => operation 2: negative add
        0 :invoke :add [2 1]; 0 :invoke :read [1 nil]; 0 :ok :add [2 1]; 1 :invoke :read [2 nil]; \
        0 :ok :read [1 1]; 1 :ok :read [2 :a] => operation 5: bad value";
    ask_all(&rt, rt.alloc(), by(Checker::Counter), rows)
}

#[test]
fn the_first_key_decides(rt: HostRuntime) -> Result<(), Fail> {
    let rows = "
        0 :ok :add [2 1]; 0 :ok :add [1 1] => operation 1: no invocation
        0 :ok :add [[2] 1]; 0 :invoke :add [(1) 0]; 0 :ok :add [:c 1]; 0 :invoke :add [[1] 1]; 0 :ok :add [3 -1] \
        => operation 4: no invocation
        0 :ok :add [[2] 1]; 0 :invoke :add [(1) 0]; 0 :invoke :add [4 -1]; 0 :invoke :add [[1] 1] \
        => operation 2: negative add
        0 :ok :add [[2] 1]; 0 :invoke :add [(1) 0]; 0 :invoke :add [4 1]; 0 :invoke :add [[1] 1] \
        => operation 3: double invoke
        0 :ok :add [1 1]; 0 :ok :add [2 1]; 0 :ok :add 5 => operation 2: bad value
        0 :ok :add [1 1]; 0 :ok :add [3]; 0 :ok :add 5 => operation 1: bad value";
    ask_all(&rt, rt.alloc(), by(Checker::Counter), rows)
}

#[test]
fn registers_and_sets_have_errors_by_key(rt: HostRuntime) -> Result<(), Fail> {
    let rows = "
        0 :invoke :write [1 5]; 0 :ok :write [1 5]; 1 :invoke :write [2 :x]; 1 :ok :write [2 1] \
        => operation 2: bad value
        0 :invoke :read [2 nil]; 0 :invoke :read [1 nil]; 0 :ok :read [1 0]; 0 :ok :read [2 [0]] \
        => operation 3: bad value
        0 :invoke :cas [1 0]; 0 :ok :write [0 1] => operation 1: no invocation";
    ask_all(&rt, rt.alloc(), by(Checker::Register), rows)?;
    let rows = "
        1 :ok :read [1 []]; 0 :invoke :add [2 1]; 1 :ok :read [2 nil]; 1 :ok :read [1 []] => operation 2: bad value
        1 :ok :read [1 []]; 1 :ok :read [2 nil]; 1 :ok :read [2 [1]] \
        => {:valid? false, :keys [[1 {:valid? true, :ok [], :lost [], :unexpected [], :recovered []}] \
        [2 {:valid? false, :ok [], :lost [], :unexpected [1], :recovered []}]]}";
    ask_all(&rt, rt.alloc(), by(Checker::Set), rows)
}
