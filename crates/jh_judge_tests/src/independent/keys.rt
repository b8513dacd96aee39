//! Which keys a history has: those that are equal are one, in normal form and in normal order.

use crate::checkers::rows::by;
use crate::independent::rows::ask_all;
use jh_checkers::{Checker, Judging};
use std::test::Fail;

#[test]
fn equal_keys_are_one(rt: HostRuntime) -> Result<(), Fail> {
    let rows = "
        0 :invoke :generate [(1) nil]; 1 :invoke :generate ([1] nil); 0 :ok :generate ((1) 7); \
        1 :ok :generate [[1] 7] \
        => {:valid? false, :keys [[[1] {:valid? false, :attempted 2, :acknowledged 2, :duplicated [[7 2]]}]]}
        0 :ok :generate [{(3) 4 1 2} 8]; 0 :ok :generate [{1 2 [3] 4} 8]; 0 :ok :generate [{1 2 [3] 5} 8] \
        => {:valid? false, :keys [\
        [{1 2, [3] 4} {:valid? false, :attempted 0, :acknowledged 2, :duplicated [[8 2]]}] \
        [{1 2, [3] 5} {:valid? true, :attempted 0, :acknowledged 1, :duplicated []}]]}
        0 :ok :generate [#{2 1} 8]; 0 :ok :generate [#{1 2} 8]; 0 :ok :generate [[1 2] 8] \
        => {:valid? false, :keys [[[1 2] {:valid? true, :attempted 0, :acknowledged 1, :duplicated []}] \
        [#{1 2} {:valid? false, :attempted 0, :acknowledged 2, :duplicated [[8 2]]}]]}
        0 :ok :generate [#k {:a (#{(2) 1})} 8]; 0 :ok :generate [#k {:a [#{1 [2]}]} 8] \
        => {:valid? false, :keys [\
        [#k {:a [#{1 [2]}]} {:valid? false, :attempted 0, :acknowledged 2, :duplicated [[8 2]]}]]}
        0 :ok :generate [1N 8]; 0 :ok :generate [1 8]; 0 :ok :generate [\"1\" 8]; 0 :ok :generate [\\1 8] \
        => {:valid? false, :keys [[1 {:valid? false, :attempted 0, :acknowledged 2, :duplicated [[8 2]]}] \
        [\\1 {:valid? true, :attempted 0, :acknowledged 1, :duplicated []}] \
        [\"1\" {:valid? true, :attempted 0, :acknowledged 1, :duplicated []}]]}";
    ask_all(&rt, rt.alloc(), by(Checker::Ids), rows)
}

/// A register that is judged within no budget has the shortest line.
#[test]
fn keys_stand_in_normal_order(rt: HostRuntime) -> Result<(), Fail> {
    let judging = Judging {
        budget: 0,
        ..by(Checker::Register)
    };
    let rows = "
        0 :invoke :read [#a 1 0]; 0 :invoke :read [#{} 0]; 0 :invoke :read [{} 0]; 0 :invoke :read [[1 2] 0]; \
        0 :invoke :read [(2) 0]; 0 :invoke :read [(1) 0]; 0 :invoke :read [b 0]; 0 :invoke :read [:b 0]; \
        0 :invoke :read [:a 0]; 0 :invoke :read [\"b\" 0]; 0 :invoke :read [\"ab\" 0]; 0 :invoke :read [\\c 0]; \
        0 :invoke :read [10 0]; 0 :invoke :read [9 0]; 0 :ok :read [10 0]; 0 :invoke :read [-1 0]; \
        0 :invoke :read [true 0]; 0 :invoke :read [false 0]; 0 :invoke :read [nil 0] \
        => {:valid? :unknown, :keys [[nil {:valid? :unknown}] [false {:valid? :unknown}] \
        [true {:valid? :unknown}] [-1 {:valid? :unknown}] [9 {:valid? :unknown}] [10 {:valid? :unknown}] \
        [\\c {:valid? :unknown}] [\"ab\" {:valid? :unknown}] [\"b\" {:valid? :unknown}] \
        [:a {:valid? :unknown}] [:b {:valid? :unknown}] [b {:valid? :unknown}] [[1] {:valid? :unknown}] \
        [[1 2] {:valid? :unknown}] [[2] {:valid? :unknown}] [{} {:valid? :unknown}] [#{} {:valid? :unknown}] \
        [#a 1 {:valid? :unknown}]]}";
    ask_all(&rt, rt.alloc(), judging, rows)
}

#[test]
fn only_tuples_have_keys(rt: HostRuntime) -> Result<(), Fail> {
    let rows = "
        0 :invoke :generate 1 => operation 0: bad value
        0 :invoke :generate => operation 0: bad value
        0 :invoke :generate nil => operation 0: bad value
        0 :invoke :generate [] => operation 0: bad value
        0 :invoke :generate [1] => operation 0: bad value
        0 :invoke :generate (1 2 3) => operation 0: bad value
        0 :invoke :generate {1 2} => operation 0: bad value
        0 :invoke :generate {1 2 3 4} => operation 0: bad value
        0 :invoke :generate #{1 2} => operation 0: bad value
        0 :invoke :generate #x [1 2] => operation 0: bad value
        0 :invoke :generate \"12\" => operation 0: bad value
        0 :invoke :generate [1 2]; 0 :fail :generate; 0 :info :other 3 => operation 1: bad value
        :nemesis :info :generate 5; :nemesis :invoke :kill; :nemesis :ok :generate [9 1] \
        => {:valid? true, :keys []}
        :nemesis :info :generate [2 1]; 0 :ok :generate (2 1); :nemesis :ok :generate [2 1]; \
        :nemesis :ok :generate [0 1]; 0 :ok :other [4 4] \
        => {:valid? true, :keys [[2 {:valid? true, :attempted 0, :acknowledged 1, :duplicated []}] \
        [4 {:valid? true, :attempted 0, :acknowledged 0, :duplicated []}]]}";
    ask_all(&rt, rt.alloc(), by(Checker::Ids), rows)
}
