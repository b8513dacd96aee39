//! Where keys of a register that are not valid are stuck. What is expected follows from the definitions.

use crate::checkers::rows::by;
use crate::independent::rows::ask_all;
use jh_checkers::{Checker, Judging};
use std::test::Fail;

/// By a checker, where a register holds 0 at first, and its no is explained.
fn explained(checker: Checker) -> Judging<'static> {
    Judging {
        initial: Some(0),
        explain: true,
        ..by(checker)
    }
}

/// Numbers count the pairs of a key, and the value has no key.
#[test]
fn keys_say_where_they_are_stuck(rt: HostRuntime) -> Result<(), Fail> {
    let rows = "
        0 :invoke :write [2 5]; 1 :invoke :read [1 nil]; 0 :ok :write [2 5]; 1 :ok :read [1 9]; 0 :invoke :read [2 nil]; \
        0 :ok :read [2 5] \
        => {:valid? false, :keys [[1 {:valid? false, :stuck {:type :ok, :process 1, :f :read, :value 9}, :order [], :value 0, \
        :pending [0], :because :no-origin, :named [0]}] [2 {:valid? true, :order [0 1]}]]}";
    ask_all(&rt, rt.alloc(), explained(Checker::Register), rows)
}

/// They say themselves what is wrong.
#[test]
fn other_checkers_explain_nothing(rt: HostRuntime) -> Result<(), Fail> {
    let rows = "
        0 :ok :generate [1 8]; 0 :ok :generate [1 8] \
        => {:valid? false, :keys [[1 {:valid? false, :attempted 0, :acknowledged 2, :duplicated [[8 2]]}]]}";
    ask_all(&rt, rt.alloc(), explained(Checker::Ids), rows)
}
