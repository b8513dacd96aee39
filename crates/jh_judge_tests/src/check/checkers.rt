//! Histories, and the line of each or why there is none; and the verdicts on nothing and on several.

use crate::check::rows::{Ask, ask_all};
use crate::spelled::ops_of;
use jh_check::{
    CheckError, CounterResult, IdsResult, SetResult, Verdict, check_counter, check_set,
    check_unique, end_of, final_read, in_normal_order, is_among, is_ok_read, merge, read_ends,
    same_values_are_equal,
};
use jh_edn::Value;
use jh_ops::{Pair, Workload, pair};
use std::alloc::Global;
use std::test::Fail;

#[test]
fn judges_sets(rt: HostRuntime) -> Result<(), Fail> {
    let rows = "
        => {:valid? :unknown, :error \"Set was never read\"}
        0 :invoke :add 1; 0 :ok :add 1; 0 :invoke :add 2; 0 :info :add 2; 1 :invoke :add 3; 1 :ok :add 3; \
        1 :invoke :read nil; 1 :ok :read (2 1) \
        => {:valid? false, :ok [1 2], :lost [3], :unexpected [], :recovered [2]}
        0 :invoke :add 1; 0 :ok :add 1; 0 :invoke :add 2; 0 :info :add 2; 1 :invoke :add 3; 1 :ok :add 3 \
        => {:valid? :unknown, :error \"Set was never read\"}
        0 :invoke :add (1); 0 :ok :add [1]; 1 :ok :read #{[1]} \
        => {:valid? true, :ok [[1]], :lost [], :unexpected [], :recovered []}
        0 :invoke :add {:a #{1 2}}; 0 :ok :add {:a #{2 1}}; 0 :invoke :add #{[1] {2 3 4 5}}; \
        0 :ok :add #{{4 5 2 3} (1)}; 1 :ok :read [#{{4 5, 2 3} [1]} {:a #{1 2}} #{(1) {2 3 4 5}}] \
        => {:valid? true, :ok [{:a #{1 2}} #{[1] {2 3, 4 5}}], :lost [], :unexpected [], :recovered []}
        1 :ok :read [:b 7 \"a\" 7 nil] \
        => {:valid? false, :ok [], :lost [], :unexpected [nil 7 \"a\" :b], :recovered []}
        1 :ok :read 5; 1 :ok :read []; 1 :fail :read [1]; :nemesis :ok :read [2] \
        => {:valid? true, :ok [], :lost [], :unexpected [], :recovered []}
        0 :invoke :read; 0 :ok :read nil => operation 1: bad value
        0 :ok :read #a [1] => operation 0: bad value
        0 :ok :read {1 2} => operation 0: bad value";
    ask_all(rt.alloc(), Ask::Checker(Workload::Set), rows)
}

#[test]
fn judges_counters(rt: HostRuntime) -> Result<(), Fail> {
    let rows = "
        => {:valid? true, :reads [], :errors []}
        0 :invoke :add 1; 0 :ok :add 1; 1 :invoke :read; 0 :invoke :add 5; 1 :ok :read 6 \
        => {:valid? true, :reads [[1 6 6]], :errors []}
        0 :invoke :add 1; 0 :ok :add 1; 1 :invoke :read; 0 :invoke :add 5; 1 :ok :read 7 \
        => {:valid? false, :reads [[1 7 6]], :errors [[1 7 6]]}
        0 :invoke :add 4; 1 :invoke :read; 2 :invoke :read; 2 :ok :read 4; 1 :ok :read 0; 0 :fail :add 4 \
        => {:valid? false, :reads [[0 4 0] [0 0 0]], :errors [[0 4 0]]}
        0 :invoke :add 9223372036854775807; 0 :info :add 1; 1 :invoke :add 9223372036854775807; \
        2 :invoke :read; 2 :ok :read -1 \
        => {:valid? false, :reads [[0 -1 18446744073709551614]], :errors [[0 -1 18446744073709551614]]}
        0 :invoke :add -1 => operation 0: negative add
        0 :invoke :add; 0 :fail :add 1 => operation 0: bad value
        0 :invoke :read; 1 :invoke :add -1; 0 :ok :read \"1\" => operation 1: negative add
        0 :invoke :read; 0 :ok :read nil => operation 1: bad value
        0 :invoke :add -1; 0 :invoke :read => operation 1: double invoke
        0 :ok :read 1 => operation 0: no invocation
        0 :invoke :read; 0 :info :read; 0 :invoke :read => operation 2: after crash
        :nemesis :info :add -1 => {:valid? true, :reads [], :errors []}";
    ask_all(rt.alloc(), Ask::Checker(Workload::Counter), rows)
}

#[test]
fn judges_ids(rt: HostRuntime) -> Result<(), Fail> {
    let rows = "
        => {:valid? true, :attempted 0, :acknowledged 0, :duplicated []}
        0 :invoke :generate; 0 :ok :generate 7; 0 :invoke :generate; 0 :ok :generate 7; \
        0 :invoke :generate; 0 :info :generate \
        => {:valid? false, :attempted 3, :acknowledged 2, :duplicated [[7 2]]}
        0 :ok :generate (1); 0 :ok :generate :b; 0 :ok :generate [1]; 0 :ok :generate 2; 0 :ok :generate :b; \
        0 :ok :generate :b => {:valid? false, :attempted 0, :acknowledged 6, :duplicated [[:b 3] [[1] 2]]}
        0 :ok :generate {:a 1 :b [2]}; 0 :ok :generate {:b (2) :a 1}; 0 :ok :generate #{1 #{2 3}}; \
        0 :ok :generate #{#{3 2} 1}; 0 :ok :generate nil; 0 :ok :generate nil \
        => {:valid? false, :attempted 0, :acknowledged 6, :duplicated [[nil 2] [{:a 1, :b [2]} 2] [#{1 #{2 3}} 2]]}
        0 :invoke :generate; :nemesis :ok :generate 1; 0 :ok :generate 1; 0 :fail :generate 1; \
        0 :ok generate 1 => {:valid? true, :attempted 1, :acknowledged 1, :duplicated []}";
    ask_all(rt.alloc(), Ask::Checker(Workload::Ids), rows)
}

#[test]
fn merges_verdicts(rt: HostRuntime) {
    let (yes, no, unknown) = (Verdict::True, Verdict::False, Verdict::Unknown);
    assert_eq!(rt; merge(&[]), yes);
    assert_eq!(rt; merge(&[yes, yes]), yes);
    assert_eq!(rt; merge(&[yes, unknown]), unknown);
    assert_eq!(rt; merge(&[unknown, no, yes]), no);
    assert_eq!(rt; merge(&[no]), no);
    same_values_are_equal();
}

/// The verdicts of the three checkers on the empty history.
fn verdicts_on_nothing(alloc: Global) -> Result<[Verdict; 3], CheckError> {
    let set: SetResult = check_set(alloc, &[])?;
    let counter: CounterResult = check_counter(alloc, &[])?;
    let ids: IdsResult = check_unique(alloc, &[])?;
    Ok([set.verdict, counter.verdict, ids.verdict])
}

#[test]
fn judges_nothing(rt: HostRuntime) -> Result<(), Fail> {
    let found = match verdicts_on_nothing(rt.alloc()) {
        Ok(found) => found,
        Err(_) => verdicts_on_nothing(rt.alloc())?,
    };
    assert_eq!(rt; found, [Verdict::Unknown, Verdict::True, Verdict::True]);
    Ok(())
}

/// Whether a call is a read that happened, and where it ends. None: memory was refused.
fn read_and_end(alloc: Global, history: &str, call: Pair) -> Option<(bool, usize)> {
    let ops = ops_of(alloc, history)?;
    Some((is_ok_read(&ops, call), end_of(call)))
}

#[test]
fn knows_reads_that_happened(rt: HostRuntime) {
    let history = "1 :invoke :read; 1 :ok :read 6; 2 :invoke :add 1; 2 :ok :add 1; 3 :invoke :read";
    for (invoke, outcome, expected) in [
        (0, Some(1), (true, 1)),
        (2, Some(3), (false, 3)),
        (4, None, (false, 4)),
    ] {
        let found = read_and_end(rt.alloc(), history, Pair { invoke, outcome });
        assert!(rt; found.is_none_or(|found| found == expected));
    }
}

/// The place of the last read of a set that happened. None: memory was refused.
fn final_place(alloc: Global, history: &str) -> Option<Option<usize>> {
    Some(final_read(&ops_of(alloc, history)?).map(|read| read.0))
}

#[test]
fn knows_the_final_read(rt: HostRuntime) {
    for (history, expected) in [
        (
            "1 :ok :read 5; 1 :ok :read []; 1 :fail :read [1]; :nemesis :ok :read [2]",
            Some(1),
        ),
        ("1 :invoke :read; 1 :info :read", None),
    ] {
        let found = final_place(rt.alloc(), history);
        assert!(rt; found.is_none_or(|found| found == expected));
    }
}

/// Whether the reads of a history that happened end at these places. None: memory was refused.
fn ends_at(alloc: Global, history: &str, places: &[usize]) -> Option<bool> {
    let ops = ops_of(alloc, history)?;
    let calls = pair(alloc, &ops).ok()?;
    Some(read_ends(alloc, &ops, &calls).ok()?.as_slice() == places)
}

#[test]
fn knows_where_reads_end(rt: HostRuntime) {
    let history = "1 :invoke :read; 2 :invoke :read; 2 :ok :read 4; 3 :invoke :read; 1 :ok :read 0";
    assert!(rt; ends_at(rt.alloc(), history, &[2, 4]) != Some(false));
}

/// Whether integers that are put in order have 2 among them, and not 4. None: memory was refused.
fn are_found_in_order(alloc: Global) -> Option<bool> {
    let values = vec![in alloc; Value::Int(3), Value::Int(1), Value::Int(2)].ok()?;
    let sorted = in_normal_order(values).ok()?;
    Some(is_among(&sorted, &Value::Int(2)) && !is_among(&sorted, &Value::Int(4)))
}

#[test]
fn finds_values_in_order(rt: HostRuntime) {
    assert!(rt; are_found_in_order(rt.alloc()) != Some(false));
}
