//! Which generators suit which runs: the rules of docs/generators.md. An answer tells of a register, a counter, a set,
//! ids and transactions.

use crate::generators::rows::first_wrong;
use std::test::Fail;

/// Each call is of the workload, those of parts too.
#[test]
fn calls_are_of_the_workload(rt: HostRuntime) -> Result<(), Fail> {
    let rows = "
        suits 1 [:nil] => [true, true, true, true, true]
        suits 1 [:once :read] => [true, true, true, false, false]
        suits 1 [:forever [:write -1]] => [true, false, false, false, false]
        suits 1 [:once [:cas 1 2]] => [true, false, false, false, false]
        suits 1 [:once [:add 0]] => [false, true, true, false, false]
        suits 1 [:once [:add -1]] => [false, false, true, false, false]
        suits 1 [:rising 0] => [false, true, true, false, false]
        suits 1 [:rising -1] => [false, false, true, false, false]
        suits 1 [:rising-write -1] => [true, false, false, false, false]
        suits 1 [:forever :generate] => [false, false, false, true, false]
        suits 1 [:mix [:once :txn] [:nil]] => [false, false, false, false, true]
        suits 1 [:mix [:once :txn] [:once :read]] => [false, false, false, false, false]
        suits 1 [:once [:step 0]] => [false, false, false, false, false]
        suits 1 [:nemesis [:nil]] => [false, false, false, false, false]
        suits 1 [:seq] => [true, true, true, true, true]
        suits 1 [:seq [:once :read] [:forever [:add -3]]] => [false, false, true, false, false]
        suits 1 [:mix [:once [:add 1]] [:once [:write 1]]] => [false, false, false, false, false]
        suits 1 [:phases [:nil] [:rising -9223372036854775808]] => [false, false, true, false, false]
        suits 1 [:limit 0 [:forever :read]] => [true, true, true, false, false]
        suits 1 [:limit 0 [:once [:step 0]]] => [false, false, false, false, false]
        suits 1 [:each-thread [:once [:cas 0 0]]] => [true, false, false, false, false]
        suits 1 [:clients [:nemesis [:nil]]] => [false, false, false, false, false]
        suits 1 [:reserve 1 [:once [:add 1]] [:once :read]] => [false, true, true, false, false]
        suits 1 [:reserve 0 [:once :generate] [:seq [:nemesis [:nil]]]] => [false, false, false, false, false]";
    assert_eq!(rt; first_wrong(rt.alloc(), rows)?, None);
    Ok(())
}

#[test]
fn reserves_want_enough_clients(rt: HostRuntime) -> Result<(), Fail> {
    let rows = "
        suits 0 [:reserve [:once :read]] => [true, true, true, false, false]
        suits 1 [:reserve 2 [:once :read] [:once :read]] => [false, false, false, false, false]
        suits 1 [:reserve 2 [:once :txn] [:once :txn]] => [false, false, false, false, false]
        suits 2 [:reserve 2 [:once :read] [:once :read]] => [true, true, true, false, false]
        suits 1 [:reserve 1 [:nil] 1 [:nil] [:once :read]] => [false, false, false, false, false]
        suits 2 [:reserve 1 [:nil] [:seq [:reserve 3 [:nil] [:once :read]]]] => [false, false, false, false, false]
        suits 3 [:limit 1 [:reserve 1 [:reserve 3 [:nil] [:nil]] [:once :read]]] => [true, true, true, false, false]
        suits 4294967295 [:reserve 4294967295 [:nil] [:once :read]] => [true, true, true, false, false]
        suits 4294967295 [:reserve 1 [:nil] 4294967295 [:nil] [:once :read]] => [false, false, false, false, false]";
    assert_eq!(rt; first_wrong(rt.alloc(), rows)?, None);
    Ok(())
}
