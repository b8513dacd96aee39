//! The names of checkers, and one history by each of them.

use crate::checkers::rows::{by, judge_all};
use jh_checkers::{Checker, findings_agree};
use jh_ops::Workload;
use std::test::Fail;

/// The checker of a name, as a text.
fn name_of(name: &str) -> &'static str {
    match Checker::named(name) {
        Some(Checker::Register) => "register",
        Some(Checker::Set) => "set",
        Some(Checker::Counter) => "counter",
        Some(Checker::Ids) => "unique-ids",
        Some(Checker::ListAppend) => "list-append",
        Some(Checker::TotalQueue) => "total-queue",
        Some(Checker::Queue) => "queue",
        Some(Checker::Bank) => "bank",
        Some(Checker::SetFull) => "set-full",
        Some(Checker::Mutex) => "mutex",
        Some(Checker::FifoQueue) => "fifo-queue",
        None => "none",
    }
}

#[test]
fn names_mean_checkers(rt: HostRuntime) {
    for name in "register set counter unique-ids list-append total-queue queue bank set-full mutex fifo-queue".split(
        ' ',
    ) {
        assert_eq!(rt; name_of(name), name);
    }
    for name in "Register sets unique_ids list_append queues fifo_queue".split(' ') {
        assert_eq!(rt; name_of(name), "none", "{name}");
    }
}

#[test]
fn workloads_have_checkers(rt: HostRuntime) {
    for name in "register set counter unique-ids".split(' ') {
        assert!(rt;
            Workload::named(name).map(Checker::of) == Checker::named(name),
            "{name}"
        );
        assert!(rt;
            Workload::named(name).is_some_and(|w| w.name() == name),
            "{name}"
        );
    }
}

#[test]
fn each_checker_judges(rt: HostRuntime) -> Result<(), Fail> {
    let rows = "
        0 :invoke :add 1; 0 :ok :add 1; 0 :ok :read [1] => {:valid? true, :ok [1], :lost [], :unexpected [], :recovered []}
        0 :ok :read 1 => operation 0: bad value";
    judge_all(rt.alloc(), by(Checker::Set), rows)?;
    let rows = "
        0 :invoke :write 1; 0 :ok :write 1 => {:valid? true, :order [0]}
        0 :invoke :write x => operation 0: bad value
        => {:valid? true, :order []}";
    findings_agree();
    judge_all(rt.alloc(), by(Checker::Register), rows)
}
