//! How many operations of a history its checker judges. `specs/Counts.antt` has the rule.

ghost use Rattle.std.specs.Prelude.{◌≡◌, count_by};
ghost use Rattle.jh_ops.specs.Operation.{operation, operations};
ghost use Rattle.jh_ops.specs.declared.operation.Kind.{Kind as KindData};
ghost use Rattle.jh_cli.specs.Counts as rule;
ghost use Rattle.jh_cli.specs.Enough.{is_judged as is_judged_of};

use crate::enough::is_judged;
use jh_checkers::Checker;
use jh_ops::{Kind, Op};

/// How many operations of clients a history has, by their invocations.
#[derive(Clone, Copy, Debug, PartialEq, Eq)]
pub struct HistoryCounts {
    /// Those of the functions that the checker judges.
    pub judged: usize,
    /// Those of other functions.
    pub others: usize,
}

/// Who is told what a history holds before it is judged.
pub trait HistoryObserver {
    /// A history with so many operations is judged next.
    fn see_history(&mut self, counts: HistoryCounts);
}

/// Whether a record is a client's invocation of a function that the checker does not judge.
fn is_other_invocation(checker: Checker, op: &Op) -> bool
    ensures { result ≡ rule.is_other_invocation checker (operation op.now) }
{
    op.process.is_client() && Kind::Invoke.is(op.kind) && !is_judged(checker, Kind::Invoke, op)
}

/// How many operations of a history the checker judges.
fn count_judged(checker: Checker, history: &[Op]) -> usize
    ensures { result ≡ count_by (is_judged_of checker KindData.Invoke) (operations history.now) }
{
    let mut count = 0;
    for op in history {
        if is_judged(checker, Kind::Invoke, op) {
            count += 1;
        }
    }
    count
}

/// How many operations of a history are of functions that the checker does not judge.
fn count_others(checker: Checker, history: &[Op]) -> usize
    ensures { result ≡ count_by (rule.is_other_invocation checker) (operations history.now) }
{
    let mut count = 0;
    for op in history {
        if is_other_invocation(checker, op) {
            count += 1;
        }
    }
    count
}

/// How many operations of a history the checker judges, and how many are of other functions.
pub fn history_counts(checker: Checker, history: &[Op]) -> HistoryCounts
    ensures { result ≡ rule.history_counts checker (operations history.now) }
{
    HistoryCounts {
        judged: count_judged(checker, history),
        others: count_others(checker, history),
    }
}
