//! One history judged by a checker. `specs/Findings.antt` has the rule.

ghost use Rattle.std.specs.Prelude.{◌≡◌, MatchResult};
ghost use Rattle.jh_ops.specs.Operation.{operations};
ghost use Rattle.jh_checkers.specs.Findings as rule;
ghost use Rattle.jh_checkers.specs.Findings.{IsFinding, RefusesChecking};

use crate::bank::check_accounts;
use crate::checker::Checker;
use crate::explanation::Explanation;
use crate::register::{check_mutex, check_register, verdict_of_register};
use crate::transactions::check_transactions;
use jh_bank::BankResult;
use jh_check::{
    CheckError, CounterResult, IdsResult, SetResult, Verdict, check_counter, check_set,
    check_unique,
};
use jh_edn::Value;
use jh_fifo_check::{FifoFinding, check_fifo};
use jh_linear::LinVerdict;
use jh_ops::Op;
use jh_queue::{QueueResult, check_queue};
use jh_set_full::{SetFullResult, check_set_full};
use jh_total_queue::{TotalQueueResult, check_total_queue};
use jh_txn::ConsistencyModel;
use jh_txn_findings::TxnFinding;
use std::alloc::Global;

/// What a history is judged by: the checker, and what is said to some of them.
#[derive(Clone, Copy, Debug)]
pub struct Judging<'a> {
    pub checker: Checker,
    /// The value that a register has at first, and nil where it is missing.
    pub initial: Option<i64>,
    /// How many configurations the judge of a register or a mutex may reach.
    pub budget: u64,
    /// Whether it is explained why a register, a mutex or transactions are not valid, or why a
    /// first-in-first-out queue is not valid or unknown.
    pub explain: bool,
    /// The consistency model that transactions are judged by, and strict serializability where it is missing.
    pub model: Option<ConsistencyModel>,
    /// The accounts of a bank, and none where they are missing.
    pub accounts: Option<&'a [Value]>,
    /// The sum of the balances of all accounts of a bank, and 0 where it is missing.
    pub total: Option<i64>,
    /// Whether balances of a bank may be below 0.
    pub negative_balances: bool,
    /// Whether a set over time has to be linearizable: then stale reads make it not valid.
    pub linearizable: bool,
    /// Whether a mutex is held at first.
    pub locked: bool,
}

impl<'a> Judging<'a> {
    /// The judgement by this checker, within this budget, where nothing else is said to it.
    pub fn by(checker: Checker, budget: u64) -> Judging<'a>
        ensures { result ≡ rule.judging_by checker budget }
    {
        Judging {
            checker,
            initial: None,
            budget,
            explain: false,
            model: None,
            accounts: None,
            total: None,
            negative_balances: false,
            linearizable: false,
            locked: false,
        }
    }
}

/// What a checker finds in a history.
#[derive(Debug, Drop)]
pub enum Finding {
    Set(SetResult),
    Counter(CounterResult),
    Ids(IdsResult),
    Register {
        judged: LinVerdict,
        /// Of a register that is not valid, where it is asked for.
        explanation: Option<Explanation>,
    },
    ListAppend(TxnFinding),
    TotalQueue(TotalQueueResult),
    Queue(QueueResult),
    Bank(BankResult),
    SetFull(SetFullResult),
    Mutex {
        judged: LinVerdict,
        /// Of a mutex that is not valid, where it is asked for.
        explanation: Option<Explanation>,
    },
    FifoQueue(FifoFinding),
}

/// What the finding of a queue says of its history.
fn verdict_of_queue(found: &QueueResult) -> Verdict
    ensures { result ≡ rule.verdict_of_queue found.now }
{
    match found {
        QueueResult::Dequeued(_) => Verdict::True,
        QueueResult::First { .. } => Verdict::False,
    }
}

impl Finding {
    /// What the finding says of its history.
    pub fn verdict(&self) -> Verdict
        ensures { result ≡ rule.finding_verdict self.now }
    {
        match self {
            Finding::Set(found) => found.verdict,
            Finding::Counter(found) => found.verdict,
            Finding::Ids(found) => found.verdict,
            Finding::Register { judged, .. } => verdict_of_register(judged),
            Finding::ListAppend(found) => found.verdict(),
            Finding::TotalQueue(found) => found.verdict,
            Finding::Queue(found) => verdict_of_queue(found),
            Finding::Bank(found) => found.verdict,
            Finding::SetFull(found) => found.verdict,
            Finding::Mutex { judged, .. } => verdict_of_register(judged),
            Finding::FifoQueue(found) => found.verdict(),
        }
    }
}

/// Judges a history by a checker: `check_set`, `check_counter` and `check_unique` of `jh_check`,
/// `check_total_queue`, `check_queue`, `check_bank` and `check_set_full` of the crates of their names,
/// for a register or a mutex `check_register` of `jh_unique` over its operations, for transactions
/// `find_transactions` of `jh_txn_check`, or for a first-in-first-out queue `check_fifo` of
/// `jh_fifo_check`.
///
/// What is said to one checker means nothing to the others: the initial value to the register's alone,
/// whether it is held at first to that of a mutex, the budget to these two, the model to that of
/// transactions, whether a no is explained to these three, and a no or an unknown to that of a
/// first-in-first-out queue,
/// accounts, total and whether balances may be negative to a bank's, and whether it has to be linearizable
/// to that of a set over time. A no of a register or a mutex that is explained has the completion with
/// which no order is left, and what is pending there; one of transactions or of such a queue has the
/// operations that it names.
///
/// Errors: those of the checker. For a register and a mutex `Pair`, then `BadValue` at the least place
/// of one; for transactions `Pair`, then `BadValue` or `RepeatedAppend` at the least place of all, and
/// of one place `BadValue` first; for a first-in-first-out queue `Pair`, then `BadValue` at the first
/// call that it does not have; `OutOfMemory` may come before any of them.
///
/// Costs what the checker costs; the explanation of a register or a mutex takes time in the order of
/// n log n for n operations beside it, and copies one of them, and those of transactions and of a
/// first-in-first-out queue copy the operations that they show.
pub fn check_history(
    alloc: Global,
    history: &[Op],
    judging: Judging<'_>,
) -> Result<Finding, CheckError>
    ensures { MatchResult result
        (IsFinding judging.entry (operations history.now))
        (RefusesChecking judging.entry.checker (operations history.now)) }
{
    match judging.checker {
        Checker::Set => Ok(Finding::Set(check_set(alloc, history)?)),
        Checker::Counter => Ok(Finding::Counter(check_counter(alloc, history)?)),
        Checker::Ids => Ok(Finding::Ids(check_unique(alloc, history)?)),
        Checker::Register => check_register(alloc, history, judging),
        Checker::ListAppend => check_transactions(alloc, history, judging),
        Checker::TotalQueue => Ok(Finding::TotalQueue(check_total_queue(alloc, history)?)),
        Checker::Queue => Ok(Finding::Queue(check_queue(alloc, history)?)),
        Checker::Bank => Ok(Finding::Bank(check_accounts(alloc, history, judging)?)),
        Checker::SetFull => {
            let found = check_set_full(alloc, history, judging.linearizable)?;
            Ok(Finding::SetFull(found))
        }
        Checker::Mutex => check_mutex(alloc, history, judging),
        Checker::FifoQueue => {
            Ok(Finding::FifoQueue(check_fifo(alloc, history, judging.explain)?))
        }
    }
}
