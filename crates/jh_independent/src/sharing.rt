//! What threads may share and send: the operations of a history, its keys, and what is found of
//! each.
//!
//! Each type is shown after those that it is made of, since the prover looks no deeper than it
//! must.

ghost use Rattle.std.specs.Thread.{IsSend, IsSync};
ghost use Rattle.jh_bank.specs.contracts.judge.BankResult as bank_result;
ghost use Rattle.jh_check.specs.contracts.counter.CounterResult as counter;
ghost use Rattle.jh_check.specs.contracts.ids.IdsResult as ids;
ghost use Rattle.jh_check.specs.contracts.set.SetFound as found;
ghost use Rattle.jh_check.specs.contracts.set.SetResult as set;
ghost use Rattle.jh_check.specs.contracts.tally.Tally as tally;
ghost use Rattle.jh_edn.specs.contracts.text.Text as text;
ghost use Rattle.jh_edn.specs.contracts.value.Pairs as pairs;
ghost use Rattle.jh_edn.specs.contracts.value.Value as value;
ghost use Rattle.jh_edn.specs.contracts.value.Values as values;
ghost use Rattle.jh_checkers.specs.contracts.explanation.Explanation as explanation;
ghost use Rattle.jh_fifo_check.specs.contracts.finding.FifoFinding as fifo;
ghost use Rattle.jh_independent.specs.contracts.split.KeyPlaces as places;
ghost use Rattle.jh_checkers.specs.contracts.finding.Finding as finding;
ghost use Rattle.jh_linear.specs.contracts.verdict.LinVerdict as verdict;
ghost use Rattle.jh_txn_findings.specs.contracts.finding.FoundStep as step;
ghost use Rattle.jh_txn_findings.specs.contracts.finding.FoundWhy as why;
ghost use Rattle.jh_txn_findings.specs.contracts.finding.TxnFinding as transactions;
ghost use Rattle.jh_ops.specs.contracts.operation.Op as op;
ghost use Rattle.jh_queue.specs.contracts.queue.QueueResult as queue;
ghost use Rattle.jh_set_full.specs.contracts.set_full.SetFullResult as set_full;
ghost use Rattle.jh_set_full.specs.contracts.stale.Stales as stales;
ghost use Rattle.jh_total_queue.specs.contracts.total_queue.TotalQueueResult as total_queue;
ghost use Rattle.jh_unique.specs.contracts.verdict.UniqueReason as unique_reason;

use crate::split::KeyPlaces;
use jh_check::{CounterResult, IdsResult, SetFound, SetResult, Tally};
use jh_checkers::Explanation;
use jh_edn::{Pairs, Text, Value, Values};
use jh_fifo::FifoVerdict;
use jh_fifo_check::FifoFinding;
use jh_linear::LinVerdict;
use jh_ops::Op;
use jh_set_full::{SetFullResult, Stales};
use jh_total_queue::TotalQueueResult;
use jh_txn_findings::TxnFinding;
use jh_unique::UniqueReason;

/// Tells the prover that values of a type can be sent to threads.
fn can_be_sent<T: Send>()
    ensures { IsSend T.row }
{}

/// The same of values that threads can share.
fn can_be_shared<T: Sync>()
    ensures { IsSync T.row }
{}

/// Texts can be sent.
fn texts_can_be_sent()
    ensures { IsSend text.the_row }
{
    can_be_sent::<Text>()
}

/// Values can be sent.
fn values_can_be_sent()
    ensures { IsSend value.the_row }
{
    texts_can_be_sent();
    can_be_sent::<Value>()
}

/// Lists of values can be sent.
fn lists_can_be_sent()
    ensures { IsSend values.the_row }
{
    texts_can_be_sent();
    values_can_be_sent();
    can_be_sent::<Values>()
}

/// Lists of pairs can be sent.
fn pairs_can_be_sent()
    ensures { IsSend pairs.the_row }
{
    texts_can_be_sent();
    values_can_be_sent();
    can_be_sent::<Pairs>()
}

/// Operations can be sent.
fn operations_can_be_sent()
    ensures { IsSend op.the_row }
{
    values_can_be_sent();
    pairs_can_be_sent();
    can_be_sent::<Op>()
}

/// What is found of a set.
fn sets_can_be_sent()
    ensures found { IsSend found.the_row }
    ensures result { IsSend set.the_row }
{
    lists_can_be_sent();
    can_be_sent::<SetFound>();
    can_be_sent::<SetResult>()
}

/// Values with how often each is there.
fn tallies_can_be_sent()
    ensures { IsSend tally.the_row }
{
    values_can_be_sent();
    can_be_sent::<Tally>()
}

/// What is found of unique ids.
fn ids_can_be_sent()
    ensures { IsSend ids.the_row }
{
    tallies_can_be_sent();
    can_be_sent::<IdsResult>()
}

/// What is found of a counter.
fn counters_can_be_sent()
    ensures { IsSend counter.the_row }
{
    can_be_sent::<CounterResult>()
}

/// What the judge of a register answers.
fn verdicts_can_be_sent()
    ensures { IsSend verdict.the_row }
{
    can_be_sent::<LinVerdict>()
}

/// Why a register has no order.
fn reasons_of_registers_can_be_sent()
    ensures { IsSend unique_reason.the_row }
{
    can_be_sent::<UniqueReason>()
}

/// Explanations can be sent.
fn explanations_can_be_sent()
    ensures { IsSend explanation.the_row }
{
    operations_can_be_sent();
    reasons_of_registers_can_be_sent();
    can_be_sent::<Explanation>()
}

/// Why one transaction comes before another one.
fn reasons_can_be_sent()
    ensures { IsSend why.the_row }
{
    values_can_be_sent();
}

/// Steps of cycles can be sent.
fn steps_can_be_sent()
    ensures { IsSend step.the_row }
{
    reasons_can_be_sent();
}

/// What is found in transactions.
fn transactions_can_be_sent()
    ensures { IsSend transactions.the_row }
{
    operations_can_be_sent();
    steps_can_be_sent();
    can_be_sent::<TxnFinding>()
}

/// What is found of queues.
fn queues_can_be_sent()
    ensures total { IsSend total_queue.the_row }
    ensures queue { IsSend queue.the_row }
{
    tallies_can_be_sent();
    operations_can_be_sent();
    can_be_sent::<TotalQueueResult>()
}

/// What is found of a bank.
fn banks_can_be_sent()
    ensures { IsSend bank_result.the_row }
{
    operations_can_be_sent();
}

/// What is found of a set over time.
fn sets_over_time_can_be_sent()
    ensures { IsSend set_full.the_row }
{
    tallies_can_be_sent();
    lists_can_be_sent();
    can_be_sent::<Stales>();
    can_be_sent::<SetFullResult>()
}

/// What is found of a first-in-first-out queue.
fn orders_of_queues_can_be_sent()
    ensures { IsSend fifo.the_row }
{
    operations_can_be_sent();
    can_be_sent::<FifoVerdict>();
    can_be_sent::<FifoFinding>()
}

/// Findings can be sent.
pub(crate) fn findings_can_be_sent()
    ensures { IsSend finding.the_row }
{
    sets_can_be_sent();
    counters_can_be_sent();
    ids_can_be_sent();
    verdicts_can_be_sent();
    explanations_can_be_sent();
    transactions_can_be_sent();
    queues_can_be_sent();
    banks_can_be_sent();
    orders_of_queues_can_be_sent();
    sets_over_time_can_be_sent();
}

/// Texts can be shared.
fn texts_can_be_shared()
    ensures { IsSync text.the_row }
{
    can_be_shared::<Text>()
}

/// Values can be shared.
pub(crate) fn values_can_be_shared()
    ensures { IsSync value.the_row }
{
    texts_can_be_shared();
    can_be_shared::<Value>()
}

/// Lists of pairs can be shared.
fn pairs_can_be_shared()
    ensures { IsSync pairs.the_row }
{
    texts_can_be_shared();
    values_can_be_shared();
    can_be_shared::<Pairs>()
}

/// Operations can be shared.
pub(crate) fn operations_can_be_shared()
    ensures { IsSync op.the_row }
{
    values_can_be_shared();
    pairs_can_be_shared();
    can_be_shared::<Op>()
}

/// Keys with their places can be shared.
pub(crate) fn places_can_be_shared()
    ensures { IsSync places.the_row }
{
    values_can_be_shared();
    can_be_shared::<KeyPlaces>()
}
